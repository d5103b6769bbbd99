// Tests of what no program shows of sets and code 127, which is no letter. Four functions stand beside those that the programs call, and
// take any sets; and the tables of reading keep sets of letters such, whatever is read.
#![tactic(auto)]

ghost use Rattle.std.specs.Prelude.{◌≡◌, true, [], ℕ};
ghost use Rattle.letters.specs.LetterSet.{has_letter, set_at};
ghost use Rattle.parsed.specs.Tables.{Stored};
ghost use Rattle.nodes.specs.Nodes.{Step};
ghost use Rattle.texts.specs.Texts.{Showable};

#[cfg(test)]
mod tests {
    use graph::Built;
    use letters::LetterSet;
    use nodes::Steps;
    use search::{Goal, Scratch};
    use set_table::Tables;

    // 127 alone.
    const DELETE: LetterSet = LetterSet {
        low: 0,
        middle: 0x0000_0000_8000_0000,
        high: 0,
    };

    // `e`, 127, and 200, a letter beyond ASCII.
    const SOME: LetterSet = LetterSet {
        low: 0,
        middle: 0x0000_0000_8000_0020,
        high: 0x0000_0000_0000_0100,
    };

    // 127, and 200.
    const HIGH: LetterSet = LetterSet {
        low: 0,
        middle: 0x0000_0000_8000_0000,
        high: 0x0000_0000_0000_0100,
    };

    // All letters, and 127.
    const ALL: LetterSet = LetterSet {
        low: u64::MAX,
        middle: u64::MAX,
        high: u64::MAX,
    };

    // Three positions with these sets: 127 alone at 1, some letters at 2, and all at 3.
    fn three_positions() -> Built {
        let mut letters = [LetterSet::empty(); 61];
        letters[1] = DELETE;
        letters[2] = SOME;
        letters[3] = ALL;
        Built {
            positions: 3,
            follow: [0; 61],
            doubled: false,
            lasts: 0,
            letters,
            credits: [9; 61],
        }
    }

    #[test]
    fn letters_of(rt: HostRuntime) {
        let mut sets = three_positions().letters;
        sets[60] = ALL;
        for (i, set) in letters::letters_of(&sets).iter().enumerate() {
            assert!(rt; !set.has(127), "entry {i}");
            assert_eq!(rt; set.has(b'e'), i == 2 || i == 3 || i == 60, "entry {i}");
            assert_eq!(rt; set.has(b'f'), i == 3 || i == 60, "entry {i}");
            assert_eq!(rt; set.has(200), i == 2 || i == 3 || i == 60, "entry {i}");
        }
    }

    #[test]
    fn first_in_order(rt: HostRuntime) {
        assert_eq!(rt; LetterSet::empty().first_in_order(), 0);
        assert_eq!(rt; DELETE.first_in_order(), 0);
        assert_eq!(rt; HIGH.first_in_order(), 200);
        assert_eq!(rt; SOME.first_in_order(), b'e');
        assert_eq!(rt; ALL.first_in_order(), b'a');
    }

    #[test]
    fn holders_of(rt: HostRuntime) {
        let holders = columns::holders_of(&three_positions());
        assert_eq!(rt; holders[127], 0b1110);
        assert_eq!(rt; holders[b'e' as usize], 0b1100);
        assert_eq!(rt; holders[b'f' as usize], 0b1000);
        assert_eq!(rt; holders[200], 0b1100);
        assert_eq!(rt; holders[128], 0);
    }

    #[test]
    fn share_rows(rt: HostRuntime) {
        let rows = shares::share_rows(&three_positions());
        assert_eq!(rt; rows[1], 0);
        assert_eq!(rt; rows[2], 0b1100);
        assert_eq!(rt; rows[3], 0b1100);
    }

    // Rows by which each state goes on to position 2 alone.
    fn to_two(sets: &[LetterSet; 61]) -> Steps
        requires { has_letter (set_at sets.now 2) 200 ≡ true }
        ensures { (x y : ℕ) → Step result x y → Showable sets.now y }
    {
        Steps {
            follow: [0b100; 61],
            doubles: [0; 61],
            shares: [0b100; 61],
        }
    }

    #[test]
    fn show(rt: HostRuntime) {
        let mut sets = three_positions().letters;
        sets[2] = HIGH;
        assert!(rt; sets[2].has(200));
        let steps = to_two(&sets);
        let mut numbers = [0u16; 4096];
        let mut scratch = Scratch {
            numbers: &mut numbers,
        };
        let mut evidence = [b'.'; 1892];
        let shown = texts::show(
            &steps,
            &sets,
            &mut scratch,
            &mut evidence,
            Goal::OnePath(0b100),
            0,
            1,
        );
        assert_eq!(rt; shown, Some(1));
        assert_eq!(rt; &evidence[..4], b".\xc8..".as_slice());
    }

    // Tables in which nothing is stored.
    fn nothing_stored() -> Tables
        ensures { Stored [] result.sets result.credits }
    {
        Tables {
            sets: set_table::empty(),
            credits: [9; 61],
        }
    }

    // Does an entry have 127, and does one have `c`.
    fn found(tables: &Tables) -> (bool, bool) {
        let mut found = (false, false);
        for set in tables.sets.iter() {
            found.0 |= set.has(127);
            found.1 |= set.has(b'c');
        }
        found
    }

    // A class of nearly all letters, a dot, a letter, the byte 127 (an atom without a letter), and two texts at which there is no atom; for
    // the position after n others, also where there is no room for it.
    #[test]
    fn letter(rt: HostRuntime) {
        for (text, is_atom, has_c) in [
            ("[^a]", true, true),
            (".", true, true),
            ("c", true, true),
            ("\u{7f}", true, false),
            ("[", false, false),
            ("", false, false),
        ] {
            for n in [0, 59, 60, 61] {
                let mut tables = nothing_stored();
                let read = parsed::letter(text.as_bytes(), n, &mut tables).is_some();
                assert_eq!(rt; read, is_atom, "{text} at {n}");
                assert_eq!(rt; found(&tables), (false, has_c && n < 60), "{text} at {n}");
            }
        }
    }

    // The letter `c`, with what repeats it: 2 copies or 60 of it, too many, bounds out of order, and an interval that does not end.
    #[test]
    fn repeat(rt: HostRuntime) {
        for (text, positions) in [
            ("*", 1),
            ("{2}", 2),
            ("{60}", 60),
            ("{61}", 61),
            ("{3,2}", 1),
            ("{3", 0),
        ] {
            let mut tables = nothing_stored();
            let mut rows = [0u64; 61];
            let mut more = [0u8; 3721];
            let (atom, _) = parsed::letter(b"c", 0, &mut tables).expect(&rt, "c is an atom");
            assert!(rt; 0 < atom.n && atom.n <= 60);
            let read = repeats::repeat(text.as_bytes(), 0, atom, &mut rows, &mut tables, &mut more);
            assert_eq!(rt; read.map_or(0, |(part, _)| part.n), positions, "{text}");
            assert_eq!(rt; found(&tables), (false, true), "{text}");
        }
    }

    // A pattern, one in which 61 positions are too many, and texts of which no pattern is read to its end.
    #[test]
    fn parse(rt: HostRuntime) {
        for (text, positions) in [("[^a]*c", 2), ("c.{60}", 61), ("(c", 0), ("[^", 0), ("", 0)] {
            let mut tables = nothing_stored();
            let mut more = [0u8; 3721];
            let read = parts::parse(text.as_bytes(), &mut tables, &mut more).read;
            assert_eq!(rt; read.map_or(0, |(part, _)| part.n), positions, "{text}");
            assert!(rt; !found(&tables).0, "{text}");
        }
    }
}
