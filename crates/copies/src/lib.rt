// Tables of which a stretch is copied on: what stands in it, so many entries further on, and again after that, up to an end.
#![tactic(auto)]

ghost use Rattle.std.specs.Prelude.{◌≡◌, ◌+◌, ◌<◌, ◌≤◌, length};
ghost use Rattle.copies.specs.Copies.{Repeats, Same, Moved};

// A stretch of a table, from `from` on below `to`, and how many entries further on it is copied.
#[derive(Clone, Copy)]
pub struct Stretch {
    pub from: usize,
    pub to: usize,
    pub by: usize,
    pub ghost on: { 0 < by },
    pub ghost rising: { from ≤ to },
}

// Entry i + by becomes entry i, for each i of the stretch, in rising order.
pub fn entries<T: Copy>(table: &mut [T], stretch: Stretch)
    requires { stretch.to + stretch.by ≤ length table.old }
    ensures { Repeats Same stretch.from stretch.to stretch.by table.old table.new }
{
    copy_on(table, stretch, |entry| entry);
}

// The same in rows of sets, with the members moved on as far as the rows are.
pub fn rows(rows: &mut [u64; 61], stretch: Stretch)
    requires { stretch.to + stretch.by ≤ 61 }
    ensures { Repeats (Moved stretch.by) stretch.from stretch.to stretch.by rows.old rows.new }
{
    copy_on(rows, stretch, |row| bits::moved(row, stretch.by));
}

// Entry i + by becomes what `change` makes of entry i, for each i of the stretch, in rising order.
fn copy_on<T: Copy, F: Fn(T) -> T>(table: &mut [T], stretch: Stretch, change: F)
    requires { (stretch.to + stretch.by ≤ length table.old) × F.IsAlwaysCallable change }
    ensures { Repeats (F.post change) stretch.from stretch.to stretch.by table.old table.new }
{
    for i in stretch.from..stretch.to {
        table[i + stretch.by] = change(table[i]);
    }
}
