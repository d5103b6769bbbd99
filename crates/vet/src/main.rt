// The program: reads patterns, a line each, and writes what vetting each gives. It only reads, repeats and writes: what a line is,
// `lines` promises of every run from `Run::new` on until it is over.
#![tactic(auto)]

ghost use Rattle.std.specs.Prelude.{◌≡◌, length, take, IfSome, IfOk, OnOk, OnErr};
ghost use Rattle.std.specs.Io.{ReadsAtMost};
ghost use Rattle.std.specs.Io.KnownBytes.{Appends};
ghost use Rattle.lines.specs.Lines.{output_of};
ghost use Rattle.vet.specs.Written.{AppendsBeginning};

use lines::Run;
use std::io;
use std::io::{ErrorKind, Read, Write};

// Room for the longest input, and a byte more, which shows that it is too long.
fn input_room() -> [u8; 65537]
    ensures { 65537 ≡ length result }
{
    [0; 65537]
}

// Reads until `room` is full or the input ends, and gives how many bytes it put at the start of `room`: they are the input's first.
fn read_full<R: Read>(input: &mut R, room: &mut [u8]) -> io::Result<usize>
    ensures within { ReadsAtMost result room.new }
    ensures bytes { IfSome (R.remaining input.old) (λ xs. IfOk result (λ n. take n room.new ≡ take (length room.new) xs)) }
{
    let mut filled = 0;
    while filled < room.len() {
        let n = input.read(&mut room[filled..])?;
        if n == 0 {
            break;
        }
        filled += n;
    }
    Ok(filled)
}

// Writes all of `bytes`, in parts where the writer takes no more, and tries again what a signal interrupts. At an error a beginning of them
// was written; `Write::write_all` promises nothing then. (So many turns never come: their number lets the loop end.)
fn write_whole<W: Write>(bytes: &[u8], output: &mut W) -> io::Result<()>
    ensures all { OnOk result (Appends (W.contents output.old) (W.contents output.new) bytes.now) }
    ensures begun { OnErr result (AppendsBeginning (W.contents output.old) (W.contents output.new) bytes.now) }
{
    let mut written = 0;
    for _ in 0..u64::MAX {
        if written == bytes.len() {
            return Ok(());
        }
        match output.write(&bytes[written..]) {
            Ok(n) if n > 0 => written += n,
            Ok(_) => return Err(ErrorKind::WriteZero.into()),
            Err(e) if e.kind() == ErrorKind::Interrupted => {}
            Err(e) => return Err(e),
        }
    }
    Err(ErrorKind::TimedOut.into())
}

// Writes the output for an input, line by line; at an error a beginning of it was written.
fn write_lines<W: Write>(input: &[u8], output: &mut W) -> io::Result<()>
    ensures all { OnOk result (Appends (W.contents output.old) (W.contents output.new) (output_of input.now)) }
    ensures begun { OnErr result (AppendsBeginning (W.contents output.old) (W.contents output.new) (output_of input.now)) }
{
    let mut run = Run::new();
    let mut line = [0u8; 32];
    while let Some(len) = run.next_line(input, &mut line) {
        write_whole(&line[..len], output)?;
    }
    Ok(())
}

// Reads an input, and no more of it than shows that it is too long, and writes its output. At an error a beginning of the output for
// the whole input was written: no line stands for a pattern of which a part was not read.
fn vet_input<R: Read, W: Write>(input: &mut R, output: &mut W) -> io::Result<()>
    ensures all { OnOk result (IfSome (R.remaining input.old) (λ xs. Appends (W.contents output.old) (W.contents output.new) (output_of xs))) }
    ensures begun { OnErr result (IfSome (R.remaining input.old) (λ xs. AppendsBeginning (W.contents output.old) (W.contents output.new) (output_of xs))) }
{
    let mut room = input_room();
    let n = read_full(input, &mut room)?;
    write_lines(&room[..n], output)
}

fn main(rt: HostRuntime) -> io::Result<()> {
    vet_input(&mut rt.stdin(), &mut rt.stdout())
}
