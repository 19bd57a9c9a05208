// Reads a sheet with its input values from standard input and writes the run's report, or the line of its refusal, to standard output:
// document 01, 'The program'. What is written for what was read is proved, for every reader and writer whose bytes are known
// (`answer_from`). Assumed is that standard input and output move the bytes that their calls say, which no contract can state: what an
// operating system gives and takes is known to nobody beforehand. A read or a write that fails ends the program with the error.
#![tactic(auto)]

ghost use Rattle.std.specs.Prelude.{◌≡◌, ◌≤◌, length, take, IfOk, OnOk, IfSome};
ghost use Rattle.std.specs.Io.KnownBytes.{Appends};
ghost use Rattle.alpha.specs.Program.{program};

use std::io;
use std::io::{Read, Write};

// Reads until `buf` is full or the input ends, and answers how many bytes were read.
fn read_full<R: Read>(input: &mut R, buf: &mut [u8]) -> io::Result<usize>
    ensures within { IfOk result (λ n. n ≤ length buf.new) }
    ensures first { IfOk result (λ n. IfSome (R.remaining input.old) (λ bs. take n buf.new ≡ take (length buf.old) bs)) }
{
    let mut at = 0;
    // A while: how many reads it takes is not known before.
    while at < buf.len() {
        let n = input.read(&mut buf[at..])?;
        if n == 0 {
            return Ok(at);
        }
        at += n;
    }
    Ok(at)
}

// Reads an input until it ends or 81,932 bytes are there, and writes the program's output to the whole of it: so many bytes are enough of
// any input (`program-stops` of crate program's proofs/Stopping.antt).
fn answer_from<R: Read, W: Write>(input: &mut R, output: &mut W) -> io::Result<()>
    ensures { OnOk result (IfSome (R.remaining input.old)
        (λ bs. Appends (W.contents output.old) (W.contents output.new) (program bs))) }
{
    let mut read = [0u8; 81932];
    let n = read_full(input, &mut read)?;
    let mut out = [0u8; 208910];
    let len = program::answer::answer(&read[..n], &mut out);
    output.write_all(&out[..len])
}

fn main(rt: HostRuntime) -> io::Result<()> {
    answer_from(&mut rt.stdin(), &mut rt.stdout())
}
