// What the program writes, for every input. Assumes nothing.
ghost use Rattle.alpha.specs.Program.{printed, answered};
ghost use Rattle.text.specs.Wrote.{WroteFew, Room};
ghost use Rattle.program.specs.Printed.{Prints, Reports};

use super::input::{frame_of, values};
use super::output::report;
use alpha::Refusal;
use text::report::refusal;
use text::writer::Writer;

// The report of the run of the input's sheet on its values, or the refusal, with nothing written.
fn reported(input: &[u8], w: &mut Writer<'_>) -> Result<(), Refusal>
    requires { Room 208910 w.old }
    ensures { Reports input.now w.old w.new result }
{
    let frame = frame_of(input)?;
    let mut list = [0i32; 4097];
    let many = values(frame.values, &mut list);
    let mut codes = [0u8; 4096];
    let mut numbers = [0i32; 4096];
    let total = run::run(frame.sheet, &list[..many], &mut codes, &mut numbers)?;
    report(frame.sheet, total, &codes, &numbers, w);
    Ok(())
}

// The output to an input: the report, or the line of the refusal.
fn respond(input: &[u8], w: &mut Writer<'_>)
    requires { Room 208910 w.old }
    ensures { WroteFew 208910 w.old w.new (printed (answered input.now)) }
{
    if let Err(why) = reported(input, w) {
        refusal(why, w);
    }
}

// The output to an input, at the start of `out`, and how long it is. Where fewer than 208,910 bytes are lent nothing is written: no output
// is longer.
// A length and not the part of `out` itself is answered, since the promise speaks of what lies beyond it too.
pub fn answer(input: &[u8], out: &mut [u8]) -> usize
    ensures { Prints input.now out.old out.new result }
{
    if out.len() < 208910 {
        return 0;
    }
    let mut w = Writer::new(out);
    respond(input, &mut w);
    w.written()
}
