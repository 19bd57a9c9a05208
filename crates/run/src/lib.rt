// The run of a sheet over an input list: the sheet's refusals, INPUT, ROOM, or both tables filled, each variable's stretch in its own
// place. Assumes nothing.
#![tactic(auto)]

ghost use Rattle.alpha.specs.Promise.{Runs};

use alpha::Refusal;
use domain::Ground;
use evaluate::Evaluator;
use fill::fill_all;
use inputs::inputs;
use sheet::table::Table;
use sheet::too_long;
use start::start;
use tree::ends::keep_all;

mod fill;
mod inputs;
mod start;

// The element total, with both tables filled from their start, or a refusal, with neither changed.
pub fn run(s: &[u8], ins: &[i32], codes: &mut [u8], values: &mut [i32]) -> Result<usize, Refusal>
    ensures { Runs s.now ins.now codes.old codes.new values.old values.new result }
{
    if too_long(s) {
        return Err(Refusal::Long);
    }
    let mut tab = Table::new();
    let count = accept::form(s, &mut tab)?;
    let mut inside = [false; 4096];
    let total = accept::admit(s, &tab, count, &mut inside)?;
    let ground = Ground {
        sheet: s,
        table: &tab,
        inside: &inside,
    };
    inputs(&ground, ins)?;
    if codes.len() < total || values.len() < total {
        return Err(Refusal::Room(total));
    }
    let mut ends = [0u16; 8192];
    keep_all(s, &tab, &mut ends);
    let mut memo = [0u64; 4096];
    start(&ground, ins, &mut memo);
    let mut evaluator = Evaluator {
        ground,
        ends: &ends,
        memo: &mut memo,
    };
    fill_all(&mut evaluator, codes, values);
    Ok(total)
}
