// The memo before the run: an element outside its declared domain and an input's element are settled, all others unknown.
// Assumes nothing.
ghost use Rattle.std.specs.Prelude.{◌≡◌, true, false, ◌+◌, ◌<◌, length, get_or, pos};
ghost use Rattle.alpha.specs.Ask.{before};
ghost use Rattle.alpha.specs.Check.{total};
ghost use Rattle.laws.specs.Sheets.{sheet_of};
ghost use Rattle.evaluate.specs.Memo.{memo_of, stored};
ghost use Rattle.run.specs.Starting.{first_answer, Startable, Started, StartedBefore};

use super::inputs::inputs_before;
use alpha::{Kind, Outcome};
use domain::Ground;
use evaluate::Awaited;
use evaluate::memo::note;
use tree::variable::kind_of;

// Element e, whose entry in the input list stands at i where it is an input's. A flag and a place, and no Option of a place: the flag is the
// variable's, asked once, and the place counts on in any case.
fn start_element(
    inside: &[bool; 4096],
    ins: &[i32],
    input: bool,
    e: usize,
    i: usize,
    memo: &mut [u64; 4096],
)
    requires { (e < 4096) × (input ≡ true → i < length ins.now) }
    ensures { memo_of memo.new ≡ stored (memo_of memo.old) e (first_answer (get_or inside.now e false) input (get_or ins.now i (pos 0)) e) }
{
    if !inside[e] {
        note(memo, e, Ok(Outcome::Outside));
    } else if input {
        note(memo, e, Ok(Outcome::Value(i64::from(ins[i]))));
    } else {
        note(memo, e, Err(Awaited { element: e }));
    }
}

// The elements of variable v.
fn start_variable(ground: &Ground, ins: &[i32], v: usize, memo: &mut [u64; 4096])
    requires { Startable ground.now ins.now × StartedBefore ground.now.sheet.now ins.now (memo_of memo.old) v }
    ensures { Started (sheet_of ground.now.sheet.now) ins.now (memo_of memo.new) (before (sheet_of ground.now.sheet.now) (v + 1)) }
{
    let s = ground.sheet;
    let table = ground.table;
    let input = kind_of(s, table, v) == Kind::Input;
    let from = inputs_before(ground, v);
    let first = table.first_element(v);
    let size = table.first_element(v + 1) - first;
    for i in 0..size {
        start_element(ground.inside, ins, input, first + i, from + i, memo);
    }
}

// All elements.
pub fn start(ground: &Ground, ins: &[i32], memo: &mut [u64; 4096])
    requires { Startable ground.now ins.now × Started (sheet_of ground.now.sheet.now) ins.now (memo_of memo.old) 0 }
    ensures { Started (sheet_of ground.now.sheet.now) ins.now (memo_of memo.new) (total (sheet_of ground.now.sheet.now)) }
{
    for v in 0..ground.table.variable_count() {
        start_variable(ground, ins, v, memo);
    }
}
