// INPUT: the length of the input list, and then its boolean entries. Assumes nothing.
ghost use Rattle.std.specs.Prelude.{◌≡◌, ◌+◌, ◌≤◌, ◌<◌, length};
ghost use Rattle.alpha.specs.Outcome.{inputs_before};
ghost use Rattle.alpha.specs.Run as Run;
ghost use Rattle.laws.specs.Sheets.{vars_of, sheet_of};
ghost use Rattle.alpha.specs.Verdict.{told};
ghost use Rattle.tree.specs.Formed.{Formed};
ghost use Rattle.run.specs.Entries.{input_size, entries_at, InputsOf};

use alpha::{Kind, Refusal, Sort};
use domain::Ground;
use tree::variable::{kind_of, sort_of};

// How many entries the list has for variable v: one for each point of an input's box.
fn input_size(ground: &Ground, v: usize) -> usize
    requires { Formed ground.now.sheet.now ground.now.table.now × (v < vars_of ground.now.sheet.now) }
    ensures { result ≡ input_size (sheet_of ground.now.sheet.now) v }
{
    if kind_of(ground.sheet, ground.table, v) == Kind::Input {
        ground.table.first_element(v + 1) - ground.table.first_element(v)
    } else {
        0
    }
}

// How many entries the list has for the variables before v.
pub fn inputs_before(ground: &Ground, v: usize) -> usize
    requires { Formed ground.now.sheet.now ground.now.table.now × (v ≤ vars_of ground.now.sheet.now) }
    ensures { result ≡ inputs_before (sheet_of ground.now.sheet.now) v }
{
    let mut n = 0;
    for k in 0..v {
        n += input_size(ground, k);
    }
    n
}

// The entries of a boolean, which start at index `first` of the list: each is 0 or 1.
fn bits(part: &[i32], first: usize) -> Result<(), Refusal>
    requires { first + length part.now ≤ 4096 }
    ensures { told result ≡ Run.bits first part.now }
{
    for (i, &x) in part.iter().enumerate() {
        if x < 0 || 1 < x {
            return Err(Refusal::Input(first + i));
        }
    }
    Ok(())
}

// The entries of variable v.
fn entries_of(ground: &Ground, ins: &[i32], v: usize) -> Result<(), Refusal>
    requires { Formed ground.now.sheet.now ground.now.table.now × InputsOf ground.now.sheet.now ins.now v }
    ensures { told result ≡ entries_at (sheet_of ground.now.sheet.now) ins.now v }
{
    if kind_of(ground.sheet, ground.table, v) != Kind::Input {
        return Ok(());
    }
    if sort_of(ground.sheet, ground.table, v) == Sort::Integer {
        return Ok(());
    }
    let from = inputs_before(ground, v);
    let to = inputs_before(ground, v + 1);
    bits(&ins[from..to], from)
}

// The entries of all variables.
fn entries(ground: &Ground, ins: &[i32]) -> Result<(), Refusal>
    requires { Formed ground.now.sheet.now ground.now.table.now × (length ins.now ≡ Run.input_count (sheet_of ground.now.sheet.now)) }
    ensures { told result ≡ Run.entries (sheet_of ground.now.sheet.now) 0 ins.now }
{
    for v in 0..ground.table.variable_count() {
        entries_of(ground, ins, v)?;
    }
    Ok(())
}

// The length first, then the entries: refusal 12 with its place.
pub fn inputs(ground: &Ground, ins: &[i32]) -> Result<(), Refusal>
    requires { Formed ground.now.sheet.now ground.now.table.now }
    ensures { told result ≡ Run.inputs (sheet_of ground.now.sheet.now) ins.now }
{
    let needed = inputs_before(ground, ground.table.variable_count());
    if ins.len() != needed {
        return Err(Refusal::Input(needed));
    }
    entries(ground, ins)
}
