// Reading a sheet: its fields in order, the first fault deciding, refusals 1 to 6 of document 01. `read` answers what crate alpha's
// definition of reading answers and fills the table of places that the layers above go by (table.rt, specs/Table.antt).
// Nothing of the sheet is copied. Assumes nothing.
#![tactic(auto)]

ghost use Rattle.std.specs.Prelude.{◌≡◌, length, ltb};
ghost use Rattle.alpha.specs.Verdict.{told};
ghost use Rattle.sheet.specs.Place.{place_after};
ghost use Rattle.sheet.specs.Record.{KnownSome, heads_at};
ghost use Rattle.sheet.specs.Section.{VariableCount, second_section, third_section};
ghost use Rattle.sheet.specs.Table.{Reads};

use alpha::Refusal;
use constraint::declared;
use field::{count_at, count_field};
use node::node;
use sequence::counted;
use table::Table;
use variable::heads;

mod constraint;
mod field;
mod name;
mod node;
pub mod range;
pub mod sequence;
pub mod table;
mod variable;

// The second section: 0 to 256 declared constraints of the variables whose records stand at these places.
fn second_section(s: &[u8], records: &[usize], at: usize) -> Result<usize, Refusal>
    requires { KnownSome s.now records.now }
    ensures { told result ≡ place_after (second_section (heads_at s.now records.now) s.now at) }
{
    counted(s, at, 256, |p| declared(s, records, p))
}

// The third section: 0 to 2,048 nodes, where there are n variables.
fn third_section(s: &[u8], at: usize, n: usize) -> Result<usize, Refusal>
    requires { VariableCount n }
    ensures { told result ≡ place_after (third_section n s.now at) }
{
    counted(s, at, 2048, |p| node(s, p, n))
}

// Whether a sheet has more bytes than it may have. Each public call asks first: where so, it needs no table.
pub fn too_long(s: &[u8]) -> bool
    ensures { result ≡ ltb 65536 (length s.now) }
{
    s.len() > 65536
}

// Reads a sheet: the element total, or refusal 1 to 6. The table is filled where the sheet is accepted.
pub fn read(s: &[u8], table: &mut Table) -> Result<usize, Refusal>
    ensures { Reads s.now table.new result }
{
    if too_long(s) {
        return Err(Refusal::Long);
    }
    let first = count_field(s, 0, 1, 32)?;
    let n = count_at(s, 0);
    let second = heads(s, table, first, n)?;
    let third = second_section(s, &table.records[..n], second)?;
    let end = third_section(s, third, n)?;
    if end != s.len() {
        return Err(Refusal::Tail(end));
    }
    table.note(n, second, third, count_at(s, third));
    Ok(table.first_element(n))
}
