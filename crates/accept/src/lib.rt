// The check of a sheet, refusals 1 to 11 in their order, and the calls that ask about an accepted one. Assumes nothing.
#![tactic(auto)]

ghost use Rattle.std.specs.Prelude.{◌≤◌, ◌≡◌, length};
ghost use Rattle.alpha.specs.Answer.{accepted};
ghost use Rattle.alpha.specs.Ask.{part_of, body_part, numbered};
ghost use Rattle.alpha.specs.Promise.{Checks, Numbers, Finds};
ghost use Rattle.affine.specs.Value.{point_of};
ghost use Rattle.laws.specs.Sheets.{sheet_of};
ghost use Rattle.sheet.specs.Table.{read_answer};
ghost use Rattle.tree.specs.Formed.{Formed};
ghost use Rattle.accept.specs.Admits.{Begins, Admits, Accepts};
ghost use Rattle.accept.specs.Shown.{IsKnown, IsPart, asked};

use alpha::{Kind, Refusal};
use sheet::table::Table;
use sheet::too_long;
use tree::variable::{dimension_of, kind_of};

// Reads the sheet, then SHAPE, TYPE and REACH: the element total, with the sheet's places in the table, or refusal 1 to 9.
pub fn form(s: &[u8], tab: &mut Table) -> Result<usize, Refusal>
    ensures { Begins s.now tab.new result }
{
    let count = sheet::read(s, tab)?;
    tree::forms(s, tab)?;
    Ok(count)
}

// Then GAP and CLASH at each element of a sheet that `form` let pass with `total` elements. Where it is accepted, the table says of each
// element whether it is inside its declared domain.
pub fn admit(
    s: &[u8],
    tab: &Table,
    total: usize,
    inside: &mut [bool; 4096],
) -> Result<usize, Refusal>
    requires { Formed s.now tab.now × (accepted total ≡ read_answer s.now) × (length inside.old ≡ 4096) }
    ensures { Admits s.now tab.now inside.new result }
{
    domain::domains(s, tab, inside)?;
    Ok(total)
}

// The whole check: the element total, with the sheet's places in the table, or refusal 1 to 11. The elements' table is made after
// refusals 1 to 9 are told.
pub fn judge(s: &[u8], tab: &mut Table) -> Result<usize, Refusal>
    ensures { Accepts s.now tab.new result }
{
    let total = form(s, tab)?;
    let mut inside = [false; 4096];
    admit(s, tab, total, &mut inside)
}

// The element total, or refusal 1 to 11 with its place.
pub fn check(s: &[u8]) -> Result<usize, Refusal>
    ensures { Checks s.now result }
{
    if too_long(s) {
        return Err(Refusal::Long);
    }
    let mut tab = Table::new();
    judge(s, &mut tab)
}

// The variable of that number, where the sheet has one.
fn known(tab: &Table, variable: u64) -> Option<usize>
    ensures { IsKnown tab.now variable result }
{
    (variable < tab.variable_count() as u64).then_some(variable as usize)
}

// A part of a sheet: where it starts, and how long it is.
#[derive(Clone, Copy)]
pub struct Part {
    pub start: usize,
    pub len: usize,
}

// Where the body of a variable of an accepted sheet stands; nowhere for an input or an unknown number.
fn part_of(s: &[u8], tab: &Table, variable: u64) -> Option<Part>
    requires { Formed s.now tab.now }
    ensures { IsPart s.now (part_of (sheet_of s.now) variable) result }
{
    let v = known(tab, variable)?;
    if kind_of(s, tab, v) == Kind::Input {
        return None;
    }
    let start = tab.body_place(v);
    let end = tab.body_place(v + 1);
    Some(Part {
        start,
        len: end - start,
    })
}

// Where the body of a variable stands in the sheet; nowhere also where the sheet is refused.
pub fn find_body(s: &[u8], variable: u64) -> Option<Part>
    ensures { IsPart s.now (body_part s.now variable) result }
{
    if too_long(s) {
        return None;
    }
    let mut tab = Table::new();
    judge(s, &mut tab).ok()?;
    part_of(s, &tab, variable)
}

// The part of the sheet that the body of a variable occupies; an empty part where there is none.
pub fn body(s: &[u8], variable: u64) -> &[u8]
    ensures { Finds s.now variable result.now }
{
    match find_body(s, variable) {
        Some(part) => &s[part.start..part.start + part.len],
        None => &[],
    }
}

// The coordinates as an array, with zeros beyond.
fn coordinates(point: &[i64]) -> [i64; 4]
    requires { length point.now ≤ 4 }
    ensures { point_of (length point.now) result ≡ point.now }
{
    let mut z = [0; 4];
    z[..point.len()].copy_from_slice(point);
    z
}

// The number of a point of an accepted sheet, where it has the variable and its box the point.
fn number_of(s: &[u8], tab: &Table, variable: u64, point: &[i64]) -> Option<usize>
    requires { Formed s.now tab.now }
    ensures { asked result ≡ numbered (sheet_of s.now) variable point.now }
{
    let v = known(tab, variable)?;
    if point.len() != dimension_of(s, tab, v) {
        return None;
    }
    let i = points::index(s, tab.record_place(v), coordinates(point))?;
    Some(tab.first_element(v) + i)
}

// The number of an element: the sheet's refusals, then ASK for a variable or a point that it has not.
#[tactic(auto, using(crate::proofs::Asked::refused_element, crate::proofs::Asked::accepted_element))]
pub fn element(s: &[u8], variable: u64, point: &[i64]) -> Result<usize, Refusal>
    ensures { Numbers s.now variable point.now result }
{
    if too_long(s) {
        return Err(Refusal::Long);
    }
    let mut tab = Table::new();
    judge(s, &mut tab)?;
    number_of(s, &tab, variable, point).ok_or(Refusal::Ask)
}
