// The nodes of the third section, read flat: a code, then that node's fields. Each function answers the next place or the refusal,
// as the reader of crate alpha that its contract names. Assumes nothing.
ghost use Rattle.std.specs.Prelude.{◌≡◌, ◌≤◌, get_or, pos, neg_ℤ};
ghost use Rattle.alpha.specs.Sheet.{Node, Node.n_if};
ghost use Rattle.alpha.specs.Read as Read;
ghost use Rattle.alpha.specs.Verdict.{told};
ghost use Rattle.sheet.specs.Place.{place_after};
ghost use Rattle.sheet.specs.Section.{VariableCount};

use super::constraint::{constraint, row};
use super::field::{choice_field, count_at, count_field, number_field};
use super::sequence::counted;
use alpha::Refusal;

// A restriction: its dimension, its number of constraints, the constraints.
fn restriction(s: &[u8], at: usize) -> Result<usize, Refusal>
    ensures { told result ≡ place_after (Read.restriction s.now at) }
{
    let p = count_field(s, at, 0, 4)?;
    let dimension = count_at(s, at);
    counted(s, p, 64, |p| constraint(s, p, dimension))
}

// A dependence: its columns, its number of rows, the rows.
fn dependence(s: &[u8], at: usize) -> Result<usize, Refusal>
    ensures { told result ≡ place_after (Read.dependence s.now at) }
{
    let p = count_field(s, at, 0, 4)?;
    let columns = count_at(s, at);
    counted(s, p, 4, |p| row(s, p, columns))
}

// An integer constant.
fn constant(s: &[u8], at: usize) -> Result<usize, Refusal>
    ensures { told result ≡ place_after (Read.number (neg_ℤ (pos 2147483648)) (pos 2147483647) s.now at) }
{
    number_field(s, at, -2147483648, 2147483647)
}

// The fields of a node by its code, where there are so many variables. The codes are the sheet's own numbers, in the definition's
// order: an enum of them would be made and matched here alone.
fn node_fields(s: &[u8], at: usize, code: usize, variables: usize) -> Result<usize, Refusal>
    requires { (code ≤ 8) × VariableCount variables }
    ensures { told result ≡ place_after (get_or (Read.nodes variables) code (Read.pure n_if) s.now at) }
{
    match code {
        0 => choice_field(s, at, variables - 1),
        1 => constant(s, at),
        2 => choice_field(s, at, 1),
        3 => choice_field(s, at, 1),
        4 => choice_field(s, at, 15),
        5 => Ok(at),
        6 => count_field(s, at, 1, 64),
        7 => restriction(s, at),
        8 => dependence(s, at),
        _ => unreachable!(),
    }
}

// A node: its code, then its fields.
pub fn node(s: &[u8], at: usize, variables: usize) -> Result<usize, Refusal>
    requires { VariableCount variables }
    ensures { told result ≡ place_after (Read.node variables s.now at) }
{
    let p = choice_field(s, at, 8)?;
    node_fields(s, p, count_at(s, at), variables)
}
