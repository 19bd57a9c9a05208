// Rows and constraints, and the declared constraints of the second section. Each function answers the next place or the refusal,
// as the reader of crate alpha that its contract names. Assumes nothing.
ghost use Rattle.std.specs.Prelude.{◌≡◌};
ghost use Rattle.alpha.specs.Read as Read;
ghost use Rattle.alpha.specs.Verdict.{told};
ghost use Rattle.sheet.specs.Place.{place_after};
ghost use Rattle.sheet.specs.Record.{KnownSome, heads_at};

use super::field::{choice_field, count_at, free_field};
use super::sequence::repeat;
use alpha::Refusal;

// A row: n coefficients, then the constant.
pub fn row(s: &[u8], at: usize, n: usize) -> Result<usize, Refusal>
    ensures { told result ≡ place_after (Read.row_of n s.now at) }
{
    let p = repeat(n, at, |p| free_field(s, p))?;
    free_field(s, p)
}

// A constraint: its relation, then a row of n coefficients.
pub fn constraint(s: &[u8], at: usize, n: usize) -> Result<usize, Refusal>
    ensures { told result ≡ place_after (Read.constraint n s.now at) }
{
    let p = choice_field(s, at, 1)?;
    row(s, p, n)
}

// A declared constraint: the number of a variable, of which the records stand at these places, then a constraint of its dimension.
pub fn declared(s: &[u8], records: &[usize], at: usize) -> Result<usize, Refusal>
    requires { KnownSome s.now records.now }
    ensures { told result ≡ place_after (Read.declared (heads_at s.now records.now) s.now at) }
{
    let p = choice_field(s, at, records.len() - 1)?;
    let v = count_at(s, at);
    let dimension = count_at(s, records[v] + 24);
    constraint(s, p, dimension)
}
