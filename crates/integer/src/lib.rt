// The fields that hold signed numbers, and the checked operators of document 01. What a function means is said by a definition of
// crate alpha; the laws that callers cite are in proofs/. Assumes nothing.
#![tactic(auto)]

ghost use Rattle.std.specs.Prelude.{◌≡◌, ◌+◌, ◌≤◌, length, nat_abs};
ghost use Rattle.std.proofs.lemmas.List.Edits.{sets};
ghost use Rattle.alpha.specs.Field.{field, num, nat};
ghost use Rattle.alpha.specs.Kinds.{unary_meant, binary_meant};
ghost use Rattle.alpha.specs.Outcome as Outcomes;
ghost use Rattle.laws.specs.Coded.{decoded};
ghost use Rattle.alpha.specs.Verdict.{outcome_of};
ghost use Rattle.integer.specs.Range.{In32, Small, Says};

use alpha::{Binary, Outcome, Unary};

// ---- fields

// The number in the field at `at`.
pub fn number_at(b: &[u8], at: usize) -> i64
    requires { at + 8 ≤ length b.now }
    ensures { result ≡ field b.now at }
{
    i64::from_le_bytes([
        b[at],
        b[at + 1],
        b[at + 2],
        b[at + 3],
        b[at + 4],
        b[at + 5],
        b[at + 6],
        b[at + 7],
    ])
}

// The size of the number in the field at `at`, as an index or a count.
pub fn size_at(b: &[u8], at: usize) -> usize
    requires { at + 8 ≤ length b.now }
    ensures { result ≡ nat_abs (field b.now at) }
{
    number_at(b, at).unsigned_abs() as usize
}

// The field of `x` at `at`.
pub fn put(b: &mut [u8], at: usize, x: i64)
    requires { at + 8 ≤ length b.old }
    ensures { b.new ≡ sets b.old at (num x) }
{
    b[at..at + 8].copy_from_slice(&x.to_le_bytes());
}

// The field of a natural number at `at`.
pub fn put_nat(b: &mut [u8], at: usize, n: usize)
    requires { at + 8 ≤ length b.old }
    ensures { b.new ≡ sets b.old at (nat n) }
{
    b[at..at + 8].copy_from_slice(&n.to_le_bytes());
}

// ---- outcomes by their codes

// The outcome with a code and a value: every code past 3 is LOOP.
pub fn decoded(code: u8, x: i64) -> Outcome
    ensures is { outcome_of result ≡ decoded code x }
    ensures small { In32 x → Small result }
{
    match code {
        0 => Outcome::Outside,
        1 => Outcome::Value(x),
        2 => Outcome::DivZero,
        3 => Outcome::Overflow,
        _ => Outcome::Loop,
    }
}

// ---- the operators of document 01

// The exact result, or OVERFLOW where it leaves the 32-bit range.
pub fn exact(x: i64) -> Outcome
    ensures { Says result (Outcomes.exact x) }
{
    if i32::try_from(x).is_ok() {
        Outcome::Value(x)
    } else {
        Outcome::Overflow
    }
}

// False is 0 and true 1.
pub fn truth(t: bool) -> Outcome
    ensures { Says result (Outcomes.truth t) }
{
    Outcome::Value(i64::from(t))
}

// x where the test holds, else y.
pub fn choose(t: bool, x: i64, y: i64) -> Outcome
    requires { In32 x × In32 y }
    ensures { Says result (Outcomes.choose t x y) }
{
    if t {
        Outcome::Value(x)
    } else {
        Outcome::Value(y)
    }
}

// What the unary operator gives.
pub fn unary(op: Unary, a: i64) -> Outcome
    requires { In32 a }
    ensures { Says result (Outcomes.unary (unary_meant op) a) }
{
    match op {
        Unary::Negate => exact(-a),
        Unary::Complement => truth(a == 0),
    }
}

// What the binary operator gives.
pub fn binary(op: Binary, a: i64, b: i64) -> Outcome
    requires { In32 a × In32 b }
    ensures { Says result (Outcomes.binary (binary_meant op) a b) }
{
    match op {
        Binary::Plus => exact(a + b),
        Binary::Minus => exact(a - b),
        Binary::Times => exact(a * b),
        Binary::Quotient | Binary::Remainder if b == 0 => Outcome::DivZero,
        Binary::Quotient => exact(a / b),
        Binary::Remainder => exact(a % b),
        Binary::Least => Outcome::Value(a.min(b)),
        Binary::Most => Outcome::Value(a.max(b)),
        Binary::Same => truth(a == b),
        Binary::Differ | Binary::One => truth(a != b),
        Binary::Under => truth(a < b),
        Binary::UpTo => truth(a <= b),
        Binary::Over => truth(b < a),
        Binary::From => truth(b <= a),
        Binary::Both => truth(a != 0 && b != 0),
        Binary::Either => truth(a != 0 || b != 0),
    }
}
