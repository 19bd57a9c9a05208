// One node where it stands: what kind of node it is, the place after it, how many children it has. Assumes nothing.
ghost use Rattle.std.specs.Prelude.{◌≡◌, ◌+◌, ◌*◌, ◌≤◌, length, nat_abs};
ghost use Rattle.alpha.specs.Field.{field};
ghost use Rattle.laws.specs.At.{code_of, node_size, node_read, node_end};
ghost use Rattle.laws.specs.Sheets.{vars_of};
ghost use Rattle.laws.specs.Children.{arity};
ghost use Rattle.tree.specs.declared.Class.TheVariants.{Leaf, Operator};
ghost use Rattle.tree.specs.Classes.{class_at, leaf_code, operator_code};
ghost use Rattle.tree.specs.Standing.{Noded, NodedAs, Wide};

use super::{Class, LeafKind, OperatorKind};

// The size of the number in the field at `at`.
pub fn natural(s: &[u8], at: usize) -> usize
    requires { at + 8 ≤ length s.now }
    ensures { result ≡ nat_abs (field s.now at) }
{
    integer::size_at(s, at)
}

// How many bytes a restriction or a dependence at `at` has, where each of its constraints or rows has `fixed` bytes besides its
// coefficients.
fn wide_len(s: &[u8], at: usize, fixed: usize) -> usize
    requires { Wide s.now at × (fixed ≤ 16) }
    ensures { result ≡ 24 + nat_abs (field s.now (at + 16)) * (fixed + 8 * nat_abs (field s.now (at + 8))) }
{
    let dimension = natural(s, at + 8);
    let many = natural(s, at + 16);
    24 + many * (fixed + 8 * dimension)
}

// What kind of node stands at `at`.
pub fn class_of(s: &[u8], at: usize) -> Class
    requires { Noded (vars_of s.now) s.now at }
    ensures { result ≡ class_at s.now at }
{
    match natural(s, at) {
        0..=2 => Class::Leaf,
        3..=5 => Class::Operator,
        6 => Class::Case,
        7 => Class::Restriction,
        _ => Class::Dependence,
    }
}

// Which leaf. Apart from `class_of` and `operator_of`, though all three read the code: each answers only what can stand there.
pub fn leaf_of(s: &[u8], at: usize) -> LeafKind
    requires { NodedAs s.now at Leaf }
    ensures { code_of (node_read (vars_of s.now) s.now at) ≡ leaf_code result }
{
    match natural(s, at) {
        0 => LeafKind::Variable,
        1 => LeafKind::Integer,
        _ => LeafKind::Boolean,
    }
}

// Which operator.
pub fn operator_of(s: &[u8], at: usize) -> OperatorKind
    requires { NodedAs s.now at Operator }
    ensures { code_of (node_read (vars_of s.now) s.now at) ≡ operator_code result }
{
    match natural(s, at) {
        3 => OperatorKind::Unary,
        4 => OperatorKind::Binary,
        _ => OperatorKind::If,
    }
}

// How many bytes an operator has: its code, and but for an if one field more.
fn operator_len(s: &[u8], at: usize) -> usize
    requires { NodedAs s.now at Operator }
    ensures { result ≡ node_size (node_read (vars_of s.now) s.now at) }
{
    match operator_of(s, at) {
        OperatorKind::Unary | OperatorKind::Binary => 16,
        OperatorKind::If => 8,
    }
}

// How many bytes the node at `at` has.
fn node_len(s: &[u8], at: usize) -> usize
    requires { Noded (vars_of s.now) s.now at }
    ensures { result ≡ node_size (node_read (vars_of s.now) s.now at) }
{
    match class_of(s, at) {
        Class::Leaf | Class::Case => 16,
        Class::Operator => operator_len(s, at),
        Class::Restriction => wide_len(s, at, 16),
        Class::Dependence => wide_len(s, at, 8),
    }
}

// The place after it.
pub fn node_end(s: &[u8], at: usize) -> usize
    requires { Noded (vars_of s.now) s.now at }
    ensures { result ≡ node_end (vars_of s.now) s.now at }
{
    at + node_len(s, at)
}

// How many operands an operator has.
fn operands(s: &[u8], at: usize) -> usize
    requires { NodedAs s.now at Operator }
    ensures { result ≡ arity (node_read (vars_of s.now) s.now at) }
{
    match operator_of(s, at) {
        OperatorKind::Unary => 1,
        OperatorKind::Binary => 2,
        OperatorKind::If => 3,
    }
}

// How many children the node at `at` has.
pub fn children(s: &[u8], at: usize) -> usize
    requires { Noded (vars_of s.now) s.now at }
    ensures { result ≡ arity (node_read (vars_of s.now) s.now at) }
{
    match class_of(s, at) {
        Class::Leaf => 0,
        Class::Operator => operands(s, at),
        Class::Case => natural(s, at + 8),
        Class::Restriction | Class::Dependence => 1,
    }
}
