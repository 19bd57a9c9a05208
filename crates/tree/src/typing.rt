// TYPE of a tree: from its children up. Assumes nothing.
ghost use Rattle.std.specs.Prelude.{◌≡◌};
ghost use Rattle.std.proofs.Math.Option.{some};
ghost use Rattle.alpha.specs.Kinds.{sort_meant, unary_meant, binary_meant};
ghost use Rattle.alpha.specs.Typing.{unary_sort, binary_sort};
ghost use Rattle.laws.specs.Sheets.{vars_of};
ghost use Rattle.tree.specs.declared.Class.TheVariants.{Leaf, Operator};
ghost use Rattle.tree.specs.Standing.{NodedAs, Standing, StandingAs, StandingAll, StandingSome};
ghost use Rattle.tree.specs.Prepared.{Prepared};
ghost use Rattle.tree.specs.Sorted.{typed_at, wanted, LeafTyped, IfAt, TreeTyped, TreesTyped};

use super::node::{children, class_of, leaf_of, natural, node_end, operator_of};
use super::variable::sort_of;
use super::{Class, LeafKind, OperatorKind, Typed};
use alpha::{Binary, Sort, Unary};
use sheet::table::Table;

// t, where its type is the wanted one.
fn wanted(t: Typed, sort: Sort) -> Option<Typed>
    ensures { result ≡ wanted t sort }
{
    (t.sort == sort).then_some(t)
}

// What the unary operator `op` gives for an operand of the type t: - takes an integer, not a boolean.
fn unary_type(op: Unary, t: Typed) -> Option<Typed>
    ensures { result ≡ typed_at (unary_sort (unary_meant op) (some (sort_meant t.sort))) t.next }
{
    match op {
        Unary::Negate => wanted(t, Sort::Integer),
        Unary::Complement => wanted(t, Sort::Boolean),
    }
}

// What the binary operator `op` gives for operands of the type t: + to max take integers; = and <> any one type; order relations
// integers; and, or, xor booleans.
fn binary_type(op: Binary, t: Typed) -> Option<Typed>
    ensures { result ≡ typed_at (binary_sort (binary_meant op) (some (sort_meant t.sort))) t.next }
{
    let truth = Typed {
        sort: Sort::Boolean,
        next: t.next,
    };
    match op {
        Binary::Plus
        | Binary::Minus
        | Binary::Times
        | Binary::Quotient
        | Binary::Remainder
        | Binary::Least
        | Binary::Most => wanted(t, Sort::Integer),
        Binary::Same | Binary::Differ => Some(truth),
        Binary::Under | Binary::UpTo | Binary::Over | Binary::From => {
            wanted(t, Sort::Integer).map(|_| truth)
        }
        Binary::Both | Binary::Either | Binary::One => wanted(t, Sort::Boolean),
    }
}

// The type of the leaf at `at`.
fn leaf_sort(s: &[u8], tab: &Table, at: usize) -> Sort
    requires { Prepared s.now tab.now × NodedAs s.now at Leaf }
    ensures { LeafTyped s.now at result }
{
    match leaf_of(s, at) {
        LeafKind::Variable => sort_of(s, tab, natural(s, at + 8)),
        LeafKind::Integer => Sort::Integer,
        LeafKind::Boolean => Sort::Boolean,
    }
}

// The type of the tree at `at`, of at most `left` nodes. The answer is made of its two parts: one that is copied whole takes longer.
#[cycle(typing)]
pub fn type_of(s: &[u8], tab: &Table, at: usize, left: usize) -> Option<Typed>
    requires { Prepared s.now tab.now × Standing (vars_of s.now) s.now at left }
    ensures { TreeTyped s.now at result }
{
    let after = node_end(s, at);
    let Typed { sort, next } = match class_of(s, at) {
        Class::Leaf => Typed {
            sort: leaf_sort(s, tab, at),
            next: after,
        },
        Class::Operator => operator_type(s, tab, at, left)?,
        Class::Case => type_all(s, tab, after, left - 1, children(s, at))?,
        Class::Restriction | Class::Dependence => type_of(s, tab, after, left - 1)?,
    };
    Some(Typed { sort, next })
}

// The type of the operator at `at`, with its operands.
#[cycle(typing)]
fn operator_type(s: &[u8], tab: &Table, at: usize, left: usize) -> Option<Typed>
    requires { Prepared s.now tab.now × StandingAs s.now at left Operator }
    ensures { TreeTyped s.now at result }
{
    let next = node_end(s, at);
    match operator_of(s, at) {
        OperatorKind::Unary => {
            let t = type_of(s, tab, next, left - 1)?;
            unary_type(Unary::from(natural(s, at + 8)), t)
        }
        OperatorKind::Binary => {
            let t = type_all(s, tab, next, left - 1, 2)?;
            binary_type(Binary::from(natural(s, at + 8)), t)
        }
        OperatorKind::If => type_if(s, tab, next, left - 1),
    }
}

// The type of an if whose three parts stand from `at` on.
#[cycle(typing)]
fn type_if(s: &[u8], tab: &Table, at: usize, left: usize) -> Option<Typed>
    requires { Prepared s.now tab.now × StandingAll (vars_of s.now) s.now at left 3 }
    ensures { IfAt s.now at result }
{
    let t = type_of(s, tab, at, left)?;
    let test = wanted(t, Sort::Boolean)?;
    type_all(s, tab, test.next, left, 2)
}

// The type that `count` trees have, which stand one after another from `at` on.
#[cycle(typing)]
fn type_all(s: &[u8], tab: &Table, at: usize, left: usize, count: usize) -> Option<Typed>
    requires { Prepared s.now tab.now × StandingSome (vars_of s.now) s.now at left count }
    ensures { TreesTyped s.now at count result }
{
    let Typed { sort, mut next } = type_of(s, tab, at, left)?;
    for _ in 1..count {
        let t = type_of(s, tab, next, left)?;
        next = wanted(t, sort)?.next;
    }
    Some(Typed { sort, next })
}
