// How many branches a tree has in normal form, counted up to 65: more than 64 anywhere are refused, and no rule lessens their number.
// Assumes nothing.
ghost use Rattle.std.specs.Prelude.{◌≡◌, ◌≤◌};
ghost use Rattle.laws.specs.Sheets.{vars_of};
ghost use Rattle.tree.specs.Standing.{Standing, StandingAll};
ghost use Rattle.tree.specs.Ends.{EndsAt, AllEnd};
ghost use Rattle.normal.specs.Count as Count;
ghost use Rattle.normal.specs.Counted.{Counts, CountsAll};

use super::{Branches, Group};
use tree::Class;
use tree::node::{children, class_of, node_end};

const MANY: usize = 65;

// Two counts together: of children of a case, or of operands.
fn joined(group: Group, a: usize, b: usize) -> usize
    requires { (a ≤ 65) × (b ≤ 65) }
    ensures { result ≡ Count.capped (Count.joined group a b) }
{
    match group {
        Group::Children => (a + b).min(MANY),
        Group::Operands => (a * b).min(MANY),
    }
}

// The tree at `at`, of at most `left` nodes, and where it ends. A leaf has one branch, an operator the combinations of its operands', a case
// those of all its children, a restriction and a dependence those of their child.
#[cycle(count_tree_count_trees)]
pub fn count_tree(s: &[u8], at: usize, left: usize) -> Branches
    requires { Standing (vars_of s.now) s.now at left }
    ensures { Counts s.now at result.many × EndsAt (vars_of s.now) s.now at result.next }
{
    let class = class_of(s, at);
    let next = node_end(s, at);
    match class {
        Class::Leaf => Branches { many: 1, next },
        Class::Operator => count_trees(s, next, left - 1, children(s, at), Group::Operands, 1),
        Class::Case => count_trees(s, next, left - 1, children(s, at), Group::Children, 0),
        Class::Restriction | Class::Dependence => count_tree(s, next, left - 1),
    }
}

// `many` trees one after another, children of a case or operands, after others of which there are `sofar`; and where they end.
#[cycle(count_tree_count_trees)]
fn count_trees(
    s: &[u8],
    at: usize,
    left: usize,
    many: usize,
    group: Group,
    sofar: usize,
) -> Branches
    requires { StandingAll (vars_of s.now) s.now at left many × (sofar ≤ 65) }
    ensures { CountsAll s.now at many group sofar result.many × AllEnd (vars_of s.now) s.now at many result.next }
{
    let mut sum = sofar;
    let mut next = at;
    for _tree in 0..many {
        let one = count_tree(s, next, left);
        sum = joined(group, sum, one.many);
        next = one.next;
    }
    Branches { many: sum, next }
}
