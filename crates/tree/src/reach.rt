// REACH of a tree: from the top down, where the coordinates reach so far. Assumes nothing.
ghost use Rattle.std.specs.Prelude.{◌≡◌, ◌≤◌, leb};
ghost use Rattle.alpha.specs.Reach.{limit, row_reach};
ghost use Rattle.affine.specs.Reading.{row_fields};
ghost use Rattle.laws.specs.Sheets.{vars_of};
ghost use Rattle.tree.specs.declared.Class.TheVariants.{Restriction};
ghost use Rattle.tree.specs.Standing.{Noded, NodedAs, Standing, StandingAll};
ghost use Rattle.tree.specs.Bounding.{RowThere, ConstraintsThere, constraints_reach, NodeReached, TreeBounded, TreesBounded};

use super::Class;
use super::node::{children, class_of, natural, node_end};
use affine::{map_reach, map_read, row_reach, row_read};

// The row of n coefficients at `at` passes no limit where the coordinates reach `around`.
pub fn row_within(s: &[u8], at: usize, n: usize, around: u64) -> bool
    requires { RowThere s.now at n × (1 ≤ around) }
    ensures { result ≡ leb (row_reach around (row_fields n s.now at)) limit }
{
    row_reach(row_read(s, at, n), around).is_some()
}

// So do the rows of `count` constraints of n coefficients.
fn constraints_within(s: &[u8], at: usize, count: usize, n: usize, around: u64) -> bool
    requires { ConstraintsThere s.now at count n × (1 ≤ around) }
    ensures { result ≡ constraints_reach around n count s.now at }
{
    let step = 16 + 8 * n;
    // A loop: of `all` it stayed open, when it was tried, that its closure may be called at each number.
    for i in 0..count {
        if !row_within(s, at + i * step + 8, n, around) {
            return false;
        }
    }
    true
}

// How far they reach at the child of the restriction at `at`: as far, or a constraint passes the limit.
fn restriction_reach(s: &[u8], at: usize, around: u64) -> Option<u64>
    requires { NodedAs s.now at Restriction × (1 ≤ around) }
    ensures { NodeReached s.now at around result }
{
    constraints_within(s, at + 24, natural(s, at + 16), natural(s, at + 8), around).then_some(
        around,
    )
}

// How far the coordinates reach at the children of the node at `at`, or that the node itself passes the limit.
fn reach_below(s: &[u8], at: usize, around: u64) -> Option<u64>
    requires { Noded (vars_of s.now) s.now at × (1 ≤ around) }
    ensures { NodeReached s.now at around result }
{
    match class_of(s, at) {
        Class::Leaf | Class::Operator | Class::Case => Some(around),
        Class::Restriction => restriction_reach(s, at, around),
        Class::Dependence => map_reach(map_read(s, at + 8), around),
    }
}

// The tree at `at`, of at most `left` nodes, where the coordinates reach `around`: the place after it, or none where something passes
// the limit.
#[cycle(reach_reach_all)]
pub fn reach(s: &[u8], at: usize, left: usize, around: u64) -> Option<usize>
    requires { Standing (vars_of s.now) s.now at left × (1 ≤ around) }
    ensures { TreeBounded s.now at around result }
{
    let below = reach_below(s, at, around)?;
    reach_all(s, node_end(s, at), left - 1, children(s, at), below)
}

// `count` trees one after another.
#[cycle(reach_reach_all)]
fn reach_all(s: &[u8], at: usize, left: usize, count: usize, around: u64) -> Option<usize>
    requires { StandingAll (vars_of s.now) s.now at left count × (1 ≤ around) }
    ensures { TreesBounded s.now at around count result }
{
    let mut next = at;
    for _ in 0..count {
        next = reach(s, next, left, around)?;
    }
    Some(next)
}
