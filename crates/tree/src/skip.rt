// Past a tree, or past so many trees: the place after them, node by node. Assumes nothing.
ghost use Rattle.laws.specs.Sheets.{vars_of};
ghost use Rattle.tree.specs.Standing.{Standing, StandingAll};
ghost use Rattle.tree.specs.Ends.{EndsAt, AllEnd};

use super::node::{children, node_end};

// The place after the tree at `at`, of at most `left` nodes.
pub fn skip(s: &[u8], at: usize, left: usize) -> usize
    requires { Standing (vars_of s.now) s.now at left }
    ensures { EndsAt (vars_of s.now) s.now at result }
{
    skip_all(s, at, left, 1)
}

// The place after `count` trees. Each node counts itself off and its children on.
// A while: how many nodes there will be is only known when the last one is passed.
pub fn skip_all(s: &[u8], at: usize, left: usize, count: usize) -> usize
    requires { StandingAll (vars_of s.now) s.now at left count }
    ensures { AllEnd (vars_of s.now) s.now at count result }
{
    let mut p = at;
    let mut need = count;
    while need > 0 {
        need = need - 1 + children(s, p);
        p = node_end(s, p);
    }
    p
}
