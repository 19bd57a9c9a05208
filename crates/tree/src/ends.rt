// Where trees end, kept by place, so that a tree is passed without a walk. Assumes nothing.
// The table is fixed memory, 8,192 entries of 16 bits, where 0 says that no end is kept: an Option of a u16 would take twice the room.
ghost use Rattle.std.specs.Prelude.{IfSome};
ghost use Rattle.laws.specs.Sheets.{vars_of};
ghost use Rattle.tree.specs.Standing.{Standing, StandingAll};
ghost use Rattle.tree.specs.Ends.{EndsAt, EndsKept, EndKeptAt, AllEnd};
ghost use Rattle.tree.specs.Formed.{BodiesPlaced, PlacedVariable};

use super::node::{children, node_end};
use super::skip::skip;
use super::variable::kind_of;
use alpha::Kind;
use sheet::table::Table;

// The table with `end` for the tree at `at`, which ends there, where an entry can say so.
fn keep(s: &[u8], at: usize, end: usize, ends: &mut [u16; 8192])
    requires { EndsAt (vars_of s.now) s.now at end × EndsKept s.now ends.old }
    ensures { EndsKept s.now ends.new }
{
    let Ok(eighth) = u16::try_from(end / 8) else {
        return;
    };
    if at.is_multiple_of(8) && end.is_multiple_of(8) && at / 8 < ends.len() {
        ends[at / 8] = eighth;
    }
}

// The tree at `at`, of at most `left` nodes: its end, and the table with the ends of it and of all trees in it.
#[cycle(keep_tree_keep_trees)]
fn keep_tree(s: &[u8], at: usize, left: usize, ends: &mut [u16; 8192]) -> usize
    requires { Standing (vars_of s.now) s.now at left × EndsKept s.now ends.old }
    ensures { EndsAt (vars_of s.now) s.now at result × EndsKept s.now ends.new }
{
    let next = node_end(s, at);
    let end = keep_trees(s, next, left - 1, children(s, at), ends);
    keep(s, at, end, ends);
    end
}

// The same of `many` trees one after another.
#[cycle(keep_tree_keep_trees)]
fn keep_trees(s: &[u8], at: usize, left: usize, many: usize, ends: &mut [u16; 8192]) -> usize
    requires { StandingAll (vars_of s.now) s.now at left many × EndsKept s.now ends.old }
    ensures { AllEnd (vars_of s.now) s.now at many result × EndsKept s.now ends.new }
{
    let mut next = at;
    for _ in 0..many {
        next = keep_tree(s, next, left, ends);
    }
    next
}

// The same of the body of variable v. An input has none.
fn keep_body(s: &[u8], tab: &Table, v: usize, ends: &mut [u16; 8192])
    requires { PlacedVariable s.now tab.now v × EndsKept s.now ends.old }
    ensures { EndsKept s.now ends.new }
{
    if kind_of(s, tab, v) != Kind::Input {
        keep_tree(s, tab.body_place(v), 2048, ends);
    }
}

// The same of all bodies.
pub fn keep_all(s: &[u8], tab: &Table, ends: &mut [u16; 8192])
    requires { BodiesPlaced s.now tab.now × EndsKept s.now ends.old }
    ensures { EndsKept s.now ends.new }
{
    for v in 0..tab.variable_count() {
        keep_body(s, tab, v, ends);
    }
}

// The end that the table has for `at`.
fn kept(ends: &[u16; 8192], at: usize) -> Option<usize>
    ensures { IfSome result (λ end. EndKeptAt ends.now at end) }
{
    if !at.is_multiple_of(8) {
        return None;
    }
    let eighth = *ends.get(at / 8)?;
    (eighth > 0).then_some(8 * usize::from(eighth))
}

// Where the tree at `at` ends: by the table, or else by a walk.
pub fn end_of(s: &[u8], ends: &[u16; 8192], at: usize, left: usize) -> usize
    requires { Standing (vars_of s.now) s.now at left × EndsKept s.now ends.now }
    ensures { EndsAt (vars_of s.now) s.now at result }
{
    kept(ends, at).unwrap_or_else(|| skip(s, at, left))
}
