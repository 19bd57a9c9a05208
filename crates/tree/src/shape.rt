// SHAPE of a tree: from the top down in the dimension that is wanted. A dimension that disagrees ends the walk, since a tree that does
// not fit and no tree at all are refused alike. Assumes nothing.
ghost use Rattle.std.specs.Prelude.{◌≡◌, ℕ, ◌≤◌, eqb};
ghost use Rattle.laws.specs.At.{node_read};
ghost use Rattle.laws.specs.Children.{fits_here, wanted};
ghost use Rattle.laws.specs.Sheets.{heads_of, vars_of};
ghost use Rattle.tree.specs.declared.Class.TheVariants.{Leaf};
ghost use Rattle.tree.specs.Standing.{Noded, NodedAs};
ghost use Rattle.tree.specs.Prepared.{Prepared};
ghost use Rattle.tree.specs.Judged.{Judgeable, Judges, tree_judged, trees_judged};

use super::node::{children, class_of, leaf_of, natural, node_end};
use super::variable::dimension_of;
use super::{Class, LeafKind, Rest};
use sheet::table::Table;

// The dimension of the leaf at `at`: a variable's own, and none of a constant.
fn leaf_dimension(s: &[u8], tab: &Table, at: usize) -> usize
    requires { Prepared s.now tab.now × NodedAs s.now at Leaf }
    ensures { (n : ℕ) → eqb result n ≡ fits_here (node_read (vars_of s.now) s.now at) (heads_of s.now) n }
{
    match leaf_of(s, at) {
        LeafKind::Variable => dimension_of(s, tab, natural(s, at + 8)),
        LeafKind::Integer | LeafKind::Boolean => 0,
    }
}

// The node at `at` may itself stand where `want` dimensions are wanted.
fn fits_here(s: &[u8], tab: &Table, at: usize, want: usize) -> bool
    requires { Prepared s.now tab.now × Noded (vars_of s.now) s.now at }
    ensures { result ≡ fits_here (node_read (vars_of s.now) s.now at) (heads_of s.now) want }
{
    match class_of(s, at) {
        Class::Leaf => leaf_dimension(s, tab, at) == want,
        Class::Operator | Class::Case => true,
        Class::Restriction | Class::Dependence => natural(s, at + 8) == want,
    }
}

// How many dimensions are wanted of its children: below a dependence its rows.
fn wanted_below(s: &[u8], at: usize, want: usize) -> usize
    requires { Noded (vars_of s.now) s.now at × (want ≤ 4) }
    ensures { (result ≡ wanted (node_read (vars_of s.now) s.now at) want) × (result ≤ 4) }
{
    match class_of(s, at) {
        Class::Leaf | Class::Operator | Class::Case | Class::Restriction => want,
        Class::Dependence => natural(s, at + 16),
    }
}

// The tree that stands next, of at most the nodes left and the depth `deep`, where `want` dimensions are wanted: what is left after it.
#[cycle(shape_shape_all)]
pub fn shape(s: &[u8], tab: &Table, from: Rest, deep: usize, want: usize) -> Option<Rest>
    requires { Judgeable s.now tab.now from deep want }
    ensures { Judges s.now (tree_judged s.now from deep want) result }
{
    if from.left == 0 || deep == 0 {
        return None;
    }
    if !fits_here(s, tab, from.next, want) {
        return None;
    }
    let below = wanted_below(s, from.next, want);
    let many = children(s, from.next);
    let rest = Rest {
        next: node_end(s, from.next),
        left: from.left - 1,
    };
    shape_all(s, tab, rest, deep - 1, below, many)
}

// `count` trees one after another.
#[cycle(shape_shape_all)]
fn shape_all(
    s: &[u8],
    tab: &Table,
    from: Rest,
    deep: usize,
    want: usize,
    count: usize,
) -> Option<Rest>
    requires { Judgeable s.now tab.now from deep want }
    ensures { Judges s.now (trees_judged s.now from deep want count) result }
{
    let mut rest = from;
    for _ in 0..count {
        rest = shape(s, tab, rest, deep, want)?;
    }
    Some(rest)
}
