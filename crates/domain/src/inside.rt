// The table of the elements that are inside their declared domain, worked out once, by their numbers.
// Assumes nothing.
ghost use Rattle.std.specs.Prelude.{◌≡◌, ◌+◌, ◌<◌, length};
ghost use Rattle.alpha.specs.Affine.{meets_all};
ghost use Rattle.alpha.specs.Read.{dimension};
ghost use Rattle.alpha.specs.Box as Box;
ghost use Rattle.alpha.specs.Holds.{variable};
ghost use Rattle.laws.specs.Heads.{declared_len};
ghost use Rattle.laws.specs.Sheets.{heads_of, sheet_of};
ghost use Rattle.affine.specs.Value.{point_of};
ghost use Rattle.tree.specs.Prepared.{Prepared};
ghost use Rattle.tree.specs.Formed.{DeclaredRead, Formed};
ghost use Rattle.domain.specs.Element.{PointOf};
ghost use Rattle.domain.specs.Inside.{Inside};
ghost use Rattle.domain.specs.Filling.{DeclaredMet, DeclaredTestable, InBoxOf, FilledBelow, FillsNext};

use super::constraint::meets;
use sheet::table::Table;
use tree::node::natural;
use tree::variable::dimension_of;

// The place after the declared constraint at `at`.
fn next_declared(s: &[u8], tab: &Table, at: usize) -> usize
    requires { Prepared s.now tab.now × DeclaredRead s.now at }
    ensures { result ≡ at + declared_len (heads_of s.now) s.now at }
{
    let who = natural(s, at);
    at + (24 + 8 * dimension_of(s, tab, who))
}

// The declared constraint at `at` does not concern variable v, or it holds at z.
fn declared_meets(s: &[u8], tab: &Table, at: usize, v: usize, z: [i64; 4]) -> bool
    requires { Prepared s.now tab.now × DeclaredTestable s.now at v z }
    ensures { DeclaredMet s.now at v z result }
{
    let who = natural(s, at);
    if who != v {
        return true;
    }
    let n = dimension_of(s, tab, v);
    meets(s, at + 8, n, z)
}

// All declared constraints of variable v hold at z, a point of its box.
fn all_declared_meet(s: &[u8], tab: &Table, v: usize, z: [i64; 4]) -> bool
    requires { Formed s.now tab.now × InBoxOf s.now v z }
    ensures { result ≡ meets_all (variable (sheet_of s.now) v).declared (point_of (dimension (heads_of s.now) v) z) }
{
    let second = tab.second_place();
    let mut p = second + 8;
    for _ in 0..natural(s, second) {
        if !declared_meets(s, tab, p, v, z) {
            return false;
        }
        p = next_declared(s, tab, p);
    }
    true
}

// Whether element i of variable v is inside its declared domain.
fn element_inside(s: &[u8], tab: &Table, v: usize, i: usize) -> bool
    requires { Formed s.now tab.now × PointOf s.now v i }
    ensures { result ≡ meets_all (variable (sheet_of s.now) v).declared (Box.point_at (variable (sheet_of s.now) v).head.box i) }
{
    let z = points::point(s, tab.record_place(v), i);
    all_declared_meet(s, tab, v, z)
}

// Fills in the elements of variable v, after those of the variables before it. Where the sheet declares nothing, no point is worked out.
fn fill_variable(s: &[u8], tab: &Table, inside: &mut [bool; 4096], v: usize)
    requires { Formed s.now tab.now × FillsNext s.now v inside.old }
    ensures { FilledBelow (sheet_of s.now) (v + 1) inside.new }
{
    let first = tab.first_element(v);
    let declares = natural(s, tab.second_place()) > 0;
    for i in 0..tab.first_element(v + 1) - first {
        inside[first + i] = !declares || element_inside(s, tab, v, i);
    }
}

// Fills in all elements.
pub fn fill(s: &[u8], tab: &Table, inside: &mut [bool; 4096])
    requires { Formed s.now tab.now × (length inside.old ≡ 4096) }
    ensures { Inside (sheet_of s.now) inside.new }
{
    for v in 0..tab.variable_count() {
        fill_variable(s, tab, inside, v);
    }
}
