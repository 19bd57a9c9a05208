// SHAPE over all variables in order, which fills the table with the places of the bodies. Assumes nothing.
ghost use Rattle.tree.specs.Prepared.{Prepared, HasVariable};
ghost use Rattle.tree.specs.Judged.{Flat, Judges};
ghost use Rattle.tree.specs.Ruled.{body_shape, body_at};
ghost use Rattle.tree.specs.Formed.{ShapesAll};

use super::Rest;
use super::shape::shape;
use super::variable::{dimension_of, kind_of};
use alpha::{Kind, Refusal};
use sheet::table::Table;

// The body of variable v, of the nodes that are left: what is left after it. An input has none.
fn body(s: &[u8], tab: &Table, v: usize, from: Rest) -> Option<Rest>
    requires { HasVariable s.now tab.now v × Flat s.now from.next from.left }
    ensures { Judges s.now (body_shape (body_at s.now v from)) result }
{
    if kind_of(s, tab, v) == Kind::Input {
        return Some(from);
    }
    shape(s, tab, from, 32, dimension_of(s, tab, v))
}

// All variables, each from the place where the one before it ends. After the last of them no node may be left, and the place is then
// the number of variables.
pub fn shapes(s: &[u8], tab: &mut Table) -> Result<(), Refusal>
    requires { Prepared s.now tab.old }
    ensures { ShapesAll s.now tab.new result }
{
    let n = tab.variable_count();
    let mut rest = Rest {
        next: tab.third_place() + 8,
        left: tab.node_count(),
    };
    for v in 0..n {
        tab.keep_body(v, rest.next);
        rest = body(s, tab, v, rest).ok_or(Refusal::Shape(v))?;
    }
    tab.keep_body(n, rest.next);
    if rest.left == 0 {
        Ok(())
    } else {
        Err(Refusal::Shape(n))
    }
}
