// The totals of the normal form, variable by variable, against the limits of document 01. Assumes nothing.
ghost use Rattle.normal.specs.Plan.{GrowsBy, Grows, GrowsFrom, PlansFrom};

use super::count::count_tree;
use super::{Body, Mode, Taken, Totals};
use alpha::{Kind, Refusal};
use sheet::table::Table;
use tree::variable::{dimension_of, kind_of};

// The totals with the body of variable v, or WIDE at it.
fn grow(s: &[u8], tab: &Table, v: usize, sofar: Totals) -> Result<Totals, Refusal>
    requires { GrowsBy s.now tab.now v sofar.nodes sofar.bytes }
    ensures { Grows s.now v sofar.nodes sofar.bytes result }
{
    let at = tab.body_place(v);
    let many = count_tree(s, at, 2048).many;
    if 64 < many {
        return Err(Refusal::Wide(v));
    }
    let body = Body {
        sheet: s,
        dimension: dimension_of(s, tab, v),
        mode: Mode::Measure,
    };
    let start = Taken {
        nodes: sofar.nodes + 1,
        bytes: sofar.bytes + 16,
        limits: 0,
        deep: 0,
    };
    let all = body.turn(at, 2048, many, &mut [0u8; 1], start);
    if 64 < all.limits || 30 < all.deep || 2048 < all.nodes || 65536 < all.bytes {
        return Err(Refusal::Wide(v));
    }
    Ok(Totals {
        nodes: all.nodes,
        bytes: all.bytes,
    })
}

// The totals with the bodies of all variables, or WIDE at the first that breaks a limit.
pub fn plan(s: &[u8], tab: &Table, start: Totals) -> Result<Totals, Refusal>
    requires { GrowsFrom s.now tab.now 0 start.nodes start.bytes }
    ensures { PlansFrom s.now 0 start.nodes start.bytes result }
{
    let mut totals = start;
    for v in 0..tab.variable_count() {
        if kind_of(s, tab, v) != Kind::Input {
            totals = grow(s, tab, v, totals)?;
        }
    }
    Ok(totals)
}
