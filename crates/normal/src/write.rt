// The bodies of the normal form, stored one after another. Assumes nothing.
ghost use Rattle.std.specs.Prelude.{◌≡◌, ◌≤◌, length, take};
ghost use Rattle.std.proofs.lemmas.List.Edits.{sets};
ghost use Rattle.alpha.specs.Promise.{Normalises};
ghost use Rattle.normal.specs.Planned.{Planned};
ghost use Rattle.normal.specs.Stored.{Room, Stored, body_of, bodies_from, Writes, WritesFrom};

use super::count::count_tree;
use super::{Body, Mode, Taken, Totals};
use alpha::{Kind, Refusal};
use integer::put_nat;
use sheet::table::Table;
use tree::variable::{dimension_of, kind_of};

// The body of variable v: a case of its branches.
fn put_body(s: &[u8], tab: &Table, v: usize, out: &mut [u8], to: usize) -> usize
    requires { Writes s.now tab.now v × Room (body_of s.now v) to out.old }
    ensures { Stored (body_of s.now v) to out.old out.new result }
{
    let at = tab.body_place(v);
    let many = count_tree(s, at, 2048).many;
    let body = Body {
        sheet: s,
        dimension: dimension_of(s, tab, v),
        mode: Mode::Store,
    };
    put_nat(out, to, 6);
    put_nat(out, to + 8, many);
    let start = Taken {
        nodes: 0,
        bytes: to + 16,
        limits: 0,
        deep: 0,
    };
    body.turn(at, 2048, many, out, start).bytes
}

// The bodies of all variables; an input has none.
fn put_bodies(s: &[u8], tab: &Table, out: &mut [u8], to: usize) -> usize
    requires { WritesFrom s.now tab.now 0 × Room (bodies_from s.now 0) to out.old }
    ensures { Stored (bodies_from s.now 0) to out.old out.new result }
{
    let mut next = to;
    for v in 0..tab.variable_count() {
        if kind_of(s, tab, v) != Kind::Input {
            next = put_body(s, tab, v, out, next);
        }
    }
    next
}

// The first `count` bytes of the sheet, one at a time: `copy_from_slice` would ask the caller for memmove.
fn copy(s: &[u8], out: &mut [u8], count: usize)
    requires { (count ≤ length s.now) × (count ≤ length out.old) }
    ensures { out.new ≡ sets out.old 0 (take count s.now) }
{
    for i in 0..count {
        out[i] = s[i];
    }
}

// The normal form from the start of `out`, or ROOM.
pub fn write_all(s: &[u8], tab: &Table, totals: Totals, out: &mut [u8]) -> Result<usize, Refusal>
    requires { Planned s.now tab.now totals.nodes totals.bytes }
    ensures { Normalises s.now out.old out.new result }
{
    if out.len() < totals.bytes {
        return Err(Refusal::Room(totals.bytes));
    }
    let third = tab.third_place();
    copy(s, out, third);
    put_nat(out, third, totals.nodes);
    let end = put_bodies(s, tab, out, third + 8);
    Ok(end)
}
