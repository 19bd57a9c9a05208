// Rows, maps and constraints as bytes. Assumes nothing.
ghost use Rattle.std.specs.Prelude.{◌≡◌, map, ◌+◌, ◌*◌, ◌≤◌, length};
ghost use Rattle.std.proofs.lemmas.List.Edits.{sets};
ghost use Rattle.alpha.specs.Affine.{constraint_after};
ghost use Rattle.alpha.specs.Written.{flat, row_bytes, constraint_bytes};
ghost use Rattle.affine.specs.Value.{row_of, map_of, Neat};
ghost use Rattle.domain.specs.Constraints.{constraint_fields};
ghost use Rattle.normal.specs.Part.{map_bytes};
ghost use Rattle.normal.specs.Rows.{limit_bytes, PutsConstraint, PutsConstraints};

use affine::{Map, Row, row_after, row_read};
use integer::{put, put_nat};
use tree::node::natural;

// The row's n coefficients, then its constant.
fn put_row(out: &mut [u8], to: usize, r: &Row, n: usize)
    requires { (n ≤ 4) × (to + (8 * n + 8) ≤ length out.old) }
    ensures { out.new ≡ sets out.old to (row_bytes (row_of n r.now)) }
{
    for j in 0..n {
        put(out, to + 8 * j, r.coef[j]);
    }
    put(out, to + 8 * n, r.constant);
}

// The map's rows.
fn put_rows(out: &mut [u8], to: usize, m: &Map)
    requires { Neat m.now × (to + m.now.height * (8 * m.now.width + 8) ≤ length out.old) }
    ensures { out.new ≡ sets out.old to (flat (map row_bytes (map_of m.now).rows)) }
{
    let mut p = to;
    for row in &m.rows[..m.height] {
        put_row(out, p, row, m.width);
        p += 8 * m.width + 8;
    }
}

// A dependence by the map, without its child.
pub fn put_map(out: &mut [u8], to: usize, m: &Map)
    requires { Neat m.now × (to + (24 + m.now.height * (8 * m.now.width + 8)) ≤ length out.old) }
    ensures { out.new ≡ sets out.old to (map_bytes (map_of m.now)) }
{
    put_nat(out, to, 8);
    put_nat(out, to + 8, m.width);
    put_nat(out, to + 16, m.height);
    put_rows(out, to + 24, m);
}

// The constraint of n coefficients at `at`, after the map.
fn put_constraint(s: &[u8], at: usize, n: usize, m: &Map, out: &mut [u8], to: usize)
    requires { PutsConstraint s.now at n m.now to out.old }
    ensures { out.new ≡ sets out.old to (constraint_bytes (constraint_after (map_of m.now) (constraint_fields n s.now at))) }
{
    let relation = natural(s, at);
    let given = row_read(s, at + 8, n);
    let row = row_after(*m, given);
    put_nat(out, to, relation);
    put_row(out, to + 8, &row, m.width);
}

// `count` of them one after another.
pub fn put_constraints(
    s: &[u8],
    at: usize,
    count: usize,
    n: usize,
    m: &Map,
    out: &mut [u8],
    to: usize,
)
    requires { PutsConstraints s.now at count n m.now to out.old }
    ensures { out.new ≡ sets out.old to (limit_bytes m.now count n s.now at) }
{
    let mut from = at;
    let mut p = to;
    for _k in 0..count {
        put_constraint(s, from, n, m, out, p);
        from += 16 + 8 * n;
        p += 16 + 8 * m.width;
    }
}
