// Affine rows and maps by value, with up to four rows and columns: a row at a point, a map's image, one map after another, how far a
// row reaches, and a map read from a sheet. What lies beyond a map's rows and columns is 0 (specs/Value.antt), and sizes that are
// below 2^63 keep every sum in an i64 (specs/Size.antt). Assumes nothing.
#![tactic(auto)]

ghost use Rattle.std.specs.Prelude.{◌≡◌, ℕ, ◌+◌, ◌*◌, ◌^◌, ◌≤◌, ◌<◌, length, pos, nat_abs, ◌+ℤ◌, ◌*ℤ◌};
ghost use Rattle.alpha.specs.Affine as Affine;
ghost use Rattle.alpha.specs.Kinds.{relation_meant};
ghost use Rattle.alpha.specs.Reach.{sizes, row_reach, map_reach};
ghost use Rattle.affine.specs.declared.Map.{Map};
ghost use Rattle.affine.specs.Value.{several, at, line, point_of, row_of, map_of, Padded, NeatRow, Neat, After, marked_row, FourOf};
ghost use Rattle.affine.specs.Size.{dot_size, row_size, Fit, column, constants, FitAfter, Tells};
ghost use Rattle.affine.specs.Reading.{row_fields, rows_fields, RowAmong, MapRead, MapThere, ImageAt};
ghost use Rattle.alpha.specs.Field.{field};

use alpha::Relation;
use integer::{number_at, size_at};

#[derive(Clone, Copy)]
pub struct Row {
    pub coef: [i64; 4],
    pub constant: i64,
}

#[derive(Clone, Copy)]
pub struct Map {
    pub rows: [Row; 4],
    pub height: usize,
    pub width: usize,
}

// What f gives at 0, 1, 2 and 3.
fn four<T, F: Fn(usize) -> T>(f: F) -> [T; 4]
    requires { (i : ℕ) → i < 4 → F.pre f i }
    ensures { FourOf (F.post f) result }
{
    [f(0), f(1), f(2), f(3)]
}

// ---- at a point

// c * p + s
fn step(c: i64, p: i64, s: i64) -> i64
    requires { nat_abs c * nat_abs p + nat_abs s < 2 ^ 63 }
    ensures { (result ≡ c *ℤ p +ℤ s) × (nat_abs result ≤ nat_abs c * nat_abs p + nat_abs s) }
{
    c * p + s
}

// Coefficients times point, from the last to the first.
fn dot(c: [i64; 4], p: [i64; 4]) -> i64
    requires { dot_size (several 4 (at c)) (point_of 4 p) < 2 ^ 63 }
    ensures { (result ≡ Affine.dot (several 4 (at c)) (point_of 4 p)) × (nat_abs result ≤ dot_size (several 4 (at c)) (point_of 4 p)) }
{
    let s = step(c[2], p[2], step(c[3], p[3], 0));
    step(c[0], p[0], step(c[1], p[1], s))
}

// The row r at the point p, for each number of coefficients that r has.
pub fn row_at(r: Row, p: [i64; 4]) -> i64
    requires { row_size (row_of 4 r) (point_of 4 p) < 2 ^ 63 }
    ensures { (n : ℕ) → NeatRow n r → result ≡ Affine.row_at (row_of n r) (point_of n p) }
{
    dot(r.coef, p) + r.constant
}

// Whether the row stands in its relation to 0 at the point.
pub fn meets(relation: Relation, r: Row, p: [i64; 4]) -> bool
    requires { row_size (row_of 4 r) (point_of 4 p) < 2 ^ 63 }
    ensures { (n : ℕ) → NeatRow n r → result ≡ Affine.meets (record { rel = relation_meant relation; row = row_of n r }) (point_of n p) }
{
    let x = row_at(r, p);
    match relation {
        Relation::AtLeast => 0 <= x,
        Relation::Equal => x == 0,
    }
}

// Coordinate i of the image of p: 0 past the rows.
fn coordinate(m: &Map, i: usize, p: [i64; 4]) -> i64
    requires { (i < 4) × Neat m.now × Fit m.now p }
    ensures { (i < m.now.height → (n : ℕ) → NeatRow n (line m.now i) → result ≡ Affine.row_at (row_of n (line m.now i)) (point_of n p)) × (m.now.height ≤ i → result ≡ pos 0) }
{
    if i < m.height {
        row_at(m.rows[i], p)
    } else {
        0
    }
}

// The image of the point p.
pub fn apply(m: Map, p: [i64; 4]) -> [i64; 4]
    requires { Neat m × Fit m p }
    ensures { (point_of m.height result ≡ Affine.image (map_of m).rows (point_of m.width p)) × Padded m.height result }
{
    four(|i| coordinate(&m, i, p))
}

// ---- composed

// The coefficients of a map in column j.
fn column_of(m: &Map, j: usize) -> [i64; 4]
    requires { j < 4 }
    ensures { point_of 4 result ≡ column m.now j }
{
    four(|i| m.rows[i].coef[j])
}

// The constants of a map.
fn constants_of(m: &Map) -> [i64; 4]
    ensures { point_of 4 result ≡ constants m.now }
{
    four(|i| m.rows[i].constant)
}

// Coefficients times column j.
fn by_column(c: [i64; 4], f: &Map, j: usize) -> i64
    requires { (j < 4) × (dot_size (several 4 (at c)) (column f.now j) < 2 ^ 63) }
    ensures { result ≡ Affine.dot (several 4 (at c)) (column f.now j) }
{
    dot(c, column_of(f, j))
}

// The row w after the map f: at a point it is w at the point's image.
pub fn row_after(f: Map, w: Row) -> Row
    requires { Neat f × Padded f.height w.coef × FitAfter f w }
    ensures { After f w result }
{
    Row {
        coef: four(|j| by_column(w.coef, &f, j)),
        constant: row_at(w, constants_of(&f)),
    }
}

// First the inner map, then the outer.
pub fn compose(outer: Map, inner: Map) -> Map
    requires { Neat outer × Neat inner × (outer.width ≡ inner.height) × ((i : ℕ) → FitAfter inner (line outer i)) }
    ensures { (map_of result ≡ Affine.map_after (map_of inner) (map_of outer)) × Neat result × (result.height ≡ outer.height) × (result.width ≡ inner.width) }
{
    Map {
        rows: four(|i| row_after(inner, outer.rows[i])),
        height: outer.height,
        width: inner.width,
    }
}

// Row i of the identity of n dimensions: zeros past the n.
fn identity_row(i: usize, n: usize) -> Row
    requires { i < 4 }
    ensures { result ≡ marked_row i n }
{
    let mut coef = [0; 4];
    coef[i] = i64::from(i < n);
    Row { coef, constant: 0 }
}

// The identity of n dimensions.
pub fn identity(n: usize) -> Map
    requires { n ≤ 4 }
    ensures { (map_of result ≡ Affine.identity n) × Neat result × (result.height ≡ n) × (result.width ≡ n) }
{
    Map {
        rows: four(|i| identity_row(i, n)),
        height: n,
        width: n,
    }
}

// ---- reach

const LIMIT: u64 = 0x100_0000_0000;

// s + t, if it stays within the limit.
fn sum(s: u64, t: u64) -> Option<u64>
    ensures { Tells result (s + t) }
{
    if LIMIT < s || LIMIT - s < t {
        return None;
    }
    Some(s + t)
}

// s * t, if it stays within the limit.
fn product(s: u64, t: u64) -> Option<u64>
    ensures { Tells result (s * t) }
{
    if 0 < t && LIMIT / t < s {
        return None;
    }
    Some(s * t)
}

// The sum of the sizes of the coefficients.
fn spread(c: [i64; 4]) -> Option<u64>
    ensures { Tells result (sizes (several 4 (at c))) }
{
    let mut total = 0;
    for x in c {
        total = sum(total, x.unsigned_abs())?;
    }
    Some(total)
}

// How far the row reaches where its coordinates reach so far. Nothing is added or multiplied before it is known to stay within 2^40.
pub fn row_reach(r: Row, reach: u64) -> Option<u64>
    requires { 1 ≤ reach }
    ensures { (n : ℕ) → NeatRow n r → Tells result (row_reach reach (row_of n r)) }
{
    let scaled = product(spread(r.coef)?, reach)?;
    sum(scaled, r.constant.unsigned_abs())
}

// How far the image reaches where the coordinates reach so far.
pub fn map_reach(m: Map, reach: u64) -> Option<u64>
    requires { Neat m × (1 ≤ reach) }
    ensures { Tells result (map_reach reach (map_of m).rows) }
{
    let mut most = 1;
    for r in m.rows {
        most = most.max(row_reach(r, reach)?);
    }
    Some(most)
}

// ---- read from a sheet

// Coefficient i of the row of n at p: 0 past the n.
fn coefficient(b: &[u8], p: usize, i: usize, n: usize) -> i64
    requires { (n ≤ 4) × (p + (8 * n + 8) ≤ length b.now) }
    ensures { (i < n → result ≡ field b.now (p + 8 * i)) × (n ≤ i → result ≡ pos 0) }
{
    if i < n { number_at(b, p + 8 * i) } else { 0 }
}

// The row of n coefficients at p.
pub fn row_read(b: &[u8], p: usize, n: usize) -> Row
    requires { (n ≤ 4) × (p + (8 * n + 8) ≤ length b.now) }
    ensures { (row_of n result ≡ row_fields n b.now p) × NeatRow n result }
{
    Row {
        coef: four(|i| coefficient(b, p, i, n)),
        constant: number_at(b, p + 8 * n),
    }
}

// Row i of the k rows of n coefficients at p: zeros past the k.
fn row_of(b: &[u8], p: usize, i: usize, k: usize, n: usize) -> Row
    requires { (n ≤ 4) × (k ≤ 4) × (p + k * (8 * n + 8) ≤ length b.now) }
    ensures { RowAmong b.now p i k n result }
{
    if i < k {
        row_read(b, p + i * (8 * n + 8), n)
    } else {
        Row {
            coef: [0; 4],
            constant: 0,
        }
    }
}

// The k rows of n coefficients at p.
pub fn rows_read(b: &[u8], p: usize, k: usize, n: usize) -> Map
    requires { (n ≤ 4) × (k ≤ 4) × (p + k * (8 * n + 8) ≤ length b.now) }
    ensures { (map_of result ≡ record { cols = n; rows = rows_fields k n b.now p }) × Neat result × (result.height ≡ k) × (result.width ≡ n) }
{
    Map {
        rows: four(|i| row_of(b, p, i, k, n)),
        height: k,
        width: n,
    }
}

// The map of the dependence whose fields stand at p. Where none stands there, some map.
pub fn map_read(b: &[u8], p: usize) -> Map
    ensures { MapRead b.now p result }
{
    let len = b.len();
    if len < 16 || len - 16 < p {
        return identity(0);
    }
    let n = size_at(b, p);
    let k = size_at(b, p + 8);
    if 4 < n || 4 < k || len - (p + 16) < k * (8 * n + 8) {
        return identity(0);
    }
    rows_read(b, p + 16, k, n)
}

// The image of the point z by the map of the dependence whose fields stand at p.
pub fn image_at(b: &[u8], p: usize, z: [i64; 4]) -> [i64; 4]
    requires { MapThere b.now p × ((m : Map) → MapRead b.now p m → Fit m z) }
    ensures { ImageAt b.now p z result }
{
    let n = size_at(b, p);
    let k = size_at(b, p + 8);
    apply(rows_read(b, p + 16, k, n), z)
}
