// Points of boxes: the number of a point, and the point of a number, the last coordinate fastest. A box is read where its ranges stand:
// `index_in` and `point_in` take the place of the first and how many there are, `index` and `point` a variable's record. Assumes nothing.
#![tactic(auto)]

ghost use Rattle.std.specs.Prelude.{◌≡◌, ◌≤◌, ◌<◌, pos, ◌+ℤ◌};
ghost use Rattle.alpha.specs.Box.{size};
ghost use Rattle.alpha.specs.Field.{field};
ghost use Rattle.affine.specs.Value.{point_of};
ghost use Rattle.sheet.specs.Record.{range_at, box_at, dimension_at, Recorded, Ranges};
ghost use Rattle.points.specs.Number.{box_of, digit_in, number_in, Boxed, PointIn, PointAt};

use integer::{number_at, size_at};
use sheet::range::side;

// How many dimensions the record at `place` has.
pub fn dimension(s: &[u8], place: usize) -> usize
    requires { Recorded s.now place }
    ensures { result ≡ dimension_at s.now place }
{
    size_at(s, place + 24)
}

// Where x stands in the range at p.
fn digit(s: &[u8], p: usize, x: i64) -> Option<usize>
    requires { Ranges s.now p 1 }
    ensures { result ≡ digit_in (range_at s.now p) x }
{
    let lo = number_at(s, p);
    let hi = number_at(s, p + 8);
    if lo <= x && x <= hi {
        Some((x - lo).unsigned_abs() as usize)
    } else {
        None
    }
}

// The number of z in the box of the n ranges from `at` on.
pub fn index_in(s: &[u8], at: usize, n: usize, z: [i64; 4]) -> Option<usize>
    requires { Boxed s.now at n }
    ensures { result ≡ number_in (box_at s.now at n) (point_of n z) }
{
    let mut e = 0;
    for i in 0..n {
        let p = at + 16 * i;
        let d = digit(s, p, z[i])?;
        e = e * side(s, p) + d;
    }
    Some(e)
}

// The number of z in the box of the record at `place`.
pub fn index(s: &[u8], place: usize, z: [i64; 4]) -> Option<usize>
    requires { Recorded s.now place × (size (box_of s.now place) ≤ 4096) }
    ensures { result ≡ number_in (box_of s.now place) (point_of (dimension_at s.now place) z) }
{
    index_in(s, place + 32, dimension(s, place), z)
}

// The number that lies n above the least of the range at p.
fn nth(s: &[u8], p: usize, n: usize) -> i64
    requires { Ranges s.now p 1 × (n ≤ 4096) }
    ensures { result ≡ field s.now p +ℤ pos n }
{
    number_at(s, p) + n as i64
}

// The point with the number i in the box of the n ranges from `at` on, from its last coordinate to its first.
pub fn point_in(s: &[u8], at: usize, n: usize, i: usize) -> [i64; 4]
    requires { Boxed s.now at n × (i < size (box_at s.now at n)) }
    ensures { PointIn s.now at n i result }
{
    let mut z = [0; 4];
    let mut j = i;
    for k in (0..n).rev() {
        let p = at + 16 * k;
        let w = side(s, p);
        z[k] = nth(s, p, j % w);
        j = j / w;
    }
    z
}

// The point with the number i in the box of the record at `place`.
pub fn point(s: &[u8], place: usize, i: usize) -> [i64; 4]
    requires { Recorded s.now place × (size (box_of s.now place) ≤ 4096) × (i < size (box_of s.now place)) }
    ensures { PointAt s.now place i result }
{
    point_in(s, place + 32, dimension(s, place), i)
}
