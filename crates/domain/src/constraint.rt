// Constraints tested at a point where they stand. Assumes nothing.
ghost use Rattle.std.specs.Prelude.{◌≡◌, ◌≤◌};
ghost use Rattle.alpha.specs.Affine as Affine;
ghost use Rattle.affine.specs.Value.{point_of};
ghost use Rattle.domain.specs.Constraints.{constraint_fields, constraints_fields, restriction_met, Testable, AllTestable, RestrictionTestable};

use alpha::Relation;
use tree::node::natural;

// Whether the constraint of n coefficients at `at` holds at z.
pub fn meets(s: &[u8], at: usize, n: usize, z: [i64; 4]) -> bool
    requires { Testable s.now at n (point_of n z) }
    ensures { result ≡ Affine.meets (constraint_fields n s.now at) (point_of n z) }
{
    let relation = Relation::from(natural(s, at));
    let row = affine::row_read(s, at + 8, n);
    affine::meets(relation, row, z)
}

// Whether each of `count` of them from `at` on does.
pub fn meets_all(s: &[u8], at: usize, count: usize, n: usize, z: [i64; 4]) -> bool
    requires { (n ≤ 4) × AllTestable count s.now at n (point_of n z) }
    ensures { result ≡ Affine.meets_all (constraints_fields count n s.now at) (point_of n z) }
{
    (0..count).all(|k| meets(s, at + k * (16 + 8 * n), n, z))
}

// Whether the constraints of the restriction at `at` hold at z.
pub fn restriction_meets(s: &[u8], at: usize, z: [i64; 4]) -> bool
    requires { RestrictionTestable s.now at z }
    ensures { result ≡ restriction_met s.now at z }
{
    let n = natural(s, at + 8);
    let count = natural(s, at + 16);
    meets_all(s, at + 24, count, n, z)
}
