// How a tree stands at a point: what its node says of its children, which are walked in turn. Assumes nothing.
ghost use Rattle.domain.specs.Walk.{Walk, WalkAll};
ghost use Rattle.domain.specs.Standing.{StandsAt, StandTogether};

use super::constraint::restriction_meets;
use super::{Ground, Standing, Stood, Together};
use tree::Class;
use tree::node::{children, class_of, node_end};
use tree::skip::skip;

impl Ground<'_> {
    // How the tree at `at`, of at most `left` nodes, stands at z. Below a restriction whose constraints are not met there nothing is asked.
    #[cycle(stand_stand_all)]
    pub fn stand(&self, at: usize, left: usize, z: [i64; 4]) -> Stood
        requires { Walk self.now.sheet.now at left z }
        ensures { StandsAt self.now.sheet.now at z result }
    {
        let s = self.sheet;
        let next = node_end(s, at);
        let below = left - 1;
        match class_of(s, at) {
            Class::Leaf => Stood {
                how: self.leaf_stands(at, z),
                next,
            },
            Class::Operator => self.stand_all(next, below, z, children(s, at), Together::Operands),
            Class::Case => self.stand_all(next, below, z, children(s, at), Together::Branches),
            Class::Restriction if restriction_meets(s, at, z) => self.stand(next, below, z),
            Class::Restriction => Stood {
                how: Standing::Not,
                next: skip(s, next, below),
            },
            Class::Dependence => self.stand(next, below, affine::image_at(s, at + 8, z)),
        }
    }

    // How `count` trees stand together at z.
    #[cycle(stand_stand_all)]
    fn stand_all(
        &self,
        at: usize,
        left: usize,
        z: [i64; 4],
        count: usize,
        together: Together,
    ) -> Stood
        requires { WalkAll self.now.sheet.now at left count z }
        ensures { StandTogether self.now.sheet.now at count z together result }
    {
        let mut how = together.alone();
        let mut next = at;
        for _ in 0..count {
            let one = self.stand(next, left, z);
            how = together.joined(how, one.how);
            next = one.next;
        }
        Stood { how, next }
    }
}
