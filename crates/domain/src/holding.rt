// The branch that a case takes at a point where it holds without a clash: one branch holds there, so the largest one is spared, and taken
// where no other holds. Assumes nothing.
ghost use Rattle.std.specs.Prelude.{◌-◌};
ghost use Rattle.domain.specs.Walk.{Walk};
ghost use Rattle.domain.specs.Holding.{HoldsAt, Choosing, Chooses};

use super::Ground;
use std::mem::swap;
use tree::ends::end_of;
use tree::node::{children, node_end};

impl Ground<'_> {
    // Whether the tree at `at`, of at most `left` nodes, holds at z.
    fn holds(&self, at: usize, left: usize, z: [i64; 4]) -> bool
        requires { Walk self.now.sheet.now at left z }
        ensures { HoldsAt self.now.sheet.now at z result }
    {
        self.stand(at, left, z).how.is_held()
    }

    // The place of the branch that the case at `at`, of at most `left` nodes, takes at z, where the case holds without a clash. Of the
    // branch that is spared and the next, the smaller is tried, and the other is spared from then on.
    pub fn holding(&self, ends: &[u16; 8192], at: usize, left: usize, z: [i64; 4]) -> usize
        requires { Choosing self.now.sheet.now ends.now at left z }
        ensures { Chooses self.now.sheet.now at (left - 1) z result }
    {
        let n = left - 1;
        let first = node_end(self.sheet, at);
        let mut spared = first..end_of(self.sheet, ends, first, n);
        let mut next = spared.end;
        for _ in 1..children(self.sheet, at) {
            let mut tried = next..end_of(self.sheet, ends, next, n);
            next = tried.end;
            if spared.len() <= tried.len() {
                swap(&mut spared, &mut tried);
            }
            if self.holds(tried.start, n, z) {
                return tried.start;
            }
        }
        spared.start
    }
}
