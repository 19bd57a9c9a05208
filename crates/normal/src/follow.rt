// A branch of a tree's normal form, followed from the top down with the map composed so far: its constraints, or its tree, measured or
// stored node by node. Assumes nothing.
ghost use Rattle.normal.specs.Followed.{Composes, Lowers, MayFollow, Followed, MayFollowAll, FollowedAll};

use super::choose::{choose, split};
use super::{Choice, Pen, Walk};
use affine::{Map, compose, rows_read};
use tree::Class;
use tree::node::{children, class_of, natural, node_end};

// The map of the dependence whose fields stand at p, after the map so far.
fn map_below(s: &[u8], p: usize, m: &Map) -> Map
    requires { Composes s.now p m.now }
    ensures { Lowers s.now p m.now result }
{
    let n = natural(s, p);
    let k = natural(s, p + 8);
    compose(rows_read(s, p + 16, k, n), *m)
}

impl Walk<'_> {
    // A branch of the tree at `at`, of at most `left` nodes, below `level` nodes of the branch's own tree.
    #[cycle(follow_follow_all)]
    pub fn follow(
        &self,
        at: usize,
        left: usize,
        choice: Choice,
        m: &Map,
        level: usize,
        out: &mut [u8],
        pen: Pen,
    ) -> Pen
        requires { MayFollow self.now at left choice m.now level out.old pen }
        ensures { Followed self.now at choice m.now level out.old out.new pen result }
    {
        let s = self.sheet;
        let class = class_of(s, at);
        let next = node_end(s, at);
        match class {
            Class::Leaf => self.visit(at, m, level, out, pen),
            Class::Operator => {
                let now = self.visit(at, m, level, out, pen);
                let many = children(s, at);
                self.follow_all(next, left - 1, many, choice, m, level + 1, out, now)
            }
            Class::Case => {
                let chosen = choose(s, next, left - 1, children(s, at), choice);
                self.follow(chosen.at, left - 1, chosen.choice, m, level, out, pen)
            }
            Class::Restriction => {
                let now = self.visit(at, m, level, out, pen);
                self.follow(next, left - 1, choice, m, level, out, now)
            }
            Class::Dependence => {
                let below = map_below(s, at + 8, m);
                self.follow(next, left - 1, choice, &below, level, out, pen)
            }
        }
    }

    // A combination of `many` operands one after another, the leftmost operand's branch changing slowest. The last operand has the branch
    // that is left.
    #[cycle(follow_follow_all)]
    fn follow_all(
        &self,
        at: usize,
        left: usize,
        many: usize,
        choice: Choice,
        m: &Map,
        level: usize,
        out: &mut [u8],
        pen: Pen,
    ) -> Pen
        requires { MayFollowAll self.now at left many choice m.now level out.old pen }
        ensures { FollowedAll self.now at many choice m.now level out.old out.new pen result }
    {
        let mut sofar = pen;
        let mut next = at;
        let mut rest = choice;
        for _operand in 1..many {
            let taken = split(self.sheet, next, left, rest);
            sofar = self.follow(next, left, taken.first, m, level, out, sofar);
            next = taken.next;
            rest = taken.rest;
        }
        if many == 0 {
            return sofar;
        }
        self.follow(next, left, rest, m, level, out, sofar)
    }
}
