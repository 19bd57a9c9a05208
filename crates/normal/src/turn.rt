// The branches of a body in turn, measured or stored: a case has those of its children one after another, any other tree has its own by their
// numbers. Assumes nothing.
ghost use Rattle.normal.specs.Body.{MayPut, Put, MayHalve, Halved, MayBranch, Branched, MayTurn, Turned, MayTurnAll, TurnedAll};

use super::count::count_tree;
use super::{Body, Choice, Half, Mode, Pen, Taken, Walk};
use affine::identity;
use integer::put_nat;
use tree::Class;
use tree::node::{children, class_of, node_end};

impl Body<'_> {
    // A number, where the body is stored.
    fn put(&self, out: &mut [u8], to: usize, n: usize)
        requires { MayPut self.now out.old to }
        ensures { Put self.now out.old out.new to n }
    {
        match self.mode {
            Mode::Measure => {}
            Mode::Store => put_nat(out, to, n),
        }
    }

    // One half of a branch of the tree at `at`, from the place `to` on.
    fn half(
        &self,
        half: Half,
        at: usize,
        left: usize,
        choice: Choice,
        out: &mut [u8],
        to: usize,
    ) -> Pen
        requires { MayHalve self.now half at left choice out.old to }
        ensures { Halved self.now half at choice out.old out.new to result }
    {
        let walk = Walk {
            sheet: self.sheet,
            half,
            mode: self.mode,
        };
        let pen = Pen {
            to,
            things: 0,
            deep: 0,
        };
        walk.follow(at, left, choice, &identity(self.dimension), 0, out, pen)
    }

    // A branch of the tree at `at`: a restriction with its constraints, above its tree. How many constraints there are is stored once they
    // stand.
    fn branch(&self, at: usize, left: usize, choice: Choice, out: &mut [u8], sofar: Taken) -> Taken
        requires { MayBranch self.now at left choice out.old sofar }
        ensures { Branched self.now at choice out.old out.new sofar result }
    {
        let to = sofar.bytes;
        self.put(out, to, 7);
        self.put(out, to + 8, self.dimension);
        let given = self.half(Half::Constraints, at, left, choice, out, to + 24);
        self.put(out, to + 16, given.things);
        let term = self.half(Half::Tree, at, left, choice, out, given.to);
        Taken {
            nodes: sofar.nodes + 1 + term.things,
            bytes: term.to,
            limits: sofar.limits.max(given.things),
            deep: sofar.deep.max(term.deep),
        }
    }

    // The `of` branches of the tree at `at` by their numbers.
    fn branches(&self, at: usize, left: usize, of: usize, out: &mut [u8], sofar: Taken) -> Taken
        requires { MayTurn self.now at left of out.old sofar }
        ensures { Turned self.now at of out.old out.new sofar result }
    {
        let mut sum = sofar;
        for number in 0..of {
            sum = self.branch(at, left, Choice { number, of }, out, sum);
        }
        sum
    }

    // The `of` branches of the tree at `at`, of at most `left` nodes, after those so far.
    #[cycle(turn_turn_all)]
    pub fn turn(&self, at: usize, left: usize, of: usize, out: &mut [u8], sofar: Taken) -> Taken
        requires { MayTurn self.now at left of out.old sofar }
        ensures { Turned self.now at of out.old out.new sofar result }
    {
        let s = self.sheet;
        let class = class_of(s, at);
        match class {
            Class::Leaf | Class::Operator | Class::Restriction | Class::Dependence => {
                self.branches(at, left, of, out, sofar)
            }
            Class::Case => {
                let next = node_end(s, at);
                let many = children(s, at);
                self.turn_all(next, left - 1, many, of, out, sofar)
            }
        }
    }

    // Those of `many` children of a case. The last child has the branches that are left.
    #[cycle(turn_turn_all)]
    fn turn_all(
        &self,
        at: usize,
        left: usize,
        many: usize,
        of: usize,
        out: &mut [u8],
        sofar: Taken,
    ) -> Taken
        requires { MayTurnAll self.now at left many of out.old sofar }
        ensures { TurnedAll self.now at many of out.old out.new sofar result }
    {
        let mut sum = sofar;
        let mut next = at;
        let mut rest = of;
        for _child in 1..many {
            let one = count_tree(self.sheet, next, left);
            sum = self.turn(next, left, one.many, out, sum);
            next = one.next;
            rest -= one.many;
        }
        self.turn(next, left, rest, out, sum)
    }
}
