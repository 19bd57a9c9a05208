// The element evaluator and the expression evaluator, which call each other: the remaining depth falls, and then the remaining nodes.
// Each operand's outcome is taken apart as a value, or else handed straight back. Assumes nothing.
ghost use Rattle.std.specs.Prelude.{◌≡◌};
ghost use Rattle.tree.specs.declared.Class.TheVariants as Class;
ghost use Rattle.tree.specs.declared.LeafKind.TheVariants as LeafKind;
ghost use Rattle.tree.specs.declared.OperatorKind.TheVariants as OperatorKind;
ghost use Rattle.tree.specs.Standing.{NodedAs};
ghost use Rattle.domain.specs.Held.{Held};
ghost use Rattle.evaluate.specs.Working.{ElementIs, HeldAs, HeldLeaf, HeldOperator, ConstantRead, answer_of, Gives};

use super::memo::{known, mark, note};
use super::{Awaited, Evaluator, Stop, Worked};
use alpha::{Binary, Outcome, Unary};
use tree::ends::end_of;
use tree::node::{class_of, leaf_of, natural, node_end, operator_of};
use tree::{Class, LeafKind, OperatorKind};

// What an outcome is as a result: its value with the place after it, or that it has none.
fn worked(o: Outcome, next: usize) -> Result<Worked, Stop>
    ensures { Gives o next result }
{
    match o {
        Outcome::Value(value) => Ok(Worked { value, next }),
        _ => Err(Stop::NoValue(o)),
    }
}

// The outcome of a result, or the element that has to be worked out first.
pub(super) fn answer_of(r: Result<Worked, Stop>) -> Result<Outcome, Awaited>
    ensures { result ≡ answer_of r }
{
    match r {
        Ok(w) => Ok(Outcome::Value(w.value)),
        Err(Stop::NoValue(o)) => Ok(o),
        Err(Stop::Awaits(d)) => Err(d),
    }
}

// A constant.
fn constant(s: &[u8], at: usize) -> Worked
    requires { NodedAs s.now at Class.Leaf }
    ensures { ConstantRead s.now at result }
{
    Worked {
        value: integer::number_at(s, at + 8),
        next: node_end(s, at),
    }
}

impl Evaluator<'_, '_> {
    ghost use Rattle.evaluate.specs.Evaluating.{Stands, bytes, Same, Evaluates, ElementDone};

    // Element e, the one of variable v at z: what the memo has, or else what the body gives. Where no depth remains, it has to be worked
    // out first.
    #[cycle(branch_dependence_element_expression_leaf_one_operator_restriction_three_two_variable)]
    pub fn element(
        &mut self,
        v: usize,
        e: usize,
        z: [i64; 4],
        depth: usize,
    ) -> Result<Outcome, Awaited>
        requires { Stands self.old × ElementIs (bytes self.old) v e z }
        ensures same { Same self.old self.new }
        ensures done { ElementDone self.old self.new e result }
    {
        let had = known(self.memo, e);
        if had.is_ok() || depth == 0 {
            return had;
        }
        mark(self.memo, e);
        let at = self.ground.table.body_place(v);
        let r = answer_of(self.expression(at, 2048, z, depth - 1));
        note(self.memo, e, r);
        r
    }

    // The tree at `at`, of at most `left` nodes, at z, where it holds without a clash.
    #[cycle(branch_dependence_element_expression_leaf_one_operator_restriction_three_two_variable)]
    pub fn expression(
        &mut self,
        at: usize,
        left: usize,
        z: [i64; 4],
        depth: usize,
    ) -> Result<Worked, Stop>
        requires { Stands self.old × Held (bytes self.old) at left z }
        ensures same { Same self.old self.new }
        ensures done { Evaluates self.old self.new at z result }
    {
        let s = self.ground.sheet;
        let class = class_of(s, at);
        match class {
            Class::Leaf => self.leaf(at, left, z, depth),
            Class::Operator => self.operator(at, left, z, depth),
            Class::Case => self.branch(at, left, z, depth),
            Class::Restriction => self.restriction(at, left, z, depth),
            Class::Dependence => self.dependence(at, left, z, depth),
        }
    }

    // A leaf.
    #[cycle(branch_dependence_element_expression_leaf_one_operator_restriction_three_two_variable)]
    fn leaf(&mut self, at: usize, left: usize, z: [i64; 4], depth: usize) -> Result<Worked, Stop>
        requires { Stands self.old × HeldAs Class.Leaf (bytes self.old) at left z }
        ensures same { Same self.old self.new }
        ensures done { Evaluates self.old self.new at z result }
    {
        let s = self.ground.sheet;
        let kind = leaf_of(s, at);
        match kind {
            LeafKind::Variable => self.variable(at, left, z, depth),
            LeafKind::Integer | LeafKind::Boolean => Ok(constant(s, at)),
        }
    }

    // A variable at z: off its box it is outside.
    #[cycle(branch_dependence_element_expression_leaf_one_operator_restriction_three_two_variable)]
    fn variable(
        &mut self,
        at: usize,
        left: usize,
        z: [i64; 4],
        depth: usize,
    ) -> Result<Worked, Stop>
        requires { Stands self.old × HeldLeaf LeafKind.Variable (bytes self.old) at left z }
        ensures same { Same self.old self.new }
        ensures done { Evaluates self.old self.new at z result }
    {
        let s = self.ground.sheet;
        let table = self.ground.table;
        let next = node_end(s, at);
        let v = natural(s, at + 8);
        let found = points::index(s, table.record_place(v), z);
        let Some(i) = found else {
            return Err(Stop::NoValue(Outcome::Outside));
        };
        let e = table.first_element(v) + i;
        let o = self.element(v, e, z, depth)?;
        worked(o, next)
    }

    // An operator.
    #[cycle(branch_dependence_element_expression_leaf_one_operator_restriction_three_two_variable)]
    fn operator(
        &mut self,
        at: usize,
        left: usize,
        z: [i64; 4],
        depth: usize,
    ) -> Result<Worked, Stop>
        requires { Stands self.old × HeldAs Class.Operator (bytes self.old) at left z }
        ensures same { Same self.old self.new }
        ensures done { Evaluates self.old self.new at z result }
    {
        let s = self.ground.sheet;
        let kind = operator_of(s, at);
        match kind {
            OperatorKind::Unary => self.one(at, left, z, depth),
            OperatorKind::Binary => self.two(at, left, z, depth),
            OperatorKind::If => self.three(at, left, z, depth),
        }
    }

    // A unary operator.
    #[cycle(branch_dependence_element_expression_leaf_one_operator_restriction_three_two_variable)]
    fn one(&mut self, at: usize, left: usize, z: [i64; 4], depth: usize) -> Result<Worked, Stop>
        requires { Stands self.old × HeldOperator OperatorKind.Unary (bytes self.old) at left z }
        ensures same { Same self.old self.new }
        ensures done { Evaluates self.old self.new at z result }
    {
        let s = self.ground.sheet;
        let n = left - 1;
        let from = node_end(s, at);
        let a = self.expression(from, n, z, depth)?;
        worked(
            integer::unary(Unary::from(natural(s, at + 8)), a.value),
            a.next,
        )
    }

    // A binary operator: the left operand, then the right one.
    #[cycle(branch_dependence_element_expression_leaf_one_operator_restriction_three_two_variable)]
    fn two(&mut self, at: usize, left: usize, z: [i64; 4], depth: usize) -> Result<Worked, Stop>
        requires { Stands self.old × HeldOperator OperatorKind.Binary (bytes self.old) at left z }
        ensures same { Same self.old self.new }
        ensures done { Evaluates self.old self.new at z result }
    {
        let s = self.ground.sheet;
        let n = left - 1;
        let from = node_end(s, at);
        let a = self.expression(from, n, z, depth)?;
        // the way out is written, and no `?`: a wrong program changes it alone (must-fail/right_error_dropped.edit)
        match self.expression(a.next, n, z, depth) {
            Ok(b) => worked(
                integer::binary(Binary::from(natural(s, at + 8)), a.value, b.value),
                b.next,
            ),
            Err(stop) => Err(stop),
        }
    }

    // An if: all three parts.
    #[cycle(branch_dependence_element_expression_leaf_one_operator_restriction_three_two_variable)]
    fn three(&mut self, at: usize, left: usize, z: [i64; 4], depth: usize) -> Result<Worked, Stop>
        requires { Stands self.old × HeldOperator OperatorKind.If (bytes self.old) at left z }
        ensures same { Same self.old self.new }
        ensures done { Evaluates self.old self.new at z result }
    {
        let s = self.ground.sheet;
        let n = left - 1;
        let from = node_end(s, at);
        let test = self.expression(from, n, z, depth)?;
        let then = self.expression(test.next, n, z, depth)?;
        // written out for must-fail/untaken_arm_skipped.edit
        match self.expression(then.next, n, z, depth) {
            Ok(other) => worked(
                integer::choose(test.value != 0, then.value, other.value),
                other.next,
            ),
            Err(why) => Err(why),
        }
    }

    // A case: the branch that holds. The case ends after all its branches.
    #[cycle(branch_dependence_element_expression_leaf_one_operator_restriction_three_two_variable)]
    fn branch(&mut self, at: usize, left: usize, z: [i64; 4], depth: usize) -> Result<Worked, Stop>
        requires { Stands self.old × HeldAs Class.Case (bytes self.old) at left z }
        ensures same { Same self.old self.new }
        ensures done { Evaluates self.old self.new at z result }
    {
        let n = left - 1;
        let taken = self.ground.holding(self.ends, at, left, z);
        let r = self.expression(taken, n, z, depth)?;
        let end = end_of(self.ground.sheet, self.ends, at, left);
        Ok(Worked { next: end, ..r })
    }

    // A restriction: its child at the same point.
    #[cycle(branch_dependence_element_expression_leaf_one_operator_restriction_three_two_variable)]
    fn restriction(
        &mut self,
        at: usize,
        left: usize,
        z: [i64; 4],
        depth: usize,
    ) -> Result<Worked, Stop>
        requires { Stands self.old × HeldAs Class.Restriction (bytes self.old) at left z }
        ensures same { Same self.old self.new }
        ensures done { Evaluates self.old self.new at z result }
    {
        let s = self.ground.sheet;
        let n = left - 1;
        let child = node_end(s, at);
        self.expression(child, n, z, depth)
    }

    // A dependence: its child at the image of the point.
    #[cycle(branch_dependence_element_expression_leaf_one_operator_restriction_three_two_variable)]
    fn dependence(
        &mut self,
        at: usize,
        left: usize,
        z: [i64; 4],
        depth: usize,
    ) -> Result<Worked, Stop>
        requires { Stands self.old × HeldAs Class.Dependence (bytes self.old) at left z }
        ensures same { Same self.old self.new }
        ensures done { Evaluates self.old self.new at z result }
    {
        let s = self.ground.sheet;
        let n = left - 1;
        let y = affine::image_at(s, at + 8, z);
        let child = node_end(s, at);
        self.expression(child, n, y, depth)
    }
}
