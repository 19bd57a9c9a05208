// The tables: each element is settled, and its code and value are put into its variable's stretch. Assumes nothing.
ghost use Rattle.run.specs.Filling.{Stretch, Room, FillsVariable, FillsAll};
ghost use Rattle.evaluate.specs.Evaluating.{Stands, sheet, memo, Same};
ghost use Rattle.alpha.specs.Check.{total};

use evaluate::Evaluator;

// Fills the stretch of variable v.
fn fill(evaluator: &mut Evaluator, v: usize, codes: &mut [u8], values: &mut [i32])
    requires { Stands evaluator.old × Stretch (sheet evaluator.old) (memo evaluator.old) v codes.old values.old }
    ensures same { Same evaluator.old evaluator.new }
    ensures filled { FillsVariable (sheet evaluator.old) v (memo evaluator.old) (memo evaluator.new) codes.new values.new }
{
    let first = evaluator.ground.table.first_element(v);
    // an index: after an adapter of `iter_mut` a proof knows nothing of the elements
    for i in 0..codes.len() {
        let o = evaluator.settle(first + i);
        codes[i] = o.code();
        values[i] = o.value() as i32;
    }
}

// Fills both tables: a middle part of each is lent on for each variable.
pub fn fill_all(evaluator: &mut Evaluator, codes: &mut [u8], values: &mut [i32])
    requires { Stands evaluator.old × Room (sheet evaluator.old) (memo evaluator.old) codes.old values.old }
    ensures same { Same evaluator.old evaluator.new }
    ensures filled { FillsAll (sheet evaluator.old) (memo evaluator.old) (total (sheet evaluator.old)) codes.old codes.new values.old values.new }
{
    let table = evaluator.ground.table;
    let n = table.variable_count();
    for v in 0..n {
        let from = table.first_element(v);
        let to = table.first_element(v + 1);
        fill(evaluator, v, &mut codes[from..to], &mut values[from..to]);
    }
}
