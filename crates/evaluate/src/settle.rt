// One element settled, and first those that it waits for: the evaluators go DEPTH elements deep, and what lies deeper is worked out
// before, on a stack of the elements in progress, so that no sheet takes more of the machine's own stack. Assumes nothing.
ghost use Rattle.std.specs.Prelude.{◌≡◌, ◌+◌, ◌-◌, ◌≤◌, ◌<◌, get_or, set};
ghost use Rattle.alpha.specs.Check.{total};
ghost use Rattle.evaluate.specs.Working.{ElementIs};
ghost use Rattle.evaluate.specs.Settling.{Owns, Alone, Open, Busy};

use super::expression::answer_of;
use super::memo::{known, mark, note};
use super::{Awaited, Evaluator};
use alpha::Outcome;

const DEPTH: usize = 4;

// The elements in progress: as many of the entries as the stack is high.
#[derive(Drop)]
struct Stack {
    entries: [u16; 4096],
    high: usize,
}

impl Stack {
    ghost use Rattle.evaluate.specs.Evaluating.{Pushed};

    // Puts element e on top.
    fn push(&mut self, e: usize)
        requires { (self.old.high < 4096) × (e < 4096) }
        ensures { Pushed self.old self.new e }
    {
        self.entries[self.high] = e as u16;
        self.high += 1;
    }
}

impl Evaluator<'_, '_> {
    ghost use Rattle.evaluate.specs.Evaluating.{Stands, bytes, sheet, memo, Same, ElementDone, BodyDone, Settles, Stacked, Turned};

    // The variable that has element e: the last one has it where none before does.
    fn owner(&self, e: usize) -> usize
        requires { Stands self.now × (e < total (sheet self.now)) }
        ensures { Owns (bytes self.now) self.now.ground.table.now e result }
    {
        let table = self.ground.table;
        let last = table.variable_count() - 1;
        for v in 0..last {
            if e < table.first_element(v + 1) {
                return v;
            }
        }
        last
    }

    // The point of element e, which variable v has.
    fn point_of(&self, v: usize, e: usize) -> [i64; 4]
        requires { Stands self.now × Owns (bytes self.now) self.now.ground.table.now e v }
        ensures { ElementIs (bytes self.now) v e result }
    {
        let table = self.ground.table;
        let first = table.first_element(v);
        points::point(self.ground.sheet, table.record_place(v), e - first)
    }

    // The body of element e, which is in progress.
    fn body(&mut self, e: usize) -> Result<Outcome, Awaited>
        requires { Stands self.old × Busy (sheet self.old) (memo self.old) e }
        ensures same { Same self.old self.new }
        ensures done { BodyDone self.old self.new e result }
    {
        let v = self.owner(e);
        let z = self.point_of(v, e);
        let at = self.ground.table.body_place(v);
        answer_of(self.expression(at, 2048, z, DEPTH))
    }

    // One turn: the element on top of the stack is settled and taken off, or one that it waits for comes on top of it.
    fn turn(&mut self, stack: &mut Stack)
        requires { Stands self.old × Stacked self.old stack.old }
        ensures same { Same self.old self.new }
        ensures turned { Turned self.old stack.old self.new stack.new }
    {
        let top = stack.entries[stack.high - 1] as usize;
        let r = self.body(top);
        if let Err(d) = r {
            mark(self.memo, d.element);
            stack.push(d.element);
            return;
        }
        note(self.memo, top, r);
        stack.high -= 1;
    }

    // Element e, which is unknown, is worked out, and what it waits for before it: the memo has its outcome then.
    fn settle_deep(&mut self, e: usize) -> Outcome
        requires { Stands self.old × Open (sheet self.old) (memo self.old) e }
        ensures same { Same self.old self.new }
        ensures settled { Settles self.old self.new e result }
    {
        let mut stack = Stack {
            entries: [0; 4096],
            high: 0,
        };
        mark(self.memo, e);
        stack.push(e);
        // a loop with a condition: how many turns it takes is not known before
        while 0 < stack.high {
            self.turn(&mut stack);
        }
        known(self.memo, e).unwrap_or(Outcome::Loop)
    }

    // The outcome of element e, which is worked out if it is not settled already: most need no stack.
    pub fn settle(&mut self, e: usize) -> Outcome
        requires { Stands self.old × Alone (sheet self.old) (memo self.old) e }
        ensures same { Same self.old self.new }
        ensures settled { Settles self.old self.new e result }
    {
        if let Ok(o) = known(self.memo, e) {
            return o;
        }
        let v = self.owner(e);
        let z = self.point_of(v, e);
        // the memo tells what became of it, and that is read again: an outcome by itself does not say that it was stored
        let _ = self.element(v, e, z, DEPTH + 1);
        if let Ok(o) = known(self.memo, e) {
            return o;
        }
        self.settle_deep(e)
    }
}
