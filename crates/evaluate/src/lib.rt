// The outcomes of elements, each worked out once. An element is worked out by its body, an expression by its operands and by the
// elements that it names; the memo has what is settled, and marks what is in progress. Assumes nothing.
#![tactic(auto)]

ghost use Rattle.std.specs.Prelude.{◌≡◌};
ghost use Rattle.laws.specs.Sheets.{sheet_of};
ghost use Rattle.tree.specs.Ends.{EndsKept};
ghost use Rattle.evaluate.specs.declared.Stop.TheVariants as Stops;
ghost use Rattle.evaluate.specs.Memo.{memo_of};
ghost use Rattle.evaluate.specs.Working.{Ready};

use alpha::Outcome;
use domain::Ground;

pub mod expression;
pub mod memo;
pub mod settle;

// The element that has to be worked out first.
#[derive(Clone, Copy)]
pub struct Awaited {
    pub element: usize,
}

// Why an expression has no value: its outcome is none, or an element has to be worked out first.
#[derive(Clone, Copy)]
pub enum Stop {
    NoValue(Outcome),
    Awaits(Awaited),
}

impl From<Awaited> for Stop {
    ghost from_gives = { λ d r. r ≡ Stops.Awaits d };

    fn from(d: Awaited) -> Stop {
        Stop::Awaits(d)
    }
}

// An expression's value, and the place after the expression.
#[derive(Clone, Copy)]
pub struct Worked {
    pub value: i64,
    pub next: usize,
}

// The evaluator: the sheet with its tables, the ends that are kept, and the memo, in which each element that is not settled has a body.
// That the sheet is formed stays a requirement (`Stands`), as it does of the ground.
#[derive(Drop)]
pub struct Evaluator<'a, 'm> {
    pub ground: Ground<'a>,
    pub ends: &'a [u16; 8192],
    pub memo: &'m mut [u64; 4096],
    ghost kept: { EndsKept ground.sheet.now ends.now },
    ghost ready: { Ready (sheet_of ground.sheet.now) (memo_of memo.now) },
}
