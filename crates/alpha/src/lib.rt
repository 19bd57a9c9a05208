// What the public calls answer. A refusal carries its place; specs/Verdict.antt gives document 01's number, place, code and value
// for each case, and the promises of specs/Promise.antt speak through it. Assumes nothing.
#![tactic(auto)]

ghost use Rattle.std.specs.Prelude.{◌≡◌};
ghost use Rattle.alpha.specs.Verdict.{number_of, place_of, code_for, value_for};

mod kind;

pub use kind::{Binary, Kind, Relation, Sort, Unary};

// A refusal with its place: a byte offset, a variable's number, an element's number, an index or a length, as its case has it.
#[derive(Clone, Copy)]
pub enum Refusal {
    Long,
    Cut(usize),
    Count(usize),
    Name(usize),
    Number(usize),
    Tail(usize),
    Shape(usize),
    Typing(usize),
    Reach(usize),
    Gap(usize),
    Clash(usize),
    Input(usize),
    Wide(usize),
    Room(usize),
    Ask,
}

// The outcome of an element.
#[derive(Clone, Copy)]
pub enum Outcome {
    Outside,
    Value(i64),
    DivZero,
    Overflow,
    Loop,
}

impl Refusal {
    // The refusal's number.
    pub fn number(self) -> u64
        ensures { result ≡ number_of self }
    {
        match self {
            Refusal::Long => 1,
            Refusal::Cut(_) => 2,
            Refusal::Count(_) => 3,
            Refusal::Name(_) => 4,
            Refusal::Number(_) => 5,
            Refusal::Tail(_) => 6,
            Refusal::Shape(_) => 7,
            Refusal::Typing(_) => 8,
            Refusal::Reach(_) => 9,
            Refusal::Gap(_) => 10,
            Refusal::Clash(_) => 11,
            Refusal::Input(_) => 12,
            Refusal::Wide(_) => 13,
            Refusal::Room(_) => 14,
            Refusal::Ask => 15,
        }
    }

    // The refusal's place.
    pub fn place(self) -> usize
        ensures { result ≡ place_of self }
    {
        match self {
            Refusal::Long | Refusal::Ask => 0,
            Refusal::Cut(p)
            | Refusal::Count(p)
            | Refusal::Name(p)
            | Refusal::Number(p)
            | Refusal::Tail(p)
            | Refusal::Shape(p)
            | Refusal::Typing(p)
            | Refusal::Reach(p)
            | Refusal::Gap(p)
            | Refusal::Clash(p)
            | Refusal::Input(p)
            | Refusal::Wide(p)
            | Refusal::Room(p) => p,
        }
    }
}

impl Outcome {
    // The outcome's code.
    pub fn code(self) -> u8
        ensures { result ≡ code_for self }
    {
        match self {
            Outcome::Outside => 0,
            Outcome::Value(_) => 1,
            Outcome::DivZero => 2,
            Outcome::Overflow => 3,
            Outcome::Loop => 4,
        }
    }

    // The outcome's value, 0 where it has none.
    pub fn value(self) -> i64
        ensures { result ≡ value_for self }
    {
        match self {
            Outcome::Value(x) => x,
            Outcome::Outside | Outcome::DivZero | Outcome::Overflow | Outcome::Loop => 0,
        }
    }
}
