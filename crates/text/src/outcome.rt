// An element's outcome, and its value by its variable's type. Assumes nothing.
ghost use Rattle.std.specs.Prelude.{length};
ghost use Rattle.alpha.specs.Kinds.{sort_meant};
ghost use Rattle.alpha.specs.Program.{value_text, outcome_text};
ghost use Rattle.alpha.specs.Verdict.{outcome_of};
ghost use Rattle.text.specs.Wrote.{Wrote, Room};

use super::writer::Writer;
use alpha::{Outcome, Sort};

impl Writer<'_> {
    // The value x of a variable of that type.
    pub fn value(&mut self, sort: Sort, x: i64)
        requires { Room (length (value_text (sort_meant sort) x)) self.old }
        ensures { Wrote self.old self.new (value_text (sort_meant sort) x) }
    {
        match sort {
            Sort::Integer => self.signed(x),
            Sort::Boolean if x == 0 => self.word(b"false"),
            Sort::Boolean => self.word(b"true"),
        }
    }

    // An outcome of such a variable.
    pub fn outcome(&mut self, sort: Sort, o: Outcome)
        requires { Room (length (outcome_text (sort_meant sort) (outcome_of o))) self.old }
        ensures { Wrote self.old self.new (outcome_text (sort_meant sort) (outcome_of o)) }
    {
        match o {
            Outcome::Outside => self.word(b" -"),
            Outcome::Value(x) => {
                self.word(b" = ");
                self.value(sort, x);
            }
            Outcome::DivZero => self.word(b" ! DIVZERO"),
            Outcome::Overflow => self.word(b" ! OVERFLOW"),
            Outcome::Loop => self.word(b" ! LOOP"),
        }
    }
}
