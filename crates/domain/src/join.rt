// How a tree stands, and how several stand together. Assumes nothing.
ghost use Rattle.std.specs.Prelude.{◌≡◌};
ghost use Rattle.alpha.specs.Verdict.{told};
ghost use Rattle.domain.specs.Element.{fault_of};
ghost use Rattle.domain.specs.Holding.{is_held};
ghost use Rattle.domain.specs.Standing as Meaning;

use super::{Standing, Together};
use alpha::Refusal;

impl Standing {
    // Whether it holds, with a clash or without.
    pub(super) fn is_held(self) -> bool
        ensures { result ≡ is_held self }
    {
        match self {
            Standing::Not => false,
            Standing::Holds | Standing::Clash => true,
        }
    }

    // What is said of the element numbered n whose body stands so.
    pub fn fault(self, n: usize) -> Result<(), Refusal>
        ensures { told result ≡ fault_of self n }
    {
        match self {
            Standing::Not => Err(Refusal::Gap(n)),
            Standing::Holds => Ok(()),
            Standing::Clash => Err(Refusal::Clash(n)),
        }
    }

    // Of two operands: not where one does not hold, and else a clash where one has it.
    fn both(self, other: Standing) -> Standing
        ensures { result ≡ Meaning.both self other }
    {
        match (self, other) {
            (Standing::Not, _) | (_, Standing::Not) => Standing::Not,
            (Standing::Holds, Standing::Holds) => Standing::Holds,
            _ => Standing::Clash,
        }
    }

    // Of two branches: a clash where both hold, and else as the one that holds.
    fn either(self, other: Standing) -> Standing
        ensures { result ≡ Meaning.either self other }
    {
        match (self, other) {
            (Standing::Not, how) | (how, Standing::Not) => how,
            _ => Standing::Clash,
        }
    }
}

impl Together {
    // Two of them.
    pub fn joined(self, a: Standing, b: Standing) -> Standing
        ensures { result ≡ Meaning.joined self a b }
    {
        match self {
            Together::Branches => a.either(b),
            Together::Operands => a.both(b),
        }
    }

    // None of them.
    pub fn alone(self) -> Standing
        ensures { result ≡ Meaning.alone self }
    {
        match self {
            Together::Branches => Standing::Not,
            Together::Operands => Standing::Holds,
        }
    }
}
