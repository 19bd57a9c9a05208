// Where expressions hold and where cases clash: which elements are inside their declared domain, how a tree stands at a point by one
// walk over its nodes, which branch a case takes there, and GAP and CLASH over all elements, refusals 10 and 11 of document 01.
// Assumes nothing.
#![tactic(auto)]

ghost use Rattle.std.specs.Prelude.{◌≡◌, length};
ghost use Rattle.alpha.specs.Check as Check;
ghost use Rattle.alpha.specs.Verdict.{told};
ghost use Rattle.laws.specs.Sheets.{sheet_of};
ghost use Rattle.tree.specs.Formed.{Formed};
ghost use Rattle.domain.specs.Inside.{Inside};
ghost use Rattle.domain.specs.Ground.{Grounds};
ghost use Rattle.std.proofs.Props.{props};

use alpha::Refusal;
use inside::fill;
use sheet::table::Table;

mod constraint;
mod faults;
mod holding;
mod inside;
mod join;
mod leaf;
mod stand;

// How an expression stands at a point: it does not hold, it holds, or it holds and a case that is reached there clashes.
#[derive(Clone, Copy, PartialEq, Eq)]
pub enum Standing {
    Not,
    Holds,
    Clash,
}

// How several trees stand together: as the branches of a case, or as operands.
#[derive(Clone, Copy, PartialEq, Eq)]
pub enum Together {
    Branches,
    Operands,
}

// How a tree stands, and the place after it.
#[derive(Clone, Copy)]
pub struct Stood {
    pub how: Standing,
    pub next: usize,
}

// What is known of a sheet where its trees are walked at a point: its bytes, the table of its places, and the table of the elements that
// are inside their declared domain. That the sheet is formed stays a requirement: a ghost field has to be a proposition, and `Formed` holds trees.
#[derive(Clone, Copy)]
pub struct Ground<'a> {
    pub sheet: &'a [u8],
    pub table: &'a Table,
    pub inside: &'a [bool; 4096],
    ghost grounds: { Grounds sheet.now table.now inside.now } by { Prim.hlevel props },
}

// Which elements are inside their declared domain, and then GAP and CLASH over all elements: refusals 10 and 11 with their places.
pub fn domains(s: &[u8], tab: &Table, inside: &mut [bool; 4096]) -> Result<(), Refusal>
    requires { Formed s.now tab.now × (length inside.old ≡ 4096) }
    ensures { Inside (sheet_of s.now) inside.new × (told result ≡ Check.faults (sheet_of s.now) 0 (Check.elements (sheet_of s.now))) }
{
    fill(s, tab, inside);
    let ground = Ground {
        sheet: s,
        table: tab,
        inside,
    };
    ground.faults()
}
