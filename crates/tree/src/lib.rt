// Walks over the prefix nodes of a sheet's bodies. Each function says of the tree that stands at a place of the bytes what a definition
// of crate alpha says of it. A walk does each node alike, and then its children one after another.
// `forms` is the check of SHAPE, TYPE and REACH over all variables, refusals 7, 8 and 9 of document 01.
// Assumes nothing.
#![tactic(auto)]

ghost use Rattle.std.specs.Prelude.{ℕ, ◌<◌};
ghost use Rattle.tree.specs.Prepared.{Prepared};
ghost use Rattle.tree.specs.Ruled.{FirstRefusal};
ghost use Rattle.tree.specs.Formed.{Forms};

use alpha::{Refusal, Sort};
use reaches::reaches;
use shapes::shapes;
use sheet::table::Table;
use types::types;

pub mod ends;
pub mod node;
pub mod reach;
mod reaches;
pub mod shape;
mod shapes;
pub mod skip;
mod types;
pub mod typing;
pub mod variable;

// What kind of node a code stands for. Every walk over nodes goes by it, case by case: a new kind of node is a new case here.
#[derive(Clone, Copy)]
pub enum Class {
    Leaf,
    Operator,
    Case,
    Restriction,
    Dependence,
}

// The leaves: a variable, or a constant.
#[derive(Clone, Copy)]
pub enum LeafKind {
    Variable,
    Integer,
    Boolean,
}

// The operators, by their operands: one, two, or the three of an if.
#[derive(Clone, Copy)]
pub enum OperatorKind {
    Unary,
    Binary,
    If,
}

// The nodes that are left: where the next of them stands, and how many there are.
#[derive(Clone, Copy)]
pub struct Rest {
    pub next: usize,
    pub left: usize,
}

// The type of a tree, and the place after it.
#[derive(Clone, Copy)]
pub struct Typed {
    pub sort: Sort,
    pub next: usize,
}

// A rule at each number below n, in order: the first refusal ends it.
pub fn each_below<F: Fn(usize) -> Result<(), Refusal>>(n: usize, rule: F) -> Result<(), Refusal>
    requires { (i : ℕ) → i < n → F.pre rule i }
    ensures { FirstRefusal (F.post rule) n result }
{
    for i in 0..n {
        rule(i)?;
    }
    Ok(())
}

// SHAPE, then TYPE, then REACH, each over all variables. The table gets the places of the bodies.
pub fn forms(s: &[u8], tab: &mut Table) -> Result<(), Refusal>
    requires { Prepared s.now tab.old }
    ensures { Forms s.now tab.new result }
{
    shapes(s, tab)?;
    types(s, tab)?;
    reaches(s, tab)
}
