// The normaliser: the sheet with every body in normal form (source document 002, 8.1 to 8.3), or WIDE or ROOM. Nothing is copied but the
// first two sections: a case has its children's branches in turn; a branch of any other tree is found by its number, counted over the tree,
// and followed from the top down with the map composed so far, once for its constraints and once for its tree. Assumes nothing.
#![tactic(auto)]

ghost use Rattle.alpha.specs.Promise.{Normalises};

use accept::judge;
use alpha::Refusal;
use plan::plan;
use sheet::table::Table;
use sheet::too_long;
use write::write_all;

mod choose;
mod count;
mod follow;
mod node;
mod plan;
mod rows;
mod turn;
mod write;

// Which of a tree's branches, or which combination of operands: its number, and how many there are.
#[derive(Clone, Copy)]
pub struct Choice {
    pub number: usize,
    pub of: usize,
}

// A branch of a case: where the child stands that it comes from, and which of the child's branches it is.
#[derive(Clone, Copy)]
pub struct Chosen {
    pub at: usize,
    pub choice: Choice,
}

// A combination of operands: which branch of the first; where the others start, and which combination of them.
#[derive(Clone, Copy)]
pub struct Split {
    pub first: Choice,
    pub next: usize,
    pub rest: Choice,
}

// What a branch is made of: the constraints that it stands under, and its tree.
#[derive(Clone, Copy)]
pub enum Half {
    Constraints,
    Tree,
}

// What becomes of the bytes: they are only measured, or stored.
#[derive(Clone, Copy)]
pub enum Mode {
    Measure,
    Store,
}

// A walk along a branch: over which sheet, for which half of the branch, and what becomes of its bytes. A place and how many nodes stand from
// it on at most stay two numbers.
#[derive(Clone, Copy)]
pub struct Walk<'a> {
    pub sheet: &'a [u8],
    pub half: Half,
    pub mode: Mode,
}

// The bodies of a sheet in normal form, as restrictions of so many dimensions: what becomes of their bytes.
#[derive(Clone, Copy)]
pub struct Body<'a> {
    pub sheet: &'a [u8],
    pub dimension: usize,
    pub mode: Mode,
}

// Trees one after another: the children of a case, whose branches are added, or operands, whose branches are combined.
#[derive(Clone, Copy)]
pub enum Group {
    Children,
    Operands,
}

// How many branches a tree has, or several have, up to 65; and where they end.
#[derive(Clone, Copy)]
pub struct Branches {
    pub many: usize,
    pub next: usize,
}

// How far writing has come: the place, how many things are written (constraints, or nodes), and how deep the deepest lies. What is lent stays
// beside the pen, since a pen that only measures writes on nothing.
#[derive(Clone, Copy)]
pub struct Pen {
    pub to: usize,
    pub things: usize,
    pub deep: usize,
}

// What the branches so far take in the normal form, with what stands before them: sums of nodes and bytes, and the most constraints and
// levels of one.
#[derive(Clone, Copy)]
pub struct Taken {
    pub nodes: usize,
    pub bytes: usize,
    pub limits: usize,
    pub deep: usize,
}

// The totals of the normal form: nodes, and bytes with the first two sections and the node count.
#[derive(Clone, Copy)]
pub struct Totals {
    pub nodes: usize,
    pub bytes: usize,
}

// The length written, and the normal form's bytes from the start of `out`; or the sheet's refusals, then WIDE, then ROOM.
pub fn normalise(s: &[u8], out: &mut [u8]) -> Result<usize, Refusal>
    ensures { Normalises s.now out.old out.new result }
{
    if too_long(s) {
        return Err(Refusal::Long);
    }
    let mut tab = Table::new();
    judge(s, &mut tab)?;
    let front = Totals {
        nodes: 0,
        bytes: tab.third_place() + 8,
    };
    let totals = plan(s, &tab, front)?;
    write_all(s, &tab, totals, out)
}
