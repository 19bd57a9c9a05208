// What one node gives to a branch: to its tree, or to its constraints. Assumes nothing.
ghost use Rattle.std.specs.Prelude.{◌≡◌, ℕ, ◌+◌, ◌^◌, ◌≤◌, max, length};
ghost use Rattle.std.proofs.lemmas.List.Edits.{sets};
ghost use Rattle.laws.specs.At.{node_size, node_read};
ghost use Rattle.laws.specs.Sheets.{vars_of};
ghost use Rattle.affine.specs.declared.Map.{Map};
ghost use Rattle.affine.specs.Value.{Neat};
ghost use Rattle.tree.specs.declared.Class.TheVariants.{Leaf, Operator, Restriction};
ghost use Rattle.tree.specs.Classes.{class_at};
ghost use Rattle.tree.specs.Standing.{Noded, NodedAs};
ghost use Rattle.normal.specs.declared.Half.TheVariants.{Constraints, Tree};
ghost use Rattle.normal.specs.Followed.{room_of, Visits, MayVisit, Visited};
ghost use Rattle.normal.specs.Spot.{two_fields, Spot, OperatorFits, Stop, Stores};

use super::rows::{put_constraints, put_map};
use super::{Half, Mode, Pen, Walk};
use affine::Map;
use integer::{number_at, put, put_nat};
use tree::node::{class_of, natural, node_end, operator_of};
use tree::{Class, OperatorKind};

// The code and the field after it, as they stand at `at`.
fn put_two(s: &[u8], at: usize, out: &mut [u8], to: usize)
    requires { (at + 16 ≤ length s.now) × (to + 16 ≤ length out.old) }
    ensures { out.new ≡ sets out.old to (two_fields s.now at) }
{
    put_nat(out, to, natural(s, at));
    put(out, to + 8, number_at(s, at + 8));
}

// A leaf, below one dependence.
fn put_leaf(s: &[u8], at: usize, m: &Map, out: &mut [u8], to: usize)
    requires { Spot s.now at m.now Tree to (length out.old) × (class_at s.now at ≡ Leaf) }
    ensures { Stores s.now at m.now Tree to out.old out.new }
{
    put_map(out, to, m);
    put_two(s, at, out, to + (24 + m.height * (8 * m.width + 8)));
}

// An operator as it is, whatever the map: its code, and but for an if one field more.
fn put_operator(s: &[u8], at: usize, out: &mut [u8], to: usize)
    requires { NodedAs s.now at Operator × (to + node_size (node_read (vars_of s.now) s.now at) ≤ length out.old) }
    ensures { (m : Map) → Stores s.now at m Tree to out.old out.new }
{
    match operator_of(s, at) {
        OperatorKind::Unary | OperatorKind::Binary => put_two(s, at, out, to),
        OperatorKind::If => put_nat(out, to, 5),
    }
}

impl Pen {
    // The pen after a part of such a size.
    fn after(self, size: Pen) -> Pen
        requires { (self.to + size.to ≤ 2 ^ 40) × (self.things + size.things ≤ 2 ^ 40) }
        ensures { result ≡ record { to = self.to + size.to; things = self.things + size.things; deep = max self.deep size.deep } }
    {
        Pen {
            to: self.to + size.to,
            things: self.things + size.things,
            deep: self.deep.max(size.deep),
        }
    }
}

impl Walk<'_> {
    // A leaf of the tree, below `level` nodes.
    fn leaf(&self, at: usize, m: &Map, level: usize, out: &mut [u8], pen: Pen) -> Pen
        requires { Stop self.now.sheet.now at m.now Tree level pen (room_of self.now.mode out.old) × (class_at self.now.sheet.now at ≡ Leaf) }
        ensures { Visits self.now.sheet.now at m.now Tree level self.now.mode pen out.old out.new result }
    {
        let size = Pen {
            to: 40 + m.height * (8 * m.width + 8),
            things: 2,
            deep: level + 2,
        };
        match self.mode {
            Mode::Measure => {}
            Mode::Store => put_leaf(self.sheet, at, m, out, pen.to),
        }
        pen.after(size)
    }

    // An operator of the tree: as long as it stands.
    fn operator(&self, at: usize, out: &mut [u8], pen: Pen) -> Pen
        requires { OperatorFits self.now.sheet.now at pen (room_of self.now.mode out.old) }
        ensures { (m : Map) (level : ℕ) → Visits self.now.sheet.now at m Tree level self.now.mode pen out.old out.new result }
    {
        let size = Pen {
            to: node_end(self.sheet, at) - at,
            things: 1,
            deep: 0,
        };
        match self.mode {
            Mode::Measure => {}
            Mode::Store => put_operator(self.sheet, at, out, pen.to),
        }
        pen.after(size)
    }

    // The constraints of a restriction, after the map.
    fn constraints(&self, at: usize, m: &Map, out: &mut [u8], pen: Pen) -> Pen
        requires { Stop self.now.sheet.now at m.now Constraints 0 pen (room_of self.now.mode out.old) × (class_at self.now.sheet.now at ≡ Restriction) }
        ensures { Visits self.now.sheet.now at m.now Constraints 0 self.now.mode pen out.old out.new result }
    {
        let n = natural(self.sheet, at + 8);
        let count = natural(self.sheet, at + 16);
        let size = Pen {
            to: count * (16 + 8 * m.width),
            things: count,
            deep: 0,
        };
        match self.mode {
            Mode::Measure => {}
            Mode::Store => put_constraints(self.sheet, at + 24, count, n, m, out, pen.to),
        }
        pen.after(size)
    }

    // What the node at `at` gives to the half that is walked, below `level` nodes of the tree: measured, or stored at the pen.
    pub fn visit(&self, at: usize, m: &Map, level: usize, out: &mut [u8], pen: Pen) -> Pen
        requires { MayVisit self.now at m.now level out.old pen }
        ensures { Visited self.now at m.now level out.old out.new pen result }
    {
        let class = class_of(self.sheet, at);
        match self.half {
            Half::Tree => match class {
                Class::Leaf => self.leaf(at, m, level, out, pen),
                Class::Operator => self.operator(at, out, pen),
                Class::Case | Class::Restriction | Class::Dependence => pen,
            },
            Half::Constraints => match class {
                Class::Restriction => self.constraints(at, m, out, pen),
                Class::Leaf | Class::Operator | Class::Case | Class::Dependence => pen,
            },
        }
    }
}
