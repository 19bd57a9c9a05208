// A variable at a point, by the table of the elements that are inside their declared domain; and a leaf, which is a variable or a constant.
// Assumes nothing.
ghost use Rattle.std.specs.Prelude.{◌≡◌, ◌<◌};
ghost use Rattle.alpha.specs.Sheet.{Expr.var};
ghost use Rattle.alpha.specs.Read.{dimension};
ghost use Rattle.laws.specs.At.{node_end};
ghost use Rattle.laws.specs.Sheets.{heads_of, vars_of, sheet_of};
ghost use Rattle.affine.specs.Value.{point_of};
ghost use Rattle.tree.specs.declared.Class.TheVariants.{Leaf};
ghost use Rattle.tree.specs.Standing.{NodedAs};
ghost use Rattle.domain.specs.Standing.{standing, StandsAt};

use super::{Ground, Standing};
use tree::LeafKind;
use tree::node::{leaf_of, natural};

impl Ground<'_> {
    // How the variable v stands at z.
    fn variable_stands(&self, v: usize, z: [i64; 4]) -> Standing
        requires { v < vars_of self.now.sheet.now }
        ensures { result ≡ standing (var v) (sheet_of self.now.sheet.now) (point_of (dimension (heads_of self.now.sheet.now) v) z) }
    {
        let found = points::index(self.sheet, self.table.record_place(v), z);
        let Some(i) = found else {
            return Standing::Not;
        };
        if self.inside[self.table.first_element(v) + i] {
            Standing::Holds
        } else {
            Standing::Not
        }
    }

    // How the leaf at `at` stands at z: a constant holds.
    pub fn leaf_stands(&self, at: usize, z: [i64; 4]) -> Standing
        requires { NodedAs self.now.sheet.now at Leaf }
        ensures { StandsAt self.now.sheet.now at z (record { how = result; next = node_end (vars_of self.now.sheet.now) self.now.sheet.now at }) }
    {
        match leaf_of(self.sheet, at) {
            LeafKind::Variable => self.variable_stands(natural(self.sheet, at + 8), z),
            LeafKind::Integer | LeafKind::Boolean => Standing::Holds,
        }
    }
}
