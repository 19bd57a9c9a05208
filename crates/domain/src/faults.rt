// GAP and CLASH over the elements in order: at each element of a variable that is no input, inside its declared domain, its body holds
// and no case that is reached clashes. Assumes nothing.
ghost use Rattle.std.specs.Prelude.{◌≡◌, ◌<◌};
ghost use Rattle.alpha.specs.Box as Box;
ghost use Rattle.alpha.specs.Holds.{variable};
ghost use Rattle.alpha.specs.Check as Check;
ghost use Rattle.alpha.specs.Verdict.{told};
ghost use Rattle.laws.specs.Sheets.{vars_of, sheet_of};
ghost use Rattle.tree.specs.Formed.{Formed};
ghost use Rattle.domain.specs.Element.{body_standing, faults_of, HasBody, BodyPoint};

use super::{Ground, Standing};
use alpha::{Kind, Refusal};
use tree::variable::kind_of;

impl Ground<'_> {
    // How the body of variable v stands at the i-th point of its box. Outside its declared domain it is not asked.
    fn body_stands(&self, v: usize, i: usize) -> Standing
        requires { Formed self.now.sheet.now self.now.table.now × BodyPoint self.now.sheet.now v i }
        ensures { result ≡ body_standing (sheet_of self.now.sheet.now) v (Box.point_at (variable (sheet_of self.now.sheet.now) v).head.box i) }
    {
        if !self.inside[self.table.first_element(v) + i] {
            return Standing::Holds;
        }
        let z = points::point(self.sheet, self.table.record_place(v), i);
        self.stand(self.table.body_place(v), 2048, z).how
    }

    // The elements of variable v, which is no input.
    fn body_faults(&self, v: usize) -> Result<(), Refusal>
        requires { Formed self.now.sheet.now self.now.table.now × HasBody self.now.sheet.now v }
        ensures { told result ≡ faults_of (sheet_of self.now.sheet.now) v }
    {
        let first = self.table.first_element(v);
        for i in 0..self.table.first_element(v + 1) - first {
            self.body_stands(v, i).fault(first + i)?;
        }
        Ok(())
    }

    // The elements of variable v. An input has no body.
    fn variable_faults(&self, v: usize) -> Result<(), Refusal>
        requires { Formed self.now.sheet.now self.now.table.now × (v < vars_of self.now.sheet.now) }
        ensures { told result ≡ faults_of (sheet_of self.now.sheet.now) v }
    {
        if kind_of(self.sheet, self.table, v) == Kind::Input {
            return Ok(());
        }
        self.body_faults(v)
    }

    // All elements: refusals 10 and 11 with their places.
    pub(super) fn faults(&self) -> Result<(), Refusal>
        requires { Formed self.now.sheet.now self.now.table.now }
        ensures { told result ≡ Check.faults (sheet_of self.now.sheet.now) 0 (Check.elements (sheet_of self.now.sheet.now)) }
    {
        for v in 0..self.table.variable_count() {
            self.variable_faults(v)?;
        }
        Ok(())
    }
}
