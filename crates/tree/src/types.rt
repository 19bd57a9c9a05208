// TYPE over all variables in order. Assumes nothing.
ghost use Rattle.std.specs.Prelude.{◌≡◌};
ghost use Rattle.alpha.specs.Answer.{TYPE};
ghost use Rattle.alpha.specs.Check.{first, typed};
ghost use Rattle.laws.specs.Sheets.{heads_of, sheet_of};
ghost use Rattle.alpha.specs.Verdict.{told};
ghost use Rattle.tree.specs.Ruled.{rule_at};
ghost use Rattle.tree.specs.Formed.{BodiesPlaced, PlacedVariable};

use super::each_below;
use super::typing::type_of;
use super::variable::{kind_of, sort_of};
use alpha::{Kind, Refusal};
use sheet::table::Table;

// The body of variable v has its variable's type. An input has no body.
fn type_right(s: &[u8], tab: &Table, v: usize) -> Result<(), Refusal>
    requires { PlacedVariable s.now tab.now v }
    ensures { told result ≡ rule_at TYPE (typed (heads_of s.now)) (sheet_of s.now) v }
{
    if kind_of(s, tab, v) == Kind::Input {
        return Ok(());
    }
    match type_of(s, tab, tab.body_place(v), 2048) {
        Some(t) if t.sort == sort_of(s, tab, v) => Ok(()),
        _ => Err(Refusal::Typing(v)),
    }
}

// All variables.
pub fn types(s: &[u8], tab: &Table) -> Result<(), Refusal>
    requires { BodiesPlaced s.now tab.now }
    ensures { told result ≡ first TYPE (typed (heads_of s.now)) 0 (sheet_of s.now) }
{
    each_below(tab.variable_count(), |v| type_right(s, tab, v))
}
