// REACH over all variables in order: the declared constraints of a variable, an input's too, and its body. Assumes nothing.
ghost use Rattle.std.specs.Prelude.{◌≡◌, ℕ};
ghost use Rattle.alpha.specs.Answer.{REACH};
ghost use Rattle.alpha.specs.Sheet.{Declared};
ghost use Rattle.alpha.specs.Read.{got};
ghost use Rattle.alpha.specs.Read as Read;
ghost use Rattle.alpha.specs.Shape.{of_variable};
ghost use Rattle.alpha.specs.Reach.{top_reach, all_reach};
ghost use Rattle.alpha.specs.Check.{first, reached};
ghost use Rattle.laws.specs.Heads.{declared_len};
ghost use Rattle.laws.specs.Sheets.{raw_of, heads_of, sheet_of};
ghost use Rattle.tree.specs.Prepared.{Prepared};
ghost use Rattle.alpha.specs.Verdict.{told};
ghost use Rattle.tree.specs.Ruled.{declared_passes, rule_at};
ghost use Rattle.tree.specs.Formed.{BodiesPlaced, PlacedVariable, DeclaredRead};

use super::each_below;
use super::node::natural;
use super::reach::{reach, row_within};
use super::variable::{dimension_of, kind_of};
use alpha::{Kind, Refusal};
use sheet::table::Table;

// The reach at the top of each body and for declared constraints.
const TOP: u64 = 32768;

// How many bytes the declared constraint at `at` has.
fn declared_len(s: &[u8], tab: &Table, at: usize) -> usize
    requires { Prepared s.now tab.now × DeclaredRead s.now at }
    ensures { result ≡ declared_len (heads_of s.now) s.now at }
{
    24 + 8 * dimension_of(s, tab, natural(s, at))
}

// The declared constraint at `at` does not concern variable v, or it passes no limit.
fn declared_passes(s: &[u8], tab: &Table, at: usize, v: usize) -> bool
    requires { Prepared s.now tab.now × DeclaredRead s.now at }
    ensures { (d : Declared) (q : ℕ) → Read.declared (heads_of s.now) s.now at ≡ got d q → result ≡ declared_passes v d }
{
    let who = natural(s, at);
    if who != v {
        return true;
    }
    row_within(s, at + 16, dimension_of(s, tab, who), TOP)
}

// The declared constraints of variable v.
fn declared_within(s: &[u8], tab: &Table, v: usize) -> bool
    requires { Prepared s.now tab.now }
    ensures { result ≡ all_reach top_reach (of_variable v (raw_of s.now).decls) }
{
    let second = tab.second_place();
    let many = natural(s, second);
    let mut p = second + 8;
    for _ in 0..many {
        if !declared_passes(s, tab, p, v) {
            return false;
        }
        p += declared_len(s, tab, p);
    }
    true
}

// The declared constraints of variable v and its body pass no limit. An input has no body.
fn reach_right(s: &[u8], tab: &Table, v: usize) -> Result<(), Refusal>
    requires { PlacedVariable s.now tab.now v }
    ensures { told result ≡ rule_at REACH reached (sheet_of s.now) v }
{
    let within = declared_within(s, tab, v)
        && (kind_of(s, tab, v) == Kind::Input || reach(s, tab.body_place(v), 2048, TOP).is_some());
    if within {
        Ok(())
    } else {
        Err(Refusal::Reach(v))
    }
}

// All variables.
pub fn reaches(s: &[u8], tab: &Table) -> Result<(), Refusal>
    requires { BodiesPlaced s.now tab.now }
    ensures { told result ≡ first REACH reached 0 (sheet_of s.now) }
{
    each_below(tab.variable_count(), |v| reach_right(s, tab, v))
}
