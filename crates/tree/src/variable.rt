// A variable's record, found by the table of places: its kind, its type, its dimension. Assumes nothing.
ghost use Rattle.std.specs.Prelude.{◌≡◌, ◌+◌, ◌≤◌, ◌<◌, get_or, nat_abs};
ghost use Rattle.alpha.specs.Field.{field};
ghost use Rattle.alpha.specs.Read.{no_head, dimension};
ghost use Rattle.alpha.specs.Kinds.{kind_meant, sort_meant};
ghost use Rattle.laws.specs.Sheets.{heads_of, vars_of};
ghost use Rattle.tree.specs.Prepared.{Prepared, HasVariable};

use super::node::natural;
use alpha::{Kind, Sort};
use sheet::table::Table;

// The size of the number in a field of variable v's record.
fn record_field(s: &[u8], tab: &Table, v: usize, offset: usize) -> usize
    requires { HasVariable s.now tab.now v × (offset ≤ 24) }
    ensures { result ≡ nat_abs (field s.now (get_or tab.now.records v 0 + offset)) }
{
    let record = tab.record_place(v);
    natural(s, record + offset)
}

// The kind of variable v.
pub fn kind_of(s: &[u8], tab: &Table, v: usize) -> Kind
    requires { Prepared s.now tab.now × (v < vars_of s.now) }
    ensures { (get_or (heads_of s.now) v no_head).kind ≡ kind_meant result }
{
    Kind::from(record_field(s, tab, v, 8))
}

// Its type.
pub fn sort_of(s: &[u8], tab: &Table, v: usize) -> Sort
    requires { Prepared s.now tab.now × (v < vars_of s.now) }
    ensures { (get_or (heads_of s.now) v no_head).sort ≡ sort_meant result }
{
    Sort::from(record_field(s, tab, v, 16))
}

// Its dimension.
pub fn dimension_of(s: &[u8], tab: &Table, v: usize) -> usize
    requires { Prepared s.now tab.now × (v < vars_of s.now) }
    ensures { (result ≡ dimension (heads_of s.now) v) × (result ≤ 4) }
{
    record_field(s, tab, v, 24)
}
