// The first section: the variables' records, whose places and first elements go into the table. Each function answers the next
// place or the refusal, as the reader of crate alpha that its contract names. Assumes nothing.
ghost use Rattle.std.specs.Prelude.{◌≡◌, ◌≤◌};
ghost use Rattle.alpha.specs.Read as Read;
ghost use Rattle.alpha.specs.Verdict.{told};
ghost use Rattle.sheet.specs.Place.{place_after};
ghost use Rattle.sheet.specs.Record.{Known, Fills, heads_at};

use super::field::{choice_field, count_at, count_field, room};
use super::name::{is_taken, well_formed};
use super::range::{box_points, range};
use super::sequence::repeat;
use super::table::Table;
use alpha::Refusal;

// A name that is well formed and that none of the earlier records has.
fn name_field(s: &[u8], earlier: &[usize], at: usize) -> Result<usize, Refusal>
    requires { Known s.now earlier.now }
    ensures { told result ≡ place_after (Read.name_field (heads_at s.now earlier.now) s.now at) }
{
    if !room(s, at) {
        return Err(Refusal::Cut(at));
    }
    if !well_formed(s, at) || is_taken(s, earlier, at) {
        return Err(Refusal::Name(at));
    }
    Ok(at + 8)
}

// A record after the earlier ones: name, kind, type, dimension, box.
fn head(s: &[u8], earlier: &[usize], at: usize) -> Result<usize, Refusal>
    requires { Known s.now earlier.now }
    ensures { told result ≡ place_after (Read.head_record (heads_at s.now earlier.now) s.now at) }
{
    let kind = name_field(s, earlier, at)?;
    let sort = choice_field(s, kind, 2)?;
    let dimension = choice_field(s, sort, 1)?;
    let first = count_field(s, dimension, 0, 4)?;
    repeat(count_at(s, dimension), first, |p| range(s, p))
}

// The records of n variables. The table is given each record's place, each first element and the element total.
pub fn heads(s: &[u8], table: &mut Table, at: usize, n: usize) -> Result<usize, Refusal>
    requires { n ≤ 32 }
    ensures { Fills s.now at n table.new result }
{
    let mut p = at;
    let mut total: usize = 0;
    for k in 0..n {
        let end = head(s, &table.records[..k], p)?;
        let points = box_points(s, p + 32, count_at(s, p + 24));
        if total + points > 4096 {
            return Err(Refusal::Count(p));
        }
        table.records[k] = p;
        table.firsts[k] = total;
        total += points;
        p = end;
    }
    table.firsts[n] = total;
    Ok(p)
}
