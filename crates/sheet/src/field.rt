// Fields that are numbers: eight bytes, judged by their limits. Each function answers the next place or the refusal, as the reader
// of crate alpha that its contract names. Sheet and place stay two parameters: each answer is the next place, and a reader that moves
// would say that with an old and a new value. Assumes nothing.
ghost use Rattle.std.specs.Prelude.{◌≡◌, ◌+◌, ◌^◌, ◌≤◌, ◌<◌, length, nat_abs};
ghost use Rattle.alpha.specs.Field.{field};
ghost use Rattle.alpha.specs.Box.{within};
ghost use Rattle.alpha.specs.Read.{room, passing, number, count, choice, free};
ghost use Rattle.alpha.specs.Verdict.{told, number_of, place_of};
ghost use Rattle.sheet.specs.Place.{place_after};

use alpha::Refusal;

// Eight bytes remain at `at`.
pub fn room(s: &[u8], at: usize) -> bool
    ensures { result ≡ room s.now at }
{
    s.len() >= 8 && at <= s.len() - 8
}

// A number from lo to hi at `at`, else the refusal `off`.
fn limited(s: &[u8], at: usize, lo: i64, hi: i64, off: Refusal) -> Result<usize, Refusal>
    requires { place_of off ≡ at }
    ensures { told result ≡ place_after (passing (number_of off) (within lo hi) s.now at) }
{
    if !room(s, at) {
        return Err(Refusal::Cut(at));
    }
    let x = integer::number_at(s, at);
    if lo <= x && x <= hi {
        Ok(at + 8)
    } else {
        Err(off)
    }
}

// A number from lo to hi, else NUMBER.
pub fn number_field(s: &[u8], at: usize, lo: i64, hi: i64) -> Result<usize, Refusal>
    ensures { told result ≡ place_after (number lo hi s.now at) }
{
    limited(s, at, lo, hi, Refusal::Number(at))
}

// A count from lo to hi, else COUNT.
pub fn count_field(s: &[u8], at: usize, lo: usize, hi: usize) -> Result<usize, Refusal>
    requires { (lo < 2 ^ 63) × (hi < 2 ^ 63) }
    ensures { told result ≡ place_after (count lo hi s.now at) }
{
    limited(s, at, lo as i64, hi as i64, Refusal::Count(at))
}

// A choice from 0 to hi, else NUMBER.
pub fn choice_field(s: &[u8], at: usize, hi: usize) -> Result<usize, Refusal>
    requires { hi < 2 ^ 63 }
    ensures { told result ≡ place_after (choice hi s.now at) }
{
    number_field(s, at, 0, hi as i64)
}

// A number that has no listed values: at most 2^40 in size.
pub fn free_field(s: &[u8], at: usize) -> Result<usize, Refusal>
    ensures { told result ≡ place_after (free s.now at) }
{
    number_field(s, at, -1099511627776, 1099511627776)
}

// The field's number as a count.
pub fn count_at(s: &[u8], at: usize) -> usize
    requires { at + 8 ≤ length s.now }
    ensures { result ≡ nat_abs (field s.now at) }
{
    integer::size_at(s, at)
}
