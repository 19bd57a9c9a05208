// Ranges, wherever they stand: read, each as the reader of crate alpha that its contract names, and counted. Assumes nothing.
ghost use Rattle.std.specs.Prelude.{◌≡◌};
ghost use Rattle.alpha.specs.Box as Box;
ghost use Rattle.alpha.specs.Read as Read;
ghost use Rattle.alpha.specs.Verdict.{told};
ghost use Rattle.sheet.specs.Place.{place_after};
ghost use Rattle.sheet.specs.Record.{Ranges, Side, box_at, capped};

use super::field::number_field;
use alpha::Refusal;

// A range: lo, then hi.
pub fn range(s: &[u8], at: usize) -> Result<usize, Refusal>
    ensures { told result ≡ place_after (Read.range s.now at) }
{
    let p = number_field(s, at, -32768, 32767)?;
    let lo = integer::number_at(s, at);
    number_field(s, p, lo, 32767)
}

// How many numbers the range at `at` has.
pub fn side(s: &[u8], at: usize) -> usize
    requires { Ranges s.now at 1 }
    ensures { Side s.now at result }
{
    let lo = integer::number_at(s, at);
    let hi = integer::number_at(s, at + 8);
    (hi - lo).unsigned_abs() as usize + 1
}

// How many points the box of the n ranges from `at` on has, or 4,097 where that is over 4,096.
pub fn box_points(s: &[u8], at: usize, n: usize) -> usize
    requires { Ranges s.now at n }
    ensures { result ≡ capped (Box.size (box_at s.now at n)) }
{
    let mut product: usize = 1;
    for i in 0..n {
        product *= side(s, at + 16 * i);
        if product > 4096 {
            return 4097;
        }
    }
    product
}
