// Items one after another, each read from where the one before ends. Assumes nothing.
ghost use Rattle.std.specs.Prelude.{◌<◌, ◌^◌};
ghost use Rattle.sheet.specs.Sequence.{Counted, Repeated};

use super::field::{count_at, count_field};
use alpha::Refusal;

// Reads so many items.
pub fn repeat<F: Fn(usize) -> Result<usize, Refusal>>(
    count: usize,
    at: usize,
    item: F,
) -> Result<usize, Refusal>
    requires { F.IsAlwaysCallable item }
    ensures { Repeated (F.post item) count at result }
{
    let mut p = at;
    for _ in 0..count {
        p = item(p)?;
    }
    Ok(p)
}

// Reads a count up to `most`, then so many items.
pub fn counted<F: Fn(usize) -> Result<usize, Refusal>>(
    s: &[u8],
    at: usize,
    most: usize,
    item: F,
) -> Result<usize, Refusal>
    requires callable { F.IsAlwaysCallable item }
    requires small { most < 2 ^ 63 }
    ensures { Counted (F.post item) s.now at most result }
{
    let p = count_field(s, at, 0, most)?;
    repeat(count_at(s, at), p, item)
}
