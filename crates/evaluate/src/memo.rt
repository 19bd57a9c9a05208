// The memo: an entry for each element by its number, its code in the low three bits and its value above them, counted from the least
// 32-bit number. Only `packed` and `known` know this. Assumes nothing.
ghost use Rattle.std.specs.Prelude.{◌≡◌, ◌≤◌, ◌<◌, pos};
ghost use Rattle.integer.specs.Range.{In32};
ghost use Rattle.evaluate.specs.Memo.{busy, unknown, code_in, value_in, memo_of, noted, stored, Small, Known};

use super::Awaited;
use alpha::Outcome;
use integer::decoded;

// Packed numbers and not a small enum: the memory is fixed, one number of 64 bits for each element, by a rule of the project.

// The marks of an element in progress and of an unknown one, which are no outcome's code.
const BUSY: u8 = 5;

const UNKNOWN: u8 = 6;

// The entry of a code and a value.
fn packed(code: u8, x: i64) -> u64
    requires { (code ≤ unknown) × In32 x }
    ensures { (code_in result ≡ code) × (value_in result ≡ x) }
{
    let above = (x + 2147483648) as u64;
    above * 8 + code as u64
}

// What the memo says of element e: its outcome, LOOP where it is in progress, or that it has to be worked out first.
pub fn known(memo: &[u64; 4096], e: usize) -> Result<Outcome, Awaited>
    requires { e < 4096 }
    ensures { Known (memo_of memo.now) e result }
{
    let entry = memo[e];
    let code = (entry % 8) as u8;
    if BUSY < code {
        return Err(Awaited { element: e });
    }
    let x = (entry / 8 % 4294967296) as i64 - 2147483648;
    Ok(decoded(code, x))
}

// Stores an answer at element e: its outcome, or that it is unknown still.
pub fn note(memo: &mut [u64; 4096], e: usize, r: Result<Outcome, Awaited>)
    requires { (e < 4096) × Small r }
    ensures { memo_of memo.new ≡ stored (memo_of memo.old) e r }
{
    match r {
        Ok(o) => {
            memo[e] = packed(o.code(), o.value());
        }
        Err(_) => {
            memo[e] = packed(UNKNOWN, 0);
        }
    }
}

// Marks element e as in progress.
pub fn mark(memo: &mut [u64; 4096], e: usize)
    requires { e < 4096 }
    ensures { memo_of memo.new ≡ noted (memo_of memo.old) e busy (pos 0) }
{
    memo[e] = packed(BUSY, 0);
}
