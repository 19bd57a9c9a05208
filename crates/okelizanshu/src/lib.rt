// The five public calls as other languages get them: each is the call of its crate with the answer packed into one number of 64 bits
// (specs/Packed.antt). Crate okelizanshu_c exports them to C.
#![tactic(auto)]

ghost use Rattle.std.specs.Prelude.{ℕ, ◌≡◌, ◌+◌, ◌*◌, ◌%◌, ◌<◌};
ghost use Rattle.alpha.specs.Ask.{element_number, body_part};
ghost use Rattle.alpha.specs.Check.{check};
ghost use Rattle.alpha.specs.Promise.{total_of};
ghost use Rattle.alpha.specs.Verdict.{told};
ghost use Rattle.okelizanshu.specs.Packed.{packed, packed_part, RunsPacked, NormalisesPacked};

use alpha::Refusal;

// One number of 64 bits, which is what the C interface answers: a number in the upper 32, the low 32 bits of another in the lower.
fn halves(upper: u64, lower: u64) -> u64
    requires { upper < 4294967296 }
    ensures { result ≡ upper * 4294967296 + lower % 4294967296 }
{
    upper * 4294967296 + lower % 4294967296
}

// The refusal's number above its place, or 0 above the answer.
fn pack(answer: Result<usize, Refusal>) -> u64
    ensures { result ≡ packed (told answer) }
{
    match answer {
        Ok(n) => halves(0, n as u64),
        Err(why) => halves(why.number(), why.place() as u64),
    }
}

// The element total, or refusal 1 to 11.
pub fn okelizanshu_check(sheet: &[u8]) -> u64
    ensures { result ≡ packed (total_of (check sheet.now)) }
{
    pack(accept::check(sheet))
}

// The element total, with both tables filled from their start; or refusal 1 to 11, 12 or 14, with neither changed.
pub fn okelizanshu_run(sheet: &[u8], inputs: &[i32], codes: &mut [u8], values: &mut [i32]) -> u64
    ensures { RunsPacked sheet.now inputs.now codes.old codes.new values.old values.new result }
{
    pack(run::run(sheet, inputs, codes, values))
}

// The length written, with the normal form from the start of `out`; or refusal 1 to 11, 13 or 14, with nothing changed.
pub fn okelizanshu_normalise(sheet: &[u8], out: &mut [u8]) -> u64
    ensures { NormalisesPacked sheet.now out.old out.new result }
{
    pack(normal::normalise(sheet, out))
}

// The number of a variable's element at a point; or refusal 1 to 11, or 15.
pub fn okelizanshu_element(sheet: &[u8], variable: u64, point: &[i64]) -> u64
    ensures { result ≡ packed (element_number sheet.now variable point.now) }
{
    pack(accept::element(sheet, variable, point))
}

// Where the body of a variable starts in the sheet, in the upper 32 bits, and its length in the lower 32; both 0 where it has none.
pub fn okelizanshu_body(sheet: &[u8], variable: u64) -> u64
    ensures { result ≡ packed_part (body_part sheet.now variable) }
{
    accept::find_body(sheet, variable).map_or(0, |part| {
        halves(part.start as u64 % 4294967296, part.len as u64)
    })
}
