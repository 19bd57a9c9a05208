// The five public calls for C and for what calls C: each exports the call of crate okelizanshu under its own name, with its contract. A
// slice is passed as a pointer and a length in entries. Assumes that each pointer and length are a readable stretch, of a lent output also
// writable, and that no lent output overlaps another argument; include/okelizanshu.h says so.
#![tactic(auto)]

ghost use Rattle.std.specs.Prelude.{◌≡◌};
ghost use Rattle.alpha.specs.Ask.{element_number, body_part};
ghost use Rattle.alpha.specs.Check.{check};
ghost use Rattle.alpha.specs.Promise.{total_of};
ghost use Rattle.okelizanshu.specs.Packed.{packed, packed_part, RunsPacked, NormalisesPacked};

// The element total, or refusal 1 to 11.
#[unsafe(no_mangle)]
pub extern "C" fn okelizanshu_check(sheet: &[u8]) -> u64
    ensures { result ≡ packed (total_of (check sheet.now)) }
{
    okelizanshu::okelizanshu_check(sheet)
}

// The element total, with both tables filled from their start; or refusal 1 to 11, 12 or 14, with neither changed.
#[unsafe(no_mangle)]
pub extern "C" fn okelizanshu_run(
    sheet: &[u8],
    inputs: &[i32],
    codes: &mut [u8],
    values: &mut [i32],
) -> u64
    ensures { RunsPacked sheet.now inputs.now codes.old codes.new values.old values.new result }
{
    okelizanshu::okelizanshu_run(sheet, inputs, codes, values)
}

// The length written, with the normal form from the start of `out`; or refusal 1 to 11, 13 or 14, with nothing changed.
#[unsafe(no_mangle)]
pub extern "C" fn okelizanshu_normalise(sheet: &[u8], out: &mut [u8]) -> u64
    ensures { NormalisesPacked sheet.now out.old out.new result }
{
    okelizanshu::okelizanshu_normalise(sheet, out)
}

// The number of a variable's element at a point; or refusal 1 to 11, or 15.
#[unsafe(no_mangle)]
pub extern "C" fn okelizanshu_element(sheet: &[u8], variable: u64, point: &[i64]) -> u64
    ensures { result ≡ packed (element_number sheet.now variable point.now) }
{
    okelizanshu::okelizanshu_element(sheet, variable, point)
}

// Where the body of a variable starts in the sheet, in the upper 32 bits, and its length in the lower 32; both 0 where it has none.
#[unsafe(no_mangle)]
pub extern "C" fn okelizanshu_body(sheet: &[u8], variable: u64) -> u64
    ensures { result ≡ packed_part (body_part sheet.now variable) }
{
    okelizanshu::okelizanshu_body(sheet, variable)
}
