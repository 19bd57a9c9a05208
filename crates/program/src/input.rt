// The program's input: the sheet's length, the sheet, then 4-byte values. Assumes nothing.
ghost use Rattle.std.specs.Prelude.{◌≡◌, ◌≤◌, length, take, IfOk};
ghost use Rattle.program.specs.Given.{Frames, PartsOf, Lists};

use alpha::Refusal;

// The bytes of the sheet, and those of the values after it.
#[derive(Clone, Copy)]
pub struct Frame<'a> {
    pub sheet: &'a [u8],
    pub values: &'a [u8],
}

pub fn frame_of(input: &[u8]) -> Result<Frame<'_>, Refusal>
    ensures answer { Frames input.now result }
    ensures parts { IfOk result (PartsOf input.now) }
{
    let (field, rest) = input.split_first_chunk().ok_or(Refusal::Cut(0))?;
    let n = i64::from_le_bytes(*field);
    if 65536 < n {
        return Err(Refusal::Long);
    }
    if n < 0 {
        return Err(Refusal::Cut(0));
    }
    let (sheet, values) = rest.split_at_checked(n as usize).ok_or(Refusal::Cut(0))?;
    Ok(Frame { sheet, values })
}

// The values as a list; where the last one is broken, or there are more than any sheet asks for, some list of 4,097 entries, which no
// sheet asks for either.
// A length and not the part of `ins` itself is answered, since the promise speaks of what is lent.
pub fn values(rest: &[u8], ins: &mut [i32]) -> usize
    requires { 4097 ≤ length ins.old }
    ensures { Lists rest.now (take result ins.new) × (result ≤ 4097) }
{
    let (words, broken) = rest.as_chunks();
    if 4096 < words.len() || !broken.is_empty() {
        return 4097;
    }
    for (i, word) in words.iter().enumerate() {
        ins[i] = i32::from_le_bytes(*word);
    }
    words.len()
}
