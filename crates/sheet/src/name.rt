// Names, judged and compared where they stand in the sheet, byte for byte. Assumes nothing.
ghost use Rattle.std.specs.Prelude.{◌≡◌, ◌+◌, ◌≤◌, length};
ghost use Rattle.alpha.specs.Field.{letter, name_tail, name_form, same_bytes, eight};
ghost use Rattle.sheet.specs.Name.{in_name, taken_at};
ghost use Rattle.sheet.specs.Record.{Known};

// A to Z, a to z, or an underscore.
fn is_letter(b: u8) -> bool
    ensures { result ≡ letter b }
{
    b.is_ascii_alphabetic() || b == b'_'
}

// A byte that may stand in a name after the first.
fn in_name(b: u8) -> bool
    ensures { result ≡ in_name b }
{
    is_letter(b) || b.is_ascii_digit()
}

// The bytes continue a name: letters, digits and underscores, then zero bytes.
fn name_tail(bytes: &[u8]) -> bool
    ensures { result ≡ name_tail bytes.now }
{
    let end = bytes
        .iter()
        .position(|b| !in_name(*b))
        .unwrap_or(bytes.len());
    bytes[end..].iter().all(|b| *b == 0)
}

// The field at `at` is a name.
pub fn well_formed(s: &[u8], at: usize) -> bool
    requires { at + 8 ≤ length s.now }
    ensures { result ≡ name_form (eight s.now at) }
{
    is_letter(s[at]) && name_tail(&s[at + 1..at + 8])
}

// The names at p and q are the same.
fn same_name(s: &[u8], p: usize, q: usize) -> bool
    requires { (p + 8 ≤ length s.now) × (q + 8 ≤ length s.now) }
    ensures { result ≡ same_bytes (eight s.now p) (eight s.now q) }
{
    s[p..p + 8] == s[q..q + 8]
}

// One of the records at these places has the name at `at`.
pub fn is_taken(s: &[u8], records: &[usize], at: usize) -> bool
    requires { (at + 8 ≤ length s.now) × Known s.now records.now }
    ensures { result ≡ taken_at s.now at records.now }
{
    records.iter().any(|record| same_name(s, at, *record))
}
