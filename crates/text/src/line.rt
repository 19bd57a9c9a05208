// The parts of an element's line: its name, and its coordinates. Assumes nothing.
ghost use Rattle.std.specs.Prelude.{◌≡◌, ◌+◌, ◌≤◌, length};
ghost use Rattle.alpha.specs.Field.{eight};
ghost use Rattle.alpha.specs.Program.{trimmed, spaced};
ghost use Rattle.text.specs.Wrote.{Wrote, Room};

use super::writer::Writer;

// The bytes before the first zero byte.
fn trimmed(field: &[u8]) -> &[u8]
    ensures { result.now ≡ trimmed field.now }
{
    let end = field.iter().position(|b| *b == 0).unwrap_or(field.len());
    &field[..end]
}

impl Writer<'_> {
    // The name at `place` without the zero bytes at its end.
    pub fn name(&mut self, s: &[u8], place: usize)
        requires { (place + 8 ≤ length s.now) × Room (length (trimmed (eight s.now place))) self.old }
        ensures { Wrote self.old self.new (trimmed (eight s.now place)) }
    {
        self.word(trimmed(&s[place..place + 8]));
    }

    // Each coordinate of z after a space.
    pub fn coordinates(&mut self, z: &[i64])
        requires { Room (length (spaced z.now)) self.old }
        ensures { Wrote self.old self.new (spaced z.now) }
    {
        for x in z {
            self.byte(b' ');
            self.signed(*x);
        }
    }
}
