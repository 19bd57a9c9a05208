// Numbers in decimal. Assumes nothing.
ghost use Rattle.std.specs.Prelude.{◌≡◌, length};
ghost use Rattle.alpha.specs.Program.{nat_text, int_text};
ghost use Rattle.text.specs.Wrote.{Wrote, Room};

use super::writer::Writer;

// How many digits n has.
fn digit_count(n: u64) -> usize
    ensures { result ≡ length (nat_text n) }
{
    if n < 10 { 1 } else { n.ilog10() as usize + 1 }
}

impl Writer<'_> {
    // A natural number, from its last digit to its first.
    pub fn natural(&mut self, n: u64)
        requires { Room (length (nat_text n)) self.old }
        ensures { Wrote self.old self.new (nat_text n) }
    {
        let end = self.at + digit_count(n);
        let mut place = end;
        let mut left = n;
        // A while: what is left says when the first digit is reached.
        while 10 <= left {
            place -= 1;
            self.out[place] = b'0' + (left % 10) as u8;
            left /= 10;
        }
        self.out[self.at] = b'0' + left as u8;
        self.at = end;
    }

    // A minus before a negative number.
    pub fn signed(&mut self, x: i64)
        requires { Room (length (int_text x)) self.old }
        ensures { Wrote self.old self.new (int_text x) }
    {
        if x < 0 {
            self.byte(b'-');
        }
        self.natural(x.unsigned_abs());
    }
}
