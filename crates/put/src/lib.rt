// Bytes, words and numbers in decimal, written into a lent buffer one behind the other: each method
// of `Out` asks for room for its text, writes it behind what is written, and leaves the buffer
// otherwise as it was (specs/Put). A number of 64 bits takes at most 20 bytes, with its sign
// (proofs/Signed).
#![tactic(auto)]

ghost use Rattle.std.specs.Prelude.{◌≡◌, [], ◌∷◌, ◌+◌, ◌≤◌, ◌<◌, length};
ghost use Rattle.rules.specs.Program.{decimal, signed_decimal};
ghost use Rattle.put.specs.Put.{Put, Wrote};

// A lent buffer, and the index behind what is written into it.
#[derive(Drop)]
pub struct Out<'a> {
    pub buf: &'a mut [u8],
    pub at: usize,
}

// How many digits n has.
fn digit_count(n: u64) -> usize
    ensures { result ≡ length (decimal n) }
{
    n.checked_ilog10().unwrap_or(0) as usize + 1
}

// Writes n in decimal from an index on, from the last digit to the first; the result is the index
// behind them. std's `write!` of a number asks for a writer that may fail, and this one does not.
fn put_digits(buf: &mut [u8], at: usize, n: u64) -> usize
    requires { at + length (decimal n) ≤ length buf.old }
    ensures { Put buf.old at (decimal n) buf.new result }
{
    let behind = at + digit_count(n);
    let mut rest = n;
    for i in (at..behind).rev() {
        buf[i] = b'0' + (rest % 10) as u8;
        rest /= 10;
    }
    behind
}

impl Out<'_> {
    // Writes one byte.
    pub fn put_byte(&mut self, b: u8)
        requires { self.old.at < length self.old.buf.now }
        ensures { Wrote self.old (b ∷ []) self.new }
    {
        self.buf[self.at] = b;
        self.at += 1;
    }

    // Writes the bytes of a text.
    pub fn put_bytes(&mut self, text: &[u8])
        requires { self.old.at + length text.now ≤ length self.old.buf.now }
        ensures { Wrote self.old text.now self.new }
    {
        let behind = self.at + text.len();
        self.buf[self.at..behind].copy_from_slice(text);
        self.at = behind;
    }

    // Writes n in decimal.
    pub fn put_decimal(&mut self, n: u64)
        requires { self.old.at + length (decimal n) ≤ length self.old.buf.now }
        ensures { Wrote self.old (decimal n) self.new }
    {
        self.at = put_digits(self.buf, self.at, n);
    }

    // Writes n in decimal, with a minus in front where it is below 0.
    pub fn put_signed(&mut self, n: i64)
        requires { self.old.at + length (signed_decimal n) ≤ length self.old.buf.now }
        ensures { Wrote self.old (signed_decimal n) self.new }
    {
        if n < 0 {
            self.put_byte(b'-');
        }
        self.put_decimal(n.unsigned_abs());
    }
}
