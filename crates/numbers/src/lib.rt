// Numbers in other widths, by std's conversions: bytes and words as wider numbers, numbers of
// several bytes with the lowest first, and two's complement. Promise: each is the number that the
// definitions say, and below what its width allows. Crates that need to know no more than the value
// convert by `usize::from` themselves.
#![tactic(auto)]

ghost use Rattle.std.specs.Prelude.{◌≡◌, ◌+◌, ◌<◌, length};
ghost use Rattle.std.specs.Int.Signed.{mag};
ghost use Rattle.rules.specs.Basics.{le16, le32, signed8, signed32};

// Three functions and not one for every width: C's and the table's numbers are of these three, and
// the bound that each tells besides, which proofs of other crates read, is another number.
pub fn wide8(x: u8) -> usize
    ensures { (result ≡ x) × (result < 256) }
{
    usize::from(x)
}

pub fn wide16(x: u16) -> usize
    ensures { (result ≡ x) × (result < 65536) }
{
    usize::from(x)
}

pub fn wide32(x: u32) -> usize
    ensures { (result ≡ x) × (result < 4294967296) }
{
    // std has no `usize::from` of 32 bits.
    x as usize
}

pub fn long(x: i32) -> i64
    ensures { (result ≡ x) × (mag result < 2147483648) }
{
    i64::from(x)
}

// The number in two bytes.
#[tactic(auto, unfolding(rules::specs::Basics::le16))]
pub fn le16_at(s: &[u8], at: usize) -> usize
    requires { at + 1 < length s.now }
    ensures { (result ≡ le16 s.now at) × (result < 65536) }
{
    usize::from(u16::from_le_bytes([s[at], s[at + 1]]))
}

// The number in four bytes.
#[tactic(auto, unfolding(rules::specs::Basics::le32))]
pub fn le32_at(s: &[u8], at: usize) -> u32
    requires { at + 3 < length s.now }
    ensures { result ≡ le32 s.now at }
{
    u32::from_le_bytes([s[at], s[at + 1], s[at + 2], s[at + 3]])
}

// A byte, and a word, as a signed number in two's complement.
#[tactic(auto, using(crate::proofs::Complement::byte_signed))]
pub fn signed_byte(b: u8) -> i8
    ensures { (result ≡ signed8 b) × (mag result < 128) }
{
    b.cast_signed()
}

#[tactic(auto, using(crate::proofs::Complement::word_signed))]
pub fn signed_word(w: u32) -> i32
    ensures { (result ≡ signed32 w) × (mag result < 2147483648) }
{
    w.cast_signed()
}
