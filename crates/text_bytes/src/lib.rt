// The bytes of a pattern's text: a byte, spaces, letters, digits, and the bounds of a quantifier,
// numbers of one or two digits. A text that is wrong tells at which byte.
#![tactic(auto)]

ghost use Rattle.std.specs.Prelude.{◌≡◌, ◌≤◌, length, drop};
ghost use Rattle.rules.specs.Basics.{is_letter};
ghost use Rattle.rules.specs.Reader.{peek as peeked, skip_spaces as skipped, is_digit, number as numbered};
ghost use Rattle.text_bytes.specs.Numerals.{Numeral, BoundReached};

use numbers::wide8;

// A bound of a quantifier, and where its digits end.
#[derive(Clone, Copy)]
pub struct Bound {
    pub value: usize,
    pub at: usize,
}

// The byte at which a text is no pattern: each reader of a part of it fails with this.
#[derive(Clone, Copy)]
pub struct Broken {
    pub at: usize,
}

// The byte at a position, 0 behind the end.
pub fn peek(text: &[u8], at: usize) -> u8
    ensures { result ≡ peeked (drop at text.now) }
{
    if at < text.len() { text[at] } else { 0 }
}

// Behind the spaces at a position.
pub fn skip(text: &[u8], at: usize) -> usize
    requires { at ≤ length text.now }
    ensures { (drop result text.now ≡ skipped (drop at text.now)) × (at ≤ result) × (result ≤ length text.now) }
{
    // no plainer: `text[at..].iter().position(|b| *b != b' ').map_or(text.len(), |n| at + n)`
    let mut to = at;
    while peek(text, to) == b' ' {
        to += 1;
    }
    to
}

#[tactic(auto, unfolding(rules::specs::Basics::is_letter, rules::specs::Basics::in_range))]
pub fn is_letter(b: u8) -> bool
    ensures { result ≡ is_letter b }
{
    b.is_ascii_uppercase()
}

#[tactic(auto, unfolding(rules::specs::Reader::is_digit, rules::specs::Basics::in_range))]
pub fn is_digit(b: u8) -> bool
    ensures { result ≡ is_digit b }
{
    b.is_ascii_digit()
}

// A number of one digit, or of two of which the first is not 0.
pub fn number(text: &[u8], at: usize) -> Result<Bound, Broken>
    requires { at ≤ length text.now }
    ensures { Numeral text.now at result (numbered (drop at text.now)) }
{
    let b = peek(text, at);
    if !is_digit(b) {
        return Err(Broken { at });
    }
    let c = peek(text, at + 1);
    if !is_digit(c) {
        return Ok(Bound {
            value: wide8(b) - 48,
            at: at + 1,
        });
    }
    if b == b'0' {
        return Err(Broken { at: at + 1 });
    }
    Ok(Bound {
        value: 10 * (wide8(b) - 48) + (wide8(c) - 48),
        at: at + 2,
    })
}

// An upper bound: a number of 1 at least and `low` at least. Where its first digit begins none, or
// its second makes none, there it is wrong.
pub fn reaching(text: &[u8], at: usize, low: usize) -> Result<Bound, Broken>
    requires { at ≤ length text.now }
    ensures { BoundReached text.now at low result }
{
    let b = peek(text, at);
    if b < b'1' || b'9' < b {
        return Err(Broken { at });
    }
    if 10 * (wide8(b) - 48) + 9 < low {
        return Err(Broken { at });
    }
    let m = number(text, at)?;
    if m.value < low {
        return Err(Broken { at: at + 1 });
    }
    Ok(m)
}
