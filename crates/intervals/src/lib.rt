// The test of a number against an interval in the table of a prepared query (specs/Tests of the
// crate table). An interval says what the operator and the number of a comparison say, so that one
// subtraction and one test do for all six operators.
// Promise: `inside_at` is true exactly if the number, raised, lies in the interval, and for the
// interval of a comparison that is what its operator asks (proofs/Intervals). Weakness: only
// numbers below 2^32 in size are tested, which a difference of two entries is.
#![tactic(auto)]

ghost use Rattle.std.specs.Prelude.{◌≡◌, ◌+◌, ◌<◌, ◌≤◌, length, ◌-ℤ◌};
ghost use Rattle.std.specs.Int.Signed.{mag};
ghost use Rattle.table.specs.Tests.{word64, raised, raised_word};
ghost use Rattle.intervals.specs.Intervals.{in_interval};

use letter_words::RAISED_BY;
use table::word_at;

// A number of 64 bits takes four words: behind those of the interval's first number stand those of
// how many more there are.
const WORDS: usize = 4;

// A number plus 2^33: no number that a comparison meets is then below 0.
#[tactic(auto, unfolding(table::specs::Tests::raised))]
fn raise(d: i64) -> u64
    requires { mag d < 8589934592 }
    ensures { result ≡ raised d }
{
    (d + RAISED_BY as i64) as u64
}

pub fn difference(a: i64, b: i64) -> i64
    requires { (mag a < 2147483648) × (mag b < 2147483648) }
    ensures { (result ≡ a -ℤ b) × (mag result < 4294967296) }
{
    a - b
}

// The number in four words, the lowest first. In this form the compiler loads them as one number.
fn word64_at(table: &[u16], at: usize) -> u64
    requires { at + 4 ≤ length table.now }
    ensures { result ≡ word64 table.now at }
{
    let low = word_at(table, at) + word_at(table, at + 1) * 65536;
    let high = word_at(table, at + 2) * 4294967296 + word_at(table, at + 3) * 281474976710656;
    (low + high) as u64
}

// Whether a number, raised, lies in an interval that wraps at 2^64; `low` is its first number less
// 2^33, so that the compiler takes away nothing and raises nothing.
fn inside(d: i64, low: u64, width: u64) -> bool
    requires { mag d < 4294967296 }
    ensures { result ≡ in_interval (raised d) (raised_word low) width }
{
    raise(d).wrapping_sub(RAISED_BY).wrapping_sub(low) <= width
}

// The same for the interval at word `at` of the table.
pub fn inside_at(table: &[u16], at: usize, d: i64) -> bool
    requires { (at + 8 ≤ length table.now) × (mag d < 4294967296) }
    ensures { result ≡ in_interval (raised d) (raised_word (word64 table.now at)) (word64 table.now (at + 4)) }
{
    let low = word64_at(table, at);
    let width = word64_at(table, at + WORDS);
    inside(d, low, width)
}
