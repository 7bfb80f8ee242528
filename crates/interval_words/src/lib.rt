// The interval of a letter's first comparison, written into the table of a prepared query; the
// layout of its words is that of crates/table/specs/Tests.
// Promise: words 7 to 15 of the letter say how it is tested and the interval of the comparison that
// stands in the query's bytes, and no other word is changed (specs/Interval). Weakness: the bytes
// and the words must be there, which the caller has to see to.
#![tactic(auto)]

ghost use Rattle.std.specs.Prelude.{◌≡◌, ◌+◌, ◌<◌, ◌≤◌, length};
ghost use Rattle.table.specs.Tests.{raised, tested_by, low_of, width_of};
ghost use Rattle.interval_words.specs.Interval.{written_number, Word64Put, NineRoom, NinePut, IntervalRoom, IntervalPut};

use letter_words::{COLUMN, INTERVAL, KIND, NUMBER, RAISED_BY, WIDTH};
use numbers::{le32_at, signed_word};

// `RAISED_BY` as a signed number.
const RAISE: i64 = 8589934592;

// The operators; 6 is at least. They are bytes of the query and no enum: one match reads them.
const EQUAL: usize = 1;

const UNEQUAL: usize = 2;

const LESS: usize = 3;

const AT_MOST: usize = 4;

const GREATER: usize = 5;

// An interval that may wrap at 2^64: its first number, and how many more there are.
#[derive(Clone, Copy)]
struct Interval {
    low: u64,
    width: u64,
}

// ---- how a letter is tested

// The right kind of a comparison is 1 where its right side has a column.
#[tactic(auto, unfolding(table::specs::Tests::tested_by))]
fn tested_by(right_kind: usize) -> usize
    ensures { (result ≡ tested_by right_kind) × (result < 65536) }
{
    if right_kind == 1 { COLUMN } else { NUMBER }
}

// ---- the interval

#[tactic(auto, unfolding(table::specs::Tests::raised))]
fn raise_number(number: i32) -> u64
    ensures { (result ≡ raised number) × (0 < result) × (result < 17179869184) }
{
    (i64::from(number) + RAISE) as u64
}

// The number of the comparison at index p, raised.
fn raised_at(query: &[u8], p: usize) -> u64
    requires { p + 12 ≤ length query.now }
    ensures { (result ≡ raised (written_number query.now p)) × (0 < result) × (result < 17179869184) }
{
    raise_number(signed_word(le32_at(query, p + 8)))
}

// The interval of an operator and a number, raised.
#[tactic(auto, unfolding(table::specs::Tests::low_of, table::specs::Tests::width_of))]
fn interval_of(op: usize, x: u64) -> Interval
    requires { (0 < x) × (x < 17179869184) }
    ensures low { result.low ≡ low_of op x }
    ensures width { result.width ≡ width_of op x }
{
    let (low, width) = match op {
        EQUAL => (x, 0),
        UNEQUAL => (x + 1, u64::MAX - 1),
        LESS => (0, x - 1),
        AT_MOST => (0, x),
        GREATER => (x + 1, u64::MAX - 1 - x),
        _ => (x, u64::MAX - x),
    };
    Interval { low, width }
}

// ---- its words

// A number of 64 bits as four words from word `at` on, the lowest first.
fn put_word64(table: &mut [u16], at: usize, x: u64)
    requires { at + 4 ≤ length table.old }
    ensures { Word64Put table.old table.new at x }
{
    table[at] = (x % 65536) as u16;
    table[at + 1] = (x / 65536 % 65536) as u16;
    table[at + 2] = (x / 4294967296 % 65536) as u16;
    table[at + 3] = (x / 281474976710656) as u16;
}

// Words 7 to 15 of the letter whose words begin at word `at`.
fn put_nine(table: &mut [u16], at: usize, kind: usize, interval: Interval)
    requires { NineRoom table.old at kind }
    ensures { NinePut table.old table.new at kind interval.low interval.width }
{
    table[at + KIND] = kind as u16;
    put_word64(table, at + INTERVAL, interval.low);
    put_word64(table, at + WIDTH, interval.width);
}

// The same of the comparison in the 12 bytes from index p on.
pub fn put_interval(query: &[u8], p: usize, table: &mut [u16], at: usize)
    requires { IntervalRoom query.now p table.old at }
    ensures { IntervalPut query.now p table.old table.new at }
{
    let kind = tested_by(usize::from(query[p + 3]));
    let Interval { low, width } = interval_of(usize::from(query[p + 2]), raised_at(query, p));
    let low = low.wrapping_sub(RAISED_BY);
    put_nine(table, at, kind, Interval { low, width });
}
