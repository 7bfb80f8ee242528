// Comparisons of a prepared query at a row, over their words in the table (specs/Tests of the crate
// table). The entries that a comparison reads are found by spots, without a product, and one test
// of an index against the length of the rows tells whether the row that is read is there.
// Promise: a comparison is met exactly if `read_met` of specs/Spots says so, and at each row of the
// partition that is `met` of the rules (proofs/Reading). No comparison behind the first that is not
// met is looked at. Weakness: the words must lie in the table, which the caller has to see to.
#![tactic(auto)]

ghost use Rattle.std.specs.Prelude.{◌≡◌, ◌+◌, ◌*◌, ◌<◌, ◌≤◌, length, ℤ, pos, ◌+ℤ◌, slice_index, slice_index_or};
ghost use Rattle.std.specs.Int.Signed.{mag};
ghost use Rattle.rules.specs.Rows.{compares};
ghost use Rattle.table.specs.Tests.{number_in};
ghost use Rattle.comparisons.specs.Spots.{FarBack, spot_index, read_met, first_unmet};

use letter_words::{COMPARISON_WORDS, HIGH, LEFT, LOW, RIGHT, WITH_COLUMN};
use numbers::signed_word;
use table::word_at;

// The operators 0 to 7 as bits of one number, three for each: whether it is met where a is below b,
// equal to b, above b. Bits and no enum: the operator is a part of a word of the flat table.
const OPERATORS: usize = 14299990;

fn compare(operator: usize, a: i64, b: i64) -> bool
    requires { operator < 8 }
    ensures { result ≡ compares operator a b }
{
    let side = usize::from(b <= a) + usize::from(b < a);
    (OPERATORS >> (operator * 3 + side)) % 2 == 1
}

// ---- what is read

// The number of the comparison at word `at`, from its two halves.
fn number_at(table: &[u16], at: usize) -> i64
    requires { at + 5 ≤ length table.now }
    ensures { (result ≡ number_in table.now at) × (mag result < 2147483648) }
{
    let word = u32::from(table[at + LOW]) + u32::from(table[at + HIGH]) * 65536;
    i64::from(signed_word(word))
}

// The index 64 rows before the entry at base, which wraps below 0: that of spot 0.
pub fn far_back(columns: usize, base: usize) -> u64
    requires { columns ≤ 8 }
    ensures { FarBack columns base result }
{
    (base as u64).wrapping_sub(columns as u64 * 64)
}

// The index of the entry whose spot is the word at an index.
#[tactic(auto, unfolding(crate::specs::Spots::spot_index))]
pub fn index_at(table: &[u16], at: usize, from: u64) -> usize
    requires { at < length table.now }
    ensures { result ≡ spot_index from (slice_index table.now at) }
{
    from.wrapping_add(word_at(table, at) as u64) as usize
}

// The entry at an index.
pub fn entry(rows: &[i32], index: usize) -> i64
    requires { index < length rows.now }
    ensures { (result ≡ slice_index_or rows.now index (pos 0)) × (mag result < 2147483648) }
{
    i64::from(rows[index])
}

// ---- comparisons: table, word, rows and `from` stay apart, since the word differs at each call

// The comparison at word `at`, of the row to whose first entry `from` belongs.
pub fn comparison_met(table: &[u16], at: usize, rows: &[i32], from: u64) -> bool
    requires { at + 5 ≤ length table.now }
    ensures { result ≡ read_met table.now rows.now from at }
{
    let left = index_at(table, at + LEFT, from);
    if left >= rows.len() {
        return false;
    }
    let a = entry(rows, left);
    let number = number_at(table, at);
    let sort = word_at(table, at);
    if sort / WITH_COLUMN == 1 {
        let right = index_at(table, at + RIGHT, from);
        if right >= rows.len() {
            return false;
        }
        return compare(sort % WITH_COLUMN, a, entry(rows, right) + number);
    }
    compare(sort % WITH_COLUMN, a, number)
}

// The number of the first of `count` comparisons from word `at` on that is not met, `count` if all
// are met. No Option: who asks compares the number with `count`, and judging adds it up.
pub fn first_unmet(table: &[u16], at: usize, count: usize, rows: &[i32], from: u64) -> usize
    requires { at + count * 5 ≤ length table.now }
    ensures { result ≡ first_unmet table.now rows.now from at count }
{
    for k in 0..count {
        if !comparison_met(table, at + k * COMPARISON_WORDS, rows, from) {
            return k;
        }
    }
    count
}
