// The words of comparisons, written into the table of a prepared query; their layout is that of
// crates/table/specs/Tests.
// Promise: the words say the comparison that stands in the query's bytes, and no other word is
// changed (specs/Words). Weakness: the comparison's fields must fit, which the caller has to see
// to.
#![tactic(auto)]

ghost use Rattle.std.specs.Prelude.{◌≡◌, true, ◌+◌, ◌≤◌, ◌<◌, pos, ◌+ℤ◌, length, get_or};
ghost use Rattle.std.specs.Int.Signed.{le_z};
ghost use Rattle.rules.specs.Basics.{signed8};
ghost use Rattle.rules.specs.Query.{offset_fits};
ghost use Rattle.comparison_words.specs.Words.{spot_of, set_five, FiveRoom, ComparisonRoom, ComparisonPut, ComparisonsRoom, ComparisonsPut, comparison_words};

use letter_words::{COMPARISON_WORDS, HIGH, LEFT, LOW, RIGHT, WITH_COLUMN};
use numbers::{le16_at, signed_byte};

// The bytes of a comparison in the query.
pub const COMPARISON_BYTES: usize = 12;

// The row of a spot whose offset is 0: offsets go 64 rows back at the most.
const SPOT_ROWS: usize = 64;

// A signed byte moves a row index back or forward.
fn moved(row: usize, offset: i8) -> usize
    requires { (row ≤ 4096) × (le_z (pos 0) (pos row +ℤ offset) ≡ true) }
    ensures { pos result ≡ pos row +ℤ offset }
{
    (row as i64 + i64::from(offset)) as usize
}

// The spot of the entry whose column is byte i of the query, and whose offset the byte behind it.
fn spot_at(query: &[u8], columns: usize, i: usize) -> usize
    requires { (columns ≤ 8) × (i + 1 < length query.now) × (offset_fits (get_or query.now (i + 1) 0) ≡ true) }
    ensures { (result ≡ spot_of columns (signed8 (get_or query.now (i + 1) 0)) (get_or query.now i 0)) × (result < 65536) }
{
    moved(SPOT_ROWS, signed_byte(query[i + 1])) * columns + usize::from(query[i])
}

// Five words from word `at` on, each written by itself: an array of them would have to be cast and
// made again by the caller.
#[tactic(auto, unfolding(crate::specs::Words::set_five))]
fn put_five(table: &mut [u16], at: usize, a: usize, b: usize, c: usize, d: usize, e: usize)
    requires { FiveRoom table.old at a b c d e }
    ensures { table.new ≡ set_five table.old at (comparison_words a b c d e) }
{
    table[at] = a as u16;
    table[at + LEFT] = b as u16;
    table[at + RIGHT] = c as u16;
    table[at + LOW] = d as u16;
    table[at + HIGH] = e as u16;
}

// The words of the comparison in the 12 bytes from index p on. Query, columns and p stay apart, as
// table and word do: p and the word differ at each call, so a struct would be made for each.
pub fn put_comparison(query: &[u8], columns: usize, p: usize, table: &mut [u16], at: usize)
    requires { ComparisonRoom query.now columns p table.old at }
    ensures { ComparisonPut query.now columns p table.old table.new at }
{
    let sort = usize::from(query[p + 2]) + usize::from(query[p + 3]) * WITH_COLUMN;
    let left = spot_at(query, columns, p);
    let right = spot_at(query, columns, p + 4);
    let low = le16_at(query, p + 8);
    let high = le16_at(query, p + 10);
    put_five(table, at, sort, left, right, low, high);
}

// The words of the `count` comparisons from index p on. Returns the word behind them.
#[tactic(auto, using(crate::proofs::Several::several_room, crate::proofs::Several::several_all))]
pub fn put_comparisons(
    query: &[u8],
    columns: usize,
    p: usize,
    count: usize,
    table: &mut [u16],
    at: usize,
) -> usize
    requires { ComparisonsRoom query.now columns p count table.old at }
    ensures { ComparisonsPut query.now columns p count table.old table.new at result }
{
    for k in 0..count {
        put_comparison(
            query,
            columns,
            p + k * COMPARISON_BYTES,
            table,
            at + k * COMPARISON_WORDS,
        );
    }
    at + count * COMPARISON_WORDS
}
