// Whether a place of a prepared query looks ahead (answer 17 of R-11): it is a `$`, or a letter
// that reads a row behind its own. The words of a letter tell this by the spots of its comparisons
// (specs/Tests of the crate table): a spot of an offset above 0 is not below that of the next row.
// Promise: equations with specs/Ahead, by the condition that the words of a letter tell.
// Weakness: the words must lie in the table, which the caller has to see to.
#![tactic(auto)]

ghost use Rattle.std.specs.Prelude.{◌≡◌, ◌+◌, ◌*◌, ◌≤◌, ◌<◌, ltb, pos, length, get_or};
ghost use Rattle.std.specs.Int.Signed.{lt_z};
ghost use Rattle.rules.specs.Basics.{pick};
ghost use Rattle.rules.specs.Rows.{compared_in};
ghost use Rattle.rules.specs.Lots.{ahead};
ghost use Rattle.table.specs.Table.{code_at, later_at};
ghost use Rattle.table.specs.Tests.{offset_of, comparison_in, comparisons_in, entry_words, entries_in, entries_behind};
ghost use Rattle.reads_ahead.specs.Ahead.{Columns, some_ahead, entry_ahead, letter_ahead, place_ahead, Readable};

use letter_words::{
    AND, BY_ENTRIES, COMPARISON_WORDS, ENTRIES, FIRST, KIND, LEFT, MORE, RIGHT, entry_words,
};
use table::{DOLLAR, LETTERS, code_at, later_at, word_at};

// A spot counts from the first entry of 64 rows before its row, so from this many on it lies behind
// its row.
const ROWS_BEFORE: usize = 65;

// Whether a spot lies in a row behind its own.
fn spot_ahead(spot: usize, columns: usize) -> bool
    requires { Columns columns }
    ensures { result ≡ lt_z (pos 0) (offset_of columns spot) }
{
    spot >= ROWS_BEFORE * columns
}

// Whether the comparison at word `at` reads a row behind its own.
fn comparison_ahead(table: &[u16], at: usize, columns: usize) -> bool
    requires { (at + 5 ≤ length table.now) × Columns columns }
    ensures { result ≡ ahead (comparison_in table.now columns at) }
{
    spot_ahead(word_at(table, at + LEFT), columns)
        || spot_ahead(word_at(table, at + RIGHT), columns)
}

// Whether one of `count` comparisons from word `at` on does.
fn comparisons_ahead(table: &[u16], at: usize, count: usize, columns: usize) -> bool
    requires { (at + count * 5 ≤ length table.now) × Columns columns }
    ensures { result ≡ some_ahead (comparisons_in table.now columns at count) }
{
    (0..count).any(|k| comparison_ahead(table, at + k * COMPARISON_WORDS, columns))
}

// Whether the entry of kind 6 at word `at`, which is `word`, is a comparison that does.
fn entry_ahead(table: &[u16], at: usize, word: usize, columns: usize) -> bool
    requires { (word ≡ get_or table.now at 0) × (at + entry_words table.now at ≤ length table.now) × Columns columns }
    ensures { result ≡ entry_ahead table.now columns at }
{
    word < AND && comparison_ahead(table, at, columns)
}

// Whether one of `count` entries of kind 6 from word `at` on does.
fn entries_ahead(table: &[u16], at: usize, count: usize, columns: usize) -> bool
    requires { (entries_behind table.now count at ≤ length table.now) × Columns columns }
    ensures { result ≡ some_ahead (compared_in (entries_in table.now columns count at)) }
{
    let mut place = at;
    for _ in 0..count {
        let word = word_at(table, place);
        if entry_ahead(table, place, word, columns) {
            return true;
        }
        place += entry_words(word);
    }
    false
}

// Whether the letter whose words begin at word `at` reads a row behind its own.
fn letter_ahead(table: &[u16], at: usize, columns: usize) -> bool
    requires { Readable table.now at columns }
    ensures { result ≡ letter_ahead table.now columns at }
{
    if word_at(table, at + KIND) == BY_ENTRIES {
        return entries_ahead(
            table,
            word_at(table, at + MORE),
            word_at(table, at + ENTRIES),
            columns,
        );
    }
    let count = word_at(table, at);
    if count == 0 {
        return false;
    }
    if comparison_ahead(table, at + FIRST, columns) {
        return true;
    }
    if count == 1 {
        return false;
    }
    comparisons_ahead(table, word_at(table, at + MORE), count - 1, columns)
}

// Whether place q looks ahead.
pub fn place_ahead(table: &[u16], q: usize, columns: usize) -> bool
    requires { (4 * q + 4 ≤ length table.now) × (code_at table.now q < 26 → Readable table.now (later_at table.now q) columns) }
    ensures { result ≡ place_ahead table.now columns q }
{
    let code = code_at(table, q);
    code == DOLLAR || code < LETTERS && letter_ahead(table, later_at(table, q), columns)
}
