// Whether a letter holds at a row: the search asks this for every letter place that it enters.
// It reads the words of the letter in the table of the prepared query (specs/Tests of the crate
// table). The first comparison stands among them as an interval, so that most letters need one test
// of a number and nothing else; those behind it are looked at only where it is met. A first
// comparison with a column and one with a number are two ways from end to end: where they were one
// again behind the test, its answer would be kept as a number and tested once more.
// A letter whose DEFINE is of kind 6 has a way of its own (crates/conditions).
// Promise: at a row the answer is `holds` of the rules, of the condition that the words tell.
// Weakness: the comparisons behind the first stand in another part of the table, and are judged in
// the order of the query; and it has to be a row: position n, behind the last one, is not asked
// about.
#![tactic(auto)]

ghost use Rattle.std.specs.Prelude.{◌≡◌, ◌&&◌, ◌+◌, ◌*◌, ◌-◌, ◌≤◌, ◌<◌, ltb, eqb, length, get_or};
ghost use Rattle.rules.specs.Rows.{table_of, holds};
ghost use Rattle.table.specs.Tests.{condition_in, First, LetterAt, Letters};
ghost use Rattle.comparisons.specs.Spots.{read_met, first_unmet};

use comparisons::{entry, far_back, first_unmet, index_at};
use conditions::condition_holds;
use intervals::{difference, inside_at};
use letter_words::{COLUMN, FIRST_LEFT, FIRST_RIGHT, FREE, INTERVAL, KIND, MORE, NUMBER};
use table::{Extent, word_at};

// Whether the first comparison is met, of the letter whose words begin at word `at`, at the row to
// whose first entry `from` belongs: its right side has a column.
fn column_met(table: &[u16], at: usize, rows: &[i32], from: u64) -> bool
    requires { (at + 16 ≤ length table.now) × First table.now at × (get_or table.now (at + 7) 0 ≡ 1) }
    ensures { result ≡ read_met table.now rows.now from (at + 2) }
{
    let left = index_at(table, at + FIRST_LEFT, from);
    if left >= rows.len() {
        return false;
    }
    let right = index_at(table, at + FIRST_RIGHT, from);
    if right >= rows.len() {
        return false;
    }
    let d = difference(entry(rows, left), entry(rows, right));
    inside_at(table, at + INTERVAL, d)
}

// The same of one whose right side is a number.
fn number_met(table: &[u16], at: usize, rows: &[i32], from: u64) -> bool
    requires { (at + 16 ≤ length table.now) × First table.now at × (get_or table.now (at + 7) 0 ≡ 1 → ⊥) }
    ensures { result ≡ read_met table.now rows.now from (at + 2) }
{
    let left = index_at(table, at + FIRST_LEFT, from);
    if left >= rows.len() {
        return false;
    }
    inside_at(table, at + INTERVAL, entry(rows, left))
}

// Whether all comparisons behind the first are met, of a letter that has so many in all.
fn others_met(table: &[u16], at: usize, count: usize, rows: &[i32], from: u64) -> bool
    requires { (at + 16 ≤ length table.now) × (0 < count) × (1 < count → get_or table.now (at + 1) 0 + (count - 1) * 5 ≤ length table.now) }
    ensures { result ≡ eqb (first_unmet table.now rows.now from (get_or table.now (at + 1) 0) (count - 1)) (count - 1) }
{
    if count == 1 {
        return true;
    }
    let more = count - 1;
    first_unmet(table, word_at(table, at + MORE), more, rows, from) == more
}

// Whether the letter whose words begin at word `at` holds at a row.
pub fn letter_holds(table: &[u16], rows: &[i32], size: Extent, at: usize, row: usize) -> bool
    requires { (row < size.rows) × LetterAt size.tests at × Letters table.now size.tests rows.now size.columns size.rows }
    ensures { result ≡ (ltb row size.rows && holds (table_of size.columns rows.now) row (condition_in table.now size.columns at)) }
{
    let kind = word_at(table, at + KIND);
    let from = far_back(size.columns, row * size.columns);
    match kind {
        COLUMN => {
            if !column_met(table, at, rows, from) {
                return false;
            }
            others_met(table, at, word_at(table, at), rows, from)
        }
        NUMBER => {
            if !number_met(table, at, rows, from) {
                return false;
            }
            others_met(table, at, word_at(table, at), rows, from)
        }
        FREE => true,
        _ => condition_holds(table, at, rows, from),
    }
}
