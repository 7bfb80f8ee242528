// The condition of a letter whose DEFINE is of kind 6, at a row, over its entries in the table
// (specs/Tests of the crate table). The results so far are one number, two bits for each, the latest
// lowest: false is 0, unknown 1 and true 2, so AND takes the lesser of two, OR the greater, and NOT
// what is left of 2.
// Promise: the condition holds exactly if its one result is true (specs/Results), which at each row
// of the partition is `holds` of the rules (proofs/Rules). Weakness: the entries must lie in the
// table and leave one result, which the caller has to see to; all of them are looked at, even where
// the first ones decide.
#![tactic(auto)]

ghost use Rattle.std.specs.Prelude.{◌≡◌, [], ◌+◌, ◌*◌, ◌%◌, ◌≤◌, ◌<◌, ltb, length, get_or};
ghost use Rattle.rules.specs.Basics.{pick};
ghost use Rattle.rules.specs.Rows.{is_yes, latest};
ghost use Rattle.table.specs.Tests.{entry_words, Entries};
ghost use Rattle.comparisons.specs.Spots.{read_truth};
ghost use Rattle.conditions.specs.Results.{truth_number, known, joined_number, read_results};

use comparisons::{comparison_met, index_at};
use letter_words::{AND, ENTRIES, LEFT, MORE, OR, RIGHT, WITH_COLUMN, entry_words};
use table::word_at;

// The three truths as the two bits that they take, in their order: an enum would be turned into
// these at once.
const NO: usize = 0;

const UNKNOWN: usize = 1;

pub const YES: usize = 2;

// So many truths have a place in the number of results.
const TRUTHS: usize = 4;

// ---- a comparison

// Whether the rows are there that the comparison at word `at` reads.
fn is_known(table: &[u16], at: usize, rows: &[i32], from: u64) -> bool
    requires { at + 5 ≤ length table.now }
    ensures { result ≡ known table.now rows.now from at }
{
    if index_at(table, at + LEFT, from) >= rows.len() {
        return false;
    }
    if word_at(table, at) / WITH_COLUMN == 1 {
        return index_at(table, at + RIGHT, from) < rows.len();
    }
    true
}

// The number of a comparison's truth.
fn comparison_truth(table: &[u16], at: usize, rows: &[i32], from: u64) -> usize
    requires { at + 5 ≤ length table.now }
    ensures { (result ≡ truth_number (read_truth table.now rows.now from at)) × (result ≤ 2) }
{
    if !is_known(table, at, rows, from) {
        return UNKNOWN;
    }
    if comparison_met(table, at, rows, from) {
        YES
    } else {
        NO
    }
}

// ---- AND, OR and NOT

// What an operator makes of the results.
#[tactic(auto, unfolding(crate::specs::Results::joined_number))]
fn joined(word: usize, results: usize) -> usize
    requires { (results < 4294967296) × (results % 4 ≤ 2) }
    ensures { result ≡ joined_number word results }
{
    let b = results % TRUTHS;
    let behind = results / TRUTHS;
    match word {
        AND => behind / TRUTHS * TRUTHS + (behind % TRUTHS).min(b),
        OR => behind / TRUTHS * TRUTHS + (behind % TRUTHS).max(b),
        _ => behind * TRUTHS + (YES - b),
    }
}

// ---- entries

// The results behind the entry at word `at`, which is `word`.
pub fn after_entry(
    table: &[u16],
    at: usize,
    word: usize,
    rows: &[i32],
    from: u64,
    results: usize,
) -> usize
    requires { (word ≡ get_or table.now at 0) × (at + entry_words table.now at ≤ length table.now) × (results < 4294967296) × (results % 4 ≤ 2) }
    ensures { result ≡ pick (ltb word 16) (results * 4 + truth_number (read_truth table.now rows.now from at)) (joined_number word results) }
{
    if word < AND {
        return results * TRUTHS + comparison_truth(table, at, rows, from);
    }
    joined(word, results)
}

// The number of the truth of the condition, of the letter whose words begin at word `at`, at the row
// to whose first entry `from` belongs. Inlined always: as two call it, it would be a call in the walk.
#[inline(always)]
pub fn condition_truth(table: &[u16], at: usize, rows: &[i32], from: u64) -> usize
    requires { (at + 16 ≤ length table.now) × Entries table.now at }
    ensures { result ≡ truth_number (latest (read_results table.now rows.now from (get_or table.now (at + 2) 0) (get_or table.now (at + 1) 0) [])) }
{
    let count = word_at(table, at + ENTRIES);
    let mut place = word_at(table, at + MORE);
    let mut results = 0;
    for _ in 0..count {
        let word = word_at(table, place);
        results = after_entry(table, place, word, rows, from, results);
        place += entry_words(word);
    }
    results
}

// Whether the condition holds.
#[tactic(auto, using(crate::proofs::Numbers::yes_number))]
pub fn condition_holds(table: &[u16], at: usize, rows: &[i32], from: u64) -> bool
    requires { (at + 16 ≤ length table.now) × Entries table.now at }
    ensures { result ≡ is_yes (latest (read_results table.now rows.now from (get_or table.now (at + 2) 0) (get_or table.now (at + 1) 0) [])) }
{
    condition_truth(table, at, rows, from) == YES
}
