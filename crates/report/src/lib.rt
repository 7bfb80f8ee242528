// The report of a match: its measures over its rows, and the numbers that it appends behind those
// of the matches before it. A match is appended whole or not at all: fits_whole says whether it
// fits. Sums are exact: 4,096 entries of 32 bits lie well within 64 bits. A measure takes at most
// one pass over the labels of the match; over all rows, COUNT, FIRST and LAST take none. The
// measures are words of the query's table (crates/table/specs/Measures).
#![tactic(auto)]

ghost use Rattle.std.specs.Prelude.{◌≡◌, List, [], ◌∷◌, ℕ, ◌+◌, ◌*◌, ◌≤◌, ◌<◌, pos, length};
ghost use Rattle.rules.specs.Basics.{wrote};
ghost use Rattle.rules.specs.Rows.{table_of, entry};
ghost use Rattle.rules.specs.Query as Q;
ghost use Rattle.table.specs.Measures.{measure_in, measures_in};
ghost use Rattle.measure_list.specs.Measures.{measure_of};
ghost use Rattle.rules.specs.Report.{measure_numbers, match_numbers, lent_room, fits};
ghost use Rattle.measures.specs.Measures.{numbers_for, ThreeBytes, Reportable, Appendable};

use joins::MatchRows;
use measure_list::Measure;
use measures::{as_number, measure_of};

// Where a query's measures stand in its table, and how many they are.
#[derive(Clone, Copy)]
pub struct Measures {
    pub at: usize,
    pub count: usize,
}

// Numbers written from index `at` on.
#[tactic(auto, unfolding(rules::specs::Basics::wrote))]
fn put(numbers: &mut [i64], at: usize, those: &[i64])
    requires { at + length those.now ≤ length numbers.old }
    ensures { numbers.new ≡ wrote numbers.old at those.now }
{
    numbers[at..at + those.len()].copy_from_slice(those);
}

// 1 and the result, or 0 and 0 for null.
fn put_value(numbers: &mut [i64], at: usize, value: Option<i64>)
    requires { at + 2 ≤ length numbers.old }
    ensures { numbers.new ≡ wrote numbers.old at (numbers_for value) }
{
    match value {
        Some(number) => put(numbers, at, &[1, number]),
        None => put(numbers, at, &[0, 0]),
    }
}

// A word of a measure, which is a byte.
fn byte_of(w: u16) -> u8
    requires { w < 256 }
    ensures { result ≡ w }
{
    w as u8
}

// Measure number k of the table, three words to a measure from word `at` on.
#[tactic(auto, unfolding(table::specs::Measures::measure_in))]
fn measure_at(table: &[u16], at: usize, k: usize) -> Measure
    requires { ThreeBytes table.now (at + k * 3) }
    ensures { measure_of result ≡ measure_in table.now at k }
{
    let from = at + k * 3;
    Measure::make(
        byte_of(table[from]),
        byte_of(table[from + 1]),
        byte_of(table[from + 2]),
    )
}

// The measures of a match, from index `at` on.
#[tactic(auto, using(crate::proofs::Numbers::fits_parts, crate::proofs::Numbers::reported_none, crate::proofs::Numbers::reported_more))]
fn put_measures(numbers: &mut [i64], at: usize, table: &[u16], measures: Measures, of: &MatchRows)
    requires { Reportable numbers.old at table.now measures.at measures.count of.now.rows.now of.now.columns of.now.first (length of.now.labels.now) }
    ensures { numbers.new ≡ wrote numbers.old at
        (measure_numbers (table_of of.now.columns of.now.rows.now) of.now.first of.now.labels.now (measures_in table.now measures.at measures.count)) }
{
    for k in 0..measures.count {
        let m = measure_at(table, measures.at, k);
        put_value(numbers, at + k * 2, measure_of(m, of));
    }
}

// What match number `number` appends from index `at` on: its number, its first row, the rows taken,
// and its measures. The answer is the index behind.
#[tactic(auto, using(crate::proofs::Numbers::match_reported))]
pub fn put_match(
    numbers: &mut [i64],
    at: usize,
    number: usize,
    table: &[u16],
    measures: Measures,
    of: &MatchRows,
) -> usize
    requires { Appendable numbers.old at number table.now measures.at measures.count of.now.rows.now of.now.columns of.now.first (length of.now.labels.now) }
    ensures behind { result ≡ at + (3 + 2 * measures.count) }
    ensures numbers { numbers.new ≡ wrote numbers.old at
        (match_numbers (table_of of.now.columns of.now.rows.now) (measures_in table.now measures.at measures.count) number of.now.first of.now.labels.now) }
{
    let three = [
        as_number(number),
        as_number(of.first),
        as_number(of.labels.len()),
    ];
    put(numbers, at, &three);
    let behind = at + 3;
    put_measures(numbers, behind, table, measures, of);
    behind + measures.count * 2
}

// Whether a match of `taken` rows fits whole behind `matches` matches with `written` labels, in
// rooms of these lengths and with `count` measures.
#[tactic(auto, unfolding(rules::specs::Report::fits))]
pub fn fits_whole(
    nums: usize,
    labs: usize,
    count: usize,
    matches: usize,
    written: usize,
    taken: usize,
) -> bool
    requires { (count ≤ 8) × (matches ≤ 4096) × (written ≤ labs) }
    ensures { (ms : List Q.Measure) (ls : List ℕ) → length ms ≡ count → length ls ≡ taken → result ≡ fits (lent_room nums labs ms) matches written ls }
{
    (matches + 1) * (3 + 2 * count) <= nums && taken <= labs - written
}
