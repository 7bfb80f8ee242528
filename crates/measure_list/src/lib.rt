// The measures of a query: the type Measure, a lent array of three bytes for each of up to 8, and
// the same measures as words of a table. A query comes here with no answer 1 to 3. What the array
// and the table hold afterwards: specs/Measures, `PutMeasures` and `MeasuresTabled`.
//
// The array is of bytes, and of no Measure: it is laid out as the words of the table, so that one
// definition (`measure_in`) reads both, and `put_in_table` copies it as it is.
#![tactic(auto)]

ghost use Rattle.std.specs.Prelude.{◌≡◌, ◌+◌, ◌*◌, ◌≤◌, ◌<◌, length};
ghost use Rattle.rules.specs.Query.{measure_at};
ghost use Rattle.table.specs.Measures.{measure_in};
ghost use Rattle.measure_list.specs.Measures.{measure_of, set_three, MeasuresRoom, PutMeasures, MeasuresTabled};

use records::{Read, record_at};

// A measure of the query: the number of its function, the letter of its rows or 0 for all rows, and
// its column. The function is a number and no enum, since `measure_at` promises the bytes of the
// array whatever they are.
#[derive(Clone, Copy)]
pub struct Measure {
    pub function: u8,
    pub letter: u8,
    pub column: u8,
}

// The functions' numbers, as associated constants: the form that document 01 names.
impl Measure {
    pub const COUNT: u8 = 1;

    pub const SUM: u8 = 2;

    pub const MIN: u8 = 3;

    pub const MAX: u8 = 4;

    pub const FIRST: u8 = 5;

    pub const LAST: u8 = 6;

    pub const AVG: u8 = 7;

    // The measure of a record's checked bytes.
    pub fn make(function: u8, letter: u8, column: u8) -> Measure
        ensures { (result.function ≡ function) × (result.letter ≡ letter) × (result.column ≡ column) }
    {
        Measure {
            function,
            letter,
            column,
        }
    }
}

// Measure number k of the array.
#[tactic(auto, unfolding(table::specs::Measures::measure_in))]
pub fn measure_at(measures: &[u8; 24], k: usize) -> Measure
    requires { k < 8 }
    ensures { measure_of result ≡ measure_in measures.now 0 k }
{
    let at = k * 3;
    Measure::make(measures[at], measures[at + 1], measures[at + 2])
}

// The measure in a record's body.
#[tactic(auto, unfolding(rules::specs::Query::measure_at))]
fn measure_of(s: &[u8], start: usize) -> Measure
    requires { start + 4 ≤ length s.now }
    ensures { measure_of result ≡ measure_at s.now start }
{
    Measure::make(s[start], s[start + 1], s[start + 2])
}

#[tactic(auto, unfolding(crate::specs::Measures::set_three))]
fn put_measure(m: Measure, measures: &mut [u8; 24], k: usize)
    requires { k < 8 }
    ensures { measures.new ≡ set_three measures.old (k * 3) m.function m.letter m.column }
{
    let at = k * 3;
    measures[at] = m.function;
    measures[at + 1] = m.letter;
    measures[at + 2] = m.column;
}

// The measures from an index on; answers how many they are.
pub fn put_measures(s: &[u8], from: usize, measures: &mut [u8; 24]) -> usize
    requires { MeasuresRoom s.now from measures.old }
    ensures { PutMeasures s.now from measures.old measures.new result }
{
    let mut at = from;
    let mut count = 0;
    // By an index, as in query.
    while at < s.len() {
        let Read::Record(record) = record_at(s, at) else {
            break;
        };
        put_measure(measure_of(s, record.start), measures, count);
        count += 1;
        at = record.next;
    }
    count
}

// The first `count` measures of the array as words of a table, from word `at` on.
pub fn put_in_table(measures: &[u8; 24], count: usize, table: &mut [u16], at: usize)
    requires { (count ≤ 8) × (at + 24 ≤ length table.old) }
    ensures { MeasuresTabled measures.now count table.old table.new at }
{
    for i in 0..count * 3 {
        table[at + i] = u16::from(measures[i]);
    }
}
