// A measure of one match: COUNT, SUM, MIN, MAX, FIRST, LAST and AVG over the rows with a label.
#![tactic(auto)]

ghost use Rattle.std.specs.Prelude.{◌≡◌, ◌≤◌, ◌<◌, pos};
ghost use Rattle.std.proofs.Math.Option.{some};
ghost use Rattle.std.specs.Int.Signed.{quot_z};
ghost use Rattle.rules.specs.Rows.{table_of};
ghost use Rattle.measure_list.specs.Measures.{measure_of};
ghost use Rattle.rules.specs.Report.{values, over_some, average_of, measured, two_of};
ghost use Rattle.joins.specs.Entries.{number_of};
ghost use Rattle.measures.specs.Measures.{number_in, numbers_for};
ghost use Rattle.labelled.specs.Labelled.{FirstAt};

use joins::{Join, MatchRows};
use labelled::{count_of, first_of, last_of};
use measure_list::Measure;

// What a measure computes from the entries of its rows.
#[derive(Clone, Copy, PartialEq, Eq)]
enum Function {
    Count,
    Joined(Join),
    First,
    Last,
    Avg,
}

// The function of a number of the query's table.
fn function_of(number: u8) -> Function
    requires { (1 ≤ number) × (number ≤ 7) }
    ensures { number_in result ≡ number }
{
    match number {
        Measure::COUNT => Function::Count,
        Measure::SUM => Function::Joined(Join::Sum),
        Measure::MIN => Function::Joined(Join::Min),
        Measure::MAX => Function::Joined(Join::Max),
        Measure::FIRST => Function::First,
        Measure::LAST => Function::Last,
        _ => Function::Avg,
    }
}

// SUM, MIN or MAX over the rows of a match, of which row `at` is the measure's first.
#[tactic(auto, using(crate::proofs::RowsOf::joining_first, crate::proofs::RowsOf::joining_more, crate::proofs::RowsOf::joining_all))]
fn joined_from(join: Join, m: Measure, of: &MatchRows, at: usize) -> i64
    requires { (m.column < of.now.columns) × FirstAt m.letter of.now.labels.now at }
    ensures { over_some (number_of join) (values (table_of of.now.columns of.now.rows.now) (measure_of m) of.now.first of.now.labels.now) ≡ some result }
{
    let mut value = of.entry(at, m);
    for i in at + 1..of.labels.len() {
        value = of.take_row(i, m, join, value);
    }
    value
}

// A number of rows or matches, as a number of the report.
pub fn as_number(count: usize) -> i64
    requires { count ≤ 4096 }
    ensures { result ≡ pos count }
{
    count as i64
}

// A sum divided by the number of its values, cut toward zero.
fn quotient(sum: i64, count: usize) -> i64
    requires { (0 < count) × (count ≤ 4096) }
    ensures { result ≡ quot_z sum (pos count) }
{
    sum / as_number(count)
}

// AVG over the rows of a match: their sum divided by their number.
#[tactic(auto, using(crate::proofs::RowsOf::average_null, crate::proofs::RowsOf::average_some))]
fn average(m: Measure, of: &MatchRows) -> Option<i64>
    requires { m.column < of.now.columns }
    ensures { numbers_for result ≡ two_of (average_of (values (table_of of.now.columns of.now.rows.now) (measure_of m) of.now.first of.now.labels.now)) }
{
    let at = first_of(m.letter, of.labels)?;
    let sum = joined_from(Join::Sum, m, of, at);
    Some(quotient(sum, count_of(m.letter, of.labels, at)))
}

// A measure over the rows of a match, or none where it is null. LAST does not seek the first of
// them.
#[tactic(auto, using(crate::proofs::RowsOf::counted, crate::proofs::RowsOf::null, crate::proofs::RowsOf::joined_to, crate::proofs::RowsOf::from_first, crate::proofs::RowsOf::from_last, crate::proofs::RowsOf::averaged))]
pub fn measure_of(m: Measure, of: &MatchRows) -> Option<i64>
    requires { (1 ≤ m.function) × (m.function ≤ 7) × (m.column < of.now.columns) }
    ensures { numbers_for result ≡ two_of (measured (table_of of.now.columns of.now.rows.now) of.now.first of.now.labels.now (measure_of m)) }
{
    match function_of(m.function) {
        Function::Count => Some(as_number(count_of(m.letter, of.labels, 0))),
        Function::Joined(join) => {
            let at = first_of(m.letter, of.labels)?;
            Some(joined_from(join, m, of, at))
        }
        Function::First => {
            let at = first_of(m.letter, of.labels)?;
            Some(of.entry(at, m))
        }
        Function::Last => {
            let at = last_of(m.letter, of.labels)?;
            Some(of.entry(at, m))
        }
        Function::Avg => average(m, of),
    }
}
