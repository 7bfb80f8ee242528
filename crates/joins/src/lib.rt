// An entry of the rows, and entries joined one by one: the sum so far, the lowest or the highest.
// Promise: each join is that of the definition, exact in 64 bits.
#![tactic(auto)]

ghost use Rattle.std.specs.Prelude.{◌≡◌, ◌+◌, ◌*◌, ◌≤◌, ◌<◌, slice_index, length};
ghost use Rattle.std.specs.Int.Signed.{mag};
ghost use Rattle.rules.specs.Basics.{pick};
ghost use Rattle.rules.specs.Rows.{table_of, entry};
ghost use Rattle.rules.specs.Report.{joined};
ghost use Rattle.labelled.specs.Labelled.{is_of};
ghost use Rattle.joins.specs.Entries.{Inside, number_of};

use labelled::is_of;
use measure_list::Measure;

// The entry of a row that is there.
#[tactic(auto, unfolding(rules::specs::Rows::entry, rules::specs::Rows::table_of))]
pub fn entry_at(rows: &[i32], columns: usize, row: usize, column: usize) -> i64
    requires { Inside rows.now columns row column }
    ensures { (result ≡ entry (table_of columns rows.now) row column) × (mag result < 2147483648) }
{
    i64::from(rows[row * columns + column])
}

// How entries are joined: to their sum, the lowest or the highest.
#[derive(Clone, Copy, PartialEq, Eq)]
pub enum Join {
    Sum,
    Min,
    Max,
}

impl Join {
    // A value joined to the sum, the lowest or the highest of those before it; 4,096 entries of 32
    // bits are at most 8,796,093,022,208 together.
    #[tactic(auto, unfolding(rules::specs::Report::joined))]
    fn of(self, a: i64, b: i64) -> i64
        requires { (mag a ≤ 8796093022208) × (mag b < 2147483648) }
        ensures value { result ≡ joined (number_of self) a b }
        ensures small { mag result ≤ mag a + 2147483648 }
    {
        match self {
            Join::Sum => a + b,
            Join::Min => a.min(b),
            Join::Max => a.max(b),
        }
    }
}

// A row of the match: its entry is joined to `value` if it is one of the measure's rows.
pub fn take_row(
    join: Join,
    letter: u8,
    value: i64,
    label: u8,
    rows: &[i32],
    columns: usize,
    row: usize,
    column: usize,
) -> i64
    requires { (mag value ≤ 8796093022208) × Inside rows.now columns row column }
    ensures { (result ≡ pick (is_of letter label) (joined (number_of join) value (entry (table_of columns rows.now) row column)) value) × (mag result ≤ mag value + 2147483648) }
{
    if !is_of(letter, label) {
        return value;
    }
    join.of(value, entry_at(rows, columns, row, column))
}

// The rows of a match: a row for each of its labels, from row `first` on, of so many columns.
#[derive(Clone, Copy)]
pub struct MatchRows<'a> {
    pub rows: &'a [i32],
    pub columns: usize,
    pub first: usize,
    pub labels: &'a [u8],
    ghost few: { length labels.now ≤ 4096 },
    ghost there: { (first + length labels.now) * columns ≤ length rows.now },
}

impl<'a> MatchRows<'a> {
    // The entry of the measure's column in row i of the match.
    pub fn entry(&self, i: usize, m: Measure) -> i64
        requires { (i < length self.now.labels.now) × (m.column < self.now.columns) }
        ensures { (result ≡ entry (table_of self.now.columns self.now.rows.now) (self.now.first + i) m.column) × (mag result < 2147483648) }
    {
        entry_at(
            self.rows,
            self.columns,
            self.first + i,
            usize::from(m.column),
        )
    }

    // Row i of the match: its entry is joined to `value` if it is one of the measure's rows.
    pub fn take_row(&self, i: usize, m: Measure, join: Join, value: i64) -> i64
        requires { (mag value ≤ 8796093022208) × (i < length self.now.labels.now) × (m.column < self.now.columns) }
        ensures { (result ≡ pick (is_of m.letter (slice_index self.now.labels.now i)) (joined (number_of join) value (entry (table_of self.now.columns self.now.rows.now) (self.now.first + i) m.column)) value) × (mag result ≤ mag value + 2147483648) }
    {
        let row = self.first + i;
        take_row(
            join,
            m.letter,
            value,
            self.labels[i],
            self.rows,
            self.columns,
            row,
            usize::from(m.column),
        )
    }
}
