// Matches counted by the depot and the month of their first rows (request R-4): the cell of a match
// and the counts of a report. The table is defined from the reports in specs/Table, and the code's
// steps in specs/Counting. A count stays at the largest number that it can tell, which no 65,535
// reports come near.
#![tactic(auto)]

ghost use Rattle.std.specs.Prelude.{◌≡◌, ℕ, ◌+◌, ◌*◌, ◌≤◌, ◌<◌, T, pos, nat_abs, length, get_or};
ghost use Rattle.std.specs.Int.Signed.{mag, non_neg};
ghost use Rattle.rules.specs.Rows.{table_of, entry};
ghost use Rattle.tally.specs.Table.{cell_of};
ghost use Rattle.tally.specs.Counting.{up, all_up, cell_in, cells_in, RowAt, Countable};

// The cell called outside, behind 64 depots of 12 months.
pub const OUTSIDE: usize = 768;

// The two named columns.
#[derive(Clone, Copy)]
pub struct NamedColumns {
    pub depot: usize,
    pub month: usize,
}

// What is read of a report to count its matches: its rows, of so many columns, and its numbers, of
// which each match takes `stride`.
#[derive(Clone, Copy)]
pub struct Report<'a> {
    pub rows: &'a [i32],
    pub columns: usize,
    pub numbers: &'a [i64],
    pub stride: usize,
}

// The cell of a match whose first row has this depot and this month.
#[tactic(auto, using(std::proofs::lemmas::Int::ints), unfolding(crate::specs::Table::known, crate::specs::Table::cell_of))]
fn cell_of(depot: i32, month: i32) -> usize
    ensures { (result ≡ cell_of depot month) × (result ≤ 768) }
{
    match (depot, month) {
        (0..=63, 1..=12) => depot as usize * 12 + (month as usize - 1),
        _ => OUTSIDE,
    }
}

// One match more in a cell.
fn count_one(cells: &mut [usize], cell: usize)
    requires { cell < length cells.old }
    ensures { cells.new ≡ up cells.old cell }
{
    cells[cell] = cells[cell].saturating_add(1);
}

impl Report<'_> {
    // A row's number.
    fn row_at(&self, at: usize) -> usize
        requires { (at < length self.now.numbers.now) × T (non_neg (get_or self.now.numbers.now at (pos 0))) }
        ensures { result ≡ nat_abs (get_or self.now.numbers.now at (pos 0)) }
    {
        self.numbers[at] as usize
    }

    // The entry of a row that is there.
    fn entry(&self, row: usize, column: usize) -> i32
        requires { row * self.now.columns + column < length self.now.rows.now }
        ensures { (result ≡ entry (table_of self.now.columns self.now.rows.now) row column) × (mag result < 2147483648) }
    {
        self.rows[row * self.columns + column]
    }

    // The cell of a match whose first row's number stands at an index of the report numbers.
    fn cell_at(&self, named: NamedColumns, at: usize) -> usize
        requires { RowAt self.now.rows.now self.now.columns named self.now.numbers.now at }
        ensures { (result ≡ cell_in (table_of self.now.columns self.now.rows.now) named self.now.numbers.now at) × (result ≤ 768) }
    {
        let row = self.row_at(at);
        cell_of(self.entry(row, named.depot), self.entry(row, named.month))
    }
}

// So many matches of a report, counted.
pub fn count_all(cells: &mut [usize], report: Report<'_>, named: NamedColumns, matches: usize)
    requires { Countable cells.old report.rows.now report.columns named report.numbers.now report.stride matches }
    ensures { cells.new ≡ all_up cells.old
        (cells_in (table_of report.entry.columns report.entry.rows.now) named report.entry.numbers.now report.entry.stride matches) }
{
    for i in 0..matches {
        let cell = report.cell_at(named, i * report.stride + 1);
        count_one(cells, cell);
    }
}
