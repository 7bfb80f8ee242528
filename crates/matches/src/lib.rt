// A match written into the report: its labels off the trail, its numbers, and whether it fits; and
// how the search goes on behind it.
#![tactic(auto)]

ghost use Rattle.std.specs.Prelude.{◌≡◌, ◌+◌, ◌-◌, ◌<◌, length};
ghost use Rattle.rules.specs.Basics.{wrote};
ghost use Rattle.rules.specs.Search.{hit};
ghost use Rattle.table.specs.Table.{code_at};
ghost use Rattle.pairs.specs.Layout.{layout};
ghost use Rattle.skips.specs.Skips.{start_in};
ghost use Rattle.matches.specs.Asked.{asked_of, labels_on, path_on};
ghost use Rattle.matches.specs.Found.{OneMore, PutsLabel, Labels, swept_on, Told, Reports};

use joins::MatchRows;
use pairs::{Walk, open_at, place_of};
use report::{Measures, fits_whole, put_match};
use skips::{Skip, next_row};
use table::{Extent, LETTERS, code_at};

// What a search is asked beside its table: its extent, the number of pairs of the largest number of
// rows, the word of the table at which the measures begin, how many they are, and where it goes on
// behind a match.
#[derive(Clone, Copy)]
pub struct Task {
    pub size: Extent,
    pub pairs: usize,
    pub measures: usize,
    pub count: usize,
    pub skip: Skip,
}

// A search under way: how it ended, if it did; the next start, or the one at which it waits; the
// matches and labels written; the steps; and, where it waits in an attempt, how many pairs are
// open.
#[repr(C)]
#[derive(Clone, Copy)]
pub struct Sweep {
    pub end: usize,
    pub row: usize,
    pub matches: usize,
    pub labels: usize,
    pub steps: usize,
    pub opened: usize,
}

// How a search ends, by its answer: it is done, the next match does not fit, the match written last
// names no start to go on at, no step is left for the next entry, or it waits for a row. Numbers and
// no enum: `write_match`, sweep's `go_on` and outcome's `finished` take a Sweep with any of them.
pub const DONE: usize = 0;

pub const FULL: usize = 13;

pub const STUCK: usize = 15;

pub const OUT_OF_STEPS: usize = 16;

pub const OUT_OF_ROWS: usize = 23;

// A code of a letter as its label.
fn label_of(c: usize) -> u8
    requires { c < 26 }
    ensures { result ≡ c + 65 }
{
    (c + 65) as u8
}

// The label of the place q before index e, if it is a letter's.
fn put_label(table: &[u16], labels: &mut [u8], q: usize, e: usize) -> usize
    requires { PutsLabel table.now labels.old q e }
    ensures { OneMore labels.old labels.new (code_at table.now q) e result }
{
    let c = code_at(table, q);
    if c < LETTERS {
        labels[e - 1] = label_of(c);
        return e - 1;
    }
    e
}

// The labels of the path on the trail, written before index `end` from the last to the first.
fn put_labels(
    table: &[u16],
    places: usize,
    trail: &[u32],
    labels: &mut [u8],
    top: usize,
    end: usize,
)
    requires { Labels (layout table.now places 0) trail.now labels.old top end }
    ensures { labels.new ≡ wrote labels.old (end - length (labels_on (layout table.now places 0) trail.now top)) (labels_on (layout table.now places 0) trail.now top) }
{
    let mut e = end;
    for k in (0..top).rev() {
        e = put_label(table, labels, place_of(open_at(trail, k)), e);
    }
}

// What a search has come to behind a match that is written: it goes on at the next start, or is
// over where the match names none.
fn behind_match(
    next: Option<usize>,
    rows: usize,
    matches: usize,
    labels: usize,
    steps: usize,
) -> Sweep
    ensures { result ≡ swept_on (start_in next) rows matches labels steps }
{
    let (end, row) = match next {
        Some(row) => (DONE, row),
        None => (STUCK, rows),
    };
    Sweep {
        end,
        row,
        matches,
        labels,
        steps,
        opened: 0,
    }
}

// A path is on the trail: its match is written if it fits whole, and the search goes on where the
// skip mode says; else the search is over.
pub fn write_match(
    table: &[u16],
    rows: &[i32],
    trail: &[u32],
    numbers: &mut [i64],
    labels: &mut [u8],
    task: Task,
    i: Sweep,
    w: Walk,
) -> Sweep
    requires { Reports table.now rows.now task trail.now labels.old i w }
    ensures { Told (asked_of table.now rows.now task) (hit (path_on task.size.places trail.now w.top)) i w.steps numbers.old numbers.new labels.old labels.new result }
{
    let size = task.size;
    let count = task.count;
    let skip = task.skip;
    let row = i.row;
    let behind = w.row;
    let m = i.matches;
    let l = i.labels;
    let taken = behind - row;
    if fits_whole(numbers.len(), labels.len(), count, m, l, taken) {
        let end = l + taken;
        put_labels(table, size.places, trail, labels, w.top, end);
        let measures = Measures {
            at: task.measures,
            count,
        };
        let written = &labels[l..end];
        let of = MatchRows {
            rows,
            columns: size.columns,
            first: row,
            labels: written,
        };
        put_match(numbers, m * (3 + 2 * count), m + 1, table, measures, &of);
        let next = next_row(skip, row, behind, written);
        return behind_match(next, size.rows, m + 1, end, w.steps);
    }
    Sweep {
        end: FULL,
        row: size.rows,
        matches: m,
        labels: l,
        steps: w.steps,
        opened: 0,
    }
}
