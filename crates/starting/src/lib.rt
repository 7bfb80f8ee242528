// The search over a prepared query and rows that are whole, with working room that is long enough:
// all starts are tried, and the result says how it ended. Promise: result and all four buffers are
// those of the definition's search of the query that the table stands for (specs/Starts).
// Weakness: it tests nothing; who calls it has tested the rows and the room (crates/search).
#![tactic(auto)]

ghost use Rattle.std.specs.Prelude.{◌≡◌, List, ℕ, ◌≤◌};
ghost use Rattle.outcome.specs.Results.{lent, memory};
ghost use Rattle.prepared.specs.Ready.{Ready};
ghost use Rattle.starting.specs.Starts.{ended, TaskFor, Walks};

use matches::Task;
use outcome::{Outcome, finished};
use prepared::Prepared;
use skips::skip_of;
use table::Extent;
use table_room::{measures_at, tests_at};

// On what terms a prepared query is searched for: how many rows there are, the largest number there
// may be, by which notes and trail are measured, how many steps are allowed, and whether more rows
// may come.
#[derive(Clone, Copy)]
pub struct Terms {
    pub rows: usize,
    pub largest: usize,
    pub allowance: usize,
    pub more: bool,
}

// What a prepared query asks on these terms.
pub fn task_of(p: Prepared, terms: Terms) -> Task
    requires { (p.places ≤ 2048) × (terms.largest ≤ 4096) }
    ensures { TaskFor p terms result }
{
    let places = p.places;
    let pairs = places * (terms.largest + 1);
    let size = Extent {
        rows: terms.rows,
        columns: p.columns,
        places,
        tests: tests_at(places),
        allowance: terms.allowance,
        more: terms.more,
    };
    let skip = skip_of(p.skip, p.target);
    Task {
        size,
        pairs,
        measures: measures_at(places),
        count: p.count,
        skip,
    }
}

// The search of a prepared query on these terms, where all rows are there.
pub fn walk_prepared(
    table: &[u16],
    p: Prepared,
    terms: Terms,
    rows: &[i32],
    notes: &mut [u8],
    trail: &mut [u32],
    numbers: &mut [i64],
    labels: &mut [u8],
) -> Outcome
    requires { Walks table.now p terms rows.now notes.old trail.old }
    ensures { (q : List ℕ) → Ready q table.now p → memory result notes.new trail.new numbers.new labels.new ≡ ended terms.allowance q rows.now (lent notes.old trail.old numbers.old labels.old) }
{
    let task = task_of(p, terms);
    let s = sweep::search(table, rows, notes, trail, numbers, labels, task);
    finished(s)
}
