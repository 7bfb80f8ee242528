// Rows that come in lots (R-11): what is kept of a search between calls, and how it is taken up. A
// search that waited goes on from the start of its attempt: the pairs that have failed are in the
// notes, so it comes straight back to the pair that waited, by the pairs that were open, and the
// steps of their entries are taken back before. No trail is kept, and no content of a buffer is
// relied on: any notes, and any numbers within their bounds (`within`), are a search to go on with.
// What the call before kept stands for the later search, and each call leaves what its definition
// says (proofs/Standing, Calling). Weakness: a call's work is that of its new rows and of the open
// pairs, each of which is entered once more.
#![tactic(auto)]

ghost use Rattle.std.specs.Prelude.{◌≡◌, ◌&&◌, ◌≤◌, leb};
ghost use Rattle.lots.specs.Feeds.{new_feed, kept_in, Advances, Advanced};

use matches::{Sweep, Task};
use sweep::{go_on, search};

// What is kept between calls: the largest number of rows and the steps allowed, as they were named;
// the rows present at the latest call that was not refused; whether there was one; its answer; the
// start at which it waits, the matches and labels written, the steps, and how many pairs are open.
// Numbers, a flag and an answer too, as it is the C interface's struct.
#[repr(C)]
#[derive(Clone, Copy)]
pub struct Feed {
    pub largest: usize,
    pub allowance: usize,
    pub present: usize,
    pub begun: usize,
    pub answer: usize,
    pub row: usize,
    pub matches: usize,
    pub labels: usize,
    pub steps: usize,
    pub opened: usize,
}

// The answer behind the end of the rows, and that while more rows are waited for.
pub const DONE: usize = 0;

pub const WAITING: usize = 23;

// As many steps as a search by lots may have taken: more than any takes.
const MOST_STEPS: usize = 4611686018427387904;

// The largest number of rows and the steps allowed are named; no row has come.
pub fn begin(largest: usize, allowance: usize) -> Feed
    ensures { result ≡ new_feed largest allowance }
{
    Feed {
        largest,
        allowance,
        present: 0,
        begun: 0,
        answer: WAITING,
        row: 0,
        matches: 0,
        labels: 0,
        steps: 0,
        opened: 0,
    }
}

// Whether what is kept lies within its bounds, with room for so many labels.
pub fn within(feed: Feed, room: usize) -> bool
    ensures { result ≡ (leb feed.matches feed.row && (leb feed.labels room && (leb feed.opened feed.steps && leb feed.steps 4611686018427387904))) }
{
    if feed.row < feed.matches {
        return false;
    }
    if room < feed.labels {
        return false;
    }
    if feed.steps < feed.opened {
        return false;
    }
    feed.steps <= MOST_STEPS
}

// Where the search goes on: at the start at which it waited, with the steps of its open pairs taken
// back.
fn taken_up(feed: Feed) -> Sweep
    requires { feed.opened ≤ feed.steps }
    ensures { result ≡ kept_in feed }
{
    Sweep {
        end: matches::DONE,
        row: feed.row,
        matches: feed.matches,
        labels: feed.labels,
        steps: feed.steps - feed.opened,
        opened: 0,
    }
}

// The search of a call that is not refused: the first one clears the notes, a later one goes on.
pub fn advance(
    table: &[u16],
    rows: &[i32],
    notes: &mut [u8],
    trail: &mut [u32],
    numbers: &mut [i64],
    labels: &mut [u8],
    task: Task,
    feed: Feed,
) -> Sweep
    requires { Advances table.now rows.now task notes.old trail.old labels.old feed }
    ensures { Advanced table.now rows.now task notes.old trail.old numbers.old labels.old feed notes.new trail.new numbers.new labels.new result }
{
    if feed.begun == 0 {
        return search(table, rows, notes, trail, numbers, labels, task);
    }
    go_on(
        table,
        rows,
        notes,
        trail,
        numbers,
        labels,
        task,
        taken_up(feed),
    )
}
