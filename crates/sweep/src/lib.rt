// The whole search by the counted walk: all starts, each with one attempt; the matches written as
// they are found; and the buffers left as the report says. A search that has waited for a row goes
// on from the start of its attempt (`go_on`): the pairs that have failed are in the notes, so the
// attempt comes straight to the pair that waited, and enters none but those that were open. Table,
// rows and lent buffers stay parameters: as fields of one struct each clause would have to name what
// they hold before and behind a call through it, which is no plainer.
#![tactic(auto)]

ghost use Rattle.std.specs.Prelude.{◌≡◌, ◌≤◌, length};
ghost use Rattle.rules.specs.Basics.{wrote};
ghost use Rattle.rules.specs.Report.{zeros};
ghost use Rattle.matches.specs.Asked.{asked_of};
ghost use Rattle.matches.specs.Found.{Told, Visits, Visited, Searches};
ghost use Rattle.sweep.specs.Searched.{came_to, Tells, Sound, Searched, Measures, WentOn, Answered};

use matches::{DONE, OUT_OF_ROWS, OUT_OF_STEPS, Sweep, Task, write_match};
use pairs::{ENTER, WAITS, Walk};
use walk::attempt;

// What an attempt at a start came to. Where it has halted, no step is left or a row is waited for,
// and the search is over for now; where no pair is open it found nothing, and the search goes on
// one row on; else the path is on the trail.
fn tell(
    table: &[u16],
    rows: &[i32],
    trail: &[u32],
    numbers: &mut [i64],
    labels: &mut [u8],
    task: Task,
    i: Sweep,
    w: Walk,
) -> Sweep
    requires { Tells table.now rows.now task trail.now labels.old i w }
    ensures { Told (asked_of table.now rows.now task) (came_to task.size.places trail.now w) i w.steps numbers.old numbers.new labels.old labels.new result }
{
    if w.status == ENTER {
        return Sweep {
            end: OUT_OF_STEPS,
            steps: w.steps,
            opened: 0,
            ..i
        };
    }
    if w.status == WAITS {
        return Sweep {
            end: OUT_OF_ROWS,
            steps: w.steps,
            opened: w.top + 1,
            ..i
        };
    }
    if w.top == 0 {
        return Sweep {
            end: DONE,
            row: i.row + 1,
            steps: w.steps,
            opened: 0,
            ..i
        };
    }
    write_match(table, rows, trail, numbers, labels, task, i, w)
}

// One start: the attempt there, and what it came to.
fn visit(
    table: &[u16],
    rows: &[i32],
    notes: &mut [u8],
    trail: &mut [u32],
    numbers: &mut [i64],
    labels: &mut [u8],
    task: Task,
    i: Sweep,
) -> Sweep
    requires { Visits table.now rows.now task notes.old trail.old labels.old i }
    ensures { Visited (asked_of table.now rows.now task) notes.old notes.new trail.old trail.new numbers.old numbers.new labels.old labels.new i result }
{
    let w = attempt(table, rows, notes, trail, task.size, i.row, i.steps);
    tell(table, rows, trail, numbers, labels, task, i, w)
}

// The search waits for a row to start at.
fn waiting(i: Sweep) -> Sweep
    ensures { result ≡ record { end = 23; row = i.row; matches = i.matches; labels = i.labels; steps = i.steps; opened = 0 } }
{
    Sweep {
        end: OUT_OF_ROWS,
        opened: 0,
        ..i
    }
}

// All starts from one on, until the search ends or there is no row to start at.
fn starts(
    table: &[u16],
    rows: &[i32],
    notes: &mut [u8],
    trail: &mut [u32],
    numbers: &mut [i64],
    labels: &mut [u8],
    task: Task,
    from: Sweep,
) -> Sweep
    requires { Sound table.now rows.now task notes.old trail.old labels.old from }
    ensures { Searched table.now rows.now task notes.old trail.old numbers.old labels.old from notes.new trail.new numbers.new labels.new result }
{
    let size = task.size;
    let n = size.rows;
    let mut i = from;
    while i.row < n {
        i = visit(table, rows, notes, trail, numbers, labels, task, i);
        if i.end != DONE {
            return i;
        }
    }
    if size.more {
        return waiting(i);
    }
    i
}

// The search from a start on, with the notes as they are; the trail is cleared unless it waits.
pub fn go_on(
    table: &[u16],
    rows: &[i32],
    notes: &mut [u8],
    trail: &mut [u32],
    numbers: &mut [i64],
    labels: &mut [u8],
    task: Task,
    from: Sweep,
) -> Sweep
    requires { Sound table.now rows.now task notes.old trail.old labels.old from × Measures table.now task notes.old trail.old }
    ensures { WentOn table.now rows.now task notes.old trail.old numbers.old labels.old from notes.new trail.new numbers.new labels.new result }
{
    let r = starts(table, rows, notes, trail, numbers, labels, task, from);
    if r.end == OUT_OF_ROWS {
        return r;
    }
    trail[..task.pairs].fill(0);
    r
}

// The whole search: the notes' bits are cleared, and all starts are tried.
pub fn search(
    table: &[u16],
    rows: &[i32],
    notes: &mut [u8],
    trail: &mut [u32],
    numbers: &mut [i64],
    labels: &mut [u8],
    task: Task,
) -> Sweep
    requires { Searches table.now rows.now task notes.old trail.old × Measures table.now task notes.old trail.old }
    ensures { Answered table.now rows.now task notes.old trail.old numbers.old labels.old notes.new trail.new numbers.new labels.new result }
{
    notes[..task.pairs.div_ceil(8)].fill(0);
    let first = Sweep {
        end: DONE,
        row: 0,
        matches: 0,
        labels: 0,
        steps: 0,
        opened: 0,
    };
    go_on(table, rows, notes, trail, numbers, labels, task, first)
}
