// A pair is entered, in one function only, `enter`, which counts the entry.
#![tactic(auto)]

ghost use Rattle.std.specs.Prelude.{◌≡◌, ◌+◌, ◌*◌, ◌<◌, ◌≤◌, length};
ghost use Rattle.table.specs.Table.{code_at, first_at};
ghost use Rattle.pairs.specs.Layout.{layout_of, letters_of, Tested, passes_by, waits_by, entry_of};
ghost use Rattle.pairs.specs.Step.{mem, entered_by, Enters};

use letters::letter_holds;
use pairs::{
    ENTER, FOUND, Walk, absent, anchor_passes, entry_at, failed, fails, fork_entry, push, tried,
};
use table::{Extent, FORK, LETTERS, NEAR_FORK, code_at, first_at, later_at};

// Whether the letter of place q passes at a row: it holds there.
fn letter_passes(table: &[u16], rows: &[i32], size: Extent, q: usize, row: usize) -> bool
    requires { (row < size.rows) × (q < size.places) × (4 * q + 4 ≤ length table.now) × (code_at table.now q < 26) × Tested table.now rows.now size }
    ensures { result ≡ passes_by (letters_of table.now rows.now size) size.rows (code_at table.now q) row }
{
    letter_holds(table, rows, size, later_at(table, q), row)
}

// The pair of w is entered: one step, counted here and nowhere else. A letter whose row is not
// there waits for it, where more rows may come. A letter or anchor that does not pass fails at
// once, and so does a letter whose next pair has failed, so that it is not put on the trail only to
// be taken back. Any other pair is open, and tries the first place that it leads to, but for END,
// which leads nowhere. A fork of two ways or more that leads first to the place behind it has a
// code of its own, since then the walk need not wait for a table to tell the place.
pub fn enter(
    table: &[u16],
    rows: &[i32],
    notes: &mut [u8],
    trail: &mut [u32],
    size: Extent,
    w: Walk,
) -> Walk
    requires { Tested table.now rows.now size × Enters (layout_of table.now size) size.rows notes.old trail.old w }
    ensures { mem notes.new trail.new result ≡ entered_by (waits_by size.more size.rows (code_at table.now w.place) w.row) (passes_by (letters_of table.now rows.now size) size.rows (code_at table.now w.place) w.row) (mem notes.old trail.old w) (code_at table.now w.place) (entry_of table.now w.place) (first_at table.now w.place) size.places }
{
    let steps = w.steps + 1;
    let top = w.top;
    let q = w.place;
    let row = w.row;
    let base = w.base;
    let c = code_at(table, q);
    if c == NEAR_FORK {
        push(trail, top, row, fork_entry(q));
        return tried(notes, top + 1, steps, q + 1, row, base);
    }
    if c < LETTERS {
        if row >= size.rows {
            return absent(notes, w, steps, size.more);
        }
        if !letter_passes(table, rows, size, q, row) {
            return fails(notes, w, steps);
        }
        let k = first_at(table, q);
        let ahead = base + size.places;
        if failed(notes, ahead + k) {
            return fails(notes, w, steps);
        }
        push(trail, top, row, q);
        let opened = top + 1;
        let next = row + 1;
        return Walk {
            top: opened,
            steps,
            place: k,
            row: next,
            base: ahead,
            status: ENTER,
        };
    }
    if !anchor_passes(size.rows, c, row) {
        return fails(notes, w, steps);
    }
    push(trail, top, row, entry_at(table, q));
    if FORK < c {
        let opened = top + 1;
        return Walk {
            top: opened,
            steps,
            status: FOUND,
            ..w
        };
    }
    tried(notes, top + 1, steps, first_at(table, q), row, base)
}
