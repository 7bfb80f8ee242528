// One attempt of the counted walk, over the table of places, lent notes (a bit for each pair: it
// has failed) and a lent trail (the open pairs). A pair is the number row * P + place. Pairs are
// entered in one function only, `enter`, which counts the entry, and it is called in one place. No
// pair is entered that has failed, so an attempt takes no more steps than there are pairs. An
// attempt is `begin`, which tries its first pair, and `go_on`, which walks from a state on until no
// pair is to be entered or END is open; or until no step is left of the allowance: then it halts
// just before the next entry, with its pair still to be entered; or until a letter waits for a row
// that is not yet there. The promise is `Done` (crates/pairs/specs/State): the result is the
// definition's.
#![tactic(auto)]

ghost use Rattle.std.specs.Prelude.{◌≡◌, ◌+◌, ◌*◌};
ghost use Rattle.rules.specs.Walk.{Halting};
ghost use Rattle.pairs.specs.Layout.{layout_of, letters_of, halts_in, Tested};
ghost use Rattle.pairs.specs.Step.{Noted, try_at};
ghost use Rattle.pairs.specs.State.{Fair, Goes, Backing, Backward, Descended, Idling, Retreated, Moves, Ran, Ready, Done};

use entering::enter;
use pairs::{
    BACK, ENTER, Walk, failed, mark, open_at, place_of, put_way, row_of, tried, way_after, way_of,
};
use table::{Extent, count_at, later_way};

// On from a pair that is to be entered, while there is one and a step is left. The status is tested
// behind each entry and the steps at the loop's head: so the compiler goes on from each way through
// `enter` by itself, and does not keep the status as a number to test it again.
fn descend(
    table: &[u16],
    rows: &[i32],
    notes: &mut [u8],
    trail: &mut [u32],
    size: Extent,
    from: Walk,
) -> Walk
    requires { Tested table.now rows.now size × Goes (layout_of table.now size) (letters_of table.now rows.now size) size.rows notes.old trail.old from }
    ensures { (H : Halting) → Fair H (layout_of table.now size) size.more size.rows → Descended H (layout_of table.now size) (letters_of table.now rows.now size) size.rows notes.old trail.old from notes.new trail.new result }
{
    let mut w = from;
    while w.steps < size.allowance {
        w = enter(table, rows, notes, trail, size, w);
        if w.status != ENTER {
            return w;
        }
    }
    w
}

// The last open pair tries its next way. Where no way is left, or the last one has failed, the pair
// fails. Which letters hold plays no part here.
fn back(table: &[u16], notes: &mut [u8], trail: &mut [u32], size: Extent, w: Walk) -> Walk
    requires { Backing (layout_of table.now size) size.rows notes.old trail.old w }
    ensures { (h : Backing (layout_of table.now size) size.rows notes.old trail.old w)
        → Backward h.halting (layout_of table.now size) h.holds size.rows notes.old trail.old w notes.new trail.new result }
{
    let at = w.top - 1;
    let e = open_at(trail, at);
    let place = place_of(e);
    let row = row_of(e);
    let base = row * size.places;
    let j = way_of(e);
    if 0 < j {
        let q = later_way(table, place, j);
        let k = way_after(count_at(table, place), j);
        if !failed(notes, base + q) {
            put_way(trail, at, e, k);
            return Walk {
                place: q,
                row,
                base,
                status: ENTER,
                ..w
            };
        }
        if 0 < k {
            put_way(trail, at, e, k);
            return Walk {
                place: q,
                row,
                base,
                status: BACK,
                ..w
            };
        }
    }
    mark(notes, base + place);
    Walk {
        top: at,
        place,
        row,
        base,
        status: BACK,
        ..w
    }
}

// Back along the open pairs until there is a pair to be entered, or none is open.
fn retreat(table: &[u16], notes: &mut [u8], trail: &mut [u32], size: Extent, from: Walk) -> Walk
    requires { Idling (layout_of table.now size) size.rows notes.old trail.old from }
    ensures { (h : Idling (layout_of table.now size) size.rows notes.old trail.old from)
        → Retreated h.halting (layout_of table.now size) h.holds size.rows notes.old trail.old from notes.new trail.new result }
{
    let mut w = from;
    while 0 < w.top {
        if w.status == ENTER {
            return w;
        }
        w = back(table, notes, trail, size, w);
    }
    w
}

// The walk from a state on, until no pair is to be entered, or END is open, or it halts.
pub fn go_on(
    table: &[u16],
    rows: &[i32],
    notes: &mut [u8],
    trail: &mut [u32],
    size: Extent,
    from: Walk,
) -> Walk
    requires { Tested table.now rows.now size × Moves (layout_of table.now size) (letters_of table.now rows.now size) size.rows notes.old trail.old from }
    ensures { (H : Halting) → Fair H (layout_of table.now size) size.more size.rows → Ran H (layout_of table.now size) (letters_of table.now rows.now size) size.rows notes.old trail.old from notes.new trail.new result }
{
    let mut w = from;
    while w.status == ENTER {
        w = descend(table, rows, notes, trail, size, w);
        if w.status != BACK {
            return w;
        }
        w = retreat(table, notes, trail, size, w);
    }
    w
}

// An attempt begins: it tries the pair of the first place and the row.
pub fn begin(notes: &[u8], places: usize, row: usize, steps: usize) -> Walk
    requires { Noted notes.now (row * places + 0) }
    ensures { result ≡ try_at notes.now 0 steps 0 row (row * places) }
{
    tried(notes, 0, steps, 0, row, row * places)
}

// An attempt at a row, with so many steps before it.
pub fn attempt(
    table: &[u16],
    rows: &[i32],
    notes: &mut [u8],
    trail: &mut [u32],
    size: Extent,
    row: usize,
    steps: usize,
) -> Walk
    requires { Tested table.now rows.now size × Ready (layout_of table.now size) (letters_of table.now rows.now size) size.rows notes.old trail.old row steps }
    ensures { Done (halts_in (layout_of table.now size) size.more size.rows) (layout_of table.now size) (letters_of table.now rows.now size) size.rows notes.old trail.old row steps notes.new trail.new result }
{
    let first = begin(notes, size.places, row, steps);
    go_on(table, rows, notes, trail, size, first)
}
