// What an attempt of the counted walk does with one pair of a place and a row: the notes (a bit for
// each pair: it has failed), the trail (the open pairs), and where the walk is then. A pair is the
// number row * P + place. This is the one file that knows how a pair is numbered in the notes and
// written on the trail.
#![tactic(auto)]

ghost use Rattle.std.specs.Prelude.{◌≡◌, Bool, false, ℕ, ◌+◌, ◌*◌, ◌/◌, ◌<◌, ◌≤◌, length, set, get_or};
ghost use Rattle.rules.specs.Report.{bit_at};
ghost use Rattle.rules.specs.Working.{marked};
ghost use Rattle.pairs.specs.Layout.{passes_by, entry_of, most_pairs};
ghost use Rattle.pairs.specs.Step.{walk_at, one_unless, try_at, absent_notes, absent_status, after, went_on, place_in, row_in, way_in};

use numbers::wide32;
use table::count_at;

// Where a walk is: how many pairs are open, and the steps so far; the pair that was tried last, by
// its place, its row and its row times P; and what is to be done about that pair. All are numbers:
// a struct of whole words has no padding, which with two bools cost the walk 2 to 4 percent, as it
// is copied at every turn (docs/PERFORMANCE.md); an enum is a byte, with padding behind it.
#[repr(C)]
#[derive(Clone, Copy)]
pub struct Walk {
    pub top: usize,
    pub steps: usize,
    pub place: usize,
    pub row: usize,
    pub base: usize,
    pub status: usize,
}

// The statuses: the pair tried last has failed, or was left, so the walk goes back; it is to be
// entered; it is END, and open; it was entered, and waits for a row that is not yet there.
pub const BACK: usize = 0;

pub const ENTER: usize = 1;

pub const FOUND: usize = 2;

pub const WAITS: usize = 3;

// A number of the trail: its place in the low bits, its row above, and above that the way that is
// tried next.
const ROW: usize = 2048;

const ROWS: usize = 8192;

const WAY: usize = 16777216;

// The number at an index of the trail.
pub fn open_at(trail: &[u32], at: usize) -> usize
    requires { at < length trail.now }
    ensures { (result ≡ get_or trail.now at 0) × (result < 4294967296) }
{
    wide32(trail[at])
}

// The place of a number of the trail.
pub fn place_of(e: usize) -> usize
    ensures { (result ≡ place_in e) × (result < 2048) }
{
    e % ROW
}

// Its row.
pub fn row_of(e: usize) -> usize
    ensures { (result ≡ row_in e) × (result < 8192) }
{
    e / ROW % ROWS
}

// The number, in its fork, of the way that its pair tries next; 0 where none is left, and no Option,
// as it is the high bits of a number of the trail.
pub fn way_of(e: usize) -> usize
    requires { e < 4294967296 }
    ensures { (result ≡ way_in e) × (result < 256) }
{
    e / WAY
}

// Whether pair x has failed.
pub fn failed(notes: &[u8], x: usize) -> bool
    requires { x / 8 < length notes.now }
    ensures { result ≡ bit_at notes.now x }
{
    (notes[x / 8] >> (x % 8)) % 2 == 1
}

// Pair x, which has not failed, fails.
pub fn mark(notes: &mut [u8], x: usize)
    requires { (x / 8 < length notes.old) × (bit_at notes.old x ≡ false) }
    ensures { notes.new ≡ marked notes.old x }
{
    notes[x / 8] = notes[x / 8] + (1 << (x % 8));
}

// Whether an anchor of code c passes at the row, or another place that is no letter, which always
// passes.
pub fn anchor_passes(n: usize, c: usize, row: usize) -> bool
    requires { 26 ≤ c }
    ensures { (holds : ℕ → ℕ → Bool) → result ≡ passes_by holds n c row }
{
    if c == table::CARET {
        return row == 0;
    }
    if c == table::DOLLAR {
        return row == n;
    }
    true
}

fn one_unless(is: bool) -> usize
    ensures { result ≡ one_unless is }
{
    if is { BACK } else { ENTER }
}

// The pair is tried: it is to be entered unless it has failed. The numbers are those of the Walk
// that it makes, which stands nowhere before.
pub fn tried(notes: &[u8], top: usize, steps: usize, place: usize, row: usize, base: usize) -> Walk
    requires { (base + place < most_pairs) × ((base + place) / 8 < length notes.now) }
    ensures { result ≡ try_at notes.now top steps place row base }
{
    let shut = failed(notes, base + place);
    Walk {
        top,
        steps,
        place,
        row,
        base,
        status: one_unless(shut),
    }
}

// What the trail holds of place q when it is entered, but for its row: the place, and its second
// way where it has one.
pub fn entry_at(words: &[u16], q: usize) -> usize
    requires { (4 * q + 4 ≤ length words.now) × (q < 2048) }
    ensures { (result ≡ entry_of words.now q) × (result < 16779264) }
{
    if 1 < count_at(words, q) {
        return q + WAY;
    }
    q
}

// The same of a place of which it is known that it has a second way.
pub fn fork_entry(q: usize) -> usize
    requires { q < 2048 }
    ensures { result ≡ q + 16777216 }
{
    q + WAY
}

// The pair at a row of the place whose entry is v is open.
pub fn push(trail: &mut [u32], top: usize, row: usize, v: usize)
    requires { (top < length trail.old) × (row * 2048 + v < 4294967296) }
    ensures { trail.new ≡ set trail.old top (row * 2048 + v) }
{
    trail[top] = (row * ROW + v) as u32;
}

// The pair of w, which was entered with this step, fails.
pub fn fails(notes: &mut [u8], w: Walk, steps: usize) -> Walk
    requires { (w.base + w.place < most_pairs) × ((w.base + w.place) / 8 < length notes.old) × (bit_at notes.old (w.base + w.place) ≡ false) }
    ensures { (notes.new ≡ marked notes.old (w.base + w.place)) × (result ≡ walk_at w.top steps w.place w.row w.base 0) }
{
    mark(notes, w.base + w.place);
    Walk {
        steps,
        status: BACK,
        ..w
    }
}

// The pair of w, which was entered with this step, asks for a row that is not there: it waits for
// it where more rows may come, and else it fails.
pub fn absent(notes: &mut [u8], w: Walk, steps: usize, more: bool) -> Walk
    requires { (w.base + w.place < most_pairs) × ((w.base + w.place) / 8 < length notes.old) × (bit_at notes.old (w.base + w.place) ≡ false) }
    ensures { (notes.new ≡ absent_notes more notes.old (w.base + w.place)) × (result ≡ walk_at w.top steps w.place w.row w.base (absent_status more)) }
{
    if more {
        return Walk {
            steps,
            status: WAITS,
            ..w
        };
    }
    fails(notes, w, steps)
}

// The way behind way j of a fork with so many ways; 0 for none.
pub fn way_after(count: usize, j: usize) -> usize
    requires { (j < 65536) × (count ≤ 256) }
    ensures { (result ≡ after count j) × (result < 256) }
{
    if j + 1 < count {
        return j + 1;
    }
    0
}

// The open pair at index `at`, whose number is e, has way j next.
pub fn put_way(trail: &mut [u32], at: usize, e: usize, j: usize)
    requires { (at < length trail.old) × (j < 256) }
    ensures { trail.new ≡ set trail.old at (went_on j e) }
{
    trail[at] = (e % WAY + j * WAY) as u32;
}
