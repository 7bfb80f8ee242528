// The table of a prepared query: one list of words, written once and read by the walk and the
// report. It holds the places and their ways (specs/Table), the tests of the letters (specs/Tests)
// and the measures (specs/Measures). The words of a place are read by functions of their names, so
// that their layout can change here alone. Weakness: what is read must lie in the table, which
// whoever prepares a query has to see to (specs/Sized, Tests).
#![tactic(auto)]

ghost use Rattle.std.specs.Prelude.{◌≡◌, ◌+◌, ◌*◌, ◌≤◌, ◌<◌, length, get_or};
ghost use Rattle.table.specs.Table.{code_at, first_at, later_at, count_at, later_way};
ghost use Rattle.table.specs.Sized.{LaterIn};

use numbers::wide16;

// How far a search reaches: the rows n, the columns of a row, the places P, the word of the table
// at which the letters' tests begin, how many steps are allowed, and whether more rows may come.
#[repr(C)]
#[derive(Clone, Copy)]
pub struct Extent {
    pub rows: usize,
    pub columns: usize,
    pub places: usize,
    pub tests: usize,
    pub allowance: usize,
    pub more: bool,
}

// The words of a place.
pub const WORDS: usize = 4;

// The codes of places: below LETTERS the letters A to Z, then these.
pub const LETTERS: usize = 26;

pub const CARET: usize = 26;

pub const DOLLAR: usize = 27;

// A fork of two ways or more that tries the place behind it first, so that the walk knows that
// place, and that there is a second way, by the code alone.
pub const NEAR_FORK: usize = 28;

pub const FORK: usize = 29;

pub const END: usize = 30;

// How many ways a fork has that tells its second by itself.
pub const TWO_WAYS: usize = 2;

// The word at an index.
pub fn word_at(table: &[u16], at: usize) -> usize
    requires { at < length table.now }
    ensures { (result ≡ get_or table.now at 0) × (result < 65536) }
{
    wide16(table[at])
}

// The code of place q.
pub fn code_at(table: &[u16], q: usize) -> usize
    requires { 4 * q + 4 ≤ length table.now }
    ensures { (result ≡ code_at table.now q) × (result < 65536) }
{
    wide16(table[WORDS * q])
}

// The place that is tried first from place q.
pub fn first_at(table: &[u16], q: usize) -> usize
    requires { 4 * q + 4 ≤ length table.now }
    ensures { (result ≡ first_at table.now q) × (result < 65536) }
{
    wide16(table[WORDS * q + 1])
}

// Of a fork of two ways at place q the second, of one with more the word at which its ways begin;
// of a letter the word at which its test begins.
pub fn later_at(table: &[u16], q: usize) -> usize
    requires { 4 * q + 4 ≤ length table.now }
    ensures { (result ≡ later_at table.now q) × (result < 65536) }
{
    wide16(table[WORDS * q + 2])
}

// How many ways the fork at place q has; 0 for any other place.
pub fn count_at(table: &[u16], q: usize) -> usize
    requires { 4 * q + 4 ≤ length table.now }
    ensures { (result ≡ count_at table.now q) × (result < 65536) }
{
    wide16(table[WORDS * q + 3])
}

// Way j of the fork at place q, from its second on, which is way 1.
pub fn later_way(table: &[u16], q: usize, j: usize) -> usize
    requires { LaterIn table.now q j }
    ensures { (result ≡ later_way table.now q j) × (result < 65536) }
{
    let later = later_at(table, q);
    if count_at(table, q) == TWO_WAYS {
        return later;
    }
    word_at(table, later + j)
}
