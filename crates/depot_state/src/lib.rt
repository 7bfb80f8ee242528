// The state that the calls of R-4 keep, one word a number: 769 cells, then how many partitions have
// a number, how many numbers of the list are used, and the two named columns. It stands for the
// reports so far (specs/State); what each function writes, whatever the words hold, is in
// specs/Steps.
#![tactic(auto)]

ghost use Rattle.std.specs.Prelude.{◌≡◌, ◌++◌, ◌≤◌, length, drop, replicate};
ghost use Rattle.rules.specs.Basics.{pick};
ghost use Rattle.depot_state.specs.State.{Begun};
ghost use Rattle.depot_state.specs.Steps.{list_fits, list_with, state_with, state_up, cells_named, Listing, Counts};

use named::{measure_count, shape_of};
use tally::{NamedColumns, Report, count_all};

// Where the words stand, and how many there are. They are no struct: C lends them as a slice, which
// may be too short (include/mireladle.h).
pub const PARTITIONS: usize = 769;

pub const LISTED: usize = 770;

pub const DEPOT: usize = 771;

pub const MONTH: usize = 772;

pub const LENGTH: usize = 773;

// The answer to a partition that gets no number, and to a state that is none.
pub const NO_NUMBER: usize = 20;

// Zeros in all cells and in both counts.
fn clear(state: &mut [usize])
    requires { 771 ≤ length state.old }
    ensures { state.new ≡ replicate 771 0 ++ drop 771 state.old }
{
    state[..DEPOT].fill(0);
}

// A new state, with the two named columns. The result is 0 or NO_NUMBER, and no Result: C gets it.
pub fn begin(state: &mut [usize], depot: usize, month: usize) -> usize
    ensures { Begun depot month state.old state.new result }
{
    if state.len() < LENGTH {
        return NO_NUMBER;
    }
    clear(state);
    state[DEPOT] = depot;
    state[MONTH] = month;
    0
}

// A partition that was refused or stopped, appended to the list if its entry fits.
pub fn list_one(state: &mut [usize], list: &mut [u32], answer: usize) -> bool
    requires { Listing state.old answer }
    ensures { (result ≡ list_fits state.old list.old) × (state.new ≡ pick result (state_with state.old) state.old) × (list.new ≡ pick result (list_with state.old list.old answer) list.old) }
{
    let used = state[LISTED];
    if list.len().saturating_sub(used) < 2 {
        return false;
    }
    let number = state[PARTITIONS] + 1;
    list[used] = number as u32;
    list[used + 1] = answer as u32;
    state[LISTED] = used + 2;
    state[PARTITIONS] = number;
    true
}

// The matches of a report that is done, counted.
pub fn count_done(state: &mut [usize], query: &[u8], rows: &[i32], numbers: &[i64], matches: usize)
    requires { Counts state.old query.now rows.now numbers.now matches }
    ensures { state.new ≡ state_up state.old (cells_named state.old query.now rows.now numbers.now matches) }
{
    let number = state[PARTITIONS] + 1;
    let named = NamedColumns {
        depot: state[DEPOT],
        month: state[MONTH],
    };
    let report = Report {
        rows,
        columns: shape_of(query),
        numbers,
        stride: 3 + 2 * measure_count(query),
    };
    count_all(state, report, named, matches);
    state[PARTITIONS] = number;
}
