// The face for C and Rust callers, built by `tools/build mireladle_c`: each function is the proved
// one of its name, with the same promise. A slice passes as a pointer and a length in elements;
// include/mireladle.h says what a caller owes for the pointers, which no promise here can check. The
// state of a search by lots is lent as a pointer too: the three functions take it out, call by value
// and store what comes back (crates/lending has the law of that form, for any function).
#![tactic(auto)]

ghost use Rattle.std.specs.Prelude.{◌≡◌, true, false, length};
ghost use Rattle.std.proofs.Math.Option.{none, some};
ghost use Rattle.outcome.specs.Results.{lent, memory};
ghost use Rattle.search.specs.Promise.{Promised};
ghost use Rattle.desk.specs.Promise.{Desk};
ghost use Rattle.depot_state.specs.State.{Begun};
ghost use Rattle.depots.specs.Calls.{Calls};
ghost use Rattle.test_letter.specs.Tests.{TestedAs};
ghost use Rattle.lots.specs.Feeds.{new_feed};
ghost use Rattle.feeding.specs.Calls.{Calls as LotCalls};
ghost use Rattle.mireladle_c.specs.Told.{Told};

use bus_log::Verdict;
use calls::Call;
use lots::Feed;
use outcome::Outcome;
use test_letter::Tested;

// How much to lend: the answer 1 to 10 or 14, with the offset of 5 and 14, or 0 with P, n, the
// number of pairs and R-3's factor F. It is the C interface's struct, so a number and no `Result`.
#[repr(C)]
#[derive(Clone, Copy)]
pub struct Room {
    pub answer: usize,
    pub places: usize,
    pub rows: usize,
    pub pairs: usize,
    pub offset: usize,
    pub factor: usize,
}

// The search.
#[unsafe(no_mangle)]
pub extern "C" fn mireladle_search(
    query: &[u8],
    rows: &[i32],
    notes: &mut [u8],
    trail: &mut [u32],
    numbers: &mut [i64],
    labels: &mut [u8],
) -> Outcome
    ensures { Promised none query.now rows.now (lent notes.old trail.old numbers.old labels.old) (memory result notes.new trail.new numbers.new labels.new) }
{
    search::search(query, rows, notes, trail, numbers, labels)
}

// The search within an allowance of steps.
#[unsafe(no_mangle)]
pub extern "C" fn mireladle_search_within(
    query: &[u8],
    rows: &[i32],
    allowance: usize,
    notes: &mut [u8],
    trail: &mut [u32],
    numbers: &mut [i64],
    labels: &mut [u8],
) -> Outcome
    ensures { Promised (some allowance) query.now rows.now (lent notes.old trail.old numbers.old labels.old) (memory result notes.new trail.new numbers.new labels.new) }
{
    search::search_within(query, rows, allowance, notes, trail, numbers, labels)
}

// How much a query needs on these rows.
#[unsafe(no_mangle)]
pub extern "C" fn mireladle_room(query: &[u8], rows: &[i32]) -> Room
    ensures { Told query.now rows.now result }
{
    match room::room(query, rows) {
        Ok(size) => Room {
            answer: 0,
            places: size.places,
            rows: size.rows,
            pairs: size.places * size.factor * (size.rows + 1),
            offset: 0,
            factor: size.factor,
        },
        Err(refusal) => Room {
            answer: refusal.answer(),
            places: 0,
            rows: 0,
            pairs: 0,
            offset: refusal.offset(),
            factor: 0,
        },
    }
}

// The release desk's verdict on a bus's log.
#[unsafe(no_mangle)]
pub extern "C" fn mireladle_desk(
    rows: &[i32],
    notes: &mut [u8],
    trail: &mut [u32],
    numbers: &mut [i64],
    labels: &mut [u8],
) -> Verdict
    ensures { Desk rows.now (lent notes.old trail.old numbers.old labels.old) (lent notes.new trail.new numbers.new labels.new) result }
{
    desk::desk(rows, notes, trail, numbers, labels)
}

// A new state for the depot-by-month table, with its two named columns.
#[unsafe(no_mangle)]
pub extern "C" fn mireladle_depots_begin(state: &mut [usize], depot: usize, month: usize) -> usize
    ensures { Begun depot month state.old state.new result }
{
    depot_state::begin(state, depot, month)
}

// One partition of the depot-by-month table: searched, then counted or listed.
#[unsafe(no_mangle)]
pub extern "C" fn mireladle_depots_partition(
    state: &mut [usize],
    list: &mut [u32],
    query: &[u8],
    rows: &[i32],
    notes: &mut [u8],
    trail: &mut [u32],
    numbers: &mut [i64],
    labels: &mut [u8],
) -> Outcome
    ensures { Calls (record { query = query.now; rows = rows.now; buffers = lent notes.old trail.old numbers.old labels.old; state = state.old; list = list.old }) (record { memory = memory result notes.new trail.new numbers.new labels.new; state = state.new; list = list.new }) }
{
    depots::partition(state, list, query, rows, notes, trail, numbers, labels)
}

// Whether a letter holds at a row, and how many comparisons were judged for it.
#[unsafe(no_mangle)]
pub extern "C" fn mireladle_test(query: &[u8], rows: &[i32], letter: u8, row: usize) -> Tested
    ensures { TestedAs query.now rows.now letter row result }
{
    test_letter::test_letter(query, rows, letter, row)
}

// A search by lots begins: the largest number of rows and the steps allowed are named.
#[unsafe(no_mangle)]
pub extern "C" fn mireladle_begin(feed: &mut Feed, largest: usize, allowance: usize)
    ensures { feed.new ≡ new_feed largest allowance }
{
    *feed = lots::begin(largest, allowance);
}

// A lot of rows, behind which more may come.
#[unsafe(no_mangle)]
pub extern "C" fn mireladle_more(
    feed: &mut Feed,
    query: &[u8],
    rows: &[i32],
    present: usize,
    notes: &mut [u8],
    trail: &mut [u32],
    numbers: &mut [i64],
    labels: &mut [u8],
) -> Outcome
    ensures { LotCalls (record { feed = feed.old; query = query.now; rows = rows.now; present = present; last = false; buffers = lent notes.old trail.old numbers.old labels.old }) (record { feed = feed.new; memory = memory result notes.new trail.new numbers.new labels.new }) }
{
    let call = Call {
        feed: *feed,
        present,
        last: false,
    };
    let fed = feeding::feed(query, rows, notes, trail, numbers, labels, call);
    *feed = fed.feed;
    fed.outcome
}

// The last lot: the end is declared.
#[unsafe(no_mangle)]
pub extern "C" fn mireladle_last(
    feed: &mut Feed,
    query: &[u8],
    rows: &[i32],
    present: usize,
    notes: &mut [u8],
    trail: &mut [u32],
    numbers: &mut [i64],
    labels: &mut [u8],
) -> Outcome
    ensures { LotCalls (record { feed = feed.old; query = query.now; rows = rows.now; present = present; last = true; buffers = lent notes.old trail.old numbers.old labels.old }) (record { feed = feed.new; memory = memory result notes.new trail.new numbers.new labels.new }) }
{
    let call = Call {
        feed: *feed,
        present,
        last: true,
    };
    let fed = feeding::feed(query, rows, notes, trail, numbers, labels, call);
    *feed = fed.feed;
    fed.outcome
}
