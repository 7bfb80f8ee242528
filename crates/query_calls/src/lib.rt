// A call of a search by lots (R-11) where the search waits: the query is prepared in a table that
// is long enough, and the call is made over it (crates/calls).
// Promise: that of a call (crates/calls, specs/Calls). Weakness: each call prepares the query anew,
// since nothing kept is relied on.
#![tactic(auto)]

ghost use Rattle.std.specs.Prelude.{◌≡◌, ◌≤◌, ◌<◌, MatchOption};
ghost use Rattle.outcome.specs.Results.{lent};
ghost use Rattle.calls.specs.Calls.{Calls};
ghost use Rattle.calls.specs.Steps.{before, after};

use calls::{Call, Fed, call_prepared};
use prepared::prepare;

// A call with a table of so many words; none where they are too few for the query, and then nothing
// is changed.
#[tactic(auto, using(crate::proofs::Preparing::tabled))]
fn call_in<const WORDS: usize>(
    query: &[u8],
    rows: &[i32],
    notes: &mut [u8],
    trail: &mut [u32],
    numbers: &mut [i64],
    labels: &mut [u8],
    call: Call,
) -> Option<Fed>
    requires words { WORDS ≤ 16076 }
    requires waits { call.feed.answer ≡ 23 }
    ensures { MatchOption result ((WORDS < 16076) × (lent notes.new trail.new numbers.new labels.new ≡ lent notes.old trail.old numbers.old labels.old)) (λ r. Calls (before call query.now rows.now notes.old trail.old numbers.old labels.old) (after r notes.new trail.new numbers.new labels.new)) }
{
    let mut table = [0u16; WORDS];
    let prepared = prepare(query, &mut table)?;
    Some(call_prepared(&table, prepared, call, rows, notes, trail, numbers, labels))
}

// A call where the search waits. A small table is tried first: it is enough for most queries, and
// clearing a large one takes longer than the search of a few rows. Only the largest is long enough
// for every query.
pub fn call_waiting(
    query: &[u8],
    rows: &[i32],
    notes: &mut [u8],
    trail: &mut [u32],
    numbers: &mut [i64],
    labels: &mut [u8],
    call: Call,
) -> Fed
    requires { call.feed.answer ≡ 23 }
    ensures { Calls (before call query.now rows.now notes.old trail.old numbers.old labels.old) (after result notes.new trail.new numbers.new labels.new) }
{
    if let Some(fed) = call_in::<768>(query, rows, notes, trail, numbers, labels, call) {
        return fed;
    }
    if let Some(fed) = call_in::<3532>(query, rows, notes, trail, numbers, labels, call) {
        return fed;
    }
    call_in::<16076>(query, rows, notes, trail, numbers, labels, call).unwrap()
}
