// A call of a search by lots (R-11), by value: what is kept goes in and comes out, with the result.
// Where the search has stopped the result is as before; after the end a call is refused; any other
// call prepares the query and is made over it (crates/query_calls).
// Promise: for what earlier calls left, result, buffers and what is kept are those of `call_of` of
// the rules (specs/Calls). Weakness: any other state gets an answer too, and which one is left
// free.
#![tactic(auto)]

ghost use Rattle.std.specs.Prelude.{◌≡◌};
ghost use Rattle.calls.specs.Steps.{before as asked, after as left, as_before};
ghost use Rattle.feeding.specs.Calls.{Calls};

use calls::{Call, Fed, refuse_by};
use lots::{DONE, Feed, WAITING};
use outcome::Outcome;
use query_calls::call_waiting;
use refusals::Refusal;

// The same result as before.
fn as_before(feed: Feed) -> Fed
    ensures { result ≡ as_before feed }
{
    let outcome = Outcome {
        answer: feed.answer,
        matches: feed.matches,
        labels: feed.labels,
        steps: feed.steps,
        offset: 0,
    };
    Fed { feed, outcome }
}

// A call, with more behind its rows or as the last: 13, 15 and 16 stay the answer, and after the end
// a call is out of order.
#[tactic(auto, using(crate::proofs::Feeding::feeds))]
pub fn feed(
    query: &[u8],
    rows: &[i32],
    notes: &mut [u8],
    trail: &mut [u32],
    numbers: &mut [i64],
    labels: &mut [u8],
    call: Call,
) -> Fed
    ensures { Calls (asked call query.now rows.now notes.old trail.old numbers.old labels.old) (left result notes.new trail.new numbers.new labels.new) }
{
    match call.feed.answer {
        WAITING => call_waiting(query, rows, notes, trail, numbers, labels, call),
        DONE => refuse_by(call.feed, Refusal::OutOfOrder),
        _ => as_before(call.feed),
    }
}
