// One call of a search by lots (R-11) over a prepared query, where the search waits for rows: the
// refusals by rank, then the search on the rows present. What is kept goes in and comes out.
// Promise: for what earlier calls left, result, buffers and what is kept are those of `call_of` of
// the rules (specs/Calls). Any other state gets an answer too, which is left free: numbers that lie
// outside their bounds are answered as a call out of order. Weakness: the rows behind the present
// ones are not looked at, not even whether those that were present before are still the same.
#![tactic(auto)]

ghost use Rattle.std.specs.Prelude.{◌≡◌, List, ℕ};
ghost use Rattle.refusals.specs.Refusals.{answer_of, offset_of};
ghost use Rattle.prepared.specs.Ready.{Given};
ghost use Rattle.ahead.specs.Looking.{StandsFor};
ghost use Rattle.calls.specs.Calls.{Calls};
ghost use Rattle.calls.specs.Steps.{before, after, refusing, kept_by, Told, Admits, Goes, Went};

use ahead::looks_ahead;
use lot_answers::{Measured, lot_answer};
use lots::{Feed, advance, within};
use matches::Sweep;
use outcome::{Outcome, finished};
use prepared::Prepared;
use refusals::Refusal;
use starting::{Terms, task_of};

// A call: what was kept before it, how many rows are present, and whether it is the last.
#[derive(Clone, Copy)]
pub struct Call {
    pub feed: Feed,
    pub present: usize,
    pub last: bool,
}

// What a call comes to: what is kept behind it, and its result.
#[derive(Clone, Copy)]
pub struct Fed {
    pub feed: Feed,
    pub outcome: Outcome,
}

// The call gets an answer and an offset, and zeros: what is kept stays as it is.
pub fn refuse(feed: Feed, answer: usize, offset: usize) -> Fed
    ensures { result ≡ refusing feed answer offset }
{
    let outcome = Outcome {
        answer,
        matches: 0,
        labels: 0,
        steps: 0,
        offset,
    };
    Fed { feed, outcome }
}

// The call is refused: what is kept stays as it is.
pub fn refuse_by(feed: Feed, refusal: Refusal) -> Fed
    ensures { result ≡ refusing feed (answer_of refusal) (offset_of refusal) }
{
    refuse(feed, refusal.answer(), refusal.offset())
}

// What is kept behind a search.
fn kept(call: Call, s: Sweep) -> Feed
    ensures { result ≡ kept_by call s }
{
    let feed = call.feed;
    Feed {
        largest: feed.largest,
        allowance: feed.allowance,
        present: call.present,
        begun: 1,
        answer: s.end,
        row: s.row,
        matches: s.matches,
        labels: s.labels,
        steps: s.steps,
        opened: s.opened,
    }
}

// The search of a call that is not refused, over the rows present.
fn go(
    table: &[u16],
    p: Prepared,
    call: Call,
    rows: &[i32],
    notes: &mut [u8],
    trail: &mut [u32],
    numbers: &mut [i64],
    labels: &mut [u8],
) -> Fed
    requires { Goes table.now p call rows.now notes.old trail.old labels.old }
    ensures { Went table.now p call rows.now notes.old trail.old numbers.old labels.old notes.new trail.new numbers.new labels.new result }
{
    let before = call.feed;
    let terms = Terms {
        rows: call.present,
        largest: before.largest,
        allowance: before.allowance,
        more: !call.last,
    };
    let task = task_of(p, terms);
    let s = advance(table, rows, notes, trail, numbers, labels, task, before);
    let feed = kept(call, s);
    let outcome = finished(s);
    Fed { feed, outcome }
}

// Whether a call over a prepared query is refused, by the lengths of the rows' slice and of the lent
// buffers: a query that looks ahead, the numbers of the call, or numbers kept that lie outside their
// bounds.
#[tactic(auto, using(crate::proofs::Refusing::admits))]
fn admit(
    table: &[u16],
    p: Prepared,
    call: Call,
    entries: usize,
    notes: usize,
    trail: usize,
    labels: usize,
) -> Result<(), Refusal>
    requires { StandsFor table.now p }
    ensures { Admits table.now p call entries notes trail labels result }
{
    if looks_ahead(table, p) {
        return Err(Refusal::LooksAhead);
    }
    let feed = call.feed;
    lot_answer(Measured {
        places: p.places,
        columns: p.columns,
        largest: feed.largest,
        present: call.present,
        before: feed.present,
        entries,
        notes,
        trail,
    })?;
    if within(feed, labels) {
        Ok(())
    } else {
        Err(Refusal::OutOfOrder)
    }
}

// A call over a prepared query.
pub fn call_prepared(
    table: &[u16],
    prepared: Result<Prepared, Refusal>,
    call: Call,
    rows: &[i32],
    notes: &mut [u8],
    trail: &mut [u32],
    numbers: &mut [i64],
    labels: &mut [u8],
) -> Fed
    requires { Told table.now prepared × (call.feed.answer ≡ 23) }
    ensures { (q : List ℕ) → Given q table.now prepared → Calls (before call q rows.now notes.old trail.old numbers.old labels.old) (after result notes.new trail.new numbers.new labels.new) }
{
    let p = match prepared {
        Ok(p) => p,
        Err(refusal) => return refuse_by(call.feed, refusal),
    };
    match admit(
        table,
        p,
        call,
        rows.len(),
        notes.len(),
        trail.len(),
        labels.len(),
    ) {
        Ok(()) => {
            let part = &rows[..call.present * p.columns];
            go(table, p, call, part, notes, trail, numbers, labels)
        }
        Err(refusal) => refuse_by(call.feed, refusal),
    }
}
