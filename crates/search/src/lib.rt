// The whole search: a query is prepared, then run over its rows. `run` takes a prepared query and
// can be called for many rows; `search_within` does both within an allowance of steps, and `search`
// without one. The promise, for every query, all rows, every allowance and all lent buffers, is an
// equation with the definition of documents 01 and 02, and the tender's demands with it
// (specs/Promise). Nothing is allocated; the table lies on the stack. Weakness: `run` trusts its
// table, so only a query that `prepare` wrote may be handed to it.
//
// The four lent buffers stay four parameters here and below: C lends them apart, and over a struct
// of `&mut` slices each contract would have to say besides that the slices stay the same ones.
#![tactic(auto)]

ghost use Rattle.std.specs.Prelude.{◌≡◌, List, ℕ, ◌≤◌, ◌<◌, MatchOption};
ghost use Rattle.std.proofs.Math.Option.{none, some};
ghost use Rattle.outcome.specs.Results.{lent, memory};
ghost use Rattle.prepared.specs.Ready.{Given};
ghost use Rattle.search.specs.Promise.{Promised};
ghost use Rattle.search.specs.Runs.{Runs, TermsFor};

use outcome::Outcome;
use prepared::{Prepared, prepare};
use refusals::Refusal;
use sizes::{rows_of, short_room};
use starting::{Terms, walk_prepared};

// An allowance that no search passes: as many steps as a number can tell.
pub const NO_LIMIT: usize = 18446744073709551615;

// The terms on which a prepared query is run over so many entries of rows, with so many bytes of
// notes and numbers of the trail; answers 10 to 12.
#[tactic(auto, using(crate::proofs::Answering::admits))]
fn terms_for(
    p: Prepared,
    entries: usize,
    notes: usize,
    trail: usize,
    allowance: usize,
) -> Result<Terms, Refusal>
    requires some { 1 ≤ p.columns }
    requires few { p.places ≤ 2048 }
    ensures { TermsFor p entries notes trail allowance result }
{
    let rows = rows_of(entries, p.columns)?;
    short_room(p.places * (rows + 1), notes, trail)?;
    Ok(Terms {
        rows,
        largest: rows,
        allowance,
        more: false,
    })
}

// The search of a prepared query: its own answer, then answers 10 to 12, then the walk.
#[tactic(auto, using(crate::proofs::Answering::runs))]
pub fn run(
    table: &[u16],
    prepared: Result<Prepared, Refusal>,
    rows: &[i32],
    allowance: usize,
    notes: &mut [u8],
    trail: &mut [u32],
    numbers: &mut [i64],
    labels: &mut [u8],
) -> Outcome
    requires { Runs table.now prepared }
    ensures { (q : List ℕ) → Given q table.now prepared → Promised (some allowance) q rows.now (lent notes.old trail.old numbers.old labels.old) (memory result notes.new trail.new numbers.new labels.new) }
{
    let p = match prepared {
        Ok(p) => p,
        Err(refusal) => return Outcome::from(refusal),
    };
    match terms_for(p, rows.len(), notes.len(), trail.len(), allowance) {
        Ok(terms) => walk_prepared(table, p, terms, rows, notes, trail, numbers, labels),
        Err(refusal) => Outcome::from(refusal),
    }
}

// The search of a query with a table of so many words; none where they are too few for it, and then
// nothing is changed.
#[tactic(auto, using(crate::proofs::Answering::tabled))]
fn search_in<const WORDS: usize>(
    query: &[u8],
    rows: &[i32],
    allowance: usize,
    notes: &mut [u8],
    trail: &mut [u32],
    numbers: &mut [i64],
    labels: &mut [u8],
) -> Option<Outcome>
    requires { WORDS ≤ 16076 }
    ensures { MatchOption result ((WORDS < 16076) × (lent notes.new trail.new numbers.new labels.new ≡ lent notes.old trail.old numbers.old labels.old)) (λ r. Promised (some allowance) query.now rows.now (lent notes.old trail.old numbers.old labels.old) (memory r notes.new trail.new numbers.new labels.new)) }
{
    let mut table = [0u16; WORDS];
    let prepared = prepare(query, &mut table)?;
    Some(run(
        &table, prepared, rows, allowance, notes, trail, numbers, labels,
    ))
}

// The search within an allowance of steps. A small table is tried first: it is enough for most
// queries, and clearing a large one takes longer than the search of a few rows. Only the largest is
// long enough for every query.
pub fn search_within(
    query: &[u8],
    rows: &[i32],
    allowance: usize,
    notes: &mut [u8],
    trail: &mut [u32],
    numbers: &mut [i64],
    labels: &mut [u8],
) -> Outcome
    ensures { Promised (some allowance) query.now rows.now (lent notes.old trail.old numbers.old labels.old) (memory result notes.new trail.new numbers.new labels.new) }
{
    if let Some(outcome) = search_in::<768>(query, rows, allowance, notes, trail, numbers, labels) {
        return outcome;
    }
    if let Some(outcome) = search_in::<3532>(
        query, rows, allowance, notes, trail, numbers, labels,
    ) {
        return outcome;
    }
    search_in::<16076>(query, rows, allowance, notes, trail, numbers, labels).unwrap()
}

// The search.
pub fn search(
    query: &[u8],
    rows: &[i32],
    notes: &mut [u8],
    trail: &mut [u32],
    numbers: &mut [i64],
    labels: &mut [u8],
) -> Outcome
    ensures { Promised none query.now rows.now (lent notes.old trail.old numbers.old labels.old) (memory result notes.new trail.new numbers.new labels.new) }
{
    search_within(query, rows, NO_LIMIT, notes, trail, numbers, labels)
}
