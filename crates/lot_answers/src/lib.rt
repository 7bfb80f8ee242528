// The refusals of a call with a lot of rows (R-11), behind those of the query and 17: answers 10,
// 11, 12 and 21 by rank, decided on numbers.
// Promise: an equation with specs/Lot. Where the query has no answer of its own and does not look
// ahead, that is the refusal of the rules for the call whose numbers they are (proofs/Refusals).
#![tactic(auto)]

ghost use Rattle.std.specs.Prelude.{◌≡◌};
ghost use Rattle.refusals.specs.Refusals.{answer_in, offset_in};
ghost use Rattle.lot_answers.specs.Lot.{Small, bad_numbers, lot_answer};

use refusals::Refusal;
use sizes::{MOST_ROWS, short_room};

// What a call is judged by: the places with their flags, the columns of a row, the largest number
// of rows, the rows present now and before, and the lengths of the rows' slice, notes and trail.
#[derive(Clone, Copy)]
pub struct Measured {
    pub places: usize,
    pub columns: usize,
    pub largest: usize,
    pub present: usize,
    pub before: usize,
    pub entries: usize,
    pub notes: usize,
    pub trail: usize,
}

// Answer 10. The product is small, as it is made only behind the tests of the numbers in it.
#[tactic(auto, using(crate::proofs::Laws::lot))]
fn bad_lot(m: Measured) -> bool
    requires { Small m }
    ensures { result ≡ bad_numbers m }
{
    if MOST_ROWS < m.largest {
        return true;
    }
    if m.entries % m.columns != 0 {
        return true;
    }
    if m.largest < m.present {
        return true;
    }
    m.entries < m.present * m.columns
}

// Whether a call is refused with 10, 11, 12 or 21. Notes and trail are measured by the largest
// number of rows, so that they are long enough for every later call too.
#[tactic(auto, using(crate::proofs::Laws::answers))]
pub fn lot_answer(m: Measured) -> Result<(), Refusal>
    requires { Small m }
    ensures answer { answer_in result ≡ lot_answer m }
    ensures offset { offset_in result ≡ 0 }
{
    if bad_lot(m) {
        return Err(Refusal::BadRows);
    }
    short_room(m.places * (m.largest + 1), m.notes, m.trail)?;
    if m.present < m.before {
        return Err(Refusal::OutOfOrder);
    }
    Ok(())
}
