// Why a query, rows or a call is refused: a variant for each refusal of document 01 and of the
// requests. Inside the library a refusal is this type, in the `Err` of a `Result`; a caller in C is
// told its number and its byte of the pattern's text. Promise: both are those of specs/Refusals,
// which are the numbers of document 01's table and of R-1, R-4 and R-11. Weakness: which of them
// applies is no matter of this crate.
#![tactic(auto)]

ghost use Rattle.std.specs.Prelude.{◌≡◌};
ghost use Rattle.refusals.specs.Refusals.{answer_of, offset_of};

// Broken and Unfinished have a byte of the pattern's text: that at which it is wrong, or its length.
#[derive(Clone, Copy, PartialEq, Eq)]
pub enum Refusal {
    Cut,
    Misplaced,
    Unfit,
    TooDeep,
    Broken { at: usize },
    Nested,
    TooMany,
    Doubled,
    Foreign,
    BadRows,
    ShortNotes,
    ShortTrail,
    Unfinished { at: usize },
    LooksAhead,
    NoNumber,
    OutOfOrder,
}

impl Refusal {
    // The answer's number.
    pub fn answer(self) -> usize
        ensures { result ≡ answer_of self }
    {
        match self {
            Refusal::Cut => 1,
            Refusal::Misplaced => 2,
            Refusal::Unfit => 3,
            Refusal::TooDeep => 4,
            Refusal::Broken { at: _ } => 5,
            Refusal::Nested => 6,
            Refusal::TooMany => 7,
            Refusal::Doubled => 8,
            Refusal::Foreign => 9,
            Refusal::BadRows => 10,
            Refusal::ShortNotes => 11,
            Refusal::ShortTrail => 12,
            Refusal::Unfinished { at: _ } => 14,
            Refusal::LooksAhead => 17,
            Refusal::NoNumber => 20,
            Refusal::OutOfOrder => 21,
        }
    }

    // The byte of the pattern's text that is told with it; 0 for the others.
    pub fn offset(self) -> usize
        ensures { result ≡ offset_of self }
    {
        match self {
            Refusal::Broken { at } => at,
            Refusal::Unfinished { at } => at,
            _ => 0,
        }
    }
}
