// Answers 10, 11 and 12 of document 01, decided on numbers: whether entries make whole rows and not
// too many, and whether notes and trail are long enough. The promises are equations with
// specs/Sizes.
#![tactic(auto)]

ghost use Rattle.std.specs.Prelude.{◌≡◌, ◌≤◌, ◌/◌, MatchResult, true, false};
ghost use Rattle.refusals.specs.Refusals.{answer_in, offset_in};
ghost use Rattle.refusals.specs.declared.Refusal.TheVariants.{BadRows};
ghost use Rattle.sizes.specs.Sizes.{bad_count, short_for};

use refusals::Refusal;

// The most rows of a partition.
pub const MOST_ROWS: usize = 4096;

// How many rows so many entries are; answer 10 where they are not whole rows of so many columns, or
// too many rows.
#[tactic(auto, using(crate::proofs::Laws::not_whole, crate::proofs::Laws::too_many, crate::proofs::Laws::good))]
pub fn rows_of(entries: usize, columns: usize) -> Result<usize, Refusal>
    requires { 1 ≤ columns }
    ensures { MatchResult result (λ rows. (bad_count entries columns ≡ false) × (rows ≡ entries / columns)) (λ e. (bad_count entries columns ≡ true) × (e ≡ BadRows)) }
{
    if entries % columns != 0 {
        return Err(Refusal::BadRows);
    }
    let rows = entries / columns;
    if MOST_ROWS < rows {
        return Err(Refusal::BadRows);
    }
    Ok(rows)
}

// Answers 11 and 12: whether so many bytes of notes, a bit for each pair, or so many numbers of the
// trail are too few for so many pairs.
#[tactic(auto, using(crate::proofs::Laws::notes_short, crate::proofs::Laws::trail_short, crate::proofs::Laws::both_long))]
pub fn short_room(pairs: usize, notes: usize, trail: usize) -> Result<(), Refusal>
    requires { pairs ≤ 8390656 }
    ensures answer { answer_in result ≡ short_for pairs notes trail }
    ensures offset { offset_in result ≡ 0 }
{
    if notes < (pairs + 7) / 8 {
        return Err(Refusal::ShortNotes);
    }
    if trail < pairs {
        return Err(Refusal::ShortTrail);
    }
    Ok(())
}
