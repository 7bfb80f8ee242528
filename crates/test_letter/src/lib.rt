// The public test of a letter at a row: whether the letter holds there, and how many comparisons of
// its kind 3 record were judged, up to and with the first that is not met (R-6). For every query,
// all rows, every byte and every row: the promise is four equations with `test_of` of the rules.
// Weakness: the query is prepared at each call, so a test costs about as much as reading the query.
#![tactic(auto)]

ghost use Rattle.std.specs.Prelude.{◌≡◌, List, ℕ, ◌+◌, ◌≤◌, min};
ghost use Rattle.refusals.specs.Refusals.{answer_of, offset_of};
ghost use Rattle.prepared.specs.Ready.{Given};
ghost use Rattle.test_letter.specs.Tests.{Asks, TestedAs, refused_test, tested, told};

use comparisons::far_back;
use judging::{Judged, judge_letter};
use letter_words::LETTER_WORDS;
use numbers::wide8;
use prepared::{Prepared, prepare};
use refusals::Refusal;
use sizes::rows_of;
use table_room::tests_at;

// The letters A and Z.
const FIRST_LETTER: usize = 65;

const LAST_LETTER: usize = 90;

// A comparison looks so many rows back at the most.
const FURTHEST: usize = 64;

// What a test returns: the answer 1 to 10 or 14, with the offset of 5 and 14, or 0; and where it is
// 0, whether the letter holds (1 or 0), and how many comparisons were judged. It is the C interface's
// struct, so a number and no `Result`.
#[repr(C)]
#[derive(Clone, Copy)]
pub struct Tested {
    pub answer: usize,
    pub holds: usize,
    pub judged: usize,
    pub offset: usize,
}

impl From<Refusal> for Tested {
    ghost from_gives = { λ why r. r ≡ refused_test (answer_of why) (offset_of why) };

    fn from(why: Refusal) -> Tested {
        Tested {
            answer: why.answer(),
            holds: 0,
            judged: 0,
            offset: why.offset(),
        }
    }
}

impl From<Judged> for Tested {
    ghost from_gives = { λ judged r. r ≡ tested judged.holds judged.count };

    fn from(judged: Judged) -> Tested {
        Tested {
            answer: 0,
            holds: usize::from(judged.holds),
            judged: judged.count,
            offset: 0,
        }
    }
}

// The row that is judged for a row: from 64 rows behind the last on nothing is read.
fn nearest(row: usize, n: usize) -> usize
    requires { n ≤ 4096 }
    ensures { (result ≡ min row (n + 64)) × (result ≤ 4160) }
{
    if row < n + FURTHEST {
        row
    } else {
        n + FURTHEST
    }
}

// The test of a letter of a prepared query.
#[tactic(auto, using(crate::proofs::Answering::tests))]
fn test_prepared(
    table: &[u16],
    prepared: Result<Prepared, Refusal>,
    rows: &[i32],
    letter: usize,
    row: usize,
) -> Result<Judged, Refusal>
    requires { Asks table.now prepared }
    ensures { (q : List ℕ) → Given q table.now prepared → TestedAs q rows.now letter row (told result) }
{
    let p = prepared?;
    let columns = p.columns;
    let present = rows_of(rows.len(), columns)?;
    if letter < FIRST_LETTER || letter > LAST_LETTER {
        return Ok(Judged {
            holds: true,
            count: 0,
        });
    }
    let from = far_back(columns, nearest(row, present) * columns);
    let at = tests_at(p.places) + (letter - FIRST_LETTER) * LETTER_WORDS;
    Ok(judge_letter(table, at, rows, from))
}

// The test of a letter, by its byte, at a row.
#[tactic(auto, using(crate::proofs::Answering::tabled))]
pub fn test_letter(query: &[u8], rows: &[i32], letter: u8, row: usize) -> Tested
    ensures { TestedAs query.now rows.now letter row result }
{
    let mut table = [0u16; 16076];
    let prepared = prepare(query, &mut table).unwrap();
    match test_prepared(&table, prepared, rows, wide8(letter), row) {
        Ok(judged) => Tested::from(judged),
        Err(refusal) => Tested::from(refusal),
    }
}
