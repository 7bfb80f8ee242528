// The places of letters tell where the tests of their letters begin, in the word that only forks
// need else, so that the walk finds a test by its place and reckons nothing. Promise: no other word
// is changed, and the table holds the same places (proofs/Same). Weakness: the ways of forks have
// to stand behind the words of all places, which unrolling promises.
#![tactic(auto)]

ghost use Rattle.std.specs.Prelude.{◌+◌, ◌*◌, ◌≤◌, length};
ghost use Rattle.letter_places.specs.Pointing.{Points, PointedOne, Pointing};

use letter_words::LETTER_WORDS;
use table::{LETTERS, WORDS, code_at};

// Which word of a place tells its test.
const LATER: usize = 2;

// Place q, if it is a letter's, is told its test; the tests begin at word `tests`.
fn point_one(table: &mut [u16], q: usize, tests: usize)
    requires { (4 * q + 4 ≤ length table.old) × (tests + 416 ≤ 65536) }
    ensures { PointedOne table.old table.new q tests }
{
    let c = code_at(table, q);
    if c < LETTERS {
        table[WORDS * q + LATER] = (tests + c * LETTER_WORDS) as u16;
    }
}

// Each letter's place among the first ones is told its test.
pub fn point(table: &mut [u16], places: usize, tests: usize)
    requires { Points table.old places tests }
    ensures { Pointing table.old table.new places tests }
{
    for q in 0..places {
        point_one(table, q, tests);
    }
}
