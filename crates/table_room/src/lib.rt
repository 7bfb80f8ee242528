// The room that the table of a prepared query takes: where its measures and the tests of its
// letters begin behind the words of its places, how many words it needs, and whether a table has so
// many.
#![tactic(auto)]

ghost use Rattle.std.specs.Prelude.{◌≡◌, ◌≤◌, ltb, ◌||◌};
ghost use Rattle.table_room.specs.Words.{measures_at, tests_at, Sizing, needed};

use letter_words::TEST_WORDS;
use tests::words_for;

// An entry's words and its ways are at most so many.
pub const PLACE_WORDS: usize = 7;

pub const MEASURE_WORDS: usize = 24;

// The words of a table are told by numbers of 16 bits.
const LONGEST: usize = 65535;

// Where the measures of a query whose places have so many entries begin in its table.
pub fn measures_at(entries: usize) -> usize
    requires { entries ≤ 2048 }
    ensures { result ≡ measures_at entries }
{
    PLACE_WORDS * entries
}

// Where the tests of its letters begin.
pub fn tests_at(entries: usize) -> usize
    requires { entries ≤ 2048 }
    ensures { result ≡ tests_at entries }
{
    PLACE_WORDS * entries + MEASURE_WORDS
}

// Whether a table of so many words has no room for a query that needs so many.
pub fn has_no_room(words: usize, needed: usize) -> bool
    ensures { result ≡ (ltb words needed || ltb 65535 words) }
{
    words < needed || LONGEST < words
}

// How many words a query of so many entries needs.
#[tactic(auto, unfolding(crate::specs::Words::needed))]
pub fn words_needed(query: &[u8], defines: &[usize; 26], entries: usize, letters: usize) -> usize
    requires { Sizing query.now defines.now entries letters }
    ensures { (result ≡ needed query.now defines.now entries letters) × (result ≤ 16076) }
{
    let more = words_for(query, defines, letters);
    tests_at(entries) + TEST_WORDS + more
}
