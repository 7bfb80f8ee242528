// The tests of the letters, written into the table of a prepared query from the DEFINEs of the
// query's bytes; the layout of the words is that of crates/table/specs/Tests.
// Promise: for every letter the words say the condition of its DEFINE, and no word in front of the
// tests is changed (specs/Prepared). Weakness: the DEFINEs must be sound, and the table large
// enough, which the caller has to see to; `words_for` tells how large.
#![tactic(auto)]

ghost use Rattle.std.specs.Prelude.{◌≡◌, ◌+◌, ◌≤◌, ◌<◌, length, slice_set};
ghost use Rattle.tests.specs.Prepared.{more_of, words_for, TestCounted, TestsCountable, Preparable, Prepared};
ghost use Rattle.tests.specs.Prepared.{LetterRoom, TestRoom, LetterPut, LettersPut, NoneRoom, NonePut};

use comparison_words::{COMPARISON_BYTES, put_comparison, put_comparisons};
use entry_words::put_postfix;
use interval_words::put_interval;
use letter_words::{COMPARISON_WORDS, FIRST, FREE, KIND, LETTER_WORDS, MORE, TEST_WORDS};
use numbers::le16_at;
use records::ALL_OF;
use table::LETTERS;

// ---- how many words

// The words of the comparisons behind the first, or of the entries, where the DEFINE's body starts
// at index d.
fn more_of(query: &[u8], d: usize) -> usize
    requires { (d ≡ 0 → ⊥) → TestCounted query.now d }
    ensures { (result ≡ more_of query.now d) × (result ≤ 50) }
{
    if d == 0 {
        return 0;
    }
    let count = usize::from(query[d + 1]);
    if le16_at(query, d - 2) == ALL_OF {
        return (count - 1) * COMPARISON_WORDS;
    }
    count * 3 + 2
}

// How many words the tests of the letters below `letters` take behind the 416 of all letters.
pub fn words_for(query: &[u8], defines: &[usize; 26], letters: usize) -> usize
    requires { TestsCountable query.now defines.now letters }
    ensures { (result ≡ words_for query.now defines.now letters) × (result ≤ 1300) }
{
    let mut words = 0;
    for d in &defines[..letters] {
        words += more_of(query, *d);
    }
    words
}

// ---- letters

// The two words that say that the letter at word `at` has no DEFINE, so that it is not tested.
fn put_free(table: &mut [u16], at: usize)
    requires { at + 16 ≤ length table.old }
    ensures { table.new ≡ slice_set (slice_set table.old at 0) (at + 7) 2 }
{
    table[at] = 0;
    table[at + KIND] = FREE as u16;
}

// The words of a letter whose DEFINE of kind 3 has its body at index d, as put_letter says. As in
// comparison_words, what is read and where it is put stay apart: d, at and more differ by letter.
fn put_defined(
    query: &[u8],
    columns: usize,
    d: usize,
    table: &mut [u16],
    at: usize,
    more: usize,
) -> usize
    requires { TestRoom query.now columns d table.old at more }
    ensures { LetterPut query.now columns d table.old table.new at more result }
{
    let count = usize::from(query[d + 1]);
    let first = d + 2;
    table[at] = count as u16;
    table[at + MORE] = more as u16;
    put_comparison(query, columns, first, table, at + FIRST);
    put_interval(query, first, table, at);
    put_comparisons(
        query,
        columns,
        first + COMPARISON_BYTES,
        count - 1,
        table,
        more,
    )
}

// The words of a letter at word `at`, its comparisons behind the first, or its entries, from word
// `more` on. Returns the word behind those. Where it has no DEFINE, d is 0.
fn put_letter(
    query: &[u8],
    columns: usize,
    d: usize,
    table: &mut [u16],
    at: usize,
    more: usize,
) -> usize
    requires { LetterRoom query.now columns d table.old at more }
    ensures { LetterPut query.now columns d table.old table.new at more result }
{
    if d == 0 {
        put_free(table, at);
        return more;
    }
    if le16_at(query, d - 2) == ALL_OF {
        return put_defined(query, columns, d, table, at, more);
    }
    put_postfix(query, columns, d, table, at, more)
}

// The words of the letters below `letters`.
fn put_letters(
    query: &[u8],
    columns: usize,
    defines: &[usize; 26],
    letters: usize,
    table: &mut [u16],
    tests: usize,
)
    requires { Preparable query.now columns defines.now letters table.old tests }
    ensures { LettersPut query.now columns defines.now table.old table.new tests letters }
{
    let mut more = tests + TEST_WORDS;
    for (l, d) in defines[..letters].iter().enumerate() {
        more = put_letter(query, columns, *d, table, tests + l * LETTER_WORDS, more);
    }
}

// The letters from `letters` on have no DEFINE.
fn put_none(table: &mut [u16], tests: usize, letters: usize)
    requires { NoneRoom table.old tests letters }
    ensures { NonePut table.old table.new tests letters }
{
    for l in letters..LETTERS {
        put_free(table, tests + l * LETTER_WORDS);
    }
}

// The tests of all letters, from word `tests` on, where no letter from `letters` on has a DEFINE.
pub fn put_tests(
    query: &[u8],
    columns: usize,
    defines: &[usize; 26],
    letters: usize,
    table: &mut [u16],
    tests: usize,
)
    requires { Preparable query.now columns defines.now letters table.old tests }
    ensures { Prepared query.now columns defines.now table.old table.new tests }
{
    put_letters(query, columns, defines, letters, table, tests);
    put_none(table, tests, letters);
}
