// The words of the entries of a DEFINE of kind 6, written into the table of a prepared query; their
// layout is that of crates/table/specs/Tests.
// Promise: the words say the entries that stand in the query's bytes, and no other word is changed
// (specs/Words). Weakness: the entries must fit, which the caller has to see to.
#![tactic(auto)]

ghost use Rattle.std.specs.Prelude.{◌≡◌, ◌≤◌, eqb};
ghost use Rattle.rules.specs.Basics.{pick};
ghost use Rattle.entry_words.specs.Words.{EntryRoom, EntryPut, EntriesRoom, EntriesPut, PostfixRoom, PostfixPut};

use comparison_words::put_comparison;
use field_values::{COMPARISON, entry_bytes};
use letter_words::{BY_ENTRIES, COMPARISON_WORDS, ENTRIES, KIND, MORE};

// AND, OR and NOT are words above all that a comparison begins with: so much more than their bytes.
const OPERATORS: usize = 15;

// How many words an entry takes, by its first byte in the query; letter_words tells it by the first
// word, which is another number.
fn entry_words(tag: usize) -> usize
    ensures { (result ≡ pick (eqb tag 0) 5 1) × (result ≤ 5) }
{
    if tag == COMPARISON {
        COMPARISON_WORDS
    } else {
        1
    }
}

// The words of the entry at index p, whose first byte is `tag`.
fn put_entry(query: &[u8], columns: usize, p: usize, tag: usize, table: &mut [u16], at: usize)
    requires { EntryRoom query.now columns p tag table.old at }
    ensures { EntryPut query.now columns p tag table.old table.new at }
{
    if tag == COMPARISON {
        put_comparison(query, columns, p + 1, table, at);
        return;
    }
    table[at] = (OPERATORS + tag) as u16;
}

// The words of the `count` entries from index p on.
fn put_entries(query: &[u8], columns: usize, p: usize, count: usize, table: &mut [u16], at: usize)
    requires { EntriesRoom query.now columns p count table.old at }
    ensures { EntriesPut query.now columns p count table.old table.new at }
{
    let mut from = p;
    let mut to = at;
    for _ in 0..count {
        let tag = usize::from(query[from]);
        put_entry(query, columns, from, tag, table, to);
        from += entry_bytes(tag);
        to += entry_words(tag);
    }
}

// The words of a letter at word `at` whose DEFINE of kind 6 has its body at index d, and its entries
// from word `more` on. Returns the word behind those: of entries that leave one result less than one
// half are comparisons, but for one, so three words for each and two more are enough.
pub fn put_postfix(
    query: &[u8],
    columns: usize,
    d: usize,
    table: &mut [u16],
    at: usize,
    more: usize,
) -> usize
    requires { PostfixRoom query.now columns d table.old at more }
    ensures { PostfixPut query.now columns d table.old table.new at more result }
{
    let count = usize::from(query[d + 1]);
    table[at] = 0;
    table[at + MORE] = more as u16;
    table[at + ENTRIES] = count as u16;
    table[at + KIND] = BY_ENTRIES as u16;
    put_entries(query, columns, d + 2, count, table, more);
    more + count * 3 + 2
}
