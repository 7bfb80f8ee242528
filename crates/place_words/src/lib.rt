// The words of the table of places, in the layout that crates/table reads: the words of a place,
// and the ways of a fork. Promise: a way is put unless the fork has it. Weakness: a way is looked
// for among all ways of its fork, so a fork of m ways costs m * m / 2 comparisons.
#![tactic(auto)]

ghost use Rattle.std.specs.Prelude.{◌≡◌, ◌-◌, ◌≤◌, length};
ghost use Rattle.rules.specs.Basics.{has};
ghost use Rattle.table.specs.Table.{span};
ghost use Rattle.place_words.specs.Words.{put_words, put_fork, put_single, Wording, Single, ForkNeeds, WayPut, WayNeeds, place_words};

use place_codes::{Plane, fork_code, later_word};
use table::{END, WORDS, word_at};

// The words of place q.
#[tactic(auto, unfolding(crate::specs::Words::put_words))]
fn put_words(table: &mut [u16], q: usize, code: usize, first: usize, later: usize, count: usize)
    requires { Wording table.old q code first later count }
    ensures { table.new ≡ put_words table.old q (place_words code first later count) }
{
    let at = WORDS * q;
    table[at] = code as u16;
    table[at + 1] = first as u16;
    table[at + 2] = later as u16;
    table[at + 3] = count as u16;
}

// Place b without ways: a letter, an anchor or END, which leads to place k. Returns the word behind
// the last way, here w, as all functions do that put places.
// A struct of table and word is no plainer: each contract would promise its `ghost_name` too.
pub fn put_place(table: &mut [u16], b: usize, w: usize, code: usize, k: usize) -> usize
    requires { Wording table.old b code k 0 0 }
    ensures { (result ≡ w) × (table.new ≡ put_words table.old b (place_words code k 0 0)) }
{
    put_words(table, b, code, k, 0, 0);
    w
}

// Place b without ways in a plane, where its flags have so many values: END where it does not have
// the plane's flags.
#[tactic(auto, unfolding(crate::specs::Words::put_single))]
pub fn put_single(
    table: &mut [u16],
    o: Plane,
    b: usize,
    w: usize,
    code: usize,
    k: usize,
    values: usize,
) -> usize
    requires { Single table.old o b code k }
    ensures { (result ≡ w) × (table.new ≡ put_single table.old o b (place_words code k 0 0) values) }
{
    let q = o.slot(b);
    if o.flags < values {
        return put_place(table, q, w, code, k);
    }
    put_place(table, q, w, END, 0)
}

// The words of the fork at place b, whose ways stand from word w to word `to`.
pub fn put_fork(table: &mut [u16], b: usize, w: usize, to: usize) -> usize
    requires { ForkNeeds table.old b w to }
    ensures { (result ≡ to) × (table.new ≡ put_fork table.old b w to) }
{
    let first = word_at(table, w);
    let count = to - w;
    let code = fork_code(first, b + 1, count);
    let later = later_word(table, w, count);
    put_words(table, b, code, first, later, count);
    to
}

// Whether y stands in the words from `from` to `to`.
fn among(table: &[u16], from: usize, to: usize, y: usize) -> bool
    requires { (from ≤ to) × (to ≤ length table.now) }
    ensures { result ≡ has y (span table.now from (to - from)) }
{
    table[from..to].iter().any(|&word| usize::from(word) == y)
}

// Puts a way of a fork, unless it has it.
pub fn put_way(table: &mut [u16], from: usize, to: usize, y: usize) -> usize
    requires { WayNeeds table.old from to y }
    ensures { WayPut table.old table.new from to y result }
{
    if among(table, from, to, y) {
        return to;
    }
    table[to] = y as u16;
    to + 1
}
