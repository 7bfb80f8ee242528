// Where a search goes on behind a match: the skip mode, and the next start by the match's rows and
// labels. A labelled row may name no start: the letter labels no row of the match, or its first
// row, at which the search would find the same match again. Promise: `next_row` equals the rules'
// `next_start`.
#![tactic(auto)]

ghost use Rattle.std.specs.Prelude.{◌≡◌, ◌+◌, ◌≤◌, ◌<◌, length, IfSome};
ghost use Rattle.rules.specs.Answers.{skip_of};
ghost use Rattle.rules.specs.Search.{first_with, last_with, labelled_start, next_start};
ghost use Rattle.skips.specs.Skips.{skip_in, start_in};

// Where the search goes on behind a match with rows: behind its last row, one row behind its first,
// or at its first or its last row with a letter.
#[derive(Clone, Copy)]
pub enum Skip {
    PastLastRow,
    ToNextRow,
    ToFirst(usize),
    ToLast(usize),
}

// The skip mode of a query's record, by its number and its letter.
#[tactic(auto, unfolding(rules::specs::Answers::skip_of))]
pub fn skip_of(mode: usize, letter: usize) -> Skip
    ensures { skip_in result ≡ skip_of mode letter }
{
    match mode {
        0 => Skip::PastLastRow,
        1 => Skip::ToNextRow,
        2 => Skip::ToFirst(letter),
        _ => Skip::ToLast(letter),
    }
}

// How many rows behind the match's first row its first row with the letter is.
fn first_with(labels: &[u8], letter: usize) -> Option<usize>
    ensures first { start_in result ≡ first_with letter labels.now }
    ensures inside { IfSome result (λ k. k < length labels.now) }
{
    labels
        .iter()
        .position(|&label| usize::from(label) == letter)
}

// How many rows behind the match's first row its last row with the letter is.
fn last_with(labels: &[u8], letter: usize) -> Option<usize>
    ensures last { start_in result ≡ last_with letter labels.now }
    ensures inside { IfSome result (λ k. k < length labels.now) }
{
    labels
        .iter()
        .rposition(|&label| usize::from(label) == letter)
}

// The start `on` rows behind the first row of a match with these labels; one row on where it has
// none.
fn labelled_row(row: usize, labels: &[u8], on: Option<usize>) -> Option<usize>
    requires on { row + 1 < 18446744073709551616 }
    requires labelled { IfSome on (λ k. row + k < 18446744073709551616) }
    ensures { start_in result ≡ labelled_start row labels.now (start_in on) }
{
    if labels.is_empty() {
        return Some(row + 1);
    }
    match on {
        Some(k) if 0 < k => Some(row + k),
        _ => None,
    }
}

// Where the next attempt begins behind a match with these labels, of the rows from `row` to below
// `behind`, if it names a start; one row on where it has none.
#[tactic(auto, unfolding(rules::specs::Search::next_start))]
pub fn next_row(skip: Skip, row: usize, behind: usize, labels: &[u8]) -> Option<usize>
    requires { (row + 1 < 18446744073709551616) × (row + length labels.now < 18446744073709551616) }
    ensures { start_in result ≡ next_start (skip_in skip) row behind labels.now }
{
    match skip {
        Skip::PastLastRow => Some(behind.max(row + 1)),
        Skip::ToNextRow => Some(row + 1),
        Skip::ToFirst(letter) => labelled_row(row, labels, first_with(labels, letter)),
        Skip::ToLast(letter) => labelled_row(row, labels, last_with(labels, letter)),
    }
}
