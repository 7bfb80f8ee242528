// The rows of a match that a measure is over, by their labels: how many there are, the first and
// the last of them.
#![tactic(auto)]

ghost use Rattle.std.specs.Prelude.{◌≡◌, ◌≤◌, length, drop};
ghost use Rattle.labelled.specs.Labelled.{is_of, count_of, IsFirst, IsLast};

// Whether a row with this label is one of the measure's rows.
pub fn is_of(letter: u8, label: u8) -> bool
    ensures { result ≡ is_of letter label }
{
    letter == 0 || label == letter
}

// The first row of a measure, as its index among the labels of the match.
pub fn first_of(letter: u8, labels: &[u8]) -> Option<usize>
    ensures { IsFirst letter labels.now result }
{
    labels.iter().position(|&label| is_of(letter, label))
}

// The last row of a measure, sought from the end.
pub fn last_of(letter: u8, labels: &[u8]) -> Option<usize>
    ensures { IsLast letter labels.now result }
{
    labels.iter().rposition(|&label| is_of(letter, label))
}

// How many rows a measure has from index `at` on. By std's `filter` and `count` a long match takes
// twice as long (docs/PERFORMANCE.md).
#[tactic(auto, using(crate::proofs::Seeking::all_counted, crate::proofs::Seeking::next_counted, crate::proofs::Seeking::next_passed, crate::proofs::Seeking::whole_counted))]
pub fn count_of(letter: u8, labels: &[u8], at: usize) -> usize
    requires { at ≤ length labels.now }
    ensures { (result ≡ count_of letter (drop at labels.now)) × (result ≤ length labels.now) }
{
    if letter == 0 {
        return labels.len() - at;
    }
    let rest = &labels[at..];
    let mut count = 0;
    for i in 0..rest.len() {
        if is_of(letter, rest[i]) {
            count += 1;
        }
    }
    count
}
