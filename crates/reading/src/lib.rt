// What reading a query comes to, letters that its pattern does not name, and how long its text is.
#![tactic(auto)]

ghost use Rattle.std.specs.Prelude.{◌≡◌, ◌≤◌, ◌<◌};
ghost use Rattle.reading.specs.Reading.{known_in, foreign_in, short_text};

// What a query with no answer of its own asks: P, F, the top node of its pattern's tree, and its
// parts, with the letter that the skip names (0 for none) and a number from which on no letter has a
// DEFINE.
#[derive(Clone, Copy)]
pub struct Query {
    pub places: usize,
    pub factor: usize,
    pub top: usize,
    pub columns: usize,
    pub skip: usize,
    pub target: usize,
    pub measures: usize,
    pub letters: usize,
}

// How much to lend: P, n and F.
#[derive(Clone, Copy)]
pub struct Size {
    pub places: usize,
    pub rows: usize,
    pub factor: usize,
}

// Whether the letter of a measure or of the skip stands in the pattern's text, or is 0: for all
// rows, or for none.
#[tactic(auto, using(crate::proofs::Laws::letter_free, crate::proofs::Laws::letter_looked))]
fn is_known(text: &[u8], letter: u8) -> bool
    ensures { result ≡ known_in text.now letter }
{
    if letter == 0 {
        return true;
    }
    scan::has_byte(text, letter)
}

// Whether some measure's letter, or the letter that the skip names, does not stand in the pattern's
// text. The loop goes over all measures: leaving it at the first such letter makes every turn
// longer.
#[tactic(auto, using(crate::proofs::Laws::known_all))]
pub fn has_foreign(text: &[u8], measures: &[u8; 24], count: usize, target: usize) -> bool
    requires { (count ≤ 8) × (target < 256) }
    ensures { result ≡ foreign_in text.now measures.now count target }
{
    let mut known = is_known(text, target as u8);
    for k in 0..count {
        let m = measure_list::measure_at(measures, k);
        known &= is_known(text, m.letter);
    }
    !known
}

// Whether the pattern's text is short: in a query with no answer 1 to 3 the first record has 6
// bytes, so that bytes 6 and 7 are the text's length.
pub fn text_is_short(query: &[u8]) -> bool
    ensures { result ≡ short_text query.now }
{
    if query.len() < 8 {
        return false;
    }
    if query[7] != 0 {
        return false;
    }
    query[6] <= 16
}
