// The rules for the values of fields, decided on numbers: offsets, the sides of a comparison, and a
// measure's function, letter and column.
#![tactic(auto)]

ghost use Rattle.std.specs.Prelude.{◌≡◌, ◌+◌, ◌-◌, ◌≤◌, ◌<◌, eqb};
ghost use Rattle.rules.specs.Basics.{pick, is_letter};
ghost use Rattle.rules.specs.Query.{offset_fits, left_fits, right_fits, function_fits};

// The first byte of an entry of kind 6 is 0 where a comparison stands behind it, or 1, 2 or 3 for
// AND, OR or NOT. No enum: any byte may stand there, and what is said below is said of each.
pub const COMPARISON: usize = 0;

pub const NOT: usize = 3;

// The right side of a comparison is a number, which stands behind it, or a column of a row.
const NUMBER: usize = 0;

const COLUMN: usize = 1;

// The function that counts rows, and so has no column of its own.
const COUNT: usize = 1;

// Whether a byte is a letter, A to Z. text_bytes has the same of a `u8`; fields are read as numbers.
#[tactic(auto, unfolding(rules::specs::Basics::is_letter, rules::specs::Basics::in_range))]
pub fn is_letter(byte: usize) -> bool
    ensures { result ≡ is_letter byte }
{
    (65..=90).contains(&byte)
}

// An offset byte from -64 to 64.
#[tactic(auto, unfolding(rules::specs::Query::offset_fits, rules::specs::Basics::signed8))]
fn offset_fits(b: usize) -> bool
    requires { b < 256 }
    ensures { result ≡ offset_fits b }
{
    b <= 64 || b >= 192
}

// The right side of a comparison.
#[tactic(auto, unfolding(rules::specs::Query::right_fits))]
pub fn right_fits(columns: usize, kind: usize, column: usize, offset: usize) -> bool
    requires { offset < 256 }
    ensures { result ≡ right_fits columns kind column offset }
{
    match kind {
        NUMBER => column == 0 && offset == 0,
        COLUMN => column < columns && offset_fits(offset),
        _ => false,
    }
}

// The left side of a comparison, and its operator.
#[tactic(auto, unfolding(rules::specs::Query::left_fits, rules::specs::Basics::in_range))]
pub fn left_fits(columns: usize, column: usize, offset: usize, operator: usize) -> bool
    requires { offset < 256 }
    ensures { result ≡ left_fits columns column offset operator }
{
    column < columns && offset_fits(offset) && (1..=6).contains(&operator)
}

// A measure's function, letter and column; COUNT has column 0.
#[tactic(auto, unfolding(rules::specs::Query::function_fits, rules::specs::Basics::in_range))]
pub fn function_fits(columns: usize, function: usize, letter: usize, column: usize) -> bool
    ensures { result ≡ function_fits columns function letter column }
{
    (1..=7).contains(&function)
        && (letter == 0 || is_letter(letter))
        && column < columns
        && (function != COUNT || column == 0)
}

// How many bytes an entry of kind 6 takes, by its first byte.
pub fn entry_bytes(tag: usize) -> usize
    ensures { (result ≡ pick (eqb tag 0) 13 1) × (result ≤ 13) }
{
    if tag == COMPARISON { 13 } else { 1 }
}

// How many results there are behind an entry, by its first byte and the results before it; 0 where
// it runs short.
pub fn results_after(tag: usize, results: usize) -> usize
    requires { results < 256 }
    ensures { result ≡ pick (eqb tag 0) (results + 1) (pick (eqb tag 3) results (results - 1)) }
{
    match tag {
        COMPARISON => results + 1,
        NOT => results,
        _ => results.saturating_sub(1),
    }
}
