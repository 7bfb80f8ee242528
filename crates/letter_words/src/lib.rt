// The layout of the letters' tests in the table of a prepared query (crates/table/specs/Tests), each
// number of it once: which word is what, what stands there, and how many words an entry takes.
// Whoever writes these words or reads them names them from here.
// They are numbers and not enums: words of the flat table, which the walk reads where they stand.
#![tactic(auto)]

ghost use Rattle.std.specs.Prelude.{◌≡◌, ◌≤◌, ltb};
ghost use Rattle.rules.specs.Basics.{pick};

// The words of one letter, and of all of them.
pub const LETTER_WORDS: usize = 16;

pub const TEST_WORDS: usize = 416;

// ---- which word of a letter is what; word 0 tells how many comparisons its DEFINE has

// Where the comparisons behind the first stand, or the entries.
pub const MORE: usize = 1;

// How many entries, where it is tested by them.
pub const ENTRIES: usize = 2;

// Its first comparison, and that one's two spots.
pub const FIRST: usize = 2;

pub const FIRST_LEFT: usize = 3;

pub const FIRST_RIGHT: usize = 4;

// How it is tested.
pub const KIND: usize = 7;

// The interval of its first comparison: the first number, and how many more there are.
pub const INTERVAL: usize = 8;

pub const WIDTH: usize = 12;

// What a number is raised by where it is tested, so that no number that a comparison meets is below
// 0; the first number of an interval stands in the table less this.
pub const RAISED_BY: u64 = 8589934592;

// ---- how a letter is tested

// By a first comparison whose right side is a number, or has a column.
pub const NUMBER: usize = 0;

pub const COLUMN: usize = 1;

// Not at all: it has no DEFINE.
pub const FREE: usize = 2;

// By its entries: its DEFINE is of kind 6.
pub const BY_ENTRIES: usize = 3;

// ---- comparisons and entries

// The words of a comparison, and which of them is what. Word 0 is the operator, and so much more
// where the right side has a column.
pub const COMPARISON_WORDS: usize = 5;

pub const LEFT: usize = 1;

pub const RIGHT: usize = 2;

pub const LOW: usize = 3;

pub const HIGH: usize = 4;

pub const WITH_COLUMN: usize = 8;

// The words of AND and OR, above all that a comparison begins with; any other from AND on is NOT.
pub const AND: usize = 16;

pub const OR: usize = 17;

// How many words an entry takes that begins with this word.
pub fn entry_words(word: usize) -> usize
    ensures { (result ≡ pick (ltb word 16) 5 1) × (result ≤ 5) }
{
    if word < AND { COMPARISON_WORDS } else { 1 }
}
