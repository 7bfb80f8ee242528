// The program's input taken apart: a query length of 2 bytes, the query, then the rows as signed
// numbers of 4 bytes each. `input_of` says what the lengths decide (specs/Input), `verdict_of` what
// is to be printed once the query and the rows are judged (specs/Verdict), both in the order of
// document 01. proofs/Inputs and proofs/Verdicts say what is then known, and that the program
// prints what each case prints.
#![tactic(auto)]

ghost use Rattle.std.specs.Prelude.{◌≡◌, ◌/◌, ◌≤◌, length};
ghost use Rattle.rules.specs.Basics.{wrote};
ghost use Rattle.rules.specs.Program.{rows_of};
ghost use Rattle.input.specs.Input.{input_of};
ghost use Rattle.input.specs.Verdict.{input_verdict};

use numbers::{le16_at, le32_at, signed_word};

// The most pairs that the program searches.
const MOST_PAIRS: usize = 16000;

// The bytes of a number of the rows.
const NUMBER_BYTES: usize = 4;

// The answer for rows that are not whole.
const BAD_ROWS: u64 = 10;

// What the lengths alone say of an input: that it is refused, with the answer's number; that it is
// too large; or that its query and rows can be judged. The query is then at index 2 and on, up to
// `rows`, where the rows begin. A number, and no Refusal: it is printed, and nothing else reads it.
#[derive(Clone, Copy)]
pub enum Input {
    Refused(u64),
    TooLarge,
    Go { rows: usize },
}

// What a query and its row bytes come to: a refusal, with the answer's number, which is printed; too
// many pairs; or a search.
#[derive(Clone, Copy)]
pub enum Verdict {
    Refused(u64),
    TooLarge,
    Search,
}

// The lengths judged in the paper's order. The row bytes are judged by their number alone: whether
// they are whole numbers is answer 10's to say.
pub fn input_of(s: &[u8]) -> Input
    ensures { result ≡ input_of s.now }
{
    if s.len() < 2 {
        return Input::Refused(1);
    }
    let query = le16_at(s, 0);
    if 4096 < query {
        return Input::TooLarge;
    }
    let rows = 2 + query;
    if s.len() < rows {
        return Input::Refused(1);
    }
    if 32768 < s.len() - rows {
        return Input::TooLarge;
    }
    Input::Go { rows }
}

// What is printed of a query and so many row bytes: a refusal with the answer 1 to 10 or 14, where
// there is one; a 10, where the bytes are no whole numbers; `too large`, where there are too many
// pairs; and else the report of the search.
pub fn verdict_of(answer: usize, bytes: usize, pairs: usize) -> Verdict
    ensures { result ≡ input_verdict answer bytes pairs }
{
    if 0 < answer {
        return Verdict::Refused(answer as u64);
    }
    if bytes % NUMBER_BYTES != 0 {
        return Verdict::Refused(BAD_ROWS);
    }
    if MOST_PAIRS < pairs {
        return Verdict::TooLarge;
    }
    Verdict::Search
}

// The rows' numbers into the front of a lent array, which is unchanged beyond; the result is their
// count.
pub fn rows_of(bytes: &[u8], rows: &mut [i32]) -> usize
    requires { length bytes.now / 4 ≤ length rows.old }
    ensures { (rows.new ≡ wrote rows.old 0 (rows_of bytes.now)) × (result ≡ length (rows_of bytes.now)) }
{
    let count = bytes.len() / NUMBER_BYTES;
    for k in 0..count {
        rows[k] = signed_word(le32_at(bytes, 4 * k));
    }
    count
}
