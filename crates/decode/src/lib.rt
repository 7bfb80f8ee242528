// A query's parts decoded once, in one pass over its records: for each letter where its DEFINE
// stands in the query, the measures, a few numbers, and whether a letter has two DEFINEs (answer
// 8). Comparisons and entries stay where they are, in the query's bytes, so a search reads the lent
// array of indices and then the query itself. specs/Layout says what the arrays hold afterwards
// (`Decoded`). A query comes here with no answer 1 to 3.
#![tactic(auto)]

ghost use Rattle.std.specs.Prelude.{◌≡◌};
ghost use Rattle.query.specs.Order.{first_answer};
ghost use Rattle.decode.specs.Layout.{DecodeRoom, Decoded};
ghost use Rattle.decode.specs.Steps.{HeadOf, TailRoom, TailOf};

use define_list::put_defines;
use measure_list::put_measures;
use records::{Read, byte, record_at};

// What a query says besides its letters and measures: the columns, where the pattern's text lies,
// the skip mode, the letter that the skip names (0 for none), how many measures there are, whether
// two DEFINEs are for one letter (answer 8), and a number from which on no letter (0 for A) has a
// DEFINE.
#[derive(Clone, Copy)]
pub struct Parts {
    pub columns: usize,
    pub start: usize,
    pub len: usize,
    pub skip: usize,
    pub target: usize,
    pub measures: usize,
    pub twice: bool,
    pub letters: usize,
}

// What the first two records say, the shape and the text, and the index behind them.
#[derive(Clone, Copy)]
struct Head {
    columns: usize,
    start: usize,
    len: usize,
    next: usize,
}

// The shape and the text. A query with no answer 1 to 3 is not cut.
fn read_head(s: &[u8]) -> Head
    requires { first_answer s.now ≡ 0 }
    ensures { HeadOf s.now result }
{
    let Read::Record(shape) = record_at(s, 0) else {
        unreachable!()
    };
    let Read::Record(text) = record_at(s, shape.next) else {
        unreachable!()
    };
    Head {
        columns: byte(s, shape.start),
        start: text.start,
        len: text.len,
        next: text.next,
    }
}

// What stands behind the DEFINEs: the skip mode and its letter, and how many measures.
#[derive(Clone, Copy)]
struct Tail {
    skip: usize,
    target: usize,
    measures: usize,
}

// The skip at this index, and the measures behind it.
fn read_tail(s: &[u8], at: usize, measures: &mut [u8; 24]) -> Tail
    requires { TailRoom s.now at measures.old }
    ensures { TailOf s.now at measures.old measures.new result }
{
    let Read::Record(record) = record_at(s, at) else {
        unreachable!()
    };
    Tail {
        skip: byte(s, record.start),
        target: byte(s, record.start + 1),
        measures: put_measures(s, record.next, measures),
    }
}

// All parts of a query. The records stand in order: the shape and the text, the DEFINEs, the skip
// and the measures.
#[tactic(auto, using(crate::proofs::Together::decoded))]
pub fn decode(s: &[u8], defines: &mut [usize; 26], measures: &mut [u8; 24]) -> Parts
    requires { DecodeRoom s.now measures.old }
    ensures { Decoded s.now measures.old defines.new measures.new result }
{
    let head = read_head(s);
    let behind = put_defines(s, head.next, defines);
    let tail = read_tail(s, behind.at, measures);
    Parts {
        columns: head.columns,
        start: head.start,
        len: head.len,
        skip: tail.skip,
        target: tail.target,
        measures: tail.measures,
        twice: behind.twice,
        letters: behind.letters,
    }
}
