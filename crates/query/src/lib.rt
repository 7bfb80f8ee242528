// A query's bytes judged: answers 1, 2 and 3 in one pass over the records. The promises are
// equations with document 01's tests over the whole query, for all byte strings; records are read
// by the crate records, and the rules for their fields stand in the crate fields.
#![tactic(auto)]

ghost use Rattle.std.specs.Prelude.{◌≡◌, ◌+◌, get_or, eqb};
ghost use Rattle.rules.specs.Basics.{pick};
ghost use Rattle.query.specs.Order.{place, Follows, first_answer};

use fields::record_fits;
use records::{Kind, Read, is_define, record_at};

// Where a pass stands in the order of kinds, by what it expects: the shape, the text, up to `left`
// DEFINEs and the skip, or up to `left` measures; nothing behind a kind out of order.
#[derive(Clone, Copy)]
pub enum Stage {
    Shape,
    Text,
    Defines { left: usize },
    Measures { left: usize },
    OutOfOrder,
}

// The stage behind a record of the kind of this number.
fn after(stage: Stage, number: usize) -> Stage
    ensures { Follows result stage number }
{
    let Some(kind) = Kind::of(number) else {
        return Stage::OutOfOrder;
    };
    match (stage, kind) {
        (Stage::Shape, Kind::Shape) => Stage::Text,
        (Stage::Text, Kind::Text) => Stage::Defines { left: 26 },
        (Stage::Defines { .. }, Kind::Skip) => Stage::Measures { left: 8 },
        (Stage::Defines { left }, _) if left > 0 && is_define(number) => {
            Stage::Defines { left: left - 1 }
        }
        (Stage::Measures { left }, Kind::Measure) if left > 0 => {
            Stage::Measures { left: left - 1 }
        }
        _ => Stage::OutOfOrder,
    }
}

// The columns that a record's fields are judged by: those of the record itself where it is the
// first, else those known before it.
fn columns_by(s: &[u8], stage: Stage, columns: usize, start: usize) -> usize
    ensures { result ≡ pick (eqb (place stage) 0) (get_or s.now start 0) columns }
{
    match stage {
        Stage::Shape => s.get(start).map_or(0, |byte| usize::from(*byte)),
        _ => columns,
    }
}

// The lowest of the answers 1, 2 and 3 that applies, or 0. A 1 in the last bytes beats all else,
// and a late 2 beats an early 3, so 2 and 3 are given only at the end. The number, as the promise is
// an equation with the rules' number; room makes a Refusal of it.
pub fn first_answer(s: &[u8]) -> usize
    ensures { result ≡ first_answer s.now }
{
    let mut at = 0;
    let mut stage = Stage::Shape;
    let mut columns = 0;
    let mut fit = true;
    // By an index, as document 01 has each record read answer Record or Cut.
    while at < s.len() {
        let Read::Record(record) = record_at(s, at) else {
            return 1;
        };
        columns = columns_by(s, stage, columns, record.start);
        fit = fit && record_fits(s, columns, record);
        stage = after(stage, record.kind);
        at = record.next;
    }
    match stage {
        Stage::Measures { .. } if fit => 0,
        Stage::Measures { .. } => 3,
        _ => 2,
    }
}
