// A query read whole (`read_query`): refused with an answer 1 to 9 or 14, or the tree of its
// pattern in lent words, and in lent arrays where the DEFINE of each letter stands in the query
// and the measures; and how much a caller has to lend for it on some rows (`room`). Comparisons
// stay in the query's bytes. For all bytes and rows; the promises are equations with document 01's
// definitions.
#![tactic(auto)]

ghost use Rattle.std.specs.Prelude.{◌≡◌, ◌≤◌};
ghost use Rattle.refusals.specs.Refusals.{answer_in, offset_in};
ghost use Rattle.query.specs.Order.{first_answer};
ghost use Rattle.rules.specs.Answers.{room_of};
ghost use Rattle.reading.specs.Reading.{Nodes, Space, Asked, as_room};

use part_answers::judge_parts;
use reading::{Query, Size, text_is_short};
use refusals::Refusal;

// Answers 1 to 3.
#[tactic(auto, using(reading::proofs::Laws::third))]
fn first_refusal(s: &[u8]) -> Result<(), Refusal>
    ensures answer { answer_in result ≡ first_answer s.now }
    ensures offset { offset_in result ≡ 0 }
{
    match query::first_answer(s) {
        0 => Ok(()),
        1 => Err(Refusal::Cut),
        2 => Err(Refusal::Misplaced),
        _ => Err(Refusal::Unfit),
    }
}

// Reads a query.
#[tactic(auto, using(reading::proofs::Laws::reads))]
pub fn read_query(
    s: &[u8],
    room: &mut [u16],
    defines: &mut [usize; 26],
    measures: &mut [u8; 24],
) -> Result<Query, Refusal>
    requires { Space s.now room.old measures.old }
    ensures { Asked s.now measures.old room.new defines.new measures.new result }
{
    first_refusal(s)?;
    let parts = decode::decode(s, defines, measures);
    judge_parts(s, parts, room, measures)
}

// How much a query needs on these rows, with room for the tree of its pattern.
#[tactic(auto, using(reading::proofs::Laws::sizes))]
fn room_in<const NODES: usize>(query: &[u8], rows: &[i32]) -> Result<Size, Refusal>
    requires nodes { Nodes query.now NODES }
    requires few { NODES ≤ 4096 }
    ensures { as_room result ≡ room_of query.now rows.now }
{
    let mut nodes = [0u16; NODES];
    let mut defines = [0usize; 26];
    let mut measures = [0u8; 24];
    let q = read_query(query, &mut nodes, &mut defines, &mut measures)?;
    let rows = sizes::rows_of(rows.len(), q.columns)?;
    Ok(Size {
        places: q.places,
        rows,
        factor: q.factor,
    })
}

// How much a query needs on these rows. A short text gets a small room for its tree, since clearing
// a large one takes time.
#[tactic(auto, using(reading::proofs::Short::nodes))]
pub fn room(query: &[u8], rows: &[i32]) -> Result<Size, Refusal>
    ensures { as_room result ≡ room_of query.now rows.now }
{
    if text_is_short(query) {
        room_in::<256>(query, rows)
    } else {
        room_in::<4096>(query, rows)
    }
}
