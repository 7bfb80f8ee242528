// What the depot-by-month table (request R-4) asks of a query's bytes alone: whether a named column
// is outside the shape, which is the partition's answer 3, and how many measures a match has, by
// which a report's numbers are parted. Each promise is an equation, for all bytes.
#![tactic(auto)]

ghost use Rattle.std.specs.Prelude.{◌≡◌, not, ◌&&◌, ◌+◌, ◌*◌, ◌≤◌, ◌<◌, ltb, eqb, length, get_or};
ghost use Rattle.rules.specs.Query.{parts};
ghost use Rattle.named.specs.Outside.{is_three};

use query::first_answer;
use records::{Read, is_measure, record_at};

// The shape's count of columns, in every query whose records are in order.
pub fn shape_of(query: &[u8]) -> usize
    ensures { result ≡ get_or query.now 4 0 }
{
    query.get(4).map_or(0, |byte| usize::from(*byte))
}

// Whether a named column is outside that shape.
fn named_outside(query: &[u8], depot: usize, month: usize) -> bool
    ensures { result ≡ not (ltb depot (get_or query.now 4 0) && ltb month (get_or query.now 4 0)) }
{
    let columns = shape_of(query);
    columns <= depot || columns <= month
}

// Whether a named column outside the shape is the partition's answer: it ranks as 3, so behind 1
// and 2.
#[tactic(auto, using(crate::proofs::Shapes::three_is))]
pub fn is_three(query: &[u8], depot: usize, month: usize) -> bool
    ensures { result ≡ is_three query.now depot month }
{
    named_outside(query, depot, month) && !matches!(first_answer(query), 1 | 2)
}

// How many measures a query has. A record takes 4 bytes at least.
#[tactic(auto, using(records::proofs::Reading::fewer, crate::proofs::Shapes::counting_none))]
pub fn measure_count(query: &[u8]) -> usize
    ensures { (result ≡ length (parts query.now).measures) × (4 * result ≤ length query.now) }
{
    let mut at = 0;
    let mut count = 0;
    // By an index, as in query.
    while at < query.len() {
        let Read::Record(record) = record_at(query, at) else {
            break;
        };
        if is_measure(record.kind) {
            count += 1;
        }
        at = record.next;
    }
    count
}
