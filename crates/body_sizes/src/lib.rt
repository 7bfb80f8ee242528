// How many places a pattern and the body of a factor have, read from their nodes, and whether the
// copy of a body has a flag (R-3).
#![tactic(auto)]

ghost use Rattle.trees.specs.Held.{At};
ghost use Rattle.forks.specs.Emitting.{WholeSize, BodySize, BodyEmpty, BodyFlag};

use loops::can_be_empty;
use nodes::{Sort, node_at, places_at, sort_at};

// The places of the pattern at i, its fork included.
fn whole_size(room: &[u16], i: usize) -> usize
    requires { At room.now i }
    ensures { WholeSize room.now i result }
{
    let c = places_at(room, i);
    if let Sort::Alternation = sort_at(room, i) {
        return c + 1;
    }
    c
}

// The places of the body of the factor at i.
#[tactic(auto, using(crate::proofs::SizeLaws::size_one, crate::proofs::SizeLaws::size_none, crate::proofs::SizeLaws::size_inside))]
pub fn body_size(room: &[u16], i: usize) -> usize
    requires { At room.now i }
    ensures { BodySize room.now i result }
{
    let n = node_at(room, i);
    match n.sort {
        Sort::Letter(_) | Sort::Anchor(_) => 1,
        Sort::Group => whole_size(room, n.left),
        Sort::Empty | Sort::Sequence | Sort::Alternation => 0,
    }
}

// Whether the body of the factor at i can take no row.
#[tactic(auto, using(crate::proofs::SizeLaws::empty_can, crate::proofs::SizeLaws::empty_cannot, crate::proofs::SizeLaws::size_inside))]
fn body_is_empty(room: &[u16], i: usize) -> bool
    requires { At room.now i }
    ensures { BodyEmpty room.now i result }
{
    let n = node_at(room, i);
    match n.sort {
        Sort::Anchor(_) | Sort::Empty => true,
        Sort::Group => can_be_empty(room, n.left),
        Sort::Letter(_) | Sort::Sequence | Sort::Alternation => false,
    }
}

// Whether a copy of the body of the factor at i that leads back to its fork has a flag. Where the
// flags have one value only, no copy has one.
pub fn copy_has_flag(room: &[u16], i: usize, factor: usize) -> bool
    requires { At room.now i }
    ensures { BodyFlag factor room.now i result }
{
    factor > 1 && body_is_empty(room, i)
}
