// The nodes of a pattern's tree in a lent room, each behind its parts: what it is that a room holds
// a tree (specs/Held), how many places rounds of a body take, and the first of a tree's nodes,
// found from its top.
#![tactic(auto)]

ghost use Rattle.std.specs.Prelude.{◌≡◌, ◌+◌, ◌≤◌, min};
ghost use Rattle.rules.specs.Language.{Rank, Tree};
ghost use Rattle.trees.specs.Held.{Top, At};
ghost use Rattle.trees.specs.Written.{node_count, plain_node, InOrder, rounds_of};

use nodes::{Form, Node, Sort, node_at};

// A node without a quantifier.
pub fn plain_node(sort: Sort, left: usize, right: usize, height: usize, places: usize) -> Node
    ensures { result ≡ plain_node sort left right height places }
{
    Node {
        sort,
        form: Form::Bare,
        lazy: false,
        low: 1,
        high: 1,
        left,
        right,
        height,
        places,
    }
}

// A number of places, counted up to 257.
pub fn capped(n: usize) -> usize
    ensures { result ≡ min n 257 }
{
    n.min(257)
}

// The places of low to high rounds of a body with c places, counted up to 257.
pub fn rounds(low: usize, high: usize, c: usize) -> usize
    requires { InOrder low high × (c ≤ 257) }
    ensures { result ≡ min (rounds_of low high c) 257 }
{
    let first = low * c;
    if high == 100 {
        return capped(first + (1 + c));
    }
    let more = (high - low) * (1 + c);
    capped(first + more)
}

// The first node of the tree at i: its parts' nodes stand before its own, the left part's first.
pub fn first_node(room: &[u16], i: usize) -> usize
    requires { At room.now i }
    ensures { (p : Tree Rank.pattern) → Top p i room.now → result + node_count p ≡ i + 1 }
{
    let n = node_at(room, i);
    match n.sort {
        Sort::Letter(_) | Sort::Anchor(_) | Sort::Empty => i,
        Sort::Sequence | Sort::Alternation | Sort::Group => first_node(room, n.left),
    }
}
