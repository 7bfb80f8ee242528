// Phrases made of their parts: a factor of a primary and its quantifier, and a sequence or an
// alternation of parts that stand in the room, joined from the last on. The readers that call these
// are in crates/pattern.
#![tactic(auto)]

ghost use Rattle.std.specs.Prelude.{◌≡◌, ◌+◌};
ghost use Rattle.rules.specs.Reader.{branch_ends};
ghost use Rattle.nodes.specs.Nodes.{put_node};
ghost use Rattle.phrases.specs.Chain.{Chained, JoinedAll};
ghost use Rattle.primaries.specs.Readers.{FitsHead, FactorFinished, Joins, Joined, Holding};

use marks::quantifier;
use nodes::{Node, Sort, node_at};
use primaries::{Head, Step};
use put_nodes::put_node;
use text_bytes::Broken;
use trees::{capped, first_node, plain_node, rounds};

// A sequence (forks 0) or an alternation (forks 1) of two that are read.
fn join(room: &mut [u16], sort: Sort, forks: usize, left: Step, right: Step) -> Step
    requires { Joins room.old left right }
    ensures { Joined room.old room.new sort forks left right result }
{
    let height = left.height.max(right.height) + 1;
    let places = capped(left.places + right.places);
    let node = plain_node(sort, left.count - 1, right.count - 1, height, places);
    put_node(room, right.count, node);
    Step {
        at: right.at,
        count: right.count + 1,
        height,
        places,
        forks,
    }
}

// Puts a factor's node.
fn settle(room: &mut [u16], count: usize, node: Node, at: usize) -> Step
    requires { Holding room.old count node }
    ensures { (result ≡ record { at = at; count = count + 1; height = node.height; places = node.places; forks = 0 }) × (room.new ≡ put_node room.old count node) }
{
    put_node(room, count, node);
    Step {
        at,
        count: count + 1,
        height: node.height,
        places: node.places,
        forks: 0,
    }
}

// A primary that is read, with the quantifier behind it.
pub fn finish(text: &[u8], room: &mut [u16], p: Head) -> Result<Step, Broken>
    requires { FitsHead text.now room.old p }
    ensures { FactorFinished text.now room.old room.new p result }
{
    let Some(mark) = quantifier(text, p.at)? else {
        return Ok(settle(room, p.count, p.node, p.at));
    };
    let places = rounds(mark.low, mark.high, p.node.places);
    let marked = Node {
        form: mark.form,
        lazy: mark.lazy,
        low: mark.low,
        high: mark.high,
        places,
        ..p.node
    };
    Ok(settle(room, p.count, marked, mark.at))
}

// Whether a branch ends before the byte y; 0 stands for the text's end.
#[tactic(auto, unfolding(rules::specs::Reader::branch_ends))]
pub fn ends(y: u8) -> bool
    ensures { result ≡ branch_ends y }
{
    matches!(y, 0 | b'|' | b')')
}

// The sequence (forks 0) or alternation (forks 1) of parts whose nodes stand from `first` up to
// `end`, and of one more part behind them: a node for each, from the last on.
pub fn chain(
    room: &mut [u16],
    sort: Sort,
    forks: usize,
    first: usize,
    end: usize,
    last: Step,
) -> Step
    requires { Chained room.old first end last }
    ensures { (h : Chained room.old first end last) → JoinedAll sort forks h.parts end room.old last room.new result }
{
    let mut to = end;
    let mut all = last;
    // no range to walk by a `for`: a turn goes back over all nodes of a part
    while first < to {
        let top = to - 1;
        let n = node_at(room, top);
        let part = Step {
            at: 0,
            count: to,
            height: n.height,
            places: n.places,
            forks: 0,
        };
        let from = first_node(room, top);
        all = join(room, sort, forks, part, all);
        to = from;
    }
    all
}
