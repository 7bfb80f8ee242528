// A tree unrolled into places of the table, in the layout of crates/table, with the flags of one
// plane (R-3): each place is put once, as the entry that it has with these flags, or as END where
// it does not have them. Parts of a sequence, branches and rounds are walked over by loops; a pair
// of parentheses is a call, whose node is lower, so calls nest as deep as parentheses do. Weakness:
// a factor's body is unrolled once for each of its copies, and all of it once for each plane.
//
// The place and the way stay two numbers, and no struct: one that goes through a recursion by value
// costs a stall (docs/PERFORMANCE.md).
#![tactic(auto)]

ghost use Rattle.place_words.specs.Words.{Emitted};
ghost use Rattle.forks.specs.Emitting.{tree_places, branch_places, body_places, turn_places};
ghost use Rattle.forks.specs.Emitting.{Emitting, Branching, Bodying, Turning};

use body_sizes::{body_size, copy_has_flag};
use forks::{branch_fork, fork};
use nodes::{Sort, node_at, places_at};
use place_codes::{Behind, Plane, anchor_code, letter_code, turns_behind};
use place_words::put_single;

// A factor in its rounds: its node, the places of its body, whether it is reluctant, whether a copy
// that leads back to its fork has a flag, how many copies it has, how many times a fork and a copy
// stand behind them, the number behind its last place, and what is behind it.
#[derive(Clone, Copy)]
struct Factor {
    node: usize,
    body: usize,
    lazy: bool,
    empty: bool,
    copies: usize,
    turns: Option<usize>,
    end: usize,
    behind: Behind,
}

// The tree at i, its places numbered from b on and their ways from word w on, where k is behind it.
// The parts of a sequence are walked over by a loop, as are branches and rounds below:
// only parentheses take stack.
#[cycle(body_branches_emit_rounds)]
pub fn emit(
    room: &[u16],
    i: usize,
    table: &mut [u16],
    o: Plane,
    b: usize,
    w: usize,
    k: Behind,
) -> usize
    requires { Emitting o room.now i table.old b w k }
    ensures { (h : Emitting o room.now i table.old b w k) → Emitted o table.old table.new b w result (tree_places o h.tree b k) }
{
    let mut node = i;
    let mut from = b;
    let mut way = w;
    loop {
        let n = node_at(room, node);
        let end = from + n.places;
        if let Sort::Alternation = n.sort {
            let inside = branch_fork(room, node, table, o, from, way, k);
            return branches(room, node, table, o, from + 1, inside, k);
        }
        if end == from {
            return way;
        }
        let Sort::Sequence = n.sort else {
            let f = Factor {
                node,
                body: body_size(room, node),
                lazy: n.lazy,
                empty: copy_has_flag(room, node, o.factor),
                copies: n.low,
                turns: turns_behind(n.low, n.high),
                end,
                behind: k,
            };
            return rounds(room, f, table, o, from, way);
        };
        let mid = from + places_at(room, n.left);
        let next = o.start(mid, end, k);
        way = emit(room, n.left, table, o, from, way, next);
        from = mid;
        node = n.right;
    }
}

// The branches of the pattern at i; the fork of an alternation is there already.
#[cycle(body_branches_emit_rounds)]
fn branches(
    room: &[u16],
    i: usize,
    table: &mut [u16],
    o: Plane,
    b: usize,
    w: usize,
    k: Behind,
) -> usize
    requires { Branching o room.now i table.old b w k }
    ensures { (h : Branching o room.now i table.old b w k) → Emitted o table.old table.new b w result (branch_places o h.tree b k) }
{
    let mut node = i;
    let mut from = b;
    let mut way = w;
    loop {
        let n = node_at(room, node);
        if n.places == 0 {
            return way;
        }
        let Sort::Alternation = n.sort else {
            return emit(room, node, table, o, from, way, k);
        };
        way = emit(room, n.left, table, o, from, way, k);
        from += places_at(room, n.left);
        node = n.right;
    }
}

// The rounds of a factor: its copies, and behind them so many times a fork and a copy, or a fork and
// a copy that leads back to it.
#[cycle(body_branches_emit_rounds)]
fn rounds(room: &[u16], f: Factor, table: &mut [u16], o: Plane, b: usize, w: usize) -> usize
    requires { Turning o room.now f.node f.body f.lazy f.empty f.copies f.turns f.end table.old b w f.behind }
    ensures { (h : Turning o room.now f.node f.body f.lazy f.empty f.copies f.turns f.end table.old b w f.behind) → Emitted o table.old table.new b w result (turn_places o f.copies f.turns h.of b f.behind) }
{
    let mut from = b;
    let mut way = w;
    'copies: for _ in 0..f.copies {
        let rest = from + f.body;
        let next = o.start(rest, f.end, f.behind);
        way = body(room, f.node, table, o, from, way, next);
        from = rest;
    }
    let Some(turns) = f.turns else {
        let back = o.round_end(from, f.empty, f.behind);
        let copy = o.start(from + 1, f.end, back);
        let inside = fork(table, o, from, way, f.lazy, copy.here, f.behind);
        return body(room, f.node, table, o, from + 1, inside, back);
    };
    'turns: for _ in 0..turns {
        let first = from + 1;
        let copy = o.start(first, f.end, f.behind);
        let inside = fork(table, o, from, way, f.lazy, copy.here, f.behind);
        let rest = first + f.body;
        let next = o.start(rest, f.end, f.behind);
        way = body(room, f.node, table, o, first, inside, next);
        from = rest;
    }
    way
}

// The body of the factor at i, once. A letter that passes sets all flags that its place has. Inlined
// always: as a call for each copy it takes half of the time of `A{99} B{99}` (docs/PERFORMANCE.md).
#[cycle(body_branches_emit_rounds)]
#[inline(always)]
fn body(room: &[u16], i: usize, table: &mut [u16], o: Plane, b: usize, w: usize, k: Behind) -> usize
    requires { Bodying o room.now i table.old b w k }
    ensures { (h : Bodying o room.now i table.old b w k) → Emitted o table.old table.new b w result (body_places o h.of b k) }
{
    let n = node_at(room, i);
    match n.sort {
        Sort::Letter(c) => put_single(table, o, b, w, letter_code(c), k.set, k.values),
        Sort::Anchor(c) => put_single(table, o, b, w, anchor_code(c), k.here, k.values),
        Sort::Group => emit(room, n.left, table, o, b, w, k),
        Sort::Empty | Sort::Sequence | Sort::Alternation => w,
    }
}
