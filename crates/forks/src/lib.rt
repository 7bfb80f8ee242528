// The forks of the table of places: that of an alternation, whose ways are where its branches
// begin, and the fork between a copy of a factor and leaving it, each with the flags of one plane;
// END where the place does not have these flags. Promise: a fork has each of its ways once, in the
// order in which they are tried. Place and way stay two numbers, as in unrolling.
#![tactic(auto)]

ghost use Rattle.place_words.specs.Words.{PutOne, Emitted};
ghost use Rattle.forks.specs.Emitting.{Starting, Started, TwoWays, two_places, Choosing, choice, Parting, choice_places, fork_places, Forking};

use nodes::{Sort, node_at, places_at};
use place_codes::{Behind, Plane};
use place_words::{put_fork, put_place, put_way};
use table::END;

// The ways of an alternation's fork: where its branches begin, from the one at i on, whose places
// are numbered from b on. Branches without places all begin behind it, at entry k. The loop goes
// from branch to branch: that at `node` has its places from `place` on, and the next way goes to
// `word`.
fn fork_ways(
    room: &[u16],
    i: usize,
    table: &mut [u16],
    from: usize,
    to: usize,
    b: usize,
    k: usize,
    o: Plane,
) -> usize
    requires { Starting o room.now i table.old from to b k }
    ensures { (h : Starting o room.now i table.old from to b k) → Started o room.now i table.old from to b k table.new result h }
{
    let mut node = i;
    let mut place = b;
    let mut word = to;
    loop {
        let n = node_at(room, node);
        if n.places == 0 {
            return put_way(table, from, word, k);
        }
        let Sort::Alternation = n.sort else {
            return put_way(table, from, word, o.start_entry(place, place + n.places, k));
        };
        let end = place + places_at(room, n.left);
        word = put_way(table, from, word, o.start_entry(place, end, k));
        place = end;
        node = n.right;
    }
}

// The fork of an alternation, as place b, its ways from word w on, where k is behind it.
pub fn branch_fork(
    room: &[u16],
    i: usize,
    table: &mut [u16],
    o: Plane,
    b: usize,
    w: usize,
    k: Behind,
) -> usize
    requires { Forking o room.now i table.old b w k }
    ensures { (h : Forking o room.now i table.old b w k) → Emitted o table.old table.new b w result (fork_places o h.tree b k) }
{
    let q = o.slot(b);
    if k.values <= o.flags {
        return put_place(table, q, w, END, 0);
    }
    let to = fork_ways(room, i, table, w, w, b + 1, k.here, o);
    put_fork(table, q, w, to)
}

// A fork with two ways, or with one if they are the same, as entry q.
fn two_ways(table: &mut [u16], q: usize, w: usize, x: usize, y: usize) -> usize
    requires { TwoWays table.old q w x y }
    ensures { PutOne table.old table.new q w result (two_places x y) }
{
    let one = put_way(table, w, w, x);
    let both = put_way(table, w, one, y);
    put_fork(table, q, w, both)
}

// A fork between a copy and leaving, as entry q.
fn fork_at(table: &mut [u16], q: usize, w: usize, lazy: bool, copy: usize, leave: usize) -> usize
    requires { Choosing table.old q w lazy copy leave }
    ensures { PutOne table.old table.new q w result (choice lazy copy leave) }
{
    if lazy {
        return two_ways(table, q, w, leave, copy);
    }
    two_ways(table, q, w, copy, leave)
}

// The same as place b, where k is behind the factor.
pub fn fork(
    table: &mut [u16],
    o: Plane,
    b: usize,
    w: usize,
    lazy: bool,
    copy: usize,
    k: Behind,
) -> usize
    requires { Parting o table.old b w lazy copy k }
    ensures { Emitted o table.old table.new b w result (choice_places o lazy copy k) }
{
    let q = o.slot(b);
    if k.values <= o.flags {
        return put_place(table, q, w, END, 0);
    }
    fork_at(table, q, w, lazy, copy, k.here)
}
