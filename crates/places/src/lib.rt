// All places of a tree in a lent table of words, with all values of their flags (R-3): `unroll`
// goes from plane to plane, and puts in each the entries of the tree's places, and END behind them.
// Promise: the table holds the tree's places, each fork's ways once, and keeps to what the walk
// relies on.
#![tactic(auto)]

ghost use Rattle.place_words.specs.Words.{Emitted};
ghost use Rattle.forks.specs.Emitting.{Unrolling, PlacesTabled};
ghost use Rattle.places.specs.Flat.{Flat, plane_places};
ghost use Rattle.std.specs.Prelude.{◌*◌};

use place_codes::Plane;
use place_words::put_place;
use table::{END, WORDS};
use unrolling::emit;

// One plane: the entries of the P places with its flags, END the last, and their ways from word w
// on.
fn unroll_plane(
    room: &[u16],
    top: usize,
    places: usize,
    o: Plane,
    table: &mut [u16],
    w: usize,
) -> usize
    requires { Flat o room.now top places table.old w }
    ensures { (h : Flat o room.now top places table.old w) → Emitted o table.old table.new 0 w result (plane_places o h.tree places) }
{
    let end = o.state(1, places - 1);
    let to = emit(room, top, table, o, 0, w, end);
    put_place(table, end.here, to, END, 0)
}

// Unrolls the tree whose top is a node: the entries of its P places, END the last, with so many
// values of their flags, go into the table's first words, and their ways behind them. Returns the
// word behind the last way.
pub fn unroll(room: &[u16], top: usize, places: usize, factor: usize, table: &mut [u16]) -> usize
    requires { Unrolling room.now top places factor table.old }
    ensures { (h : Unrolling room.now top places factor table.old) → PlacesTabled h.tree (places * factor) table.old table.new result }
{
    let mut way = WORDS * (places * factor);
    for flags in 0..factor {
        let o = Plane { factor, flags };
        way = unroll_plane(room, top, places, o, table, way);
    }
    way
}
