// A pattern's node, a struct by value, and nodes kept as words in a lent slice, eight to a node (no
// heap and fixed memory are rules of the project, so a tree is no Box and a room no Vec):
// here a node is read from its words, and crates/put_nodes puts one there. What is put is read
// back, and other words are unchanged (proofs/Put).
#![tactic(auto)]

ghost use Rattle.std.specs.Prelude.{◌≡◌, ◌+◌, ◌*◌, ◌≤◌, ◌<◌, ◌/◌, ◌%◌, eqb, length, get_or};
ghost use Rattle.nodes.specs.Nodes.{node_at, sort_of, form_of};

use numbers::wide16;

#[derive(Clone, Copy)]
pub enum Sort {
    Letter(u8),
    Anchor(u8),
    Empty,
    Sequence,
    Alternation,
    Group,
}

// The form of a quantifier: `*`, `+`, `?`, `{n}`, `{n,}`, `{,m}` or `{n,m}`; Bare is none. A word of
// a room can hold other numbers, which no reader of patterns puts there: Other(k) is number 8 + k.
#[derive(Clone, Copy)]
pub enum Form {
    Bare,
    Star,
    Plus,
    Opt,
    Exactly,
    AtLeast,
    AtMost,
    Between,
    Other(usize),
}

// form: its quantifier. lazy: it is reluctant. low, high: its bounds, high 100 if it is unbounded,
// 1 and 1 without a quantifier. left, right: the numbers of its parts' nodes. height: above that of
// each part. places: how many places it unrolls to, counted up to 257; of an alternation without
// its fork. An Option for high, or a struct of these, is no plainer: `n.high == 100`, `n.low == 0`.
#[derive(Clone, Copy)]
pub struct Node {
    pub sort: Sort,
    pub form: Form,
    pub lazy: bool,
    pub low: usize,
    pub high: usize,
    pub left: usize,
    pub right: usize,
    pub height: usize,
    pub places: usize,
}

fn byte_of(w: u16) -> u8
    ensures { result ≡ ◌%◌ w 256 }
{
    (w % 256) as u8
}

// The sort that a word says.
#[tactic(auto, unfolding(crate::specs::Nodes::sort_of))]
fn sort_of(w: u16) -> Sort
    ensures { result ≡ sort_of w }
{
    let b = byte_of(w);
    match w / 256 {
        0 => Sort::Letter(b),
        1 => Sort::Anchor(b),
        2 => Sort::Empty,
        3 => Sort::Sequence,
        4 => Sort::Alternation,
        _ => Sort::Group,
    }
}

// The sort of the node at i, and its places, without the other words.
#[tactic(auto, unfolding(crate::specs::Nodes::node_at))]
pub fn sort_at(room: &[u16], i: usize) -> Sort
    requires { 8 * i + 8 ≤ length room.now }
    ensures { result ≡ (node_at room.now i).sort }
{
    sort_of(room[i * 8])
}

#[tactic(auto, unfolding(crate::specs::Nodes::node_at))]
pub fn places_at(room: &[u16], i: usize) -> usize
    requires { 8 * i + 8 ≤ length room.now }
    ensures { result ≡ (node_at room.now i).places }
{
    wide16(room[i * 8 + 7])
}

// Number k of the node at i.
fn number_at(room: &[u16], i: usize, k: usize) -> usize
    requires { (8 * i + 8 ≤ length room.now) × (k < 8) }
    ensures { result ≡ get_or room.now (i * 8 + k) 0 }
{
    wide16(room[i * 8 + k])
}

// The form that half a word says.
#[tactic(auto, unfolding(crate::specs::Nodes::form_of))]
fn form_of(w: u16) -> Form
    ensures { result ≡ form_of w }
{
    match w {
        0 => Form::Bare,
        1 => Form::Star,
        2 => Form::Plus,
        3 => Form::Opt,
        4 => Form::Exactly,
        5 => Form::AtLeast,
        6 => Form::AtMost,
        7 => Form::Between,
        _ => Form::Other(wide16(w - 8)),
    }
}

fn form_at(room: &[u16], i: usize) -> Form
    requires { 8 * i + 8 ≤ length room.now }
    ensures { result ≡ form_of (get_or room.now (i * 8 + 1) 0 / 2) }
{
    form_of(room[i * 8 + 1] / 2)
}

fn lazy_at(room: &[u16], i: usize) -> bool
    requires { 8 * i + 8 ≤ length room.now }
    ensures { result ≡ eqb (◌%◌ (get_or room.now (i * 8 + 1) 0) 2) 1 }
{
    room[i * 8 + 1] % 2 == 1
}

// The node at i.
#[tactic(auto, unfolding(crate::specs::Nodes::node_at))]
pub fn node_at(room: &[u16], i: usize) -> Node
    requires { 8 * i + 8 ≤ length room.now }
    ensures { result ≡ node_at room.now i }
{
    Node {
        sort: sort_at(room, i),
        form: form_at(room, i),
        lazy: lazy_at(room, i),
        low: number_at(room, i, 2),
        high: number_at(room, i, 3),
        left: number_at(room, i, 4),
        right: number_at(room, i, 5),
        height: number_at(room, i, 6),
        places: number_at(room, i, 7),
    }
}
