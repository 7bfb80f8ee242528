// A primary that is read: a letter or an anchor, `()`, or a pattern in parentheses, of which the
// `)` is read here. What the readers of a pattern's text answer: a Step, and of a primary, whose
// node is not yet in the room, a Head, or the byte at which the text is wrong (specs/Readers).
#![tactic(auto)]

ghost use Rattle.std.specs.Prelude.{◌≡◌, ◌+◌, ◌≤◌, ◌<◌, length, Err, IfOk, MatchResult};
ghost use Rattle.primaries.specs.Readers.{SkipTo, LeafIs, EmptyIs, ShutNeeds, ShutIs, SimpleSays};

use nodes::{Node, Sort};
use text_bytes::{Broken, is_letter, peek, skip};
use trees::{capped, plain_node};

// What a reader has read: where it ended, how many nodes there are then (its own is the last), its
// height, its places counted up to 257, without the fork of an alternation, and 1 for that fork.
#[derive(Clone, Copy)]
pub struct Step {
    pub at: usize,
    pub count: usize,
    pub height: usize,
    pub places: usize,
    pub forks: usize,
}

// What the reader of a primary has read: its own node is not yet in the room.
#[derive(Clone, Copy)]
pub struct Head {
    pub at: usize,
    pub count: usize,
    pub node: Node,
}

// Behind a token of one byte and the spaces there.
pub fn after(text: &[u8], at: usize) -> usize
    requires { at < length text.now }
    ensures { SkipTo text.now (at + 1) result }
{
    skip(text, at + 1)
}

// A letter or an anchor, one byte.
fn leaf(text: &[u8], at: usize, count: usize, sort: Sort) -> Head
    requires { at < length text.now }
    ensures { LeafIs text.now at count sort result }
{
    Head {
        at: after(text, at),
        count,
        node: plain_node(sort, 0, 0, 0, 1),
    }
}

// A letter that no letter follows, or an anchor.
pub fn simple(text: &[u8], at: usize, count: usize) -> Result<Head, Broken>
    requires { at ≤ length text.now }
    ensures { SimpleSays text.now at count result }
{
    let b = peek(text, at);
    match b {
        b'^' | b'$' => Ok(leaf(text, at, count, Sort::Anchor(b))),
        b'A'..=b'Z' => {
            if is_letter(peek(text, at + 1)) {
                return Err(Broken { at: at + 1 });
            }
            Ok(leaf(text, at, count, Sort::Letter(b)))
        }
        _ => Err(Broken { at }),
    }
}

// `()`, at its second byte.
pub fn empty_head(text: &[u8], at: usize, count: usize) -> Head
    requires { at < length text.now }
    ensures { EmptyIs text.now at count result }
{
    Head {
        at: after(text, at),
        count,
        node: plain_node(Sort::Empty, 0, 0, 0, 0),
    }
}

// Behind a pattern in parentheses: `)`. An error in the pattern is handed on.
pub fn shut_group(text: &[u8], p: Result<Step, Broken>) -> Result<Head, Broken>
    requires { IfOk p ShutNeeds }
    ensures { MatchResult p (λ q. ShutIs text.now q result) (λ e. result ≡ Err e) }
{
    let p = p?;
    if peek(text, p.at) != b')' {
        return Err(Broken { at: p.at });
    }
    let to = after(text, p.at);
    let places = capped(p.forks + p.places);
    let node = plain_node(Sort::Group, p.count - 1, 0, p.height + 1, places);
    Ok(Head {
        at: to,
        count: p.count,
        node,
    })
}
