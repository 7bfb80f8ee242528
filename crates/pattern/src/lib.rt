// A pattern's text read into a tree: the four readers of the pattern language, in a cycle. The
// tree's nodes go into a lent room, each behind its parts; `read_text` leaves there the nodes of
// the tree that the text has, or tells at which byte the text is wrong.
//
// Text, index, room and count stay four parameters: each reader goes on at another index with
// another count, and the text and the room are lent.
#![tactic(auto)]

ghost use Rattle.rules.specs.Language.{Rank};
ghost use Rattle.primaries.specs.Readers.{Fits, PhraseReads, ReadsHead, TextSays};

use nodes::Sort;
use phrases::{chain, ends, finish};
use primaries::{Head, Step, after, empty_head, shut_group, simple};
use text_bytes::{Broken, peek, skip};

// pattern: branch, or branch | pattern. As for a branch.
#[cycle(branch_factor_pattern_primary)]
fn pattern(text: &[u8], at: usize, room: &mut [u16], count: usize) -> Result<Step, Broken>
    requires { Fits text.now at room.old count }
    ensures { PhraseReads Rank.pattern text.now at count room.old room.new result }
{
    let mut from = at;
    let mut end = count;
    loop {
        let b = branch(text, from, room, end)?;
        if peek(text, b.at) != b'|' {
            return Ok(chain(room, Sort::Alternation, 1, count, end, b));
        }
        from = after(text, b.at);
        end = b.count;
    }
}

// branch: factor, or factor branch. A loop reads the factors, and another one joins them from the
// last on, so that a long sequence takes no more stack than a short one.
#[cycle(branch_factor_pattern_primary)]
fn branch(text: &[u8], at: usize, room: &mut [u16], count: usize) -> Result<Step, Broken>
    requires { Fits text.now at room.old count }
    ensures { PhraseReads Rank.branch text.now at count room.old room.new result }
{
    let mut from = at;
    let mut end = count;
    loop {
        let f = factor(text, from, room, end)?;
        if ends(peek(text, f.at)) {
            return Ok(chain(room, Sort::Sequence, 0, count, end, f));
        }
        from = f.at;
        end = f.count;
    }
}

// factor: primary, and at most one quantifier
#[cycle(branch_factor_pattern_primary)]
fn factor(text: &[u8], at: usize, room: &mut [u16], count: usize) -> Result<Step, Broken>
    requires { Fits text.now at room.old count }
    ensures { PhraseReads Rank.factor text.now at count room.old room.new result }
{
    let p = primary(text, at, room, count)?;
    finish(text, room, p)
}

// primary: a letter, an anchor, (), or a pattern in parentheses
#[cycle(branch_factor_pattern_primary)]
fn primary(text: &[u8], at: usize, room: &mut [u16], count: usize) -> Result<Head, Broken>
    requires { Fits text.now at room.old count }
    ensures { ReadsHead text.now at count room.old room.new result }
{
    if peek(text, at) != b'(' {
        return simple(text, at, count);
    }
    let from = after(text, at);
    if peek(text, from) == b')' {
        return Ok(empty_head(text, from, count));
    }
    let p = pattern(text, from, room, count);
    shut_group(text, p)
}

// The tree of a whole text, its nodes from 0 on; `at` is the text's end. Or the byte where reading
// stops.
pub fn read_text(text: &[u8], room: &mut [u16]) -> Result<Step, Broken>
    requires { Fits text.now 0 room.old 0 }
    ensures { TextSays text.now room.old room.new result }
{
    let from = skip(text, 0);
    let p = pattern(text, from, room, 0)?;
    if p.at != text.len() {
        return Err(Broken { at: p.at });
    }
    Ok(p)
}
