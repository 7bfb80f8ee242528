// A pattern's text judged: answers 4, 5 or 14, 6 and 7, the first that applies, with 5's or 14's
// offset, as a Refusal; or P, R-3's factor F and the tree of a good one.
#![tactic(auto)]

ghost use Rattle.std.specs.Prelude.{◌≡◌};
ghost use Rattle.primaries.specs.Readers.{Fits};
ghost use Rattle.judge.specs.Judged.{stopped_at, Judging};

use loops::{factor_of, nesting};
use pattern::read_text;
use refusals::Refusal;
use scan::too_deep;
use text_bytes::Broken;

// What is told of a good pattern. places: P, factor: F, and top: the top node of its tree.
#[derive(Clone, Copy)]
pub struct Judged {
    pub places: usize,
    pub factor: usize,
    pub top: usize,
}

// So many unbounded quantifiers over bodies that can take no row may be nested in one another.
const MOST_NESTED: usize = 3;

// So many places a pattern may have.
const MOST_PLACES: usize = 256;

// The refusal of a text that is no pattern: it is wrong at a byte (5), or could go on where it ends
// (14).
fn stopped(text: &[u8], broken: Broken) -> Refusal
    ensures { result ≡ stopped_at text.now broken.at }
{
    let at = broken.at;
    if at < text.len() {
        Refusal::Broken { at }
    } else {
        Refusal::Unfinished { at }
    }
}

// Judges a text. Its tree's nodes are in the room then, if it has one.
pub fn judge(text: &[u8], room: &mut [u16]) -> Result<Judged, Refusal>
    requires { Fits text.now 0 room.old 0 }
    ensures { Judging text.now room.old room.new result }
{
    if too_deep(text) {
        return Err(Refusal::TooDeep);
    }
    let p = read_text(text, room).map_err(|e| stopped(text, e))?;
    let top = p.count - 1;
    let nested = nesting(room, top);
    if MOST_NESTED < nested {
        return Err(Refusal::Nested);
    }
    let places = p.forks + p.places + 1;
    if MOST_PLACES < places {
        return Err(Refusal::TooMany);
    }
    Ok(Judged {
        places,
        factor: factor_of(nested),
        top,
    })
}
