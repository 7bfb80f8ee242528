// Calls that are lent the state of a search by lots (R-11): a function that makes a state, or takes
// it out, calls another by value and stores what comes back, keeps the promise of the one that it
// calls. Promise: that, for any function and any promise (`F.post`); the contracts do not look into
// it. A function by value has the caller's buffers with it, as a closure. Weakness: the C face's
// three functions of this form are written out (crates/mireladle_c), since C calls no closure.
#![tactic(auto)]

ghost use Rattle.lending.specs.Lent.{fed_of};

use calls::Fed;
use lots::Feed;
use outcome::Outcome;

// A state is made and stored: it is what the function that makes it promises.
pub fn begins<F: FnOnce(usize, usize) -> Feed>(
    feed: &mut Feed,
    make: F,
    largest: usize,
    allowance: usize,
)
    requires { F.pre make largest allowance }
    ensures { F.post make largest allowance feed.new }
{
    let after = make(largest, allowance);
    *feed = after;
}

// The state is taken out and handed on by value, and what comes back is stored.
pub fn keeps<F: FnOnce(Feed) -> Fed>(feed: &mut Feed, call: F) -> Outcome
    requires { F.pre call feed.old }
    ensures { F.post call feed.old (fed_of feed.new result) }
{
    let before = *feed;
    let fed = call(before);
    let after = fed.feed;
    *feed = after;
    fed.outcome
}
