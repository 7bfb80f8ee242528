// Can take no row, and answer 6: how many unbounded quantifiers over bodies that can take no row
// are nested in one another in a pattern's tree, and the factor F of R-3. Each function walks by a
// loop along right parts and into parentheses. A call is made for a left part only, a branch of an
// alternation or a factor of a sequence. So a level of parentheses takes two calls at most, and
// parts and branches, however many, take no stack. The promises are equations with the definitions
// on the tree (specs/Loops).
#![tactic(auto)]

ghost use Rattle.std.specs.Prelude.{◌≡◌, true, false, ◌-◌, ◌+◌, ◌≤◌, ◌^◌, min, max, eqb};
ghost use Rattle.rules.specs.Basics.{pick};
ghost use Rattle.trees.specs.Held.{At};
ghost use Rattle.loops.specs.Loops.{Nullable, Nesting};

use nodes::{Sort, node_at, sort_at};

// Whether the tree at i can take no row.
pub fn can_be_empty(room: &[u16], i: usize) -> bool
    requires { At room.now i }
    ensures { Nullable room.now i result }
{
    let mut node = i;
    loop {
        let n = node_at(room, node);
        if n.low == 0 {
            return true;
        }
        match n.sort {
            Sort::Letter(_) => return false,
            Sort::Anchor(_) | Sort::Empty => return true,
            Sort::Sequence => {
                if !can_be_empty(room, n.left) {
                    return false;
                }
                node = n.right;
            }
            Sort::Alternation => {
                if can_be_empty(room, n.left) {
                    return true;
                }
                node = n.right;
            }
            Sort::Group => node = n.left,
        }
    }
}

// Counts of such quantifiers stop here: four nested in one another are refused already.
const TOO_MANY: usize = 4;

// The deeper of what was found so far and of so many quantifiers around others, up to TOO_MANY.
fn deepest(most: usize, around: usize, inside: usize) -> usize
    requires { (around ≤ 4) × (inside ≤ 4) }
    ensures { (result ≡ min (max most (around + inside)) 4) × (result ≤ 4) }
{
    (around + inside).max(most).min(TOO_MANY)
}

// How many unbounded quantifiers over bodies that can take no row are nested in one another in the
// tree at i, counted up to TOO_MANY. Of the node at which the loop is, so many are around it; the
// deepest nesting of the parts that it has left behind is `most`.
#[cycle(nesting_part_nesting)]
pub fn nesting(room: &[u16], i: usize) -> usize
    requires { At room.now i }
    ensures { Nesting room.now i result × (result ≤ 4) }
{
    let mut node = i;
    let mut around = 0usize;
    let mut most = 0usize;
    loop {
        let n = node_at(room, node);
        match n.sort {
            Sort::Letter(_) => return deepest(most, around, 0),
            Sort::Anchor(_) | Sort::Empty => return deepest(most, around, looped(n.high)),
            Sort::Sequence | Sort::Alternation => {
                most = deepest(most, around, part_nesting(room, n.left));
                node = n.right;
            }
            Sort::Group => {
                if n.high == 100 && can_be_empty(room, n.left) {
                    around = deepest(0, around, 1);
                }
                node = n.left;
            }
        }
    }
}

// A quantifier with this upper bound over what takes no row.
fn looped(high: usize) -> usize
    ensures { (result ≡ pick (eqb high 100) 1 0) × (result ≤ 4) }
{
    usize::from(high == 100)
}

// The same of a part of a tree. Most parts are letters, which are not worth a call.
#[cycle(nesting_part_nesting)]
fn part_nesting(room: &[u16], i: usize) -> usize
    requires { At room.now i }
    ensures { Nesting room.now i result × (result ≤ 4) }
{
    match sort_at(room, i) {
        Sort::Letter(_) => 0,
        _ => nesting(room, i),
    }
}

// R-3's factor F, 2 to the power of the nesting.
pub fn factor_of(nesting: usize) -> usize
    requires { nesting ≤ 3 }
    ensures { (result ≡ 2 ^ nesting) × (result ≤ 8) }
{
    1 << nesting
}
