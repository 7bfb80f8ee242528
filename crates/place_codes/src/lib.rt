// What the words of a place say, decided on numbers: its code, the entries at which a part begins
// and a round ends, the later word of a fork, and how many forks a factor has. With R-3 a place has
// an entry of the table for each value of its flags; a plane is one value of the flags, for all
// places. The words themselves are put by crates/place_words.
// Codes are numbers and no enum: they are words of the flat table that the walk reads.
#![tactic(auto)]

ghost use Rattle.std.specs.Prelude.{◌≡◌, ◌+◌, ◌<◌, ◌-◌, ◌≤◌, length, get_or, eqb, leb};
ghost use Rattle.rules.specs.Basics.{pick};
ghost use Rattle.place_codes.specs.Codes.{fork_code, later_word, letter_code, anchor_code, turns_behind};

use table::{CARET, DOLLAR, FORK, NEAR_FORK, TWO_WAYS, word_at};

// The upper bound of an unbounded quantifier, as the nodes hold it: a word of the room is a number.
const UNBOUNDED: usize = 100;

// The flags have so many values, F, at most 8, and this is one of them.
#[derive(Clone, Copy)]
pub struct Plane {
    pub factor: usize,
    pub flags: usize,
    pub ghost few: { factor ≤ 8 },
    pub ghost flag: { flags < factor },
}

// What is behind a part: how many values the flags of its places have, and the entry at which
// matching goes on behind it, with the flags of a plane and with all flags set.
// `Low` stays a clause: the definitions of specs/Planes make a `Behind` of any numbers.
#[derive(Clone, Copy)]
pub struct Behind {
    pub values: usize,
    pub here: usize,
    pub set: usize,
}

impl Plane {
    ghost use Rattle.place_codes.specs.Planes.{Low, slot, state_by, start_by, round_by, start_no};

    // The entry of place b.
    #[tactic(auto, unfolding(crate::specs::Planes::slot))]
    pub fn slot(self, b: usize) -> usize
        requires { b ≤ 256 }
        ensures { (result ≡ slot self b) × (result < 4096) }
    {
        b * self.factor + self.flags
    }

    // What is behind a part where place b is, and the flags have so many values there.
    #[tactic(auto, unfolding(crate::specs::Planes::state_by))]
    pub fn state(self, values: usize, b: usize) -> Behind
        requires { (b ≤ 256) × (1 ≤ values) × (values ≤ 8) }
        ensures { result ≡ state_by self values b }
    {
        Behind {
            values,
            here: self.slot(b),
            set: b * self.factor + (values - 1),
        }
    }

    // Where a part begins whose places are numbered from b up to end, if k is behind it.
    #[tactic(auto, unfolding(crate::specs::Planes::start_by))]
    pub fn start(self, b: usize, end: usize, k: Behind) -> Behind
        requires { (b ≤ 256) × Low k }
        ensures { result ≡ start_by self b end k }
    {
        if b == end {
            return k;
        }
        self.state(k.values, b)
    }

    // The same by the entry alone, if entry k is behind it.
    #[tactic(auto, unfolding(crate::specs::Planes::start_no))]
    pub fn start_entry(self, b: usize, end: usize, k: usize) -> usize
        requires { (b ≤ 256) × (k < 4096) }
        ensures { (result ≡ start_no self b end k) × (result < 4096) }
    {
        if b == end {
            return k;
        }
        self.slot(b)
    }

    // What is behind a round of the copy at fork b, if k is behind the repetition. A round leads
    // back to the fork; but where its body can take no row the copy has a flag, and a round in which
    // it is not set ends the repetition.
    #[tactic(auto, unfolding(crate::specs::Planes::round_by))]
    pub fn round_end(self, b: usize, empty: bool, k: Behind) -> Behind
        requires { (b ≤ 256) × Low k }
        ensures { result ≡ round_by self empty b k }
    {
        if !empty {
            return self.state(k.values, b);
        }
        let fork = b * self.factor;
        let here = if self.flags < k.values {
            k.here
        } else {
            fork + (self.flags - k.values)
        };
        Behind {
            values: doubled(k.values),
            here,
            set: fork + (k.values - 1),
        }
    }
}

// Twice as many values, up to 8.
fn doubled(values: usize) -> usize
    ensures { result ≡ pick (leb values 4) (values + values) values }
{
    if values <= 4 { 2 * values } else { values }
}

// The code of a fork by its first way, the place behind it and how many ways it has. A near fork
// has a second way, so that the walk need not ask for it.
pub fn fork_code(first: usize, behind: usize, count: usize) -> usize
    ensures { (result ≡ fork_code first behind count) × (result < 65536) }
{
    if count < TWO_WAYS {
        return FORK;
    }
    if first == behind {
        return NEAR_FORK;
    }
    FORK
}

// The later word of a fork whose ways, so many, stand from word w on: two ways are told without
// them.
pub fn later_word(table: &[u16], w: usize, count: usize) -> usize
    requires { (w < 65536) × (count ≡ 2 → w + 1 < length table.now) }
    ensures { (result ≡ later_word (get_or table.now (w + 1) 0) w count) × (result < 65536) }
{
    if count == TWO_WAYS {
        return word_at(table, w + 1);
    }
    w
}

// The code of a letter's place: A is 0. The letters of a tree are A to Z.
pub fn letter_code(c: u8) -> usize
    ensures { (result ≡ letter_code c) × (result < 65536) }
{
    (c as usize + 191) % 256
}

// The code of an anchor's place.
pub fn anchor_code(c: u8) -> usize
    ensures { (result ≡ anchor_code c) × (result < 65536) }
{
    if c == b'^' {
        return CARET;
    }
    DOLLAR
}

// How many times a fork and a copy stand behind the copies; none if the quantifier is unbounded, for
// then a fork and a copy that leads back to it stand there.
pub fn turns_behind(low: usize, high: usize) -> Option<usize>
    requires { low ≤ high }
    ensures { result ≡ turns_behind low high }
{
    if high == UNBOUNDED {
        return None;
    }
    Some(high - low)
}
