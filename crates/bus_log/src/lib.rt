// A bus's log (request R-14): rows of (time, event, base number, patch number), with the events 1
// offered, 2 refused and 3 accepted. Two passes over it, for an event that is none of these and for
// the last refusal, and the type of the desk's answer. Each promise is an equation with a plain
// statement about the rows (specs/Log).
#![tactic(auto)]

ghost use Rattle.std.specs.Prelude.{◌≡◌, ℕ, ◌+◌, ◌*◌, ◌<◌, length};
ghost use Rattle.rules.specs.Rows.{entry};
ghost use Rattle.bus_log.specs.Log.{log_of, event_of, is_event, unreadable, last_refusal, handed as handedIs, released_as};

// answer: 0, or that of a search that was refused or stopped. verdict: CLEARED, HELD or UNREADABLE;
// 0 where the answer is not 0. found: 1 where the log is held and has a refusal, else 0; row: that
// of its last refusal, counted from 0. The C interface has these numbers (include/mireladle.h).
#[repr(C)]
#[derive(Clone, Copy)]
pub struct Verdict {
    pub answer: usize,
    pub verdict: usize,
    pub found: usize,
    pub row: usize,
}

pub const CLEARED: usize = 1;

pub const HELD: usize = 2;

pub const UNREADABLE: usize = 3;

// What the desk says of a log that was searched: it is cleared; held, with the row of its last
// refusal, if it has one; or unreadable.
#[derive(Clone, Copy)]
pub enum Release {
    Cleared,
    Held(Option<usize>),
    Unreadable,
}

// In the numbers of the C interface.
impl From<Release> for Verdict {
    ghost from_gives = { λ release result. result ≡ released_as release };

    fn from(release: Release) -> Verdict {
        let (verdict, refusal) = match release {
            Release::Cleared => (CLEARED, None),
            Release::Held(refusal) => (HELD, refusal),
            Release::Unreadable => (UNREADABLE, None),
        };
        Verdict {
            answer: 0,
            verdict,
            found: usize::from(refusal.is_some()),
            row: refusal.unwrap_or(0),
        }
    }
}

// A search's answer other than 0, handed up.
pub fn handed(answer: usize) -> Verdict
    ensures { result ≡ handedIs answer }
{
    Verdict {
        answer,
        verdict: 0,
        found: 0,
        row: 0,
    }
}

// What a row of a log tells.
#[derive(Clone, Copy)]
enum Event {
    Offered,
    Refused,
    Accepted,
}

// The event of this number, if there is one.
fn event_of(number: i32) -> Option<Event>
    ensures { result ≡ event_of number }
{
    match number {
        1 => Some(Event::Offered),
        2 => Some(Event::Refused),
        3 => Some(Event::Accepted),
        _ => None,
    }
}

// The same of row i.
fn event_at(rows: &[i32], i: usize) -> Option<Event>
    requires { i * 4 + 1 < length rows.now }
    ensures { result ≡ event_of (entry (log_of rows.now) i 1) }
{
    event_of(rows[i * 4 + 1])
}

// Whether row i is a refusal.
fn refused_at(rows: &[i32], i: usize) -> bool
    requires { i * 4 + 1 < length rows.now }
    ensures { result ≡ is_event (log_of rows.now) 2 i }
{
    matches!(event_at(rows, i), Some(Event::Refused))
}

// Whether some row has an event other than 1, 2 and 3.
pub fn is_unreadable(rows: &[i32]) -> bool
    ensures { result ≡ unreadable (log_of rows.now) }
{
    for i in (0..rows.len() / 4).rev() {
        if event_at(rows, i).is_none() {
            return true;
        }
    }
    false
}

// The row of the last refusal, if there is one.
pub fn last_refusal(rows: &[i32]) -> Option<usize>
    ensures { result ≡ last_refusal (log_of rows.now) }
{
    for i in (0..rows.len() / 4).rev() {
        if refused_at(rows, i) {
            return Some(i);
        }
    }
    None
}
