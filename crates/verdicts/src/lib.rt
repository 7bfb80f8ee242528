// The release desk's verdict (request R-14), decided on numbers: from a bus's log, and from the
// answer and the number of matches of the desk's search of it. The promise is an equation
// (specs/Verdicts). That the search has a match exactly where the log is cleared is no matter of
// this crate: crates/desk has it from the search's promise.
#![tactic(auto)]

ghost use Rattle.std.specs.Prelude.{◌≡◌};
ghost use Rattle.bus_log.specs.Log.{log_of};
ghost use Rattle.verdicts.specs.Verdicts.{release_by, verdict_by};

use bus_log::{Release, Verdict, handed, is_unreadable, last_refusal};

// What is said of a log whose search is done and has so many matches.
fn release_of(rows: &[i32], matches: usize) -> Release
    ensures { result ≡ release_by (log_of rows.now) matches }
{
    if is_unreadable(rows) {
        return Release::Unreadable;
    }
    if matches != 0 {
        return Release::Cleared;
    }
    Release::Held(last_refusal(rows))
}

// The verdict on a log whose search has this answer and so many matches.
pub fn verdict_on(rows: &[i32], answer: usize, matches: usize) -> Verdict
    ensures { result ≡ verdict_by (log_of rows.now) answer matches }
{
    if answer != 0 {
        return handed(answer);
    }
    release_of(rows, matches).into()
}
