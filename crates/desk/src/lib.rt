// The release desk (request R-14): from a bus's log, rows of (time, event, base number, patch
// number), the verdict cleared, held or unreadable. It searches the log for `O R* C $` and rests on
// the search's promise alone. The verdict is that of the rows in plain words (crates/bus_log), for
// every input. What follows from the search's answer and matches is decided in crates/verdicts.
#![tactic(auto)]

ghost use Rattle.outcome.specs.Results.{lent};
ghost use Rattle.desk.specs.Promise.{Desk};

use bus_log::Verdict;
use verdicts::verdict_on;

// The verdict on a log. The lent buffers are the search's: for n rows it needs notes of (6(n + 1) +
// 7) / 8 bytes and a trail of 6(n + 1) numbers, and for a log that is cleared 3 report numbers and
// a label for each row from the offer on.
pub fn desk(
    rows: &[i32],
    notes: &mut [u8],
    trail: &mut [u32],
    numbers: &mut [i64],
    labels: &mut [u8],
) -> Verdict
    ensures { Desk rows.now (lent notes.old trail.old numbers.old labels.old) (lent notes.new trail.new numbers.new labels.new) result }
{
    let query = [
        2u8, 0, 1, 0, 4, 0, 8, 0, 2, 0, 79, 32, 82, 42, 32, 67, 32, 36, 14, 0, 3, 0, 79, 1, 1, 0,
        1, 0, 0, 0, 0, 0, 1, 0, 0, 0, 38, 0, 3, 0, 82, 3, 1, 0, 1, 0, 0, 0, 0, 0, 2, 0, 0, 0, 2, 0,
        1, 1, 2, 255, 0, 0, 0, 0, 0, 0, 3, 0, 1, 1, 3, 255, 0, 0, 0, 0, 0, 0, 38, 0, 3, 0, 67, 3,
        1, 0, 1, 0, 0, 0, 0, 0, 3, 0, 0, 0, 2, 0, 1, 1, 2, 255, 0, 0, 0, 0, 0, 0, 3, 0, 1, 1, 3,
        255, 0, 0, 0, 0, 0, 0, 2, 0, 4, 0, 1, 0,
    ];
    let end = search::search(&query, rows, notes, trail, numbers, labels);
    verdict_on(rows, end.answer, end.matches)
}
