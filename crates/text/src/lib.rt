// The text of a search's report: the header and a line for each match. It is a function of the
// search's counts and report buffers alone (crates/header, specs/Report), and takes at most 22
// bytes for each number, one for each label and 60 more. proofs/Printed says that after the search
// this is the text that document 01 asks for.
#![tactic(auto)]

ghost use Rattle.std.specs.Prelude.{◌+◌, ◌*◌, ◌≤◌, length};
ghost use Rattle.put.specs.Put.{Wrote};
ghost use Rattle.header.specs.Report.{lines_text, report_text, report_room, heading};

use header::put_header;
use lines::put_line;
use put::Out;

// The lines of the matches. A match has as many of the labels left as it has rows, or all of them
// where there are fewer.
fn put_lines(out: &mut Out<'_>, matches: usize, measures: usize, numbers: &[i64], labels: &[u8])
    requires measures_in_bounds { matches * (3 + 2 * measures) ≤ length numbers.now }
    requires labels_in_bounds { out.old.at + (22 * (matches * (3 + 2 * measures)) + length labels.now) ≤ length out.old.buf.now }
    ensures { Wrote out.old (lines_text matches measures numbers.now labels.now) out.new }
{
    let mut label = 0;
    for k in 0..matches {
        let first = k * (3 + 2 * measures);
        let rows = numbers[first + 2].unsigned_abs();
        let own = rows.min((labels.len() - label) as u64) as usize;
        put_line(out, measures, numbers, first, &labels[label..label + own]);
        label += own;
    }
}

// The text of a search's report: the header, and a line for each match. The numbers and labels are
// the report buffers as the search left them.
pub fn put_report(
    out: &mut Out<'_>,
    stopped: bool,
    matches: usize,
    steps: u64,
    measures: usize,
    numbers: &[i64],
    labels: &[u8],
)
    requires measures_in_bounds { matches * (3 + 2 * measures) ≤ length numbers.now }
    requires labels_in_bounds { out.old.at + report_room (length numbers.now) (length labels.now) ≤ length out.old.buf.now }
    ensures { Wrote out.old (report_text (heading stopped matches steps) measures numbers.now labels.now) out.new }
{
    put_header(out, stopped, matches, steps);
    put_lines(out, matches, measures, numbers, labels);
}
