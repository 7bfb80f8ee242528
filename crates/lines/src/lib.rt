// The line of one match: its three numbers, its labels, and the results of its measures. It takes
// at most 65 bytes, 21 for each measure and one for each label.
#![tactic(auto)]

ghost use Rattle.std.specs.Prelude.{◌+◌, ◌*◌, ◌≤◌, length, drop};
ghost use Rattle.rules.specs.Program.{labels_text};
ghost use Rattle.put.specs.Put.{Wrote};
ghost use Rattle.header.specs.Report.{field_text, result_text, results_text, line_text};

use put::Out;

// A number and one space.
fn put_field(out: &mut Out<'_>, n: i64)
    requires { out.old.at + length (field_text n) ≤ length out.old.buf.now }
    ensures { Wrote out.old (field_text n) out.new }
{
    out.put_signed(n);
    out.put_byte(b' ');
}

// A match's labels, or `-` where it has none.
fn put_labels(out: &mut Out<'_>, own: &[u8])
    requires { out.old.at + length (labels_text own.now) ≤ length out.old.buf.now }
    ensures { Wrote out.old (labels_text own.now) out.new }
{
    if own.is_empty() {
        out.put_byte(b'-');
    } else {
        out.put_bytes(own);
    }
}

// A measure's result, or `null` where the number before it is 0.
fn put_result(out: &mut Out<'_>, given: i64, res: i64)
    requires { out.old.at + length (result_text given res) ≤ length out.old.buf.now }
    ensures { Wrote out.old (result_text given res) out.new }
{
    if given == 0 {
        out.put_bytes(b"null");
    } else {
        out.put_signed(res);
    }
}

// The results of the measures, whose numbers begin at index `first`.
fn put_results(out: &mut Out<'_>, measures: usize, numbers: &[i64], first: usize)
    requires measures_in_bounds { first + 2 * measures ≤ length numbers.now }
    requires out_in_bounds { out.old.at + 21 * measures ≤ length out.old.buf.now }
    ensures put { Wrote out.old (results_text measures (drop first numbers.now)) out.new }
    ensures upper_bound { out.new.at ≤ out.old.at + 21 * measures }
{
    for k in 0..measures {
        out.put_byte(b' ');
        put_result(out, numbers[first + 2 * k], numbers[first + 2 * k + 1]);
    }
}

// The line of the match whose numbers begin at index `first` and whose labels are `own`.
pub fn put_line(out: &mut Out<'_>, measures: usize, numbers: &[i64], first: usize, own: &[u8])
    requires measures_in_bounds { first + (3 + 2 * measures) ≤ length numbers.now }
    requires own_in_bounds { out.old.at + (65 + 21 * measures + length own.now) ≤ length out.old.buf.now }
    ensures put { Wrote out.old (line_text measures (drop first numbers.now) own.now) out.new }
    ensures upper_bound { out.new.at ≤ out.old.at + (65 + 21 * measures + length own.now) }
{
    put_field(out, numbers[first]);
    put_field(out, numbers[first + 1]);
    put_field(out, numbers[first + 2]);
    put_labels(out, own);
    put_results(out, measures, numbers, first + 3);
    out.put_byte(b'\n');
}
