// The lines in front of the report, and what is printed in its place: of a refused input, and of
// one that is too large.
#![tactic(auto)]

ghost use Rattle.std.specs.Prelude.{◌+◌, ◌≤◌, length};
ghost use Rattle.rules.specs.Basics.{pick, bytes};
ghost use Rattle.rules.specs.Program.{refused_text, too_large};
ghost use Rattle.put.specs.Put.{Wrote};
ghost use Rattle.header.specs.Report.{header_text, heading};

use put::Out;

// `refused N`
pub fn put_refused(out: &mut Out<'_>, answer: u64)
    requires { out.old.at + 29 ≤ length out.old.buf.now }
    ensures { Wrote out.old (refused_text answer) out.new }
{
    out.put_bytes(b"refused ");
    out.put_decimal(answer);
    out.put_byte(b'\n');
}

// `too large`
pub fn put_too_large(out: &mut Out<'_>)
    requires { out.old.at + 10 ≤ length out.old.buf.now }
    ensures { Wrote out.old too_large out.new }
{
    out.put_bytes(b"too large\n");
}

// `matches M steps S`, or `stopped M steps S`
pub fn put_header(out: &mut Out<'_>, stopped: bool, matches: usize, steps: u64)
    requires { out.old.at + length (header_text (heading stopped matches steps)) ≤ length out.old.buf.now }
    ensures { Wrote out.old (header_text (heading stopped matches steps)) out.new }
{
    put_outcome(out, stopped);
    out.put_decimal(matches as u64);
    out.put_bytes(b" steps ");
    out.put_decimal(steps);
    out.put_byte(b'\n');
}

// The header's first word.
fn put_outcome(out: &mut Out<'_>, stopped: bool)
    requires { out.old.at + 8 ≤ length out.old.buf.now }
    ensures { Wrote out.old (pick stopped (bytes "stopped ") (bytes "matches ")) out.new }
{
    out.put_bytes(if stopped { b"stopped " } else { b"matches " });
}
