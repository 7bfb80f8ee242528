// Reading a stream to its end and writing a text whole, over std's `Read` and `Write`. An error is
// told from an end: `read` says 0 at the end of an input and gives an error where it fails.
//
// Promised (specs/Transfer) and proved: each function is safe and ends; a later read leaves the
// bytes of the earlier ones as they are; what is read or written lies within the buffer; `step_of`
// alone decides what follows from a call; and of a reader or a writer whose bytes std knows, as of
// one over memory, which bytes were read, up to its end where the buffer is not full, and which
// were written. Weak is that std knows the bytes of no stream of the system's, nor that an input
// has ended where `read` says so: rust/tests/program_streams.rs runs the program on streams that
// fail, that are slow, and that take only a part. Nor does a contract say that a stream which could
// be read was: the calls may fail at any time.
//
// A call that a signal interrupts before it moves a byte (EINTR, std's `Interrupted`) is made
// again, but not for ever, so that the loops end. A stream that does not wait (EAGAIN, std's
// `WouldBlock`) has failed: std has no `poll`, and how long to try again would be a guess.
#![tactic(auto)]

ghost use Rattle.std.specs.Prelude.{◌≡◌, ◌+◌, ◌≤◌, ◌↔◌, length, take, IsNone, IfOk};
ghost use Rattle.std.specs.Io.KnownBytes.{Appends};
ghost use Rattle.transfer.specs.Transfer.{Moves, step_of, Steps, IsGivenUp, Reads, Writes, ReadBytes};

use std::io;
use std::io::{ErrorKind, Read, Write};

// How often in all a call that a signal interrupted is made again.
const MOST_INTERRUPTIONS: usize = 1000;

// A call of `read` or `write`: where in the buffer it begins, and how many calls, from it on, a
// signal may interrupt.
#[derive(Clone, Copy)]
pub struct Call {
    pub at: usize,
    pub left: usize,
}

// The first call.
const FIRST: Call = Call {
    at: 0,
    left: MOST_INTERRUPTIONS,
};

// How writing a text went: how many bytes the calls took, and why the last one failed, where it
// did. Both at once, so no `Result`: of a text that was cut, the bytes taken count too.
#[derive(Clone, Copy)]
pub struct Writing {
    pub taken: usize,
    pub error: Option<io::Error>,
}

// What follows from a call that moved so many bytes or failed: one more; none, where nothing was
// moved, which is the end of an input; or that it failed, and why.
fn step_of(moved: io::Result<usize>, call: Call) -> io::Result<Option<Call>>
    requires { Moves moved call }
    ensures { result ≡ step_of moved call }
{
    let Call { at, left } = call;
    match moved {
        Ok(0) => Ok(None),
        Ok(count) => Ok(Some(Call {
            at: at + count,
            left,
        })),
        Err(error) if error.kind() == ErrorKind::Interrupted && 0 < left => Ok(Some(Call {
            at,
            left: left - 1,
        })),
        Err(error) => Err(error),
    }
}

// One call of `read`, into what lies behind the bytes read so far.
fn read_more<R: Read>(input: &mut R, buf: &mut [u8], call: Call) -> io::Result<Option<Call>>
    requires { call.at ≤ length buf.old }
    ensures steps { Steps (length buf.old) call result }
    ensures buf_unchanged { take call.at buf.new ≡ take call.at buf.old }
    ensures again { IsGivenUp call.left result }
    ensures bytes { Reads (R.remaining input.old) (R.remaining input.new) buf.new call.at result }
{
    let moved = input.read(&mut buf[call.at..]);
    step_of(moved, call)
}

// One call of `write`, of what is left of the text.
fn write_more<W: Write>(output: &mut W, text: &[u8], call: Call) -> io::Result<Option<Call>>
    requires { call.at ≤ length text.now }
    ensures steps { Steps (length text.now) call result }
    ensures again { IsGivenUp call.left result }
    ensures bytes { Writes (W.contents output.old) (W.contents output.new) text.now call.at result }
{
    let moved = output.write(&text[call.at..]);
    step_of(moved, call)
}

// Reads until the input ends or the buffer is full; the result is how many bytes that is.
pub fn read_whole<R: Read>(input: &mut R, buf: &mut [u8]) -> io::Result<usize>
    ensures within { IfOk result (λ count. count ≤ length buf.old) }
    ensures bytes { IfOk result (ReadBytes (R.remaining input.old) (R.remaining input.new) buf.new) }
{
    let mut call = FIRST;
    while call.at < buf.len() {
        let Some(next) = read_more(input, buf, call)? else {
            break;
        };
        call = next;
    }
    Ok(call.at)
}

// Writes until all of the text is taken or a call takes nothing. A call that took nothing and did
// not fail has std's error for it, `WriteZero`.
pub fn write_whole<W: Write>(output: &mut W, text: &[u8]) -> Writing
    ensures within { result.taken ≤ length text.now }
    ensures told { IsNone result.error ↔ (result.taken ≡ length text.now) }
    ensures bytes { Appends (W.contents output.old) (W.contents output.new) (take result.taken text.now) }
{
    let mut call = FIRST;
    let error = 'calls: loop {
        if call.at == text.len() {
            break None;
        }
        call = match write_more(output, text, call) {
            Ok(Some(next)) => next,
            Ok(None) => break Some(io::Error::from(ErrorKind::WriteZero)),
            Err(error) => break Some(error),
        };
    };
    Writing {
        taken: call.at,
        error,
    }
}
