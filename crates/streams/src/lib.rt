// Standard input and output around `run`: the whole program, over whatever reads and writes. It
// prints what `run` writes of the bytes read. Where the input cannot be read to its end it prints
// nothing, and where the text is not taken whole it is cut; both it says on standard error, with
// the system's reason. The exit status is 0 there too: that line is what tells a caller
// (docs/DECISIONS.md, "The program's streams").
//
// Promised (specs/Streams) and proved: how many bytes were handed on, of an input of so many bytes;
// that an input which was not read to its end has nothing printed of it; and of a reader and a
// writer whose bytes std knows, as of those over memory, which bytes were handed on: what document
// 01 has the program print of all that the reader had left, or its first bytes where they were cut.
// Nothing is said where all was handed on. Weak is that std knows the bytes of no stream of the
// system's: `compare --program` of reference/ compares them, and rust/tests/program_streams.rs has
// streams that fail. No contract names the line on standard error; where that cannot be written
// either, nothing can be told.
#![tactic(auto)]

ghost use Rattle.std.specs.Prelude.{◌≡◌, IfSome};
ghost use Rattle.std.specs.Io.KnownBytes.{Keeps};
ghost use Rattle.streams.specs.Streams.{Prints, Said, HandsOn, IsQuiet};

use std::io::{Read, Write};

// The first so many bytes of an input decide what is printed of it: one more than a length, the
// longest query and the most row bytes take. So no more are read.
const MOST_READ: usize = 36867;

// The longest text that `run` writes.
const MOST_PRINTED: usize = 245820;

// How the program ended: all of the text was handed on; it was cut; or there was none, since the
// input could not be read. `read` and `written` count bytes.
#[derive(Clone, Copy)]
pub enum Ended {
    Entire { read: usize, written: usize },
    Cut { read: usize, written: usize },
    Unread,
}

// What `run` writes of an input, on standard output.
fn print<W: Write, E: Write>(input: &[u8], output: &mut W, errors: &mut E) -> Ended
    ensures prints { Prints input.now result }
    ensures bytes { HandsOn (W.contents output.old) (W.contents output.new) input.now result }
    ensures quiet { IsQuiet (E.contents errors.old) (E.contents errors.new) result }
{
    let mut out = [0u8; MOST_PRINTED];
    let end = run::run(input, &mut out);
    let writing = transfer::write_whole(output, &out[..end]);
    let read = input.len();
    let written = writing.taken;
    if let Some(reason) = writing.error {
        let _ = writeln!(
            errors,
            "mireladle: standard output could not be written: {reason}"
        );
        return Ended::Cut { read, written };
    }
    Ended::Entire { read, written }
}

// The program.
pub fn on_streams<R: Read, W: Write, E: Write>(
    input: &mut R,
    output: &mut W,
    errors: &mut E,
) -> Ended
    ensures said { Said result }
    ensures bytes { IfSome (R.remaining input.old) (λ xs. HandsOn (W.contents output.old) (W.contents output.new) xs result) }
    ensures unread { result ≡ Ended.Unread → Keeps (W.contents output.old) (W.contents output.new) }
    ensures quiet { IsQuiet (E.contents errors.old) (E.contents errors.new) result }
{
    let mut buf = [0u8; MOST_READ];
    match transfer::read_whole(input, &mut buf) {
        Ok(read) => print(&buf[..read], output, errors),
        Err(reason) => {
            let _ = writeln!(
                errors,
                "mireladle: standard input could not be read: {reason}"
            );
            Ended::Unread
        }
    }
}
