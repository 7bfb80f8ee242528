// The program between reading and writing, as one function on slices: `run` writes what document 01
// has the program print of an input, for every input (specs/Run); the laws are in proofs/Joined and
// proofs/Running. It lends the search 8,192 report numbers, 65,536 label bytes and room for 16,000
// pairs, all on the stack. The query is read three times: for its room, by the search, and for the
// number of its measures, by which the report's numbers are parted.
#![tactic(auto)]

ghost use Rattle.std.specs.Prelude.{◌≡◌, ◌+◌, ◌≤◌, length};
ghost use Rattle.rules.specs.Answers.{task_of, walked, bad_rows, pairs_of, room_answer};
ghost use Rattle.rules.specs.Program.{search_text, printed_for, printed};
ghost use Rattle.input.specs.Verdict.{input_verdict};
ghost use Rattle.put.specs.Put.{Wrote};
ghost use Rattle.run.specs.Run.{MeasureCount, Found, ProgramRan};

use put::Out;

// How many measures a query with no answer 1 to 9 has.
fn measures_of(query: &[u8]) -> usize
    ensures { MeasureCount query.now result }
{
    let mut nodes = [0u16; 4096];
    let mut defines = [0usize; 26];
    let mut measures = [0u8; 24];
    match room::read_query(query, &mut nodes, &mut defines, &mut measures) {
        Ok(q) => q.measures,
        Err(_) => 0,
    }
}

// The search of a query and rows that are not refused and have at most 16,000 pairs, and its report
// as text.
fn run_search(query: &[u8], rows: &[i32], out: &mut Out<'_>)
    requires found { Found query.now rows.now }
    requires in_bounds { out.old.at + 245820 ≤ length out.old.buf.now }
    ensures { Wrote out.old (search_text (task_of query.now rows.now) (walked (task_of query.now rows.now) 8192 65536)) out.new }
{
    let mut notes = [0u8; 2000];
    let mut trail = [0u32; 16000];
    let mut numbers = [0i64; 8192];
    let mut labels = [0u8; 65536];
    let end = search::search(
        query,
        rows,
        &mut notes,
        &mut trail,
        &mut numbers,
        &mut labels,
    );
    let measures = measures_of(query);
    text::put_report(
        out,
        end.answer != 0,
        end.matches,
        end.steps as u64,
        measures,
        &numbers,
        &labels,
    );
}

// The verdict on a query with these rows, of so many bytes.
fn verdict_on(query: &[u8], rows: &[i32], bytes: usize) -> input::Verdict
    ensures { result ≡ input_verdict (room_answer query.now (bad_rows query.now rows.now)) bytes (pairs_of query.now rows.now) }
{
    match room::room(query, rows) {
        Ok(size) => {
            let pairs = size.places * size.factor * (size.rows + 1);
            input::verdict_of(0, bytes, pairs)
        }
        Err(refusal) => input::verdict_of(refusal.answer(), bytes, 0),
    }
}

// A query and its row bytes, by the verdict on them.
fn run_query(query: &[u8], bytes: &[u8], out: &mut Out<'_>)
    requires bytes_len_bound { length bytes.now ≤ 32768 }
    requires in_bounds { out.old.at + 245820 ≤ length out.old.buf.now }
    ensures { Wrote out.old (printed_for query.now bytes.now) out.new }
{
    let mut rows = [0i32; 8192];
    let count = input::rows_of(bytes, &mut rows);
    match verdict_on(query, &rows[..count], bytes.len()) {
        input::Verdict::Refused(answer) => header::put_refused(out, answer),
        input::Verdict::TooLarge => header::put_too_large(out),
        input::Verdict::Search => run_search(query, &rows[..count], out),
    }
}

// What the program prints of an input.
fn put_printed(input: &[u8], out: &mut Out<'_>)
    requires { out.old.at + 245820 ≤ length out.old.buf.now }
    ensures { Wrote out.old (printed input.now) out.new }
{
    let case = input::input_of(input);
    match case {
        input::Input::Refused(answer) => header::put_refused(out, answer),
        input::Input::TooLarge => header::put_too_large(out),
        input::Input::Go { rows } => run_query(&input[2..rows], &input[rows..], out),
    }
}

// The same, into the front of `out`; the result is how many bytes that is.
pub fn run(input: &[u8], out: &mut [u8]) -> usize
    requires { 245820 ≤ length out.old }
    ensures { ProgramRan input.now out.old out.new result }
{
    let mut text = Out { buf: out, at: 0 };
    put_printed(input, &mut text);
    text.at
}
