// The program of document 01: reads a query and rows from standard input and prints the matches, a
// refusal or `too large`. All of it is `streams::on_streams`, on the three standard streams; its
// promise is in crates/streams/specs/Streams. Checked here on W1 of document 01 with COUNT(A) and
// LAST(B): `stdin` has its bytes, `stdout` what the bench sheet prints.
#![tactic(auto)]

fn main(rt: HostRuntime) {
    let mut input = rt.stdin();
    let mut output = rt.stdout();
    let mut errors = rt.stderr();
    streams::on_streams(&mut input, &mut output, &mut errors);
}
