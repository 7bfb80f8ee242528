// Reading a query ends here: `prepare` reads it and writes one table of words, with its places and
// their ways, its measures and the tests of its letters (crates/table, specs), and tells its few
// numbers beside it. What runs over rows reads the table and these numbers only, so a query that is
// prepared once can be run many times.
// Promise (specs/Ready): an answer 1 to 9 or 14 with its offset; or the table and the numbers stand
// for the query; or the table is too short, which one of MOST_WORDS words never is. Weakness: the
// words that nothing reads are left as they are.
#![tactic(auto)]

ghost use Rattle.std.specs.Prelude.{◌≤◌};
ghost use Rattle.reading.specs.Reading.{Nodes};
ghost use Rattle.prepared.specs.Ready.{Fills, Ready, PreparedAs};

use letter_places::point;
use measure_list::put_in_table;
use places::unroll;
use reading::{Query, text_is_short};
use refusals::Refusal;
use room::read_query;
use table_room::{MEASURE_WORDS, PLACE_WORDS, has_no_room, words_needed};
use tests::put_tests;

// A prepared query beside its table: the places in its table, one for each value of their flags, the
// columns of a row, how many measures it has, the skip mode of its record, and the letter that the
// skip names, 0 for none. The skip stays two numbers, as bench_c hands them to C and takes them back.
#[derive(Clone, Copy)]
pub struct Prepared {
    pub places: usize,
    pub columns: usize,
    pub count: usize,
    pub skip: usize,
    pub target: usize,
}

// The words that are enough for every query: those of 256 places with 8 values of their flags and
// their ways, 8 measures, 26 letters, and of each letter 50 for the entries of a DEFINE of kind 6.
pub const MOST_WORDS: usize = 16076;

// The table of a query that has no answer of its own. The places come last, since they leave the
// words behind theirs as they are; then those of letters are told their tests.
fn fill(
    query: &[u8],
    nodes: &[u16],
    defines: &[usize; 26],
    measures: &[u8; 24],
    q: Query,
    table: &mut [u16],
) -> Prepared
    requires { Fills query.now nodes.now defines.now measures.now q table.old }
    ensures ready { Ready query.now table.new result }
{
    let places = q.places;
    let factor = q.factor;
    let columns = q.columns;
    let count = q.measures;
    let letters = q.letters;
    let entries = places * factor;
    let measured = PLACE_WORDS * entries;
    put_in_table(measures, count, table, measured);
    let tests = measured + MEASURE_WORDS;
    put_tests(query, columns, defines, letters, table, tests);
    let _end = unroll(nodes, q.top, places, factor, table);
    point(table, entries, tests);
    Prepared {
        places: entries,
        columns,
        count,
        skip: q.skip,
        target: q.target,
    }
}

// A query prepared, with so many words for the tree of its pattern.
#[tactic(auto, using(crate::proofs::Filling::prepares))]
fn prepare_in<const NODES: usize>(
    query: &[u8],
    table: &mut [u16],
) -> Option<Result<Prepared, Refusal>>
    requires nodes { Nodes query.now NODES }
    requires few { NODES ≤ 4096 }
    ensures { PreparedAs query.now table.old table.new result }
{
    let mut nodes = [0u16; NODES];
    let mut defines = [0usize; 26];
    let mut measures = [0u8; 24];
    let q = match read_query(query, &mut nodes, &mut defines, &mut measures) {
        Ok(q) => q,
        Err(refusal) => return Some(Err(refusal)),
    };
    let entries = q.places * q.factor;
    let needed = words_needed(query, &defines, entries, q.letters);
    if has_no_room(table.len(), needed) {
        return None;
    }
    Some(Ok(fill(query, &nodes, &defines, &measures, q, table)))
}

// A query prepared, or refused; none where the table has too few words for it, or more than 65,535.
// A short text gets a small room for its tree, since clearing a large one takes longer than reading
// the query.
#[tactic(auto, using(reading::proofs::Short::nodes))]
pub fn prepare(query: &[u8], table: &mut [u16]) -> Option<Result<Prepared, Refusal>>
    ensures { PreparedAs query.now table.old table.new result }
{
    if text_is_short(query) {
        prepare_in::<256>(query, table)
    } else {
        prepare_in::<4096>(query, table)
    }
}
