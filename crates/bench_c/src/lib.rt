// Preparing a query and running it as bench/ calls them, built by `tools/build bench_c`: each
// function is the proved one of its name, with the same promise. They are not in the product's
// library, since the second trusts its table: `Runs` asks that the table and the numbers are told
// of some query, as the first tells them, and no caller in C can show that. Weakness: with another
// table the second promises nothing, not even to stay within the slices.
#![tactic(auto)]

ghost use Rattle.std.specs.Prelude.{◌≡◌, List, ℕ};
ghost use Rattle.std.proofs.Math.Option.{some};
ghost use Rattle.outcome.specs.Results.{lent, memory};
ghost use Rattle.search.specs.Promise.{Promised};
ghost use Rattle.bench_c.specs.Flat.{refused_prepared, Given, PreparedAs, Runs};

use outcome::Outcome;
use search::NO_LIMIT;

// A prepared query beside its table: its answer, with the offset of 5 and 14; where that is 0, the
// places in its table, one for each value of their flags, the columns of a row, how many measures
// it has, the skip mode of its record, and the letter that the skip names, 0 for none. Numbers, and
// no `Result`: it is the C interface's struct.
#[repr(C)]
#[derive(Clone, Copy)]
pub struct Prepared {
    pub answer: usize,
    pub offset: usize,
    pub places: usize,
    pub columns: usize,
    pub count: usize,
    pub skip: usize,
    pub target: usize,
}

// No answer of document 01: the table has too few words for the query, or more than 65,535.
const NO_ROOM: usize = 255;

fn not_prepared(answer: usize, offset: usize) -> Prepared
    ensures { result ≡ refused_prepared answer offset }
{
    Prepared {
        answer,
        offset,
        places: 0,
        columns: 0,
        count: 0,
        skip: 0,
        target: 0,
    }
}

// A query prepared.
#[tactic(auto, using(crate::proofs::Flattening::tells))]
#[unsafe(no_mangle)]
pub extern "C" fn mireladle_bench_prepare(query: &[u8], table: &mut [u16]) -> Prepared
    ensures { PreparedAs query.now table.old table.new result }
{
    match prepared::prepare(query, table) {
        None => not_prepared(NO_ROOM, 0),
        Some(Err(refusal)) => not_prepared(refusal.answer(), refusal.offset()),
        Some(Ok(p)) => Prepared {
            answer: 0,
            offset: 0,
            places: p.places,
            columns: p.columns,
            count: p.count,
            skip: p.skip,
            target: p.target,
        },
    }
}

// The search of a prepared query, with more steps allowed than any takes.
#[tactic(auto, using(crate::proofs::Flattening::runs))]
#[unsafe(no_mangle)]
pub extern "C" fn mireladle_bench_run(
    table: &[u16],
    p: Prepared,
    rows: &[i32],
    notes: &mut [u8],
    trail: &mut [u32],
    numbers: &mut [i64],
    labels: &mut [u8],
) -> Outcome
    requires { Runs table.now p }
    ensures { (q : List ℕ) → Given q table.now p → Promised (some 18446744073709551615) q rows.now (lent notes.old trail.old numbers.old labels.old) (memory result notes.new trail.new numbers.new labels.new) }
{
    if p.answer != 0 {
        return Outcome {
            answer: p.answer,
            matches: 0,
            labels: 0,
            steps: 0,
            offset: p.offset,
        };
    }
    let prepared = prepared::Prepared {
        places: p.places,
        columns: p.columns,
        count: p.count,
        skip: p.skip,
        target: p.target,
    };
    search::run(
        table,
        Ok(prepared),
        rows,
        NO_LIMIT,
        notes,
        trail,
        numbers,
        labels,
    )
}
