// The depot-by-month table (request R-4): one query over many partitions, and its matches counted
// by the depot and the month of their first rows. `begin` makes a new state, `partition` takes one
// partition; both change nothing but what they are lent. What is promised is told from the reports
// of the partitions so far (specs/Calls), from the search's promise alone.
#![tactic(auto)]

ghost use Rattle.outcome.specs.Results.{lent, memory};
ghost use Rattle.depots.specs.Partition.{Parted};
ghost use Rattle.depots.specs.Calls.{Calls};

use depot_state::{DEPOT, LENGTH, MONTH, PARTITIONS, count_done, list_one};
use named::is_three;
use outcome::Outcome;
use refusals::Refusal;
use tally::NamedColumns;

// As many partitions as get a number.
pub const MOST: usize = 65535;

// The search of one partition, or answer 3 where a named column is outside the shape.
fn search_partition(
    query: &[u8],
    named: NamedColumns,
    rows: &[i32],
    notes: &mut [u8],
    trail: &mut [u32],
    numbers: &mut [i64],
    labels: &mut [u8],
) -> Outcome
    ensures { Parted named query.now rows.now (lent notes.old trail.old numbers.old labels.old) (memory result notes.new trail.new numbers.new labels.new) }
{
    if is_three(query, named.depot, named.month) {
        return Outcome::from(Refusal::Unfit);
    }
    search::search(query, rows, notes, trail, numbers, labels)
}

// One partition: searched, then counted or listed.
pub fn partition(
    state: &mut [usize],
    list: &mut [u32],
    query: &[u8],
    rows: &[i32],
    notes: &mut [u8],
    trail: &mut [u32],
    numbers: &mut [i64],
    labels: &mut [u8],
) -> Outcome
    ensures { Calls (record { query = query.now; rows = rows.now; buffers = lent notes.old trail.old numbers.old labels.old; state = state.old; list = list.old }) (record { memory = memory result notes.new trail.new numbers.new labels.new; state = state.new; list = list.new }) }
{
    if state.len() < LENGTH {
        return Outcome::from(Refusal::NoNumber);
    }
    let taken = state[PARTITIONS];
    if MOST <= taken {
        return Outcome::from(Refusal::NoNumber);
    }
    let named = NamedColumns {
        depot: state[DEPOT],
        month: state[MONTH],
    };
    let r = search_partition(query, named, rows, notes, trail, numbers, labels);
    let answer = r.answer;
    if answer != 0 {
        if list_one(state, list, answer) {
            return r;
        }
        return Outcome::from(Refusal::NoNumber);
    }
    count_done(state, query, rows, numbers, r.matches);
    r
}
