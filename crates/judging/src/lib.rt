// A letter tested at a row over its words in the table (specs/Tests of the crate table), with how
// many comparisons of its kind 3 record were judged: up to and with the first that is not met.
// Promise: both are those of specs/Judging, which at every row are `holds` and `judged` of the rules
// (proofs/Rules). Weakness: the search has a faster test, which tells no count (crates/letters); it
// judges the first comparison by an interval, and those behind it and entries as it is done here.
#![tactic(auto)]

ghost use Rattle.judging.specs.Judging.{Judgeable, JudgedAs};

use comparisons::{comparison_met, first_unmet};
use conditions::{YES, condition_truth};
use letter_words::{BY_ENTRIES, FIRST, KIND, MORE};
use table::word_at;

// Whether a letter holds, and how many comparisons were judged: both are told of every letter.
#[derive(Clone, Copy)]
pub struct Judged {
    pub holds: bool,
    pub count: usize,
}

// The letter whose words begin at word `at`, at the row to whose first entry `from` belongs.
pub fn judge_letter(table: &[u16], at: usize, rows: &[i32], from: u64) -> Judged
    requires { Judgeable table.now at }
    ensures { JudgedAs table.now rows.now from at result }
{
    if word_at(table, at + KIND) == BY_ENTRIES {
        let holds = condition_truth(table, at, rows, from) == YES;
        return Judged { holds, count: 0 };
    }
    let all = word_at(table, at);
    if all == 0 {
        return Judged {
            holds: true,
            count: 0,
        };
    }
    if !comparison_met(table, at + FIRST, rows, from) {
        return Judged {
            holds: false,
            count: 1,
        };
    }
    if all == 1 {
        return Judged {
            holds: true,
            count: 1,
        };
    }
    let others = all - 1;
    let unmet = first_unmet(table, word_at(table, at + MORE), others, rows, from);
    if unmet == others {
        return Judged {
            holds: true,
            count: all,
        };
    }
    Judged {
        holds: false,
        count: unmet + 2,
    }
}
