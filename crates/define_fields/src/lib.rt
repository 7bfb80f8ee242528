// The rules for the fields of DEFINEs (document 01, "Rows and query records", and R-7), which
// answer 3 is about: the comparisons of kind 3, and the entries of kind 6 in postfix. Every
// function equals the definition of its name.
#![tactic(auto)]

ghost use Rattle.std.specs.Prelude.{◌≡◌, ◌+◌, ◌*◌, ◌≤◌, ◌<◌, length, get_or};
ghost use Rattle.rules.specs.Basics.{every_below};
ghost use Rattle.rules.specs.Query.{comparison_fits, define_fits, entry_bytes, entry_fits, postfix_fits};
ghost use Rattle.records.specs.Read.{record_of};
ghost use Rattle.define_fields.specs.Fields.{fits_at, entries_good};

use field_values::{COMPARISON, NOT, entry_bytes, is_letter, left_fits, results_after, right_fits};
use records::{Record, byte};

// The 12 bytes of a comparison.
#[tactic(auto, unfolding(rules::specs::Query::comparison_fits))]
fn comparison_fits(s: &[u8], columns: usize, p: usize) -> bool
    requires { p + 12 ≤ length s.now }
    ensures { result ≡ comparison_fits s.now columns p }
{
    left_fits(columns, byte(s, p), byte(s, p + 1), byte(s, p + 2))
        && right_fits(columns, byte(s, p + 3), byte(s, p + 4), byte(s, p + 5))
        && byte(s, p + 6) == 0
        && byte(s, p + 7) == 0
}

// The comparisons of a DEFINE, from p on.
fn comparisons_fit(s: &[u8], columns: usize, p: usize, count: usize) -> bool
    requires { p + count * 12 ≤ length s.now }
    ensures { result ≡ every_below count (fits_at s.now columns p) }
{
    (0..count).all(|k| comparison_fits(s, columns, p + k * 12))
}

// One entry of kind 6, whose first byte is `tag`.
#[tactic(auto, unfolding(rules::specs::Query::entry_fits, rules::specs::Query::entry_bytes))]
fn entry_fits(s: &[u8], columns: usize, at: usize, tag: usize) -> bool
    requires { (tag ≡ get_or s.now at 0) × (at + entry_bytes s.now at ≤ length s.now) }
    ensures { result ≡ entry_fits s.now columns at }
{
    if tag == COMPARISON {
        comparison_fits(s, columns, at + 1)
    } else {
        tag <= NOT
    }
}

// The entries of a DEFINE of kind 6, from p on: `count` of them fit and end where the body ends,
// and of the results one is left.
fn entries_fit(s: &[u8], columns: usize, p: usize, count: usize, end: usize) -> bool
    requires { (p ≤ end) × (end ≤ length s.now) × (count < 256) }
    ensures { result ≡ entries_good s.now columns end count 0 p }
{
    let mut at = p;
    let mut results = 0;
    for _ in 0..count {
        if at >= end {
            return false;
        }
        let tag = byte(s, at);
        let bytes = entry_bytes(tag);
        if end - at < bytes || !entry_fits(s, columns, at, tag) {
            return false;
        }
        results = results_after(tag, results);
        if results == 0 {
            return false;
        }
        at += bytes;
    }
    at == end && results == 1
}

// Kind 3: a letter, a count of 1 to 8, and the comparisons.
#[tactic(auto, using(crate::proofs::DefineRules::define_short), unfolding(rules::specs::Query::define_fits, rules::specs::Query::field, rules::specs::Basics::in_range, crate::specs::Fields::fits_at))]
pub fn define_fits(s: &[u8], columns: usize, record: Record) -> bool
    requires { «record».start + «record».len ≤ length s.now }
    ensures { result ≡ define_fits s.now columns (record_of 3 «record».start «record».len) }
{
    if record.len < 2 {
        return false;
    }
    let count = byte(s, record.start + 1);
    record.len == 2 + count * 12
        && is_letter(byte(s, record.start))
        && (1..=8).contains(&count)
        && comparisons_fit(s, columns, record.start + 2, count)
}

// Kind 6: a letter, a count of 1 to 16, and the entries.
#[tactic(auto, using(crate::proofs::EntryRules::postfix_short, crate::proofs::EntryRules::postfix_is), unfolding(rules::specs::Basics::in_range))]
pub fn postfix_fits(s: &[u8], columns: usize, record: Record) -> bool
    requires { «record».start + «record».len ≤ length s.now }
    ensures { result ≡ postfix_fits s.now columns (record_of 6 «record».start «record».len) }
{
    if record.len < 2 {
        return false;
    }
    let count = byte(s, record.start + 1);
    let end = record.start + record.len;
    is_letter(byte(s, record.start))
        && (1..=16).contains(&count)
        && entries_fit(s, columns, record.start + 2, count, end)
}
