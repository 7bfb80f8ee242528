// The rules for the fields of each kind of record (document 01, "Rows and query records"), which
// answer 3 is about; those of DEFINEs stand in the crate define_fields. Every function equals the
// definition of its name.
// Each asks that the body lies inside the query: a record alone, without the query's bytes, cannot
// say it in its type.
#![tactic(auto)]

ghost use Rattle.std.specs.Prelude.{◌≡◌, ◌+◌, ◌≤◌, length};
ghost use Rattle.rules.specs.Query.{shape_fits, skip_fits, measure_fits, record_fits};
ghost use Rattle.records.specs.Read.{record_of};

use define_fields::{define_fits, postfix_fits};
use field_values::{function_fits, is_letter};
use records::{Kind, Record, byte};

// Kind 1: columns 1 to 8, a reserved byte.
#[tactic(auto, unfolding(rules::specs::Query::shape_fits, rules::specs::Query::field, rules::specs::Basics::in_range))]
fn shape_fits(s: &[u8], record: Record) -> bool
    requires { «record».start + «record».len ≤ length s.now }
    ensures { result ≡ shape_fits s.now (record_of 1 «record».start «record».len) }
{
    record.len == 2 && (1..=8).contains(&byte(s, record.start)) && byte(s, record.start + 1) == 0
}

// Kind 4: 0 or 1, and a byte that is 0; or 2 or 3, and a letter.
#[tactic(auto, unfolding(rules::specs::Query::skip_fits, rules::specs::Query::field))]
fn skip_fits(s: &[u8], record: Record) -> bool
    requires { «record».start + «record».len ≤ length s.now }
    ensures { result ≡ skip_fits s.now (record_of 4 «record».start «record».len) }
{
    if record.len != 2 {
        return false;
    }
    let letter = byte(s, record.start + 1);
    match byte(s, record.start) {
        0 | 1 => letter == 0,
        2 | 3 => is_letter(letter),
        _ => false,
    }
}

// Kind 5: a function, a letter and a column, and a reserved byte.
#[tactic(auto, unfolding(rules::specs::Query::measure_fits, rules::specs::Query::field))]
fn measure_fits(s: &[u8], columns: usize, record: Record) -> bool
    requires { «record».start + «record».len ≤ length s.now }
    ensures { result ≡ measure_fits s.now columns (record_of 5 «record».start «record».len) }
{
    if record.len != 4 {
        return false;
    }
    let at = record.start;
    function_fits(columns, byte(s, at), byte(s, at + 1), byte(s, at + 2)) && byte(s, at + 3) == 0
}

// The fields of one record.
#[tactic(auto, unfolding(rules::specs::Query::record_fits, rules::specs::Query::text_fits))]
pub fn record_fits(s: &[u8], columns: usize, record: Record) -> bool
    requires { «record».start + «record».len ≤ length s.now }
    ensures { result ≡ record_fits s.now columns (record_of «record».kind «record».start «record».len) }
{
    match Kind::of(record.kind) {
        Some(Kind::Shape) => shape_fits(s, record),
        Some(Kind::Text) => record.len <= 256,
        Some(Kind::AllOf) => define_fits(s, columns, record),
        Some(Kind::Skip) => skip_fits(s, record),
        Some(Kind::Measure) => measure_fits(s, columns, record),
        Some(Kind::Postfix) => postfix_fits(s, columns, record),
        None => true,
    }
}
