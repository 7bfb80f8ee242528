// A query's bytes as records: each record read answers an enum, Record or Cut.
// The promise is an equation with document 01's definition, at every index inside the query.
#![tactic(auto)]

ghost use Rattle.std.specs.Prelude.{◌≡◌, ◌+◌, ◌-◌, ◌<◌, length, get_or, MatchOption};
ghost use Rattle.rules.specs.Query.{is_define, is_measure};
ghost use Rattle.records.specs.Read.{read_at};
ghost use Rattle.records.specs.Kinds.{number_of, Unknown};

use numbers::le16_at;

// The number of the kind of DEFINE that is all of some comparisons, for who has the number alone.
pub const ALL_OF: usize = 3;

// The kinds of records. A DEFINE is all of some comparisons, or entries in postfix.
#[derive(Clone, Copy, PartialEq, Eq)]
pub enum Kind {
    Shape,
    Text,
    AllOf,
    Skip,
    Measure,
    Postfix,
}

impl Kind {
    // The kind of this number, where it is one.
    pub fn of(number: usize) -> Option<Kind>
        ensures { MatchOption result (Unknown number) (λ k. number ≡ number_of k) }
    {
        match number {
            1 => Some(Kind::Shape),
            2 => Some(Kind::Text),
            ALL_OF => Some(Kind::AllOf),
            4 => Some(Kind::Skip),
            5 => Some(Kind::Measure),
            6 => Some(Kind::Postfix),
            _ => None,
        }
    }
}

// A whole record of the query: its body starts at start and is len bytes long, and next is behind
// it. Its kind is a number, since not each one is that of a Kind.
#[derive(Clone, Copy)]
pub struct Record {
    pub kind: usize,
    pub start: usize,
    pub len: usize,
    pub next: usize,
}

// What stands at an index of the query. An enum of these two names, and no Option, is the form that
// document 01 gives it ("What shape each place takes").
#[derive(Clone, Copy)]
pub enum Read {
    Record(Record),
    Cut,
}

// The byte at an index of the query.
pub fn byte(s: &[u8], at: usize) -> usize
    requires { at < length s.now }
    ensures { (result ≡ get_or s.now at 0) × (result < 256) }
{
    usize::from(s[at])
}

// The record at an index below the query's end.
pub fn record_at(s: &[u8], at: usize) -> Read
    requires { at < length s.now }
    ensures { result ≡ read_at s.now at }
{
    if s.len() - at < 4 {
        return Read::Cut;
    }
    let len = le16_at(s, at);
    let start = at + 4;
    if s.len() - start < len {
        return Read::Cut;
    }
    Read::Record(Record {
        kind: le16_at(s, at + 2),
        start,
        len,
        next: start + len,
    })
}

// Whether a record of this kind is a DEFINE.
#[tactic(auto, unfolding(rules::specs::Query::is_define))]
pub fn is_define(kind: usize) -> bool
    ensures { result ≡ is_define kind }
{
    let kind = Kind::of(kind);
    kind == Some(Kind::AllOf) || kind == Some(Kind::Postfix)
}

// Whether a record of this kind is a measure.
#[tactic(auto, unfolding(rules::specs::Query::is_measure))]
pub fn is_measure(kind: usize) -> bool
    ensures { result ≡ is_measure kind }
{
    Kind::of(kind) == Some(Kind::Measure)
}
