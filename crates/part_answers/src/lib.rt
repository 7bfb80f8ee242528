// The answers of a query that is taken apart: its pattern judged, then its DEFINEs, measures and
// skip, so answers 4 to 9 and 14, the first of them that there is.
#![tactic(auto)]

ghost use Rattle.reading.specs.Reading.{JudgeRoom, JudgedParts};

use decode::Parts;
use reading::{Query, has_foreign};
use refusals::Refusal;

// The pattern of a query with no answer 1 to 3 judged, then its DEFINEs, measures and skip. Whether
// two DEFINEs are for one letter (8) was told when the parts were decoded.
#[tactic(auto, using(reading::proofs::Laws::judges))]
pub fn judge_parts(
    s: &[u8],
    parts: Parts,
    room: &mut [u16],
    measures: &[u8; 24],
) -> Result<Query, Refusal>
    requires { JudgeRoom s.now room.old measures.now parts }
    ensures { JudgedParts s.now room.new measures.now parts result }
{
    let text = &s[parts.start..parts.start + parts.len];
    let v = judge::judge(text, room)?;
    if parts.twice {
        return Err(Refusal::Doubled);
    }
    if has_foreign(text, measures, parts.measures, parts.target) {
        return Err(Refusal::Foreign);
    }
    Ok(Query {
        places: v.places,
        factor: v.factor,
        top: v.top,
        columns: parts.columns,
        skip: parts.skip,
        target: parts.target,
        measures: parts.measures,
        letters: parts.letters,
    })
}
