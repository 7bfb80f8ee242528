// Where the DEFINE of each letter stands in the query, in one pass over the DEFINEs, and whether a
// letter has two (answer 8). Comparisons and entries stay where they are, in the query's bytes. A
// query comes here with no answer 1 to 3. What the lent array holds afterwards: specs/Defines,
// `PutDefines`.
#![tactic(auto)]

ghost use Rattle.define_list.specs.Defines.{DefineRoom, PutDefine, DefinesRoom, PutDefines};

use records::{Read, byte, is_define, record_at};

// The DEFINE whose body starts at this index; answers whether its letter had one before. The first
// DEFINE of a letter counts. 0 says that a letter has none, and no Option: no body starts at 0, and
// the lent array, which is cleared for each query, would be twice as long.
fn put_define(s: &[u8], start: usize, defines: &mut [usize; 26]) -> bool
    requires { DefineRoom s.now start }
    ensures { PutDefine s.now start defines.old defines.new result }
{
    let letter = byte(s, start) - 65;
    if defines[letter] != 0 {
        return true;
    }
    defines[letter] = start;
    false
}

// What the pass over the DEFINEs finds: the index of the skip behind them, whether two of them are
// for one letter, and a number from which on no letter has one, so that the letters behind it need
// not be looked at.
#[derive(Clone, Copy)]
pub struct Behind {
    pub at: usize,
    pub twice: bool,
    pub letters: usize,
}

// The DEFINEs from an index on.
pub fn put_defines(s: &[u8], from: usize, defines: &mut [usize; 26]) -> Behind
    requires { DefinesRoom s.now from }
    ensures { PutDefines s.now from defines.new result }
{
    *defines = [0; 26];
    let mut at = from;
    let mut twice = false;
    let mut letters = 0;
    // By an index, as in query; what is behind the DEFINEs goes on from it.
    while at < s.len() {
        let Read::Record(record) = record_at(s, at) else {
            break;
        };
        if !is_define(record.kind) {
            break;
        }
        twice |= put_define(s, record.start, defines);
        letters = letters.max(byte(s, record.start) - 64);
        at = record.next;
    }
    Behind { at, twice, letters }
}
