// Whether a prepared query looks ahead (answer 17 of R-11): its pattern has a `$`, or one of its
// letters reads a row behind its own. Such a query cannot be searched for while rows still come.
// Promise: the answer is `looks_ahead` of the rules, of the query that the table stands for.
// Weakness: every place is looked at, so a letter that stands at several is asked several times.
#![tactic(auto)]

ghost use Rattle.std.specs.Prelude.{◌≡◌, List, ℕ};
ghost use Rattle.rules.specs.Lots.{looks_ahead};
ghost use Rattle.prepared.specs.Ready.{Ready};
ghost use Rattle.ahead.specs.Looking.{StandsFor};

use prepared::Prepared;
use reads_ahead::place_ahead;

// Whether the query looks ahead that the table stands for.
pub fn looks_ahead(table: &[u16], p: Prepared) -> bool
    requires { StandsFor table.now p }
    ensures { (q : List ℕ) → Ready q table.now p → result ≡ looks_ahead q }
{
    let columns = p.columns;
    (0..p.places).any(|q| place_ahead(table, q, columns))
}
