// How a search ended: refused, done or stopped.
#![tactic(auto)]

ghost use Rattle.std.specs.Prelude.{◌≡◌};
ghost use Rattle.refusals.specs.Refusals.{answer_of, offset_of};
ghost use Rattle.outcome.specs.Results.{refusal};

use refusals::Refusal;

// How a search ended: the answer, the matches and labels written, the steps, and the offset of
// answers 5 and 14. A number for the answer, and no `Result`: it is the C interface's struct.
#[repr(C)]
#[derive(Clone, Copy)]
pub struct Outcome {
    pub answer: usize,
    pub matches: usize,
    pub labels: usize,
    pub steps: usize,
    pub offset: usize,
}

// A refusal: its answer and offset, and zeros.
impl From<Refusal> for Outcome {
    ghost from_gives = { λ why r. r ≡ refusal (answer_of why) (offset_of why) };

    fn from(why: Refusal) -> Outcome {
        Outcome {
            answer: why.answer(),
            matches: 0,
            labels: 0,
            steps: 0,
            offset: why.offset(),
        }
    }
}

// Done or stopped, by what all starts came to.
pub fn finished(s: matches::Sweep) -> Outcome
    ensures { result ≡ record { answer = s.end; matches = s.matches; labels = s.labels; steps = s.steps; offset = 0 } }
{
    Outcome {
        answer: s.end,
        matches: s.matches,
        labels: s.labels,
        steps: s.steps,
        offset: 0,
    }
}
