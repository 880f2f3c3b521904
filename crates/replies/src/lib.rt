// The answer of an accepted call, with its verdict, and the reply that the C interface makes of any answer.

#![tactic(auto)]

pub mod numbers;

ghost use Rattle.std.specs.Prelude.{◌≡◌};
ghost use Rattle.replies.specs.Verdict.{verdict_number, verdict_of};
ghost use Rattle.replies.specs.Reply.{reply_of};

use numbers::{accepted, declined};
use robinx::{Refusal, Reply};
use totals::Totals;

// The verdict on a sheet: docs/FORMAT.md, section 4.3. A definition gives each its number.
#[derive(Clone, Copy, Debug, PartialEq, Eq)]
pub enum Verdict {
    Feasible = 0,
    Unplaced = 1,
    Infeasible = 2,
}

impl Verdict {
    // From the number of unplaced games and the infeasibility.
    pub fn of(unplaced: usize, infeasibility: u64) -> Self
        ensures { verdict_number result ≡ verdict_of unplaced infeasibility }
    {
        match (unplaced, infeasibility) {
            (0, 0) => Self::Feasible,
            (0, _) => Self::Infeasible,
            _ => Self::Unplaced,
        }
    }
}

impl From<Verdict> for u8 {
    ghost from_gives = { λ verdict number. number ≡ verdict_number verdict };

    // Its number in a reply: a cast, which is how the number of a variant is read.
    fn from(verdict: Verdict) -> Self {
        verdict as u8
    }
}

// What an accepted call answers: its verdict, and the changes of infeasibility and objective modulo 2^64. A refused call answers a `Refusal`.
#[derive(Clone, Copy, Debug, PartialEq, Eq)]
pub struct Accepted {
    pub verdict: Verdict,
    pub change: Totals,
}

// What the C interface replies: the number of a refusal with no change, or that of the verdict with the changes as two's complement. It is no
// `From`, since neither `Reply` nor `Result` is a type of this crate.
pub fn reply(answer: Result<Accepted, Refusal>) -> Reply
    ensures { result ≡ reply_of answer }
{
    match answer {
        Ok(Accepted { verdict, change }) => accepted(u8::from(verdict), change),
        Err(refusal) => declined(u8::from(refusal)),
    }
}
