// What a list of calls has come to: the last answer, and the changes of all answers added up.

#![tactic(auto)]

pub mod reply_list; // reply_list.rt: the same of any replies, whether a call answers them or not

ghost use Rattle.std.specs.Prelude.{◌≡◌};
ghost use Rattle.replies.specs.Reply.{reply_of};
ghost use Rattle.played.specs.Word.{word};
ghost use Rattle.played.specs.AnswerList.{reply_changes, begun, with_answer};

use replies::Accepted;
use robinx::Refusal;
use totals::Totals;

// The last answer, and the sums of the changes of all answers, modulo 2^64.
#[derive(Clone, Copy)]
pub struct Played {
    pub answer: Result<Accepted, Refusal>,
    pub sums: Totals,
}

// A change modulo 2^64.
#[tactic(auto, using(crate::proofs::Words::word_unsigned))]
pub fn word(change: i64) -> u64
    ensures { result ≡ word change }
{
    change.cast_unsigned()
}

// The changes in an answer: none where the call was refused.
#[tactic(auto, using(crate::proofs::Words::word_signed), unfolding(crate::specs::Word::word))]
pub fn changes_of(answer: Result<Accepted, Refusal>) -> Totals
    ensures { result ≡ reply_changes (reply_of answer) }
{
    answer.map(|accepted| accepted.change).unwrap_or_default()
}

impl Played {
    pub fn of(opening: Result<Accepted, Refusal>) -> Self
        ensures { result ≡ begun opening }
    {
        Self {
            answer: opening,
            sums: changes_of(opening),
        }
    }

    pub fn then(self, answer: Result<Accepted, Refusal>) -> Self
        ensures { result ≡ with_answer self answer }
    {
        Self {
            answer,
            sums: totals::moved(self.sums, changes_of(answer)),
        }
    }
}
