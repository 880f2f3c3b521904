// What a list of replies has come to: the last reply, and the changes of all replies added up.

ghost use Rattle.std.specs.Prelude.{◌≡◌};
ghost use Rattle.played.specs.ReplyList.{begun, with_reply};

use crate::word;
use robinx::Reply;

// The last reply, and the sums of the changes of all replies, modulo 2^64.
#[derive(Clone, Copy)]
pub struct PlayedReplies {
    pub reply: Reply,
    pub infeasibility: u64,
    pub objective: u64,
}

impl PlayedReplies {
    pub fn of(opening: Reply) -> Self
        ensures { result ≡ begun opening }
    {
        Self {
            reply: opening,
            infeasibility: word(opening.infeasibility),
            objective: word(opening.objective),
        }
    }

    pub fn then(self, reply: Reply) -> Self
        ensures { result ≡ with_reply self reply }
    {
        Self {
            reply,
            infeasibility: self.infeasibility.wrapping_add(word(reply.infeasibility)),
            objective: self.objective.wrapping_add(word(reply.objective)),
        }
    }
}
