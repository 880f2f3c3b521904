// A verdict as its number, and the replies of any number, be it that of a verdict or a sentence or not. They stand apart, since two of their names
// differ from those of the types `Verdict` and `Accepted` in case alone.

ghost use Rattle.std.specs.Prelude.{◌≡◌};
ghost use Rattle.std.specs.Int.{w64};
ghost use Rattle.std.proofs.Common.{to_z};
ghost use Rattle.robinx.specs.Calls.{declined, accepted};
ghost use Rattle.replies.specs.Verdict.{verdict_of};

use crate::Verdict;
use robinx::Reply;
use totals::Totals;

// The reply of a refused call: the number of the sentence, and no change.
pub fn declined(number: u8) -> Reply
    ensures { result ≡ declined number }
{
    Reply {
        declined: true,
        number,
        infeasibility: 0,
        objective: 0,
    }
}

// The verdict, from the number of unplaced games and the infeasibility.
pub fn verdict(unplaced: usize, infeasibility: u64) -> u8
    ensures { result ≡ verdict_of unplaced infeasibility }
{
    u8::from(Verdict::of(unplaced, infeasibility))
}

// The reply of an accepted call: its verdict, and the changes of infeasibility and objective as two's complement.
pub fn accepted(number: u8, change: Totals) -> Reply
    ensures { result ≡ accepted number (to_z w64 change.hard) (to_z w64 change.soft) }
{
    Reply {
        declined: false,
        number,
        infeasibility: change.hard.cast_signed(),
        objective: change.soft.cast_signed(),
    }
}
