// A season opened and then a list of calls made, through those of `checker` alone: the last answer, and the changes added up.

#![tactic(auto)]

ghost use Rattle.std.specs.Prelude.{◌≡◌};
ghost use Rattle.robinx.specs.Calls.{buffers, outcome, call_on};
ghost use Rattle.replies.specs.Reply.{reply_of};
ghost use Rattle.replay.specs.Play.{meant_by, call_in, calls_of, Replays};

use played::Played;
use replies::Accepted;
use robinx::Refusal;

// A call: a game is put into a slot, or two games change places.
#[derive(Clone, Copy, Debug, PartialEq, Eq)]
pub enum Call {
    Set { game: u64, slot: u64 },
    Exchange { game: u64, other: u64 },
}

impl From<[u64; 3]> for Call {
    ghost from_gives = { λ words call. meant_by call ≡ call_in words };

    // Kind 0 is set, any other is exchange.
    fn from(words: [u64; 3]) -> Self {
        match words {
            [0, game, slot] => Self::Set { game, slot },
            [_, game, other] => Self::Exchange { game, other },
        }
    }
}

impl Call {
    fn make(
        self,
        season: &[u8],
        sheet: &mut [u8],
        ledger: &mut [u32],
        tally: &mut [u64],
    ) -> Result<Accepted, Refusal>
        ensures { outcome (reply_of result) (buffers sheet.new ledger.new tally.new)
            ≡ call_on season.now (buffers sheet.old ledger.old tally.old) (meant_by self) }
    {
        match self {
            Self::Set { game, slot } => checker::season_set(
                season, sheet, ledger, tally, game, slot,
            ),
            Self::Exchange { game, other } => checker::season_exchange(
                season, sheet, ledger, tally, game, other,
            ),
        }
    }
}

// Opens, and makes each call of the list, three words a call, whatever the answers are. The buffers come one by one, as the
// calls of `checker` take them: a struct would be made here and taken apart there.
pub fn play(
    season: &[u8],
    sheet: &mut [u8],
    ledger: &mut [u32],
    tally: &mut [u64],
    calls: &[u64],
) -> Played
    ensures { Replays season.now (buffers sheet.old ledger.old tally.old)
        (calls_of calls.now) result (buffers sheet.new ledger.new tally.new) }
{
    let mut played = Played::of(checker::season_open(season, &*sheet, ledger, tally));
    let (calls, _) = calls.as_chunks::<3>();
    for &words in calls {
        let answer = Call::from(words).make(season, sheet, ledger, tally);
        played = played.then(answer);
    }
    played
}
