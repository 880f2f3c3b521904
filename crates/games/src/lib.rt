// The games of a season: their teams, and how often two of them meet.

#![tactic(auto)]

ghost use Rattle.std.specs.Prelude.{◌≡◌, ◌∷◌, [], ◌≤◌, length};
ghost use Rattle.robinx.specs.Season.{most_teams};
ghost use Rattle.robinx.specs.Refusals.{sentence, sentence4, first_true};
ghost use Rattle.robinx.specs.RefusalNumbers.{fault_of};
ghost use Rattle.games.specs.Meetings.{of_games, CountsGame};

use robinx::{Refusal, Season};

// How often two teams have met: in the row of the lower number, at the higher. For all teams, since there is no heap.
type Meetings = [[u8; Season::TEAMS]; Season::TEAMS];

// Counts a game, unless it cannot be after the games that are counted.
#[tactic(auto, unfolding(crate::specs::Meetings::refused, robinx::specs::Refusals::first_true))]
fn count_game(meetings: &mut Meetings, i: usize, j: usize, n: usize) -> Result<(), Refusal>
    requires { n ≤ most_teams }
    ensures { CountsGame i j n meetings.old meetings.new result }
{
    if n <= i || n <= j || i == j {
        return Err(Refusal::BadGame);
    }
    let met = &mut meetings[i.min(j)][i.max(j)];
    if Season::MEETINGS <= usize::from(*met) {
        return Err(Refusal::BadGame);
    }
    *met += 1;
    Ok(())
}

// Sentence 4, in one pass over the games, whose teams are two lists as in the season's bytes: `timetable::games::Games` holds what is tested here.
pub fn examine(homes: &[u8], aways: &[u8], n: usize) -> Result<(), Refusal>
    requires { (length aways.now ≡ length homes.now) × (n ≤ most_teams) }
    ensures { fault_of result ≡ first_true (sentence 4 (sentence4 (of_games n homes.now aways.now)) ∷ []) }
{
    let mut meetings = [[0; Season::TEAMS]; Season::TEAMS];
    for (&i, &j) in homes.iter().zip(aways) {
        count_game(&mut meetings, usize::from(i), usize::from(j), n)?;
    }
    Ok(())
}
