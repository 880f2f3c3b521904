// The team summary, 64 lent words: the patterns of all teams laid into it, compared with it, and written for the teams of a game.

#![tactic(auto)]

ghost use Rattle.std.specs.Prelude.{◌≡◌, not, ◌<◌, eqb, length, get_or};
ghost use Rattle.robinx.specs.Season.{most_teams};
ghost use Rattle.robinx.specs.Summary.{summary_words};
ghost use Rattle.robinx.specs.Refusals.{disagrees};
ghost use Rattle.summary.specs.PatternWords.{words_of, with_team};

use robinx::Season;
use robinx::game::Game;
use tables::Patterns;

// The words of a summary: home slots for each team, then away slots for each.
pub const WORDS: usize = 2 * Season::TEAMS;

// Sentence 14 of open. A test and no refusal, as in `disagrees`: no call gives this number yet.
pub fn misfits(words: usize) -> bool
    ensures { result ≡ not (eqb words summary_words) }
{
    words != WORDS
}

// Writes every word. Patterns go by value, here and below: the customer named this form.
#[tactic(auto, using(crate::proofs::Words::halves_are_the_words))]
pub fn lay(patterns: Patterns, summary: &mut [u64; WORDS])
    ensures { summary.new ≡ words_of patterns }
{
    summary[..Season::TEAMS].copy_from_slice(&patterns.home);
    summary[Season::TEAMS..].copy_from_slice(&patterns.away);
}

// Sentence 14 of set and exchange, by the patterns of the sheet.
#[tactic(auto, using(crate::proofs::Words::differs_in_a_half), unfolding(robinx::specs::Refusals::sentence14_open))]
pub fn disagrees(patterns: Patterns, summary: &[u64]) -> bool
    ensures { result ≡ disagrees summary.now (words_of patterns) }
{
    if misfits(summary.len()) {
        return true;
    }
    let (home, away) = summary.split_at(Season::TEAMS);
    home != patterns.home.as_slice() || away != patterns.away.as_slice()
}

// Writes the two words of team t.
fn write_team(patterns: Patterns, t: usize, summary: &mut [u64; WORDS])
    requires { t < most_teams }
    ensures { summary.new ≡ with_team patterns t summary.old }
{
    summary[t] = patterns.home[t];
    summary[Season::TEAMS + t] = patterns.away[t];
}

// Writes the words of the two teams of a game.
pub fn write_game(patterns: Patterns, game: Game, summary: &mut [u64; WORDS])
    ensures { summary.new ≡ with_team patterns game.away (with_team patterns game.home summary.old) }
{
    write_team(patterns, usize::from(game.home), summary);
    write_team(patterns, usize::from(game.away), summary);
}
