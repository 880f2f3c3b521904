// A season's bytes, read inside their ends, and the first true one of sentences 1 to 5.

#![tactic(auto)]

ghost use Rattle.std.specs.Prelude.{◌≡◌, false, ◌∷◌, []};
ghost use Rattle.robinx.specs.Season.{decode};
ghost use Rattle.robinx.specs.Refusals.{sentence, sentence5, first_true, of_season};
ghost use Rattle.robinx.specs.RefusalNumbers.{fault_of};
ghost use Rattle.reader.specs.Sizes.{out_of_range};
ghost use Rattle.season.specs.Examination.{Examination};

use reader::view::SeasonView;
use robinx::{Refusal, Season};
use rules::dimensions::Dimensions;

// What the examination of an accepted season finds: the season with its sizes, and the number of deviations.
#[derive(Clone, Copy)]
pub struct Examined<'a> {
    pub season: SeasonView<'a>,
    pub entries: usize,
}

// Sentence 2.
#[tactic(auto, unfolding(reader::specs::Sizes::out_of_range, robinx::specs::Refusals::first_true))]
pub fn check_sizes(z: Season) -> Result<(), Refusal>
    ensures { fault_of result ≡ first_true (sentence 2 (out_of_range z) ∷ []) }
{
    if (2..=Season::TEAMS).contains(&z.teams)
        && (1..=Season::SLOTS).contains(&z.slots)
        && z.games <= Season::GAMES
        && z.constraints <= Season::CONSTRAINTS
    {
        Ok(())
    } else {
        Err(Refusal::SizeOutOfRange)
    }
}

// Sentence 5 and the number of deviations, up to a constraint that breaks a rule.
fn examine_constraints<'a>(season: SeasonView<'a>) -> Result<Examined<'a>, Refusal>
    requires { out_of_range season.sizes ≡ false }
    ensures { Examination (sentence 5 (sentence5 (decode season.entry.bytes.now)) ∷ []) season.entry.bytes.now result }
{
    let dimensions = Dimensions {
        teams: season.sizes.teams,
        slots: season.sizes.slots,
    };
    let mut entries = 0;
    // a `for` that returns at the first breach reads plainer than a `try_fold` whose closure carries the sum
    for c in season.constraints() {
        if !kind_rules::obeys(c, dimensions) {
            return Err(Refusal::BadConstraint);
        }
        entries += kinds::entries_of(c);
    }
    Ok(Examined { season, entries })
}

// Any bytes, by sentences 1 to 5.
#[tactic(auto, using(crate::proofs::Found::examined), unfolding(robinx::specs::Refusals::sentence1, robinx::specs::Refusals::first_true))]
pub fn examine<'a>(season: &'a [u8]) -> Result<Examined<'a>, Refusal>
    ensures { Examination (of_season season.now) season.now result }
{
    if season.len() < 6 {
        return Err(Refusal::ShortSeason);
    }
    let z = reader::sizes(season);
    check_sizes(z)?;
    if season.len() != z.length() {
        return Err(Refusal::SeasonLength);
    }
    let view = SeasonView {
        bytes: season,
        sizes: z,
    };
    games::examine(view.homes(), view.aways(), z.teams)?;
    examine_constraints(view)
}
