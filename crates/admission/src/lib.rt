// Sentences 1 to 8, which the calls share: the season's (`season::examine`), then that of the lengths, then that of the sheet, whose tables
// are built on the way.

#![tactic(auto)]

ghost use Rattle.std.specs.Prelude.{◌≡◌, ◌∷◌, [], ◌&&◌, not, ◌+◌, ◌≤◌, eqb, length};
ghost use Rattle.robinx.specs.Season.{decode, most_teams, most_slots, most_constraints};
ghost use Rattle.robinx.specs.Refusals.{sentence, first_true};
ghost use Rattle.robinx.specs.RefusalNumbers.{fault_of};
ghost use Rattle.robinx.specs.Calls.{buffers};
ghost use Rattle.tables.specs.Tables.{Empty};
ghost use Rattle.timetable.specs.OfSheet.{Teams, Builds};
ghost use Rattle.admission.specs.Admission.{Admits};

use reader::view::SeasonView;
use robinx::{Refusal, Season};
use tables::Tables;
use timetable::games::Games;

// What is known of a call that sentences 1 to 8 let pass, beside the tables of its sheet.
#[derive(Clone, Copy)]
pub struct Admitted<'a> {
    pub season: SeasonView<'a>,
    pub unplaced: usize,
}

// Sentence 7.
#[tactic(auto, unfolding(robinx::specs::Refusals::first_true))]
pub fn check_lengths(
    z: Season,
    entries: usize,
    sheet: usize,
    ledger: usize,
    tally: usize,
) -> Result<(), Refusal>
    requires { z.constraints ≤ most_constraints }
    ensures { fault_of result ≡ first_true (sentence 7 (not (eqb sheet z.games && eqb ledger entries && eqb tally (z.constraints + 2))) ∷ []) }
{
    if (sheet == z.games) & (ledger == entries) & (tally == z.constraints + 2) {
        Ok(())
    } else {
        Err(Refusal::BufferLength)
    }
}

// The games of a season whose teams are known to be right.
#[tactic(auto, unfolding(robinx::specs::Season::decode))]
pub fn games_of<'a>(season: SeasonView<'a>) -> Games<'a>
    requires { Teams most_teams (decode season.bytes.now).home (decode season.bytes.now).away }
    ensures { (result.homes.now ≡ (decode season.entry.bytes.now).home) × (result.aways.now ≡ (decode season.entry.bytes.now).away) }
{
    Games {
        homes: season.homes(),
        aways: season.aways(),
    }
}

// Sentence 8, by building the tables of the sheet; else the number of unplaced games.
pub fn lay_tables(season: SeasonView, sheet: &[u8], tables: &mut Tables) -> Result<usize, Refusal>
    requires { Teams most_teams (decode season.bytes.now).home (decode season.bytes.now).away
        × (length sheet.now ≡ length (decode season.bytes.now).home) × (season.sizes.slots ≤ most_slots) × Empty tables.old }
    ensures { Builds season.entry.sizes.slots (decode season.entry.bytes.now).home (decode season.entry.bytes.now).away sheet.now result tables.new }
{
    timetable::build(games_of(season), sheet, season.sizes.slots, tables)
}

// Sentences 1 to 8, in their order. Of ledger and tally it reads the lengths alone, so they are no books yet.
pub fn admit<'a>(
    bytes: &'a [u8],
    sheet: &[u8],
    ledger: &[u32],
    tally: &[u64],
    tables: &mut Tables,
) -> Result<Admitted<'a>, Refusal>
    requires { Empty tables.old }
    ensures { Admits bytes.now (buffers sheet.now ledger.now tally.now) result tables.new }
{
    let found = season::examine(bytes)?;
    let season = found.season;
    check_lengths(
        season.sizes,
        found.entries,
        sheet.len(),
        ledger.len(),
        tally.len(),
    )?;
    let unplaced = lay_tables(season, sheet, tables)?;
    Ok(Admitted { season, unplaced })
}
