// The tables of a sheet: built from it, and kept while a game gets another slot or two games exchange theirs.

#![tactic(auto)]

ghost use Rattle.std.specs.Prelude.{◌≡◌, true, ◌<◌, ◌≤◌, length, set, get_or, is_ok};
ghost use Rattle.robinx.specs.Season.{most_teams, most_slots};
ghost use Rattle.robinx.specs.Sheet.{byte_of};
ghost use Rattle.tables.specs.Tables.{Empty};
ghost use Rattle.timetable.specs.OfSheet.{InRange, Fits, Builds};

pub mod games;

use games::Games;
use robinx::Refusal;
use robinx::game::{Game, Slot};
use tables::{Clash, Tables};

// Puts every placed game into empty tables, and counts the games that have no slot in the same `for`: a call goes over the sheet once. A sheet
// does not fit where a byte is above p or a team would be twice in a slot; the tables are no matter then.
pub fn build(games: Games, sheet: &[u8], p: usize, tables: &mut Tables) -> Result<usize, Refusal>
    requires { (length sheet.now ≡ length games.homes.now) × (p ≤ most_slots) × Empty tables.old }
    ensures { Builds p games.entry.homes.now games.entry.aways.now sheet.now result tables.new }
{
    let mut unplaced = 0;
    for ((&home, &away), &b) in games.homes.iter().zip(games.aways).zip(sheet) {
        if p < usize::from(b) {
            return Err(Refusal::BadSheet);
        }
        let slot = Slot::of_byte(b);
        tables
            .put(Game { home, away }, slot)
            .map_err(|_| Refusal::BadSheet)?;
        unplaced += usize::from(slot.is_none());
    }
    Ok(unplaced)
}

// Game g goes from its slot to another.
pub fn reslot(
    games: Games,
    sheet: &[u8],
    tables: &mut Tables,
    g: usize,
    slot: Option<Slot>,
) -> Result<(), Clash>
    requires { InRange most_teams games.homes.now games.aways.now sheet.now
        × Fits most_teams true tables.old games.homes.now games.aways.now sheet.now
        × (g < length games.homes.now) }
    ensures { Fits most_teams (is_ok result) tables.new games.entry.homes.now games.entry.aways.now (set sheet.now g (byte_of slot)) }
{
    let game = games.game(g);
    tables.take_out(game, Slot::of_byte(sheet[g]));
    tables.put(game, slot)
}

// Games g and h exchange their slots.
pub fn swap(
    games: Games,
    sheet: &[u8],
    tables: &mut Tables,
    g: usize,
    h: usize,
) -> Result<(), Clash>
    requires { InRange most_teams games.homes.now games.aways.now sheet.now
        × Fits most_teams true tables.old games.homes.now games.aways.now sheet.now
        × (g < length games.homes.now) × (h < length games.homes.now) × (g ≡ h → ⊥) }
    ensures { Fits most_teams (is_ok result) tables.new games.entry.homes.now games.entry.aways.now
        (set (set sheet.now g (get_or sheet.now h 0)) h (get_or sheet.now g 0)) }
{
    let first = games.game(g);
    let second = games.game(h);
    let here = Slot::of_byte(sheet[g]);
    let there = Slot::of_byte(sheet[h]);
    tables.take_out(first, here);
    tables.take_out(second, there);
    tables.put(first, there)?;
    tables.put(second, here)
}
