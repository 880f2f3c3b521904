// The games of a season.

#![tactic(auto)]

ghost use Rattle.std.specs.Prelude.{◌≡◌, ◌<◌, length, get_or};
ghost use Rattle.robinx.specs.Season.{most_teams};
ghost use Rattle.timetable.specs.OfSheet.{Teams};

use robinx::game::Game;

// The home team and the away team of each: two lists, since they lie one after the other in a season's bytes, which are lent.
#[derive(Clone, Copy)]
pub struct Games<'a> {
    pub homes: &'a [u8],
    pub aways: &'a [u8],
    pub ghost teams: { Teams most_teams homes.now aways.now },
}

impl<'a> Games<'a> {
    // Game g.
    pub fn game(self, g: usize) -> Game
        requires { g < length self.homes.now }
        ensures { (result.home ≡ get_or self.entry.homes.now g 0) × (result.away ≡ get_or self.entry.aways.now g 0) }
    {
        Game {
            home: self.homes[g],
            away: self.aways[g],
        }
    }
}
