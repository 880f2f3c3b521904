// The three tables: which slots a team plays at home, which away, and in which one team hosts another. A game is put into all three or into
// none.

#![tactic(auto)]

ghost use Rattle.std.specs.Prelude.{◌≡◌, ◌<◌, is_ok};
ghost use Rattle.robinx.specs.Season.{most_teams, most_slots};
ghost use Rattle.robinx.specs.Sheet.{byte_of};
ghost use Rattle.robinx.specs.declared.Refusal.TheVariants.{TeamBusy};
ghost use Rattle.tables.specs.Tables.{busy, taken_out_of, Tried, Empty};

use robinx::game::{Game, Slot};
use robinx::{Refusal, Season, Slots};

// A team would have two games in a slot.
#[derive(Clone, Copy, Debug, PartialEq, Eq)]
pub struct Clash;

impl From<Clash> for Refusal {
    ghost from_gives = { λ _ refusal. refusal ≡ TeamBusy };

    fn from(_clash: Clash) -> Self {
        Refusal::TeamBusy
    }
}

// The home-away patterns of all teams: the slots in which each plays at home, and those in which it plays away. Two arrays of masks, by value: the
// customer named this form. The tables, which no call copies, have the same two.
#[derive(Clone, Copy)]
pub struct Patterns {
    pub home: [Slots; Season::TEAMS],
    pub away: [Slots; Season::TEAMS],
}

// `home` and `away` have a mask of slots for each team, `meets` one for each two teams, the first at home.
#[derive(Drop)]
pub struct Tables {
    pub home: [Slots; Season::TEAMS],
    pub away: [Slots; Season::TEAMS],
    pub meets: [[Slots; Season::TEAMS]; Season::TEAMS],
}

impl Tables {
    // No game is placed. A call makes its tables here, and they are lent from there on, to be filled too (`Empty`): they have 8.7 KB.
    pub fn new() -> Self
        ensures { Empty result }
    {
        Self {
            home: [masks::NONE; Season::TEAMS],
            away: [masks::NONE; Season::TEAMS],
            meets: [[masks::NONE; Season::TEAMS]; Season::TEAMS],
        }
    }

    // Team t has a game in slot k.
    fn busy(&self, t: usize, k: usize) -> bool
        requires { (t < most_teams) × (k < most_slots) }
        ensures { result ≡ busy self.now.home self.now.away t k }
    {
        masks::is_in(self.home[t], k) | masks::is_in(self.away[t], k)
    }

    // Puts a game into a slot, or changes nothing where one of its teams is busy or there is no slot.
    pub fn put(&mut self, game: Game, slot: Option<Slot>) -> Result<(), Clash>
        ensures { Tried (is_ok result) game.home game.away (byte_of slot) self.old self.new }
    {
        let Some(slot) = slot else {
            return Ok(());
        };
        let i = usize::from(game.home);
        let j = usize::from(game.away);
        let k = usize::from(slot.number);
        if self.busy(i, k) | self.busy(j, k) {
            return Err(Clash);
        }
        self.home[i] = masks::joined(self.home[i], k);
        self.away[j] = masks::joined(self.away[j], k);
        self.meets[i][j] = masks::joined(self.meets[i][j], k);
        Ok(())
    }

    // Takes a game out of the slot that it has, if any.
    pub fn take_out(&mut self, game: Game, slot: Option<Slot>)
        ensures { self.new ≡ taken_out_of game.home game.away (byte_of slot) self.old }
    {
        let Some(slot) = slot else {
            return;
        };
        let i = usize::from(game.home);
        let j = usize::from(game.away);
        let k = usize::from(slot.number);
        self.home[i] = masks::without(self.home[i], k);
        self.away[j] = masks::without(self.away[j], k);
        self.meets[i][j] = masks::without(self.meets[i][j], k);
    }
}
