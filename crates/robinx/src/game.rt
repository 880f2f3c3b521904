// A game's two teams, and the slot that a sheet gives it.

#![tactic(auto)]

ghost use Rattle.std.specs.Prelude.{◌≡◌, ◌<◌, ◌≤◌};
ghost use Rattle.robinx.specs.Season.{most_teams, most_slots};

// The team at home and its guest.
#[derive(Clone, Copy)]
pub struct Game {
    pub home: u8,
    pub away: u8,
    pub ghost home_team: { home < most_teams },
    pub ghost away_team: { away < most_teams },
}

// A slot, counted from 0.
#[derive(Clone, Copy, PartialEq, Eq)]
pub struct Slot {
    pub number: u8,
    pub ghost bound: { number < most_slots },
}

impl Slot {
    ghost use Rattle.robinx.specs.Sheet.{byte_of};

    // The slot that a byte of a sheet stands for: bytes count slots from 1, and 0 is none.
    pub fn of_byte(byte: u8) -> Option<Self>
        requires { byte ≤ most_slots }
        ensures { byte_of result ≡ byte }
    {
        let number = byte.checked_sub(1)?;
        Some(Self { number })
    }
}
