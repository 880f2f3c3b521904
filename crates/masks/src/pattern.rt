// The home-away pattern of one team: its breaks, and its trips, which are runs of away games.

#![tactic(auto)]

ghost use Rattle.std.specs.Prelude.{◌≡◌, ◌+◌, ◌<◌};
ghost use Rattle.robinx.specs.Season.{most_slots};
ghost use Rattle.robinx.specs.Sums.{only};
ghost use Rattle.robinx.specs.Groups.{has};
ghost use Rattle.robinx.specs.Timetable.{starts_trip, on_trip};
ghost use Rattle.robinx.specs.Deviations.{over};
ghost use Rattle.masks.specs.Masks.{Within, Apart, is_break, Breaks, Marks};

use crate::{count_in, slot, union};
use robinx::Slots;

// The slots in which the team plays at home, and those in which it plays away.
#[derive(Clone, Copy)]
pub struct Pattern {
    pub home: Slots,
    pub away: Slots,
}

// The slots of the breaks of a side, whose games are some of all.
fn break_mask(side: Slots, all: Slots) -> Slots
    requires { Within side all }
    ensures { Breaks most_slots side all result }
{
    side & (!all).wrapping_add(side << 1)
}

impl Pattern {
    // The breaks of home games and those of away games in the slots of s. No slot has both, so one count is enough.
    pub fn breaks(self, all: Slots, s: Slots) -> u32
        requires { Within self.home all × Within self.away all × Apart self.home self.away }
        ensures { result ≡ over most_slots s (λ k. only (is_break self.home all k) 1 + only (is_break self.away all k) 1) }
    {
        count_in(
            union(break_mask(self.home, all), break_mask(self.away, all)),
            s,
        )
    }

    // The first slots of the runs of away games: those of away games that are no break.
    pub fn trip_starts(self) -> Slots
        ensures { Marks most_slots (starts_trip (has self.away) (has self.home)) result }
    {
        self.away & !break_mask(self.away, union(self.away, self.home))
    }

    // The slots of the run of away games that starts in slot a: up to the next home game. The home games, read as a number, less slot a: this
    // borrows from the next home game, so the slots from a up to it come in, and no others.
    pub fn trip_from(self, a: usize) -> Slots
        requires { a < most_slots }
        ensures { Marks most_slots (on_trip (has self.away) (has self.home) a) result }
    {
        self.away & self.home.wrapping_sub(slot(a)) & !self.home
    }
}
