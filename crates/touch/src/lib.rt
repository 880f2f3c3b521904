// Which constraints the change of a game's slot touches: by the row of a constraint's kind, one thing is asked of the two teams and one of
// the slots.

#![tactic(auto)]

ghost use Rattle.std.specs.Prelude.{◌≡◌, true, ◌||◌, ◌<◌, ◌≤◌};
ghost use Rattle.robinx.specs.Season.{most_teams};
ghost use Rattle.robinx.specs.Touch.{teams_touch, slot_touches};
ghost use Rattle.touch.specs.Touched.{at_slot, AsksForT1, PassedOver, by_row, by_row_too};

pub mod moves;

use groups::is_in;
use moves::{Move, Moves};
use robinx::game::Slot;
use robinx::{Constraint, Form, Slots, TouchSlots, TouchTeams};

// A move's game is such as the row asks. Both teams are looked up, without a branch between them.
#[tactic(auto, unfolding(robinx::specs::Touch::teams_touch))]
fn teams_touch(asked: TouchTeams, c: Constraint, v: Move) -> bool
    ensures { result ≡ teams_touch asked c.t1 c.t2 v.game.home v.game.away }
{
    let Constraint { t1, t2, .. } = c;
    let i = usize::from(v.game.home);
    let j = usize::from(v.game.away);
    match asked {
        TouchTeams::Nobody => false,
        TouchTeams::OneInT1 => is_in(t1, i) | is_in(t1, j),
        TouchTeams::Across => (is_in(t1, i) & is_in(t2, j)) | (is_in(t1, j) & is_in(t2, i)),
        TouchTeams::HomeAndAway => is_in(t1, i) & is_in(t2, j),
        TouchTeams::BothInT1 => is_in(t1, i) & is_in(t1, j),
    }
}

// Every game that the row asks for has a team of T1. This is so in all rows; each is named here, so that a new one has to be judged.
#[tactic(auto, using(crate::proofs::Asked::outside))]
fn asks_for_t1(asked: TouchTeams) -> bool
    ensures { result ≡ true → AsksForT1 asked }
{
    match asked {
        TouchTeams::Nobody
        | TouchTeams::OneInT1
        | TouchTeams::Across
        | TouchTeams::HomeAndAway
        | TouchTeams::BothInT1 => true,
    }
}

// None of the teams is in T1, and the row asks for one that is. The groups are tested first: few constraints have a team in both.
#[tactic(auto, using(crate::proofs::Teams::passed_over))]
pub fn passed_over(f: Form, t1: u32, teams: u32) -> bool
    ensures { result ≡ true → PassedOver f.teams t1 teams }
{
    t1 & teams == 0 && asks_for_t1(f.teams)
}

// The slot of a game is such as the row asks; that of an unplaced one is not.
#[tactic(auto, unfolding(robinx::specs::Touch::slot_touches, crate::specs::Touched::at_slot))]
fn slot_touches(asked: TouchSlots, s: Slots, slot: Option<Slot>) -> bool
    ensures { result ≡ at_slot (slot_touches asked s) slot }
{
    let Some(slot) = slot else {
        return false;
    };
    let k = usize::from(slot.number);
    match asked {
        TouchSlots::InS => masks::is_in(s, k),
        TouchSlots::UpToLastOfS => masks::last_reach(s, k),
        TouchSlots::AnySlot => true,
    }
}

// A move touches a constraint of a kind with this row.
#[tactic(auto, unfolding(crate::specs::Touched::by_row))]
fn touches(f: Form, c: Constraint, v: Move) -> bool
    ensures { result ≡ by_row f c v }
{
    v.from != v.to
        && teams_touch(f.teams, c, v)
        && (slot_touches(f.slots, c.s, v.from) || slot_touches(f.slots, c.s, v.to))
}

// An exchange touches what either of its moves touches.
pub fn either_touches(f: Form, c: Constraint, moves: &Moves) -> bool
    ensures { result ≡ by_row f c moves.now.first || by_row_too f c moves.now.second }
{
    touches(f, c, moves.first) || moves.second.is_some_and(|v| touches(f, c, v))
}
