// A check: a constraint that keeps the rules, the sizes of its season and the tables of a sheet. All deviations are worked out from these three.
// The stretch that they are written to stays a parameter beside it, and its length a clause (`HasRoom`): of a struct that holds it each contract
// would have to say that it is still the same one. That a team is one of the season's is the bound of an index, and a clause likewise.

#![tactic(auto)]

ghost use Rattle.std.specs.Prelude.{◌<◌, ◌^◌};
ghost use Rattle.robinx.specs.Timetable.{games_against};
ghost use Rattle.tables.specs.Tables.{x_of};
ghost use Rattle.opponents.specs.Checkable.{Checkable};
ghost use Rattle.opponents.specs.Sides.{code_of};
ghost use Rattle.opponents.specs.Games.{MaskOf};

use crate::measure::Sides;
use robinx::{Constraint, Season, Slots};
use tables::Tables;

#[derive(Clone, Copy)]
pub struct Check<'a> {
    pub constraint: Constraint,
    pub sizes: Season,
    pub tables: &'a Tables,
    pub ghost checkable: { Checkable sizes.teams sizes.slots constraint tables.now },
}

impl Check<'_> {
    // The slots of the team's games of the sides, against the teams of the group.
    pub fn against(&self, sides: Sides, group: u32, t: usize) -> Slots
        requires { (t < self.now.sizes.teams) × (group < 2 ^ self.now.sizes.teams) }
        ensures { MaskOf (games_against self.now.sizes.teams (x_of self.now.tables.now.meets) (code_of sides) group t) result }
    {
        crate::against(self.tables, sides, group, t, self.sizes.teams)
    }
}
