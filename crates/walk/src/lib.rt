// The walk over a season's constraints: which of them a call touches, and what those pay.

#![tactic(auto)]

ghost use Rattle.std.specs.Prelude.{◌≡◌, ◌||◌, ◌+◌, ◌<◌, length, get_or, set, take, drop, ◌++◌, ◌-◌, ◌≤◌};
ghost use Rattle.robinx.specs.Season.{decode};
ghost use Rattle.robinx.specs.Deviations.{deviations};
ghost use Rattle.tables.specs.Tables.{x_of};
ghost use Rattle.opponents.specs.Figures.{of_check, HasRoom};
ghost use Rattle.robinx.specs.declared.Constraint.{Constraint};
ghost use Rattle.totals.specs.RunningTotals.{Adds};
ghost use Rattle.walk.specs.Walk.{check_penalty, is_touched};

pub mod books;

use figures::fill;
use kinds::form_of;
use opponents::check::Check;
use reader::view::SeasonView;
use robinx::{Constraint, Kind};
use tables::Tables;
use totals::{Totals, added};
use touch::moves::Moves;
use touch::{either_touches, passed_over};

// What a call changes: everything, or what is touched by its moves. An Option would have the shape, but its None would read as nothing changed.
#[derive(Clone, Copy)]
pub enum Touch {
    Everything,
    By(Moves),
}

// What the reworked constraints pay now, and what they paid.
#[derive(Clone, Copy, Default)]
pub struct Moved {
    pub gained: Totals,
    pub lost: Totals,
}

impl Touch {
    // Most constraints have no team of the moves in T1, and are passed over.
    fn touches(&self, c: Constraint) -> bool
        ensures { result ≡ is_touched self.now c }
    {
        match self {
            Self::Everything => true,
            Self::By(moves) => {
                let form = form_of(Kind::from(c.kind));
                !passed_over(form, c.t1, moves.teams) && either_touches(form, c, moves)
            }
        }
    }
}

// Works out a check's deviations into the stretch, and from them its constraint's penalty. Nothing else is written.
pub fn price(check: &Check, stretch: &mut [u32]) -> u64
    requires { HasRoom check.now stretch.old }
    ensures { (stretch.new ≡ of_check deviations check.now) × (result ≡ check_penalty check.now) }
{
    fill(check, stretch);
    penalties::penalty(check.constraint, stretch)
}
