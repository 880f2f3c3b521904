// BR1 and BR2: the breaks of each team, and of all teams of the group together.

#![tactic(auto)]

ghost use Rattle.std.specs.Prelude.{◌≡◌, ◌*◌, ◌≤◌, ◌<◌};
ghost use Rattle.robinx.specs.Season.{most_slots};
ghost use Rattle.robinx.specs.Sums.{sum_to, only};
ghost use Rattle.robinx.specs.Groups.{has};
ghost use Rattle.robinx.specs.Timetable.{first_modes};
ghost use Rattle.robinx.specs.Kinds.{kind_of};
ghost use Rattle.robinx.specs.declared.Kind.TheVariants.{Br1, Br2};
ghost use Rattle.robinx.specs.Deviations.{off_target, breaks, dev_br1, dev_br2};
ghost use Rattle.opponents.specs.Figures.{of_check, HasRoom};

use groups::fill::{fill_each, total};
use masks::union;
use opponents::asked;
use opponents::check::Check;
use opponents::measure::Sides;
use robinx::Constraint;

// A team's breaks of the mode's sides in S. A side that is not asked for has no games here, and so no breaks.
#[tactic(auto, using(opponents::proofs::Checkable::check_rules))]
fn team_breaks(check: &Check, t: usize) -> u32
    requires { t < check.now.sizes.teams }
    ensures { (result ≡ of_check breaks check.now t) × (result ≤ 2 * most_slots) }
{
    let sides = Sides::of_mode(check.constraint.mode);
    let tables = check.tables;
    let all = union(tables.home[t], tables.away[t]);
    let asked = asked(tables, sides, t);
    asked.breaks(all, check.constraint.s)
}

// How far a count of breaks is off kmax: modes 1 to 3 allow fewer.
fn off_target(c: Constraint, v: u32) -> u32
    ensures { result ≡ off_target (first_modes c.mode) c.kmax v }
{
    let most = u32::from(c.kmax);
    if c.first_modes() {
        v.saturating_sub(most)
    } else {
        v.abs_diff(most)
    }
}

// The deviations of BR1.
#[tactic(auto, using(opponents::proofs::Checkable::check_rules), unfolding(robinx::specs::Kinds::form_of, robinx::specs::Deviations::dev_br1))]
pub fn fill_breaks(check: &Check, out: &mut [u32])
    requires { HasRoom check.now out.old × (kind_of check.now.constraint.kind ≡ Br1) }
    ensures { out.new ≡ of_check dev_br1 check.now }
{
    let c = check.constraint;
    fill_each(c.t1, |t| off_target(c, team_breaks(check, t)), out);
}

// The breaks of all teams of the group.
#[tactic(auto, using(opponents::proofs::Checkable::check_rules))]
fn group_breaks(check: &Check) -> u32
    ensures { result ≡ sum_to (λ t. only (has check.now.constraint.t1 t) (of_check breaks check.now t)) check.now.sizes.teams }
{
    total(check.constraint.t1, |t| team_breaks(check, t))
}

// The deviation of BR2.
#[tactic(auto, using(opponents::proofs::Checkable::check_rules), unfolding(robinx::specs::Kinds::form_of, robinx::specs::Deviations::dev_br2))]
pub fn fill_all_breaks(check: &Check, out: &mut [u32])
    requires { HasRoom check.now out.old × (kind_of check.now.constraint.kind ≡ Br2) }
    ensures { out.new ≡ of_check dev_br2 check.now }
{
    out[0] = off_target(check.constraint, group_breaks(check));
}
