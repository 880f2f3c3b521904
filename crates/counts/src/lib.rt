// CA1, CA2 and CA3: a figure for each team of T1, from the mask of its games.

#![tactic(auto)]

ghost use Rattle.std.specs.Prelude.{◌≡◌, ◌<◌, ◌^◌, length};
ghost use Rattle.std.specs.Int.Count.{ones};
ghost use Rattle.robinx.specs.Kinds.{kind_of};
ghost use Rattle.robinx.specs.declared.Kind.TheVariants.{Ca1, Ca2, Ca3};
ghost use Rattle.robinx.specs.Deviations.{each, dev_ca1, dev_ca2, dev_ca3};
ghost use Rattle.opponents.specs.Figures.{of_check, HasRoom};
ghost use Rattle.opponents.specs.Games.{MaskOf};
ghost use Rattle.counts.specs.TeamCounts.{counted, off_count, off_runs};

use groups::fill::fill_each;
use masks::count_in;
use opponents::check::Check;
use opponents::measure::Sides;
use robinx::Slots;
use rows::mask_runs;

// The slots of a team's games against the rivals that count.
#[tactic(auto, using(opponents::proofs::Checkable::check_rules))]
fn counted(check: &Check, rivals: u32, t: usize) -> Slots
    requires { (t < check.now.sizes.teams) × (rivals < 2 ^ check.now.sizes.teams) }
    ensures { MaskOf (of_check counted check.now rivals t) result }
{
    check.against(Sides::of_mode(check.constraint.mode), rivals, t)
}

// How far a team's count of games in S is outside kmin .. kmax.
fn team_count(check: &Check, rivals: u32, t: usize) -> u32
    requires { (t < check.now.sizes.teams) × (rivals < 2 ^ check.now.sizes.teams) }
    ensures { result ≡ of_check off_count check.now rivals t }
{
    let c = check.constraint;
    let games = count_in(counted(check, rivals, t), c.s);
    c.range().outside(games)
}

// .. of each team.
#[tactic(auto, using(opponents::proofs::Checkable::check_rules))]
fn fill_counts(check: &Check, rivals: u32, out: &mut [u32])
    requires room { length out.old ≡ ones check.now.constraint.t1 }
    requires rivals { rivals < 2 ^ check.now.sizes.teams }
    ensures { out.new ≡ each check.now.sizes.teams check.now.constraint.t1 (of_check off_count check.now rivals) }
{
    fill_each(check.constraint.t1, |t| team_count(check, rivals, t), out);
}

// CA1: the games against all teams.
#[tactic(auto, using(opponents::proofs::Checkable::check_rules), unfolding(robinx::specs::Kinds::form_of))]
pub fn fill_ca1(check: &Check, out: &mut [u32])
    requires { HasRoom check.now out.old × (kind_of check.now.constraint.kind ≡ Ca1) }
    ensures { out.new ≡ of_check dev_ca1 check.now }
{
    fill_counts(check, groups::everyone(check.sizes.teams), out);
}

// CA2: those against T2.
#[tactic(auto, using(opponents::proofs::Checkable::check_rules), unfolding(robinx::specs::Kinds::form_of, robinx::specs::Deviations::dev_ca2))]
pub fn fill_ca2(check: &Check, out: &mut [u32])
    requires { HasRoom check.now out.old × (kind_of check.now.constraint.kind ≡ Ca2) }
    ensures { out.new ≡ of_check dev_ca2 check.now }
{
    fill_counts(check, check.constraint.t2, out);
}

// How far a team's counts in the runs of w slots are outside kmin .. kmax, summed. There are no runs if w is more than all slots.
#[tactic(auto, using(opponents::proofs::Checkable::check_rules))]
fn team_runs(check: &Check, t: usize) -> u32
    requires { t < check.now.sizes.teams }
    ensures { result ≡ of_check off_runs check.now t }
{
    let c = check.constraint;
    let w = usize::from(c.w);
    let runs = (check.sizes.slots + 1).saturating_sub(w);
    mask_runs(counted(check, c.t2, t), w, c.range(), runs)
}

// CA3: those against T2 in each run of w slots.
#[tactic(auto, using(opponents::proofs::Checkable::check_rules), unfolding(robinx::specs::Kinds::form_of, robinx::specs::Deviations::dev_ca3))]
pub fn fill_ca3(check: &Check, out: &mut [u32])
    requires { HasRoom check.now out.old × (kind_of check.now.constraint.kind ≡ Ca3) }
    ensures { out.new ≡ of_check dev_ca3 check.now }
{
    fill_each(check.constraint.t1, |t| team_runs(check, t), out);
}
