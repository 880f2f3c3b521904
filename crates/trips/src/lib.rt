// CA5 and BR4: a figure for each team of T1, from one of its trips to the next.

#![tactic(auto)]

ghost use Rattle.std.specs.Prelude.{◌≡◌, ◌&&◌, ℕ, ◌*◌, ◌<◌, ◌^◌, leb};
ghost use Rattle.robinx.specs.Season.{most_slots};
ghost use Rattle.robinx.specs.Groups.{has, size};
ghost use Rattle.robinx.specs.Timetable.{last_was};
ghost use Rattle.robinx.specs.Kinds.{kind_of};
ghost use Rattle.robinx.specs.declared.Kind.TheVariants.{Ca5, Br4};
ghost use Rattle.robinx.specs.Deviations.{dev_ca5, dev_br4};
ghost use Rattle.opponents.specs.Figures.{of_check, HasRoom};
ghost use Rattle.trips.specs.TripFigures.{TripAt, TripsFigure, off_trips, missing_trips};

use groups::fill::fill_each;
use masks::pattern::Pattern;
use masks::{common, count_in, front, last_in, slots_in};
use opponents::check::Check;
use opponents::measure::Sides;
use robinx::Slots;

// The run has two slots or more, and its last one is in s.
fn ends_in(run: Slots, s: Slots) -> bool
    ensures { result ≡ leb 2 (size most_slots run) && last_was (has run) (has s) most_slots }
{
    2 <= masks::size(run) && last_in(run, s)
}

// The slots of the run of away games from a slot, where it is a trip that ends in s.
fn trip_at(pattern: Pattern, s: Slots, a: usize) -> Option<Slots>
    requires { a < most_slots }
    ensures { TripAt pattern.away pattern.home s a result }
{
    let run = pattern.trip_from(a);
    ends_in(run, s).then_some(run)
}

// The sum over a team's trips of what each one adds by its slots, which is so little that no sum of it is too large.
fn sum_trips<F: Fn(Slots) -> u32>(check: &Check, t: usize, added: F) -> u32
    requires team { t < check.now.sizes.teams }
    requires callable { F.IsAlwaysCallable added }
    requires small { (trip r : ℕ) → F.post added trip r → most_slots * r < 2 ^ 32 }
    ensures { TripsFigure check.now t (F.post added) result }
{
    let pattern = Pattern {
        home: check.tables.home[t],
        away: front(check.tables.away[t], check.sizes.slots),
    };
    let s = check.constraint.s;
    slots_in(common(pattern.trip_starts(), s))
        .filter_map(|a| trip_at(pattern, s, a))
        .map(added)
        .sum()
}

// How far a team's games against T2 on each of its trips are outside kmin .. kmax, summed.
fn off_trips(check: &Check, t: usize) -> u32
    requires { t < check.now.sizes.teams }
    ensures { result ≡ of_check off_trips check.now t }
{
    let c = check.constraint;
    let wanted = check.against(Sides::Away, c.t2, t);
    let off = |trip| c.range().outside(count_in(wanted, trip));
    sum_trips(check, t, off)
}

// How many trips fewer than kmin a team has.
fn missing_trips(check: &Check, t: usize) -> u32
    requires { t < check.now.sizes.teams }
    ensures { result ≡ of_check missing_trips check.now t }
{
    u32::from(check.constraint.kmin).saturating_sub(sum_trips(check, t, |_| 1))
}

// The deviations of CA5.
#[tactic(auto, using(opponents::proofs::Checkable::check_rules), unfolding(robinx::specs::Kinds::form_of, robinx::specs::Deviations::dev_ca5))]
pub fn fill_ca5(check: &Check, out: &mut [u32])
    requires { HasRoom check.now out.old × (kind_of check.now.constraint.kind ≡ Ca5) }
    ensures { out.new ≡ of_check dev_ca5 check.now }
{
    fill_each(check.constraint.t1, |t| off_trips(check, t), out);
}

// The deviations of BR4.
#[tactic(auto, using(opponents::proofs::Checkable::check_rules), unfolding(robinx::specs::Kinds::form_of, robinx::specs::Deviations::dev_br4))]
pub fn fill_br4(check: &Check, out: &mut [u32])
    requires { HasRoom check.now out.old × (kind_of check.now.constraint.kind ≡ Br4) }
    ensures { out.new ≡ of_check dev_br4 check.now }
{
    fill_each(check.constraint.t1, |t| missing_trips(check, t), out);
}
