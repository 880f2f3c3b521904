// FA1 and FA2: running counts of games, and how far two of them are apart. In FA2 each team's counts are laid once, as a row.

#![tactic(auto)]

ghost use Rattle.std.specs.Prelude.{◌≡◌, ◌<◌, slice_index};
ghost use Rattle.robinx.specs.Season.{most_slots};
ghost use Rattle.robinx.specs.Sums.{list_to};
ghost use Rattle.robinx.specs.Kinds.{kind_of};
ghost use Rattle.robinx.specs.declared.Kind.TheVariants.{Fa1, Fa2};
ghost use Rattle.robinx.specs.Deviations.{dev_fa1, dev_fa2};
ghost use Rattle.opponents.specs.Figures.{HasRoom, of_check};
ghost use Rattle.opponents.specs.Sides.{code_of};
ghost use Rattle.fairness.specs.RunningCounts.{running, Counted, apart, sides_apart};

use groups::fill::{fill_each, fill_pairs};
use groups::members;
use opponents::check::Check;
use opponents::measure::Sides;
use robinx::Season;
use rows::SlotRow;

// The running counts of a team's games of the sides against T1.
#[tactic(auto, using(opponents::proofs::Checkable::check_rules))]
fn lay_games(check: &Check, sides: Sides, t: usize, row: &mut SlotRow)
    requires { t < check.now.sizes.teams }
    ensures { row.new ≡ list_to (of_check running check.now (code_of sides) t) most_slots }
{
    rows::lay(check.against(sides, check.constraint.t1, t), row);
}

// How far two rows are apart at the slots that are marked, less kmax.
fn rows_apart(a: &SlotRow, b: &SlotRow, marks: &SlotRow, kmax: u8) -> u32
    ensures { result ≡ apart marks.now kmax (slice_index a.now) (slice_index b.now) }
{
    u32::from(rows::farthest(a, b, marks)).saturating_sub(u32::from(kmax))
}

// FA1's figure of a team: how far its counts of home and of away games are apart.
fn imbalance(check: &Check, marks: &SlotRow, t: usize) -> u32
    requires { t < check.now.sizes.teams }
    ensures { result ≡ of_check sides_apart check.now marks.now t }
{
    let mut home = [0; Season::SLOTS];
    let mut away = [0; Season::SLOTS];
    lay_games(check, Sides::Home, t, &mut home);
    lay_games(check, Sides::Away, t, &mut away);
    rows_apart(&home, &away, marks, check.constraint.kmax)
}

// FA1.
#[tactic(auto, using(opponents::proofs::Checkable::check_rules), unfolding(robinx::specs::Kinds::form_of))]
pub fn fill_fa1(check: &Check, out: &mut [u32])
    requires { HasRoom check.now out.old × (kind_of check.now.constraint.kind ≡ Fa1) }
    ensures { out.new ≡ of_check dev_fa1 check.now }
{
    let marks = rows::spread(check.constraint.s);
    fill_each(check.constraint.t1, |t| imbalance(check, &marks, t), out);
}

// The rows of all teams of T1, each at its own place among those of all teams, since there is no heap.
fn lay_teams(check: &Check, sides: Sides, rows: &mut [SlotRow; Season::TEAMS])
    ensures { Counted check.now (code_of sides) rows.new check.now.sizes.teams }
{
    for t in members(check.constraint.t1) {
        lay_games(check, sides, t, &mut rows[t]);
    }
}

// FA2.
#[tactic(auto, using(opponents::proofs::Checkable::check_rules), unfolding(robinx::specs::Kinds::form_of))]
pub fn fill_fa2(check: &Check, out: &mut [u32])
    requires { HasRoom check.now out.old × (kind_of check.now.constraint.kind ≡ Fa2) }
    ensures { out.new ≡ of_check dev_fa2 check.now }
{
    let c = check.constraint;
    let marks = rows::spread(c.s);
    let mut rows = [[0; Season::SLOTS]; Season::TEAMS];
    lay_teams(check, Sides::of_mode(c.mode), &mut rows);
    fill_pairs(
        c.t1,
        |i, j| rows_apart(&rows[i], &rows[j], &marks, c.kmax),
        out,
    );
}
