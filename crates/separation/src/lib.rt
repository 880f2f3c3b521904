// SE1: how many slots fewer than w lie between the meetings of two teams, for each pair of the group.

#![tactic(auto)]

ghost use Rattle.std.specs.Prelude.{◌≡◌, ◌<◌};
ghost use Rattle.robinx.specs.Season.{most_teams};
ghost use Rattle.robinx.specs.Kinds.{kind_of};
ghost use Rattle.robinx.specs.declared.Kind.TheVariants.{Se1};
ghost use Rattle.robinx.specs.Deviations.{dev_se1};
ghost use Rattle.tables.specs.Tables.{x_of};
ghost use Rattle.opponents.specs.Figures.{of_check, HasRoom};
ghost use Rattle.separation.specs.Closeness.{closeness};

use groups::fill::fill_pairs;
use masks::{closeness, front, union};
use opponents::check::Check;

// Of teams i and j.
#[tactic(auto, using(crate::proofs::PairMeetings::separation_rules))]
fn pair_closeness(check: &Check, i: usize, j: usize) -> u32
    requires { (i < most_teams) × (j < most_teams) }
    ensures { result ≡ closeness (x_of check.now.tables.now.meets) check.now.constraint.w check.now.sizes.slots i j }
{
    let meets = &check.tables.meets;
    let met = union(meets[i][j], meets[j][i]);
    closeness(front(met, check.sizes.slots), check.constraint.w)
}

// The deviations of SE1.
#[tactic(auto, using(opponents::proofs::Checkable::check_rules), unfolding(robinx::specs::Kinds::form_of, robinx::specs::Deviations::dev_se1))]
pub fn fill_separation(check: &Check, out: &mut [u32])
    requires { HasRoom check.now out.old × (kind_of check.now.constraint.kind ≡ Se1) }
    ensures { out.new ≡ of_check dev_se1 check.now }
{
    let t1 = check.constraint.t1;
    fill_pairs(t1, |i, j| pair_closeness(check, i, j), out);
}
