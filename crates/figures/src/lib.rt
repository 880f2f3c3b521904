// The deviations of a constraint, written into its own stretch of the ledger from the tables of masks: each kind by the crate of its class.

#![tactic(auto)]

ghost use Rattle.std.specs.Prelude.{◌≡◌};
ghost use Rattle.robinx.specs.Deviations.{deviations};
ghost use Rattle.opponents.specs.Figures.{of_check, HasRoom};

use opponents::check::Check;
use robinx::Kind;

// The deviations of a check. What is no kind has none; the rules leave no such constraint.
#[tactic(auto, unfolding(robinx::specs::Deviations::deviations, robinx::specs::Deviations::deviations_of))]
pub fn fill(check: &Check, out: &mut [u32])
    requires { HasRoom check.now out.old }
    ensures { out.new ≡ of_check deviations check.now }
{
    match Kind::from(check.constraint.kind) {
        Kind::Ca1 => counts::fill_ca1(check, out),
        Kind::Ca2 => counts::fill_ca2(check, out),
        Kind::Ca3 => counts::fill_ca3(check, out),
        Kind::Ca4 => between::fill_ca4(check, out),
        Kind::Ca5 => trips::fill_ca5(check, out),
        Kind::Ga1 => between::fill_ga1(check, out),
        Kind::Br1 => breaks::fill_breaks(check, out),
        Kind::Br2 => breaks::fill_all_breaks(check, out),
        Kind::Br4 => trips::fill_br4(check, out),
        Kind::Fa1 => fairness::fill_fa1(check, out),
        Kind::Fa2 => fairness::fill_fa2(check, out),
        Kind::Se1 => separation::fill_separation(check, out),
        Kind::Unknown => {}
    }
}
