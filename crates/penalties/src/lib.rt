// The penalty of a constraint: its weight times a function of the deviations in its stretch.

#![tactic(auto)]

ghost use Rattle.std.specs.Prelude.{◌≡◌, ◌^◌, ◌<◌, min, max};
ghost use Rattle.robinx.specs.Penalty.{sum, sum_of_squares, largest, smallest, function_number, combine, penalty};

use robinx::Constraint;
use robinx::function::Function;

#[tactic(auto, using(crate::proofs::Folds::sums))]
fn sum(l: &[u32]) -> u64
    requires { sum l.now < 2 ^ 64 }
    ensures { result ≡ sum l.now }
{
    l.iter().map(|&d| u64::from(d)).sum()
}

#[tactic(auto, using(crate::proofs::Folds::sums))]
fn sum_of_squares(l: &[u32]) -> u64
    requires { sum_of_squares l.now < 2 ^ 64 }
    ensures { result ≡ sum_of_squares l.now }
{
    l.iter().map(|&d| u64::from(d) * u64::from(d)).sum()
}

fn largest(l: &[u32]) -> u32
    ensures { result ≡ largest l.now }
{
    l.iter().copied().max().unwrap_or(0)
}

fn smallest(l: &[u32]) -> u32
    ensures { result ≡ smallest l.now }
{
    l.iter().copied().min().unwrap_or(0)
}

// What the function makes of the deviations.
#[tactic(auto, using(crate::proofs::Functions::squares_low), unfolding(robinx::specs::Penalty::combine))]
fn combined(function: Function, l: &[u32]) -> u64
    requires { sum l.now < 2 ^ 32 }
    ensures { result ≡ combine (function_number function) l.now }
{
    match function {
        Function::Sum => sum(l),
        Function::SquareOfSum => {
            let s = sum(l);
            s * s
        }
        Function::SumOfSquares => sum_of_squares(l),
        Function::Smallest => u64::from(smallest(l)),
        Function::Largest => u64::from(largest(l)),
    }
}

// A weight is a byte, so a sum below 2^28 leaves room; that of a season's deviations is at most 530400. What is no function, which no rule
// allows, gives the largest.
#[tactic(auto, using(crate::proofs::Functions::penalty_rules), unfolding(robinx::specs::Penalty::penalty))]
pub fn penalty(c: Constraint, l: &[u32]) -> u64
    requires { sum l.now < 2 ^ 28 }
    ensures { result ≡ penalty c l.now }
{
    let function = Function::try_from(c.function).unwrap_or(Function::Largest);
    u64::from(c.weight) * combined(function, l)
}
