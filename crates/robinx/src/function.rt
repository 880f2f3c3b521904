// The function of a penalty.

ghost use Rattle.std.specs.Prelude.{◌≡◌, false, MatchResult};
ghost use Rattle.robinx.specs.Penalty.{function_number};
ghost use Rattle.robinx.specs.Rules.{fits};

// What a constraint's penalty makes of its deviations.
#[derive(Clone, Copy, Debug, PartialEq, Eq)]
pub enum Function {
    Sum,
    SquareOfSum,
    SumOfSquares,
    Smallest,
    Largest,
}

impl Function {
    // A penalty that squares is not for every kind.
    pub fn squares(self) -> bool
        ensures { result ≡ fits 2 3 (function_number self) }
    {
        matches!(self, Function::SquareOfSum | Function::SumOfSquares)
    }
}

// The number of no function.
#[derive(Clone, Copy, Debug, PartialEq, Eq)]
pub struct NoFunction;

impl TryFrom<u8> for Function {
    type Error = NoFunction;

    ghost try_from_gives = { λ number r. MatchResult r (λ function. function_number function ≡ number) (λ _. fits 1 5 number ≡ false) };

    // The function with this number.
    fn try_from(number: u8) -> Result<Self, NoFunction> {
        match number {
            1 => Ok(Function::Sum),
            2 => Ok(Function::SquareOfSum),
            3 => Ok(Function::SumOfSquares),
            4 => Ok(Function::Smallest),
            5 => Ok(Function::Largest),
            _ => Err(NoFunction),
        }
    }
}
