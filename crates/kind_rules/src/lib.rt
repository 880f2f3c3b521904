// Whether a constraint keeps the rules of its kind: what each kind asks, tested with its constants. The other part of the table of kinds is in
// `kinds`, with the same lines.

#![tactic(auto)]

ghost use Rattle.std.specs.Prelude.{◌≡◌};
ghost use Rattle.robinx.specs.Kinds.{asks, asks_of};
ghost use Rattle.robinx.specs.Rules.{obeys};

use robinx::Field::{Any, Some, UpToKmax, Zero};
use robinx::{Asks, Constraint, Field, Kind};
use rules::dimensions::Dimensions;
use rules::keeps;

const YES: bool = true;

const NO: bool = false;

// A row in one line, its fields in the definition's order: by name, the thirteen rows would be as many records of ten lines.
fn asks(
    first: u8,
    last: u8,
    squares: bool,
    kmin: Field,
    kmax: Field,
    w: Field,
    t2: Field,
    s: Field,
    fewest: u8,
    several: bool,
) -> Asks
    ensures { result ≡ asks first last squares kmin kmax w t2 s fewest several }
{
    Asks {
        first,
        last,
        squares,
        kmin,
        kmax,
        w,
        t2,
        s,
        fewest,
        several,
    }
}

// What a kind asks: the modes, whether the penalty may square, kmin, kmax, w, T2, S, the fewest teams of T1, and whether T1 or T2 has several.
// What is no kind asks for a mode that there is not. In line, as `keeps` is: a row that is known is folded.
#[inline(always)]
#[tactic(auto, unfolding(robinx::specs::Kinds::asks_of))]
pub fn asks_of(kind: Kind) -> Asks
    ensures { result ≡ asks_of kind }
{
    match kind {
        Kind::Ca1 => asks(1, 3, YES, UpToKmax, Any, Zero, Zero, Some, 1, NO),
        Kind::Ca2 => asks(1, 3, YES, UpToKmax, Any, Zero, Some, Some, 1, YES),
        Kind::Ca3 => asks(1, 3, YES, UpToKmax, Any, Some, Some, Zero, 1, NO),
        Kind::Ca4 => asks(1, 6, YES, UpToKmax, Any, Zero, Some, Some, 2, NO),
        Kind::Ca5 => asks(2, 2, YES, UpToKmax, Any, Zero, Some, Some, 1, NO),
        Kind::Ga1 => asks(1, 1, YES, UpToKmax, Any, Zero, Some, Some, 1, NO),
        Kind::Br1 => asks(1, 6, YES, Zero, Any, Zero, Zero, Some, 1, NO),
        Kind::Br2 => asks(1, 6, YES, Zero, Some, Zero, Zero, Some, 2, NO),
        Kind::Br4 => asks(2, 2, YES, Any, Zero, Zero, Zero, Some, 1, NO),
        Kind::Fa1 => asks(1, 1, YES, Zero, Any, Zero, Zero, Some, 1, NO),
        Kind::Fa2 => asks(1, 3, YES, Zero, Any, Zero, Zero, Some, 2, NO),
        Kind::Se1 => asks(1, 1, YES, Zero, Zero, Some, Zero, Zero, 2, NO),
        Kind::Unknown => asks(1, 0, NO, Zero, Zero, Zero, Zero, Zero, 1, NO),
    }
}

// Whether a constraint keeps every rule of its kind; what is no kind keeps none. Each kind by itself, so that its row is folded into the tests:
// with a row that is looked up a set is 2 to 7 % dearer.
#[tactic(auto, unfolding(robinx::specs::Kinds::asks_at, robinx::specs::Rules::obeys))]
pub fn obeys(c: Constraint, d: Dimensions) -> bool
    ensures { result ≡ obeys d.teams d.slots c }
{
    match Kind::from(c.kind) {
        Kind::Ca1 => keeps(asks_of(Kind::Ca1), c, d),
        Kind::Ca2 => keeps(asks_of(Kind::Ca2), c, d),
        Kind::Ca3 => keeps(asks_of(Kind::Ca3), c, d),
        Kind::Ca4 => keeps(asks_of(Kind::Ca4), c, d),
        Kind::Ca5 => keeps(asks_of(Kind::Ca5), c, d),
        Kind::Ga1 => keeps(asks_of(Kind::Ga1), c, d),
        Kind::Br1 => keeps(asks_of(Kind::Br1), c, d),
        Kind::Br2 => keeps(asks_of(Kind::Br2), c, d),
        Kind::Br4 => keeps(asks_of(Kind::Br4), c, d),
        Kind::Fa1 => keeps(asks_of(Kind::Fa1), c, d),
        Kind::Fa2 => keeps(asks_of(Kind::Fa2), c, d),
        Kind::Se1 => keeps(asks_of(Kind::Se1), c, d),
        Kind::Unknown => keeps(asks_of(Kind::Unknown), c, d),
    }
}
