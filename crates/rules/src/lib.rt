// The rules that a constraint keeps, by what its kind asks. The tests are joined by `&`, without a branch between them, since most constraints
// keep them all; only sizes of groups that no row asks for are not counted.

#![tactic(auto)]

ghost use Rattle.std.specs.Prelude.{◌≡◌};
ghost use Rattle.robinx.specs.Rules.{asked, function_fits, keeps};
ghost use Rattle.rules.specs.CountedBits.{head_keeps, counts_keep, groups_keep, several_keep, sizes_keep};

pub mod dimensions;

use self::dimensions::Dimensions;
use groups::size_of;
use robinx::function::Function;
use robinx::{Asks, Constraint, Field, Slots};

// What the field of a row asks of v.
fn asked(f: Field, kmax: u8, v: u32) -> bool
    ensures { result ≡ asked f kmax v }
{
    match f {
        Field::Zero => v == 0,
        Field::Any => true,
        Field::UpToKmax => v <= u32::from(kmax),
        Field::Some => v != 0,
    }
}

// What the field of a row asks of S. It is a function of its own, since what is done with the word of a mask is done in `masks`.
fn slots_ask(f: Field, kmax: u8, s: Slots) -> bool
    ensures { result ≡ asked f kmax s }
{
    match f {
        Field::Zero => masks::is_none(s),
        Field::Any => true,
        Field::UpToKmax => masks::up_to(s, kmax),
        Field::Some => masks::is_some(s),
    }
}

// The number is that of a function, which squares only where the kind allows it.
fn function_fits(squares: bool, number: u8) -> bool
    ensures { result ≡ function_fits squares number }
{
    match Function::try_from(number) {
        Ok(function) => squares | !function.squares(),
        Err(_) => false,
    }
}

#[tactic(auto, unfolding(crate::specs::CountedBits::head_keeps))]
fn head_keeps(asks: Asks, c: Constraint) -> bool
    ensures { result ≡ head_keeps asks.first asks.last asks.squares c }
{
    (asks.first..=asks.last).contains(&c.mode)
        & (c.hard <= 1)
        & function_fits(asks.squares, c.function)
        & (c.weight != 0)
}

// A byte is at most 255, as the rule has it.
#[tactic(auto, unfolding(crate::specs::CountedBits::counts_keep))]
fn counts_keep(asks: Asks, c: Constraint) -> bool
    ensures { result ≡ counts_keep asks.kmin asks.kmax asks.w c }
{
    asked(asks.kmin, c.kmax, u32::from(c.kmin))
        & asked(asks.kmax, c.kmax, u32::from(c.kmax))
        & asked(asks.w, c.kmax, u32::from(c.w))
}

#[tactic(auto, unfolding(crate::specs::CountedBits::groups_keep))]
fn groups_keep(asks: Asks, c: Constraint, d: Dimensions) -> bool
    ensures { result ≡ groups_keep asks.t2 asks.s d.teams d.slots c }
{
    let teams = groups::everyone(d.teams);
    (1..=teams).contains(&c.t1)
        & asked(asks.t2, c.kmax, c.t2)
        & (c.t2 <= teams)
        & slots_ask(asks.s, c.kmax, c.s)
        & masks::is_among(c.s, d.slots)
}

// One of the groups has more than one team, where the kind asks it.
#[tactic(auto, unfolding(crate::specs::CountedBits::several_keep))]
fn several_keep(several: bool, c: Constraint) -> bool
    ensures { result ≡ several_keep several c.t1 c.t2 }
{
    !several || 2 <= size_of(c.t1) || 2 <= size_of(c.t2)
}

#[tactic(auto, unfolding(crate::specs::CountedBits::sizes_keep))]
fn sizes_keep(asks: Asks, c: Constraint) -> bool
    ensures { result ≡ sizes_keep asks.fewest asks.several c }
{
    (usize::from(asks.fewest) <= size_of(c.t1)) & several_keep(asks.several, c)
}

// Whether a constraint keeps every rule of a kind that asks this. Always in line, so that a row that is known is folded into the tests: as a
// call it makes a set 5 to 14 % dearer.
#[inline(always)]
#[tactic(auto, using(crate::proofs::Members::keeps_counted))]
pub fn keeps(asks: Asks, c: Constraint, d: Dimensions) -> bool
    ensures { result ≡ keeps asks d.teams d.slots c }
{
    head_keeps(asks, c) & counts_keep(asks, c) & groups_keep(asks, c, d) & sizes_keep(asks, c)
}
