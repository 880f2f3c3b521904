// The sentences about the numbers of set and exchange, which stand around the tables. The numbers are u64, as C gives them: each is tested and
// made a place among the games, or a slot, in one step.

#![tactic(auto)]

ghost use Rattle.std.specs.Prelude.{◌≡◌, ◌∷◌, [], ◌<◌, ◌≤◌, length, IfOk, Ok, Err, if◌then◌else◌};
ghost use Rattle.std.specs.Range.Bound.{bounds_contain};
ghost use Rattle.robinx.specs.Refusals.{sentence, first_true, sentence12};
ghost use Rattle.robinx.specs.RefusalNumbers.{fault_of};
ghost use Rattle.calls.specs.CallNumbers.{set_numbers, exchange_numbers};

use robinx::{Refusal, Season};
use std::ops::RangeBounds;

// The number, if the range has it, or the refusal.
fn number_in<R: RangeBounds<usize>>(
    range: R,
    number: u64,
    refusal: Refusal,
) -> Result<usize, Refusal>
    requires { R.has_bounds range }
    ensures { result ≡ (if bounds_contain ⟦<usize as PartialOrd>⟧.partial_cmp (R.start_bound range) (R.end_bound range) number
        then Ok number
        else Err refusal) }
{
    match usize::try_from(number) {
        Ok(n) if range.contains(&n) => Ok(n),
        _ => Err(refusal),
    }
}

// Sentences 9 and 10 of a set, in their order, or its arguments: the slot as the sheet has it, where 0 is none. It is no byte yet, since of the
// sizes nothing is asked here.
#[tactic(auto, unfolding(robinx::specs::Refusals::first_true))]
pub fn set_arguments(z: Season, game: u64, slot: u64) -> Result<(usize, usize), Refusal>
    ensures { (fault_of result ≡ first_true (set_numbers z game slot)) × IfOk result (λ n. (n.0 ≡ game) × (n.1 ≡ slot)) }
{
    let g = number_in(..z.games, game, Refusal::NoSuchGame)?;
    let b = number_in(..=z.slots, slot, Refusal::NoSuchSlot)?;
    Ok((g, b))
}

// Sentence 12.
#[tactic(auto, unfolding(robinx::specs::Refusals::first_true, robinx::specs::Refusals::sentence12))]
fn check_placed(sheet: &[u8], g: usize, h: usize) -> Result<(), Refusal>
    requires { (g < length sheet.now) × (h < length sheet.now) }
    ensures { fault_of result ≡ first_true (sentence 12 (sentence12 sheet.now g h) ∷ []) }
{
    if (sheet[g] == 0) | (sheet[h] == 0) {
        return Err(Refusal::UnplacedGame);
    }
    Ok(())
}

// Sentences 9, 11 and 12 of an exchange, in their order, or its arguments.
#[tactic(auto, unfolding(robinx::specs::Refusals::first_true, robinx::specs::Refusals::sentence11))]
pub fn exchange_arguments(
    z: Season,
    sheet: &[u8],
    game: u64,
    other: u64,
) -> Result<(usize, usize), Refusal>
    requires { z.games ≤ length sheet.now }
    ensures { (fault_of result ≡ first_true (exchange_numbers z sheet.now game other))
        × IfOk result (λ n. (n.0 ≡ game) × (n.1 ≡ other)) }
{
    let g = number_in(..z.games, game, Refusal::NoSuchGame)?;
    let h = number_in(..z.games, other, Refusal::NoSuchGame)?;
    if g == h {
        return Err(Refusal::SameGame);
    }
    check_placed(sheet, g, h)?;
    Ok((g, h))
}
