// The form of each kind: its deviations, and the changes that touch it. What a kind asks is in `kind_rules`, with the same lines; with the
// fillers the two are all that knows kinds in the code.

#![tactic(auto)]

ghost use Rattle.std.specs.Prelude.{◌≡◌};
ghost use Rattle.robinx.specs.Kinds.{form, form_of, form_at};
ghost use Rattle.rules.specs.CountedBits.{ones_in};

use groups::{pairs_of, size_of};
use robinx::Shape::{EachPair, EachTeam, Nothing, One, OneOrEachSlot};
use robinx::TouchSlots::{AnySlot, InS, UpToLastOfS};
use robinx::TouchTeams::{Across, BothInT1, HomeAndAway, Nobody, OneInT1};
use robinx::{Constraint, Form, Kind, Shape, TouchSlots, TouchTeams};

fn form(shape: Shape, teams: TouchTeams, slots: TouchSlots) -> Form
    ensures { result ≡ form shape teams slots }
{
    Form {
        shape,
        teams,
        slots,
    }
}

// The form of a kind. What is no kind has no deviation, and nothing touches it.
#[tactic(auto, unfolding(robinx::specs::Kinds::form_of))]
pub fn form_of(kind: Kind) -> Form
    ensures { result ≡ form_of kind }
{
    match kind {
        Kind::Ca1 => form(EachTeam, OneInT1, InS),
        Kind::Ca2 => form(EachTeam, Across, InS),
        Kind::Ca3 => form(EachTeam, Across, AnySlot),
        Kind::Ca4 => form(OneOrEachSlot, Across, InS),
        Kind::Ca5 => form(EachTeam, OneInT1, AnySlot),
        Kind::Ga1 => form(One, HomeAndAway, InS),
        Kind::Br1 => form(EachTeam, OneInT1, UpToLastOfS),
        Kind::Br2 => form(One, OneInT1, UpToLastOfS),
        Kind::Br4 => form(EachTeam, OneInT1, AnySlot),
        Kind::Fa1 => form(EachTeam, BothInT1, UpToLastOfS),
        Kind::Fa2 => form(EachPair, BothInT1, UpToLastOfS),
        Kind::Se1 => form(EachPair, BothInT1, AnySlot),
        Kind::Unknown => form(Nothing, Nobody, InS),
    }
}

// How many deviations a constraint has.
#[tactic(auto, unfolding(robinx::specs::Kinds::form_at, rules::specs::CountedBits::ones_in))]
pub fn entries_of(c: Constraint) -> usize
    ensures { result ≡ ones_in (form_at c.kind).shape c }
{
    match form_of(Kind::from(c.kind)).shape {
        Shape::Nothing => 0,
        Shape::One => 1,
        Shape::EachTeam => size_of(c.t1),
        Shape::EachPair => pairs_of(c.t1),
        Shape::OneOrEachSlot => { if c.first_modes() { 1 } else { masks::size(c.s) } }
    }
}
