// Masks of slots: bit k of a u64 stands for slot k, counted from 0. What is done with this word is done in here, with the walk of crate `bits`;
// `reader` makes it of a season's bytes, and `summary` keeps it among its words. That a slot is below the most that there may be is the bound of
// an index, and a clause in each function. A count of bits is a u32, and Rust has no From of it to a usize: so it is cast.

#![tactic(auto)]

ghost use Rattle.std.specs.Prelude.{◌≡◌, ◌-◌, ◌*◌, ◌/◌, ◌%◌, ◌^◌, ◌<◌, ◌≤◌, ◌==◌, bit_and, bit_or, count_ones, nat_le};
ghost use Rattle.robinx.specs.Season.{most_slots};
ghost use Rattle.robinx.specs.Sums.{list_to, sum_to};
ghost use Rattle.robinx.specs.Groups.{bit, has, reaches};
ghost use Rattle.robinx.specs.Timetable.{last_was};
ghost use Rattle.robinx.specs.Deviations.{over, too_close};
ghost use Rattle.masks.specs.Masks.{joined, without};

pub mod pattern;

use bits::SetBits;
use robinx::{Season, Slots};

// No slot.
pub const NONE: Slots = 0;

// The mask has no slot.
pub fn is_none(s: Slots) -> bool
    ensures { result ≡ (s == 0) }
{
    s == 0
}

// It has one at least.
pub fn is_some(s: Slots) -> bool
    ensures { result ≡ nat_le 1 s }
{
    s != 0
}

// Read as a number it is at most k.
pub fn up_to(s: Slots, k: u8) -> bool
    ensures { result ≡ nat_le s k }
{
    s <= u64::from(k)
}

// The first p slots.
pub fn all(p: usize) -> Slots
    requires { (1 ≤ p) × (p ≤ most_slots) }
    ensures { result ≡ 2 ^ p - 1 }
{
    u64::MAX >> (Season::SLOTS - p)
}

// It has slots among the first p only.
pub fn is_among(s: Slots, p: usize) -> bool
    requires { (1 ≤ p) × (p ≤ most_slots) }
    ensures { result ≡ nat_le s (2 ^ p - 1) }
{
    s <= all(p)
}

// How many slots the mask has.
pub fn size(s: Slots) -> usize
    ensures { (result ≡ count_ones s) × (result ≤ most_slots) }
{
    // a cast: usize has no From<u32>, and try_from would want an unwrap
    s.count_ones() as usize
}

// The walk over the slots of the mask, first to last.
pub fn slots_in(s: Slots) -> SetBits
    ensures { result.rest ≡ s }
{
    SetBits::of(s)
}

// Slot k is in the mask.
pub fn is_in(s: Slots, k: usize) -> bool
    requires { k < most_slots }
    ensures { result ≡ has s k }
{
    (s >> k) % 2 == 1
}

// 1 for a slot of the mask, else 0: a number, since callers add and multiply it.
pub fn bit_at(s: Slots, k: usize) -> u8
    requires { k < most_slots }
    ensures { result ≡ bit s k }
{
    u8::from(is_in(s, k))
}

// The mask's slots eight at a time: byte i has slots 8 i to 8 i + 7.
pub fn bytes(s: Slots) -> [u8; Season::SLOTS / 8]
    ensures { result ≡ list_to (λ i. s / 2 ^ (8 * i) % 256) 8 }
{
    s.to_le_bytes()
}

// The mask from its ninth slot on, moved down to the first.
pub fn past_eight(s: Slots) -> Slots
    ensures { result ≡ s / 2 ^ 8 }
{
    s >> 8
}

// The mask of one slot.
pub fn slot(k: usize) -> Slots
    requires { k < most_slots }
    ensures { result ≡ 2 ^ k }
{
    1u64 << k
}

// Slot k is at or before the last one of the mask.
pub fn last_reach(s: Slots, k: usize) -> bool
    requires { k < most_slots }
    ensures { result ≡ reaches s k }
{
    slot(k) <= s
}

// The mask with slot k.
pub fn joined(m: Slots, k: usize) -> Slots
    requires { k < most_slots }
    ensures { result ≡ joined m k }
{
    m | slot(k)
}

// The mask without slot k.
pub fn without(m: Slots, k: usize) -> Slots
    requires { k < most_slots }
    ensures { result ≡ without m k }
{
    m & !slot(k)
}

// The slots of either mask.
pub fn union(m: Slots, n: Slots) -> Slots
    ensures { result ≡ bit_or m n }
{
    m | n
}

// The slots of both masks.
pub fn common(m: Slots, n: Slots) -> Slots
    ensures { result ≡ bit_and m n }
{
    m & n
}

// The mask's slots among the first p.
pub fn front(m: Slots, p: usize) -> Slots
    requires { p ≤ most_slots }
    ensures { result ≡ m % 2 ^ p }
{
    if p == Season::SLOTS {
        return m;
    }
    m & (slot(p) - 1)
}

// The mask's last slot is in s; not so if it has none. Read as numbers, its slots in s are more than its other slots if the last one is among
// them, and less if not.
pub fn last_in(m: Slots, s: Slots) -> bool
    ensures { result ≡ last_was (has m) (has s) most_slots }
{
    (m & !s) < (m & s)
}

// How many slots of m are in s.
pub fn count_in(m: Slots, s: Slots) -> u32
    ensures { result ≡ over most_slots s (bit m) }
{
    (m & s).count_ones()
}

// How many slots fewer than w lie between a game of the mask and the one before it, summed.
pub fn closeness(v: Slots, w: u8) -> u32
    ensures { result ≡ sum_to (too_close (has v) w) most_slots }
{
    let gap = 1 + usize::from(w);
    let mut slots = slots_in(v);
    let Some(first) = slots.next() else {
        return 0;
    };
    // from this slot on a game is far enough from the one before it
    let mut far = first + gap;
    let mut c = 0;
    for k in slots {
        c += far.saturating_sub(k);
        far = k + gap;
    }
    // a cast: u32 has no From<usize>, and try_from would want an unwrap
    c as u32
}
