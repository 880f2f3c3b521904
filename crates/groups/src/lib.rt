// Groups of teams: bit t of a u32 is team t, and the rules of T1 and T2 read the number as it is. `is_in`, `one`, `everyone`, `size_of` and `members`
// are no twins of functions of `masks`: what is done with the word of a mask is done there, and the walk over its bits in `bits`, since it may become
// several. That a team is below the most that there may be is the bound of an index, and a clause in each function here and above: a type for it would
// be made from the same proof at each call.

#![tactic(auto)]

ghost use Rattle.std.specs.Prelude.{◌≡◌, ◌&&◌, ℕ, ◌-◌, ◌<◌, ◌≤◌, ◌^◌, ltb};
ghost use Rattle.std.specs.Int.Count.{ones};
ghost use Rattle.robinx.specs.Season.{most_teams};
ghost use Rattle.robinx.specs.Groups.{has};
ghost use Rattle.groups.specs.Pairs.{pairs_in};

pub mod fill;

use bits::SetBits;
use robinx::Season;

// Team t is in the group.
pub fn is_in(group: u32, t: usize) -> bool
    requires { t < most_teams }
    ensures { result ≡ has group t }
{
    (group >> t) % 2 == 1
}

// The group of one team.
pub fn one(t: usize) -> u32
    requires { t < most_teams }
    ensures { result ≡ 2 ^ t }
{
    1u32 << t
}

// The group of all n teams.
#[tactic(auto, using(crate::proofs::Pairs::group_rules))]
pub fn everyone(n: usize) -> u32
    requires { (1 ≤ n) × (n ≤ most_teams) }
    ensures { result ≡ 2 ^ n - 1 }
{
    u32::MAX >> (Season::TEAMS - n)
}

// How many teams the group has.
pub fn size_of(group: u32) -> usize
    ensures { (result ≡ ones group) × (result ≤ most_teams) }
{
    // a cast: usize has no From<u32>, and try_from would want an unwrap
    group.count_ones() as usize
}

// How many pairs they make.
#[tactic(auto, unfolding(crate::specs::Pairs::pairs_in))]
pub fn pairs_of(group: u32) -> usize
    ensures { result ≡ pairs_in group }
{
    let k = size_of(group);
    (k * k - k) / 2
}

// The walk over the members of a group, lowest first.
pub fn members(group: u32) -> SetBits
    ensures { result.rest ≡ group }
{
    SetBits::of(u64::from(group))
}

// The walk over the members higher than i, which may be a member or not. The word of a walk is wider than a group, so i may be the last team.
#[tactic(auto, using(crate::proofs::Above::kept_above))]
pub fn members_above(group: u32, i: usize) -> SetBits
    requires { i < most_teams }
    ensures { (t : ℕ) → has result.rest t ≡ (ltb i t && has group t) }
{
    let first = i + 1;
    SetBits::of((members(group).rest >> first) << first)
}
