// Numbers, sizes, game lists and constraints out of a season's bytes, lowest byte first.

#![tactic(auto)]

pub mod cursor; // cursor.rt: one reader that moves over the constraints
pub mod view; // view.rt: a season with its sizes

ghost use Rattle.std.specs.Prelude.{◌≡◌, ◌+◌, ◌<◌, ◌≤◌, length};
ghost use Rattle.robinx.specs.Season.{constraint_from};
ghost use Rattle.reader.specs.Sizes.{sizes_of};

use byteorder::{ByteOrder, LittleEndian};
use robinx::{Constraint, Season};

// A season's sizes; the ranges that they are to be in are another's test.
#[tactic(auto, unfolding(robinx::specs::Season::number, crate::specs::Sizes::sizes_of, robinx::specs::Season::teams, robinx::specs::Season::slots, robinx::specs::Season::games, robinx::specs::Season::constraints))]
pub fn sizes(season: &[u8]) -> Season
    requires { 6 ≤ length season.now }
    ensures read { result ≡ sizes_of season.now }
    ensures small { (result.games < 65536) × (result.constraints < 65536) }
{
    Season {
        teams: usize::from(season[0]),
        slots: usize::from(season[1]),
        games: usize::from(LittleEndian::read_u16(&season[2..])),
        constraints: usize::from(LittleEndian::read_u16(&season[4..])),
    }
}

// The constraint with its head at place h and its body at place b. The bytes of a head go by their places, as the format lists them.
#[tactic(auto, using(crate::proofs::Read::part_at), unfolding(robinx::specs::Season::constraint_from, robinx::specs::Season::number))]
fn constraint_from(s: &[u8], h: usize, b: usize) -> Constraint
    requires { (h + 8 ≤ length s.now) × (b + 16 ≤ length s.now) }
    ensures { result ≡ constraint_from s.now h b }
{
    Constraint {
        kind: s[h],
        mode: s[h + 1],
        hard: s[h + 2],
        function: s[h + 3],
        weight: s[h + 4],
        kmin: s[h + 5],
        kmax: s[h + 6],
        w: s[h + 7],
        t1: LittleEndian::read_u32(&s[b..]),
        t2: LittleEndian::read_u32(&s[b + 4..]),
        s: LittleEndian::read_u64(&s[b + 8..]),
    }
}
