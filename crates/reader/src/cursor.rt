// The reader that walks: it holds the season and its place among the constraints, and gives them one after the other. It is thin: the work is
// left to `SeasonView::constraint`.
ghost use Rattle.std.specs.Prelude.{◌≡◌, ◌+◌, ◌-◌, ◌<◌, ◌≤◌, ◌^◌};
ghost use Rattle.std.specs.Iterator.{at_most};
ghost use Rattle.robinx.specs.Season.{decode};
ghost use Rattle.reader.specs.Sizes.{Measured};

use super::view::SeasonView;
use robinx::{Constraint, Season};

// The season, and the number of the constraint that is read next.
#[derive(Clone, Copy, Drop)]
pub struct Cursor<'a> {
    pub season: SeasonView<'a>,
    pub at: usize,
    pub ghost within: { at ≤ season.sizes.constraints },
}

impl<'a> Iterator for Cursor<'a> {
    ghost use Rattle.reader.specs.Cursor.{ReadsNext};

    type Item = Constraint;

    ghost next_gives = { ReadsNext };

    ghost remaining = { λ r. at_most (r.season.sizes.constraints - r.at) };

    fn next(&mut self) -> Option<Constraint> {
        if self.at == self.season.sizes.constraints {
            return None;
        }
        let c = self.season.constraint(self.at);
        self.at += 1;
        Some(c)
    }
}

// A season's bytes, of which nothing is known, and the number of a constraint, which there may be or not. `read` alone asks that there is one, so a
// caller may hold a place before it knows that the bytes are whole.
#[derive(Clone, Copy)]
pub struct Place<'a> {
    pub season: &'a [u8],
    pub at: usize,
}

// Before the first constraint.
pub fn start<'a>(season: &'a [u8]) -> Place<'a>
    ensures { (result.season ≡ season.entry) × (result.at ≡ 0) }
{
    Place { season, at: 0 }
}

// Moves on by a number of constraints.
pub fn forward<'a>(r: Place<'a>, by: usize) -> Place<'a>
    requires { r.at + by < 2 ^ 64 }
    ensures { (result.season ≡ r.entry.season) × (result.at ≡ r.entry.at + by) }
{
    Place {
        season: r.season,
        at: r.at + by,
    }
}

// The constraint that is next.
pub fn read<'a>(r: Place<'a>, z: Season) -> Constraint
    requires { (Measured r.season.now z) × (r.at < z.constraints) }
    ensures { result ≡ (decode r.entry.season.now).constraint r.entry.at }
{
    let view = SeasonView {
        bytes: r.season,
        sizes: z,
    };
    view.constraint(r.at)
}

// Constraint number k.
pub fn constraint_of(season: &[u8], z: Season, k: usize) -> Constraint
    requires { (Measured season.now z) × (k < z.constraints) }
    ensures { result ≡ (decode season.now).constraint k }
{
    read(forward(start(season), k), z)
}
