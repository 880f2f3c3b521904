// A season whose length is the one that its sizes ask: its parts can be read.
ghost use Rattle.std.specs.Prelude.{◌≡◌, ◌<◌};
ghost use Rattle.robinx.specs.Season.{decode, home_teams, away_teams};
ghost use Rattle.reader.specs.Sizes.{Measured};

use super::cursor::Cursor;
use robinx::{Constraint, Season};

#[derive(Clone, Copy)]
pub struct SeasonView<'a> {
    pub bytes: &'a [u8],
    pub sizes: Season,
    pub ghost measured: { Measured bytes.now sizes },
}

impl<'a> SeasonView<'a> {
    // The home team of each game; the away teams stand behind them.
    #[tactic(auto, using(crate::proofs::Read::sizes_read), unfolding(robinx::specs::Season::home_teams, robinx::specs::Season::decode))]
    pub fn homes(self) -> &'a [u8]
        ensures { result.now ≡ home_teams self.entry.bytes.now }
    {
        let end = 6 + self.sizes.games;
        &self.bytes[6..end]
    }

    // The away team of each game. It and `homes` are two parts of the bytes and have two definitions: one function would get the first byte.
    #[tactic(auto, using(crate::proofs::Read::sizes_read), unfolding(robinx::specs::Season::away_teams, robinx::specs::Season::decode))]
    pub fn aways(self) -> &'a [u8]
        ensures { result.now ≡ away_teams self.entry.bytes.now }
    {
        let start = 6 + self.sizes.games;
        let end = start + self.sizes.games;
        &self.bytes[start..end]
    }

    // Constraint number k.
    #[tactic(auto, using(crate::proofs::Read::sizes_read), unfolding(robinx::specs::Season::decode))]
    pub fn constraint(self, k: usize) -> Constraint
        requires { k < self.sizes.constraints }
        ensures { result ≡ (decode self.entry.bytes.now).constraint k }
    {
        let heads = 6 + 2 * self.sizes.games;
        let bodies = heads + 8 * self.sizes.constraints;
        super::constraint_from(self.bytes, heads + 8 * k, bodies + 16 * k)
    }

    // All constraints, from the first one on.
    pub fn constraints(self) -> Cursor<'a>
        ensures { (result.season ≡ self.entry) × (result.at ≡ 0) }
    {
        Cursor {
            season: self,
            at: 0,
        }
    }
}
