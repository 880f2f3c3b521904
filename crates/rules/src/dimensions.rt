// How far the groups of a constraint may reach.

ghost use Rattle.std.specs.Prelude.{◌≤◌};
ghost use Rattle.robinx.specs.Season.{most_teams, most_slots};

// A season's teams and slots, in range.
#[derive(Clone, Copy)]
pub struct Dimensions {
    pub teams: usize,
    pub slots: usize,
    pub ghost in_range: { (1 ≤ teams) × (teams ≤ most_teams) × (1 ≤ slots) × (slots ≤ most_slots) },
}
