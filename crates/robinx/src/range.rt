// A range of counts: the ends that a constraint allows, kmin and kmax, which always go together.

ghost use Rattle.std.specs.Prelude.{◌≡◌};
ghost use Rattle.robinx.specs.Deviations.{outside};

// A constraint that breaks the rules may have its low end above its high one.
#[derive(Clone, Copy)]
pub struct CountRange {
    pub low: u8,
    pub high: u8,
}

// Two, since by the wider one a set is 2 to 9 % dearer where counts are bytes. Tried as one over the kit's `SaturatingSub`: four bounds, and three
// clauses on integers that each caller has to prove and turn back, where these have one clause each.
impl CountRange {
    // How far a count is outside.
    pub fn outside(self, count: u32) -> u32
        ensures { result ≡ outside self.low self.high count }
    {
        let below = u32::from(self.low).saturating_sub(count);
        below.max(count.saturating_sub(u32::from(self.high)))
    }

    // How far a count that is a byte is outside.
    pub fn outside_byte(self, count: u8) -> u8
        ensures { result ≡ outside self.low self.high count }
    {
        let below = self.low.saturating_sub(count);
        below.max(count.saturating_sub(self.high))
    }
}
