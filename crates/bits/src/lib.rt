// The set bits of a word, lowest first: the one walk over the members of a group and over the slots of a mask.

#![tactic(auto)]

ghost use Rattle.std.specs.Prelude.{◌≡◌};

// `rest` has the bits that the walk has not come to.
#[derive(Clone, Copy, Drop)]
pub struct SetBits {
    pub rest: u64,
}

impl SetBits {
    // Before the first set bit.
    pub fn of(word: u64) -> Self
        ensures { result.rest ≡ word }
    {
        Self { rest: word }
    }
}

impl Iterator for SetBits {
    ghost use Rattle.std.specs.Iterator.{at_most};
    ghost use Rattle.robinx.specs.Groups.{size};
    ghost use Rattle.bits.specs.SetBits.{Steps};

    type Item = usize;

    ghost next_gives = { Steps };

    ghost remaining = { λ m. at_most (size 64 m.rest) };

    // The lowest set bit, which goes.
    fn next(&mut self) -> Option<usize> {
        if self.rest == 0 {
            return None;
        }
        // a cast: usize has no From<u32>, and try_from would want an unwrap
        let k = self.rest.trailing_zeros() as usize;
        self.rest &= self.rest - 1;
        Some(k)
    }
}
