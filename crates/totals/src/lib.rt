// The two running totals, modulo 2^64, and their change.

#![tactic(auto)]

ghost use Rattle.std.specs.Prelude.{◌≡◌, ◌+◌, ◌-◌, ◌%◌, ◌^◌};
ghost use Rattle.totals.specs.RunningTotals.{Adds, less, moved_by};

// The two running totals: infeasibility and objective.
#[derive(Clone, Copy, Debug, Default, PartialEq, Eq)]
pub struct Totals {
    pub hard: u64,
    pub soft: u64,
}

// A penalty is added modulo 2^64, which is exact for correct books: both totals stay below 2^60. The customer named the two functions, with the
// totals in and out by value.
impl Totals {
    pub fn add_hard(self, penalty: u64) -> Self
        ensures { (result.hard ≡ (self.hard + penalty) % 2 ^ 64) × (result.soft ≡ self.soft) }
    {
        Self {
            hard: self.hard.wrapping_add(penalty),
            ..self
        }
    }

    pub fn add_soft(self, penalty: u64) -> Self
        ensures { (result.hard ≡ self.hard) × (result.soft ≡ (self.soft + penalty) % 2 ^ 64) }
    {
        Self {
            soft: self.soft.wrapping_add(penalty),
            ..self
        }
    }

    // What was gained less what was lost.
    pub fn less(self, lost: Self) -> Self
        ensures { result ≡ less self lost }
    {
        Self {
            hard: self.hard.wrapping_sub(lost.hard),
            soft: self.soft.wrapping_sub(lost.soft),
        }
    }
}

// A penalty is added to the hard total or to the soft one.
pub fn added(t: Totals, hard: bool, p: u64) -> Totals
    ensures { Adds t hard p result }
{
    if hard { t.add_hard(p) } else { t.add_soft(p) }
}

// A total moved by a change.
pub fn moved_total(old: u64, change: u64) -> u64
    ensures { result ≡ (old + change) % 2 ^ 64 }
{
    old.wrapping_add(change)
}

// Moves both totals, each by its own change. It changes what is lent to it: the customer named this form.
fn apply(totals: &mut Totals, change: Totals)
    ensures { totals.new ≡ moved_by totals.old change }
{
    totals.hard = moved_total(totals.hard, change.hard);
    totals.soft = moved_total(totals.soft, change.soft);
}

// The totals after a change. It lends a copy of its own.
pub fn moved(mut totals: Totals, change: Totals) -> Totals
    ensures { result ≡ moved_by totals change }
{
    apply(&mut totals, change);
    totals
}
