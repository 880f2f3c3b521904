// The books of a season, and the walk over its constraints. It lends out the stretch of each touched one, and writes nothing for the others.
#![tactic(auto)]

ghost use Rattle.std.specs.Prelude.{◌≡◌, false, ◌+◌, length};
ghost use Rattle.robinx.specs.Season.{decode};
ghost use Rattle.robinx.specs.Books.{all_entries};
ghost use Rattle.robinx.specs.Refusals.{sentence2, sentence5};

use crate::{Moved, Touch, price};
use opponents::check::Check;
use reader::view::SeasonView;
use tables::Tables;
use totals::added;

// Ledger and tally as C lends them, with their season: its sizes and constraints keep the rules, and they have its lengths. That the books stay
// those of one season and the same slices (`SameBooks`) is a clause in each function that writes to them, so that their lender knows what was
// written; that the tables are those of its teams (`Tied`) is one where tables come from outside.
#[derive(Drop)]
pub struct Books<'s, 'l, 't> {
    pub season: SeasonView<'s>,
    pub ledger: &'l mut [u32],
    pub tally: &'t mut [u64],
    pub ghost sizes: { sentence2 (decode season.bytes.now) ≡ false },
    pub ghost rules: { sentence5 (decode season.bytes.now) ≡ false },
    pub ghost ledger_length: { length ledger.now ≡ all_entries (decode season.bytes.now) },
    pub ghost tally_length: { length tally.now ≡ season.sizes.constraints + 2 },
}

impl Books<'_, '_, '_> {
    ghost use Rattle.std.specs.Prelude.{◌<◌, ◌≤◌, ◌-◌, ◌++◌, get_or, set, take, drop};
    ghost use Rattle.robinx.specs.Books.{is_hard};
    ghost use Rattle.robinx.specs.Deviations.{deviations};
    ghost use Rattle.tables.specs.Tables.{x_of, Tied};
    ghost use Rattle.opponents.specs.Figures.{of_check, HasRoom};
    ghost use Rattle.totals.specs.RunningTotals.{Adds};
    ghost use Rattle.walk.specs.Walk.{check_penalty};
    ghost use Rattle.walk.specs.Reworked.{SameBooks, instance_of, touched_in, Reworked};

    // Stores the penalty of constraint number k, a hard one or a soft one, and adds it and the one that it replaces to the sums.
    fn enter(&mut self, sums: Moved, hard: bool, k: usize, new: u64) -> Moved
        requires { k < length self.old.tally.now }
        ensures same { SameBooks self.old self.new }
        ensures stored { (self.new.ledger.now ≡ self.old.ledger.now) × (self.new.tally.now ≡ set self.old.tally.now k new) }
        ensures sums { Adds sums.gained hard new result.gained × Adds sums.lost hard (get_or self.old.tally.now k 0) result.lost }
    {
        let old = self.tally[k];
        self.tally[k] = new;
        Moved {
            gained: added(sums.gained, hard, new),
            lost: added(sums.lost, hard, old),
        }
    }

    // One touched constraint, number k, whose stretch is from `at` to `end`.
    fn renew(&mut self, sums: Moved, check: &Check, k: usize, at: usize, end: usize) -> Moved
        requires { (at ≤ end) × (end ≤ length self.old.ledger.now)
            × HasRoom check.now (take (end - at) (drop at self.old.ledger.now)) × (k < length self.old.tally.now) }
        ensures same { SameBooks self.old self.new }
        ensures stretch { self.new.ledger.now ≡ take at self.old.ledger.now
            ++ (of_check deviations check.now ++ drop (end - at) (drop at self.old.ledger.now)) }
        ensures stored { self.new.tally.now ≡ set self.old.tally.now k (check_penalty check.now) }
        ensures sums { Adds sums.gained (is_hard check.now.constraint) (check_penalty check.now) result.gained
            × Adds sums.lost (is_hard check.now.constraint) (get_or self.old.tally.now k 0) result.lost }
    {
        let new = price(check, &mut self.ledger[at..end]);
        self.enter(sums, check.constraint.is_hard(), k, new)
    }

    // Works out the constraints that are touched. Their stretches have different lengths, so `at`, where one begins, runs on: of a ledger whose
    // parts a loop splits off by `split_at_mut`, a proof knows nothing afterwards.
    pub fn walk(&mut self, touch: Touch, tables: &Tables) -> Moved
        requires { Tied (instance_of self.old).n tables.now }
        ensures same { SameBooks self.old self.new }
        ensures reworked { Reworked self.old (touched_in self.old touch) (x_of tables.now.meets) self.new result }
    {
        let mut sums = Moved::default();
        let mut at = 0;
        let season = self.season;
        let sizes = season.sizes;
        for (k, constraint) in season.constraints().enumerate() {
            let end = at + kinds::entries_of(constraint);
            let touched = touch.touches(constraint);
            if touched {
                let check = Check {
                    constraint,
                    sizes,
                    tables,
                };
                sums = self.renew(sums, &check, k, at, end);
            }
            at = end;
        }
        sums
    }
}
