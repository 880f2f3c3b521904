// The report of a season and its sheet (docs/FORMAT.md, section 8): its rows of three numbers each. That a row is printed as its numbers, one after
// the other, is outside the contracts: runs are compared with stored files.

#![tactic(auto)]

ghost use Rattle.std.specs.Prelude.{◌≡◌, List, map, ℕ, ◌≤◌, length};
ghost use Rattle.robinx.specs.Season.{most_constraints};
ghost use Rattle.report_reply.specs.ReportReply.{TallyOf};
ghost use Rattle.report.specs.ReportRows.{broken_row, first_row, broken_of, ReportedInto, Reported};

use arrayvec::ArrayVec;
use reader::view::SeasonView;
use replies::{Accepted, Verdict};
use robinx::{Refusal, Season};
use std::fmt;

// The most bytes of an input that are read: one more than the longest season with its sheet, so that the sheet of a longer input is too long.
pub const MOST_BYTES: usize = 6 + 2 * Season::GAMES + 24 * Season::CONSTRAINTS + Season::GAMES + 1;

// A constraint that is broken: its number, kind and penalty. The kind is the number that the file has: it is printed, and decides nothing.
#[derive(Clone, Copy, Default)]
pub struct BrokenConstraint {
    pub number: usize,
    pub kind: u8,
    pub penalty: u64,
}

impl BrokenConstraint {
    // Its row.
    pub fn row(self) -> [u64; 3]
        ensures { result ≡ broken_row self }
    {
        // a cast: u64 has no From<usize>
        [self.number as u64, u64::from(self.kind), self.penalty]
    }
}

// The broken constraints of a season, in place of a list on a heap.
pub type BrokenList = ArrayVec<BrokenConstraint, { Season::CONSTRAINTS }>;

// What is reported of a season and a sheet that are not refused.
#[derive(Clone, Drop)]
pub struct Report {
    pub verdict: Verdict,
    pub infeasibility: u64,
    pub objective: u64,
    pub broken: BrokenList,
}

// The row that stands before those of the broken constraints: the verdict, and the totals, which are the changes of an opening.
pub fn first_row(opening: Accepted) -> [u64; 3]
    ensures { result ≡ first_row opening }
{
    let verdict = u64::from(u8::from(opening.verdict));
    [verdict, opening.change.hard, opening.change.soft]
}

fn write_row<W: fmt::Write>(f: &mut fmt::Formatter<W>, row: [u64; 3]) -> fmt::Result {
    let [first, second, third] = row;
    write!(f, "{first} {second} {third}")
}

impl fmt::Display for BrokenConstraint {
    fn fmt<W: fmt::Write>(&self, f: &mut fmt::Formatter<W>) -> fmt::Result {
        write_row(f, self.row())
    }
}

impl fmt::Display for Report {
    // The first row, and one for each broken constraint.
    fn fmt<W: fmt::Write>(&self, f: &mut fmt::Formatter<W>) -> fmt::Result {
        let verdict = u64::from(u8::from(self.verdict));
        write_row(f, [verdict, self.infeasibility, self.objective])?;
        for broken in &self.broken {
            write!(f, "\n{broken}")?;
        }
        Ok(())
    }
}

// The broken constraints by the penalties of a tally. It reads that alone, so it takes no books. The list is lent: by value it would be copied.
fn find_broken(season: SeasonView, tally: &[u64], broken: &mut BrokenList)
    requires { (season.sizes.constraints ≤ length tally.now) × (season.sizes.constraints ≤ most_constraints) }
    ensures { (sheet : List ℕ) → TallyOf season.entry.bytes.now sheet tally.now
        → map broken_row broken.new.items ≡ broken_of season.entry.bytes.now sheet season.entry.sizes.constraints }
{
    // a `for` that pushes: `collect` and `extend` answer a `Result`, for a vector that is full
    broken.clear();
    let penalties = &tally[..season.sizes.constraints];
    for (number, &penalty) in penalties.iter().enumerate() {
        if penalty == 0 {
            continue;
        }
        broken.push(BrokenConstraint {
            number,
            kind: season.constraint(number).kind,
            penalty,
        });
    }
}

// The report of an input, season and then sheet, or its refusal: what the opening answers, and the broken constraints, which go into a list that is
// lent. The changes of an opening are the totals. Ledger and tally are arrays on the stack: there is no heap.
pub fn report_into(input: &[u8], broken: &mut BrokenList) -> Result<Accepted, Refusal>
    ensures { ReportedInto input.now result broken.new.items }
{
    let mut ledger = [0u32; report_reply::MOST_DEVIATIONS];
    let mut tally = [0u64; report_reply::MOST_WORDS];
    let accepted = report_reply::open(input, &mut ledger, &mut tally)?;
    let bytes = &input[..report_reply::season_end(input)];
    let sizes = reader::sizes(bytes);
    find_broken(SeasonView { bytes, sizes }, &tally, broken);
    Ok(accepted)
}

// .. as one value.
pub fn report_on(input: &[u8]) -> Result<Report, Refusal>
    ensures { Reported input.now result }
{
    let mut broken = BrokenList::new();
    let accepted = report_into(input, &mut broken)?;
    Ok(Report {
        verdict: accepted.verdict,
        infeasibility: accepted.change.hard,
        objective: accepted.change.soft,
        broken,
    })
}
