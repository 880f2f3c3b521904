// The answer that a report is made of (docs/FORMAT.md, section 8): where the input is cut, sentence 6, and the opening.

#![tactic(auto)]

ghost use Rattle.std.specs.Prelude.{◌≡◌, ◌+◌, ◌≤◌, length, take, drop, IfOk};
ghost use Rattle.robinx.specs.Season.{most_constraints, most_deviations};
ghost use Rattle.robinx.specs.Report.{season_of, sheet_of, report_fault};
ghost use Rattle.season.specs.Examination.{Examination};
ghost use Rattle.replies.specs.Reply.{reply_of};
ghost use Rattle.report_reply.specs.ReportReply.{up_to_six, report_reply, TallyOf};

use replies::Accepted;
use robinx::{Refusal, Season};
use season::Examined;

// The most deviations of a season that is reported.
pub const MOST_DEVIATIONS: usize = 6000;

// The most words of its tally.
pub const MOST_WORDS: usize = Season::CONSTRAINTS + 2;

// Where the season ends and the sheet begins.
#[tactic(auto, using(crate::proofs::Cut::cut_short))]
pub fn season_end(input: &[u8]) -> usize
    ensures { (result ≤ length input.now) × (take result input.now ≡ season_of input.now)
        × (drop result input.now ≡ sheet_of input.now) }
{
    if input.len() < 6 {
        return input.len();
    }
    let sizes = reader::sizes(input);
    sizes.length().min(input.len())
}

// Any bytes, by sentences 1 to 6.
fn examine<'a>(season: &'a [u8]) -> Result<Examined<'a>, Refusal>
    ensures told { Examination (up_to_six season.now) season.now result }
    ensures few { IfOk result (λ e. (e.entries ≤ most_deviations) × (e.season.sizes.constraints ≤ most_constraints)) }
{
    let found = season::examine(season)?;
    if MOST_DEVIATIONS < found.entries {
        return Err(Refusal::TooManyDeviations);
    }
    Ok(found)
}

// The answer that the report is made of: a refusal by sentences 1 to 6, or that of the opening. Ledger and tally are used as far as the season asks.
pub fn open(
    input: &[u8],
    ledger: &mut [u32; MOST_DEVIATIONS],
    tally: &mut [u64; MOST_WORDS],
) -> Result<Accepted, Refusal>
    ensures { (reply_of result ≡ report_reply input.now)
        × (report_fault input.now ≡ 0
        → TallyOf (season_of input.now) (sheet_of input.now) tally.new) }
{
    let (season, sheet) = input.split_at(season_end(input));
    let found = examine(season)?;
    let words = found.season.sizes.constraints + 2;
    checker::season_open(
        season,
        sheet,
        &mut ledger[..found.entries],
        &mut tally[..words],
    )
}
