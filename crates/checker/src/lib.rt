// The three calls of the console. Each meets its definition for every input; a refused call writes nothing. Ledger and tally come one by one, as C
// lends them, and become the books of the season once sentence 7 has tested their lengths.

#![tactic(auto)]

ghost use Rattle.std.specs.Prelude.{◌≡◌};
ghost use Rattle.robinx.specs.Calls.{buffers, outcome, open_call, set_call, exchange_call};
ghost use Rattle.replies.specs.Reply.{reply_of};

use replies::Accepted;
use robinx::Refusal;
use tables::Tables;
use walk::books::Books;

// Checks a proposed sheet and fills ledger and tally.
pub fn season_open(
    season: &[u8],
    sheet: &[u8],
    ledger: &mut [u32],
    tally: &mut [u64],
) -> Result<Accepted, Refusal>
    ensures { outcome (reply_of result) (buffers sheet.now ledger.new tally.new)
        ≡ open_call season.now (buffers sheet.now ledger.old tally.old) }
{
    let mut tables = Tables::new();
    let found = admission::admit(season, sheet, ledger, tally, &mut tables)?;
    let mut books = Books {
        season: found.season,
        ledger,
        tally,
    };
    Ok(books::open(&mut books, found.unplaced, &tables))
}

// Gives a game a slot; slot 0 takes it out. The beginning of the three calls as one function was tried: the borrow checker does not cover a `Result`
// of books; with an enum of its own, that a refusal leaves ledger and tally stays open (`follows` is proved of one field or a call's result alone).
// With the rest as a closure, the contract of the beginning would have to say what that does to books, sheet and tables, which is all of it.
pub fn season_set(
    season: &[u8],
    sheet: &mut [u8],
    ledger: &mut [u32],
    tally: &mut [u64],
    game: u64,
    slot: u64,
) -> Result<Accepted, Refusal>
    ensures { outcome (reply_of result) (buffers sheet.new ledger.new tally.new)
        ≡ set_call season.now (buffers sheet.old ledger.old tally.old) game slot }
{
    let mut tables = Tables::new();
    let found = admission::admit(season, sheet, ledger, tally, &mut tables)?;
    let mut books = Books {
        season: found.season,
        ledger,
        tally,
    };
    sets::set(&mut books, found.unplaced, sheet, &mut tables, game, slot)
}

// Exchanges the slots of two placed games.
pub fn season_exchange(
    season: &[u8],
    sheet: &mut [u8],
    ledger: &mut [u32],
    tally: &mut [u64],
    game: u64,
    other: u64,
) -> Result<Accepted, Refusal>
    ensures { outcome (reply_of result) (buffers sheet.new ledger.new tally.new)
        ≡ exchange_call season.now (buffers sheet.old ledger.old tally.old) game other }
{
    let mut tables = Tables::new();
    let found = admission::admit(season, sheet, ledger, tally, &mut tables)?;
    let mut books = Books {
        season: found.season,
        ledger,
        tally,
    };
    exchanges::exchange(&mut books, found.unplaced, sheet, &mut tables, game, other)
}
