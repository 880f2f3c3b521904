// The three calls of crate `checker`, for C: include/season_checker.h declares them. Here alone an answer becomes a `Reply`.
#![tactic(auto)]

ghost use Rattle.std.specs.Prelude.{◌≡◌};
ghost use Rattle.robinx.specs.Calls.{buffers, outcome, open_call, set_call, exchange_call};

use replies::reply;
use robinx::Reply;

// Checks a proposed sheet and fills ledger and tally.
#[unsafe(no_mangle)]
pub extern "C" fn season_open(
    season: &[u8],
    sheet: &[u8],
    ledger: &mut [u32],
    tally: &mut [u64],
) -> Reply
    ensures { outcome result (buffers sheet.now ledger.new tally.new)
        ≡ open_call season.now (buffers sheet.now ledger.old tally.old) }
{
    reply(checker::season_open(season, sheet, ledger, tally))
}

// Gives a game a slot; slot 0 takes it out.
#[unsafe(no_mangle)]
pub extern "C" fn season_set(
    season: &[u8],
    sheet: &mut [u8],
    ledger: &mut [u32],
    tally: &mut [u64],
    game: u64,
    slot: u64,
) -> Reply
    ensures { outcome result (buffers sheet.new ledger.new tally.new)
        ≡ set_call season.now (buffers sheet.old ledger.old tally.old) game slot }
{
    reply(checker::season_set(season, sheet, ledger, tally, game, slot))
}

// Exchanges the slots of two placed games.
#[unsafe(no_mangle)]
pub extern "C" fn season_exchange(
    season: &[u8],
    sheet: &mut [u8],
    ledger: &mut [u32],
    tally: &mut [u64],
    game: u64,
    other: u64,
) -> Reply
    ensures { outcome result (buffers sheet.new ledger.new tally.new)
        ≡ exchange_call season.now (buffers sheet.old ledger.old tally.old) game other }
{
    reply(checker::season_exchange(season, sheet, ledger, tally, game, other))
}
