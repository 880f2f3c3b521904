// Exchange for a call that has passed sentences 1 to 8 (`Ready`, as for `sets`).

#![tactic(auto)]

ghost use Rattle.std.specs.Prelude.{◌≡◌, false, ◌||◌, ◌<◌, eqb, get_or};
ghost use Rattle.robinx.specs.Calls.{exchange, outcome};
ghost use Rattle.replies.specs.Reply.{reply_of};
ghost use Rattle.walk.specs.Reworked.{SameBooks, instance_of, lent};
ghost use Rattle.admission.specs.Admission.{Ready, after_entry};

use admission::games_of;
use calls::exchange_arguments;
use replies::Accepted;
use robinx::Refusal;
use robinx::game::Slot;
use tables::Tables;
use touch::moves::{Move, Moves};
use walk::Touch;
use walk::books::Books;

// Games g and h exchange their slots, if their teams are free there.
fn swap(
    books: &mut Books,
    unplaced: usize,
    sheet: &mut [u8],
    tables: &mut Tables,
    g: usize,
    h: usize,
) -> Result<Accepted, Refusal>
    requires { Ready books.old.season.bytes.now (lent sheet.old books.old) unplaced tables.old
        × (g < (instance_of books.old).G) × (h < (instance_of books.old).G) × (g ≡ h → ⊥)
        × (eqb (get_or sheet.old g 0) 0 || eqb (get_or sheet.old h 0) 0 ≡ false) }
    ensures same { SameBooks books.old books.new }
    ensures outcome { outcome (reply_of result) (lent sheet.new books.new)
        ≡ after_entry (instance_of books.old) (lent sheet.old books.old) (exchange g h) }
{
    let games = games_of(books.season);
    let here = sheet[g];
    let there = sheet[h];
    timetable::swap(games, sheet, tables, g, h)?;
    let from = Slot::of_byte(here);
    let to = Slot::of_byte(there);
    let first = Move::of(games.game(g), from, to);
    let second = Move::of(games.game(h), to, from);
    sheet[g] = there;
    sheet[h] = here;
    let moves = Moves::of(first, Some(second));
    Ok(books::rework(books, Touch::By(moves), unplaced, tables))
}

// Exchange, once sentences 1 to 8 are passed.
pub fn exchange(
    books: &mut Books,
    unplaced: usize,
    sheet: &mut [u8],
    tables: &mut Tables,
    game: u64,
    other: u64,
) -> Result<Accepted, Refusal>
    requires { Ready books.old.season.bytes.now (lent sheet.old books.old) unplaced tables.old }
    ensures same { SameBooks books.old books.new }
    ensures outcome { outcome (reply_of result) (lent sheet.new books.new)
        ≡ after_entry (instance_of books.old) (lent sheet.old books.old) (exchange game other) }
{
    let (g, h) = exchange_arguments(books.season.sizes, sheet, game, other)?;
    swap(books, unplaced, sheet, tables, g, h)
}
