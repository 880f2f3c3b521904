// Set for a call that has passed sentences 1 to 8 (`Ready`, of books, sheet and tables). It is a clause and no ghost field of a struct of the three:
// tables and sheet change one after the other, and where a team is busy the tables are no matter.

#![tactic(auto)]

ghost use Rattle.std.specs.Prelude.{◌≡◌, ◌<◌, ◌≤◌};
ghost use Rattle.robinx.specs.Calls.{set_slot, outcome};
ghost use Rattle.replies.specs.Reply.{reply_of};
ghost use Rattle.walk.specs.Reworked.{SameBooks, instance_of, lent};
ghost use Rattle.admission.specs.Admission.{Ready, after_entry};

use admission::games_of;
use calls::set_arguments;
use replies::Accepted;
use robinx::Refusal;
use robinx::game::Slot;
use tables::Tables;
use touch::moves::{Move, Moves};
use walk::Touch;
use walk::books::Books;

// Game g goes to the slot of byte b, if its teams are free there.
fn set_to(
    books: &mut Books,
    unplaced: usize,
    sheet: &mut [u8],
    tables: &mut Tables,
    g: usize,
    b: u8,
) -> Result<Accepted, Refusal>
    requires { Ready books.old.season.bytes.now (lent sheet.old books.old) unplaced tables.old
        × (g < (instance_of books.old).G) × (b ≤ (instance_of books.old).P) }
    ensures same { SameBooks books.old books.new }
    ensures outcome { outcome (reply_of result) (lent sheet.new books.new)
        ≡ after_entry (instance_of books.old) (lent sheet.old books.old) (set_slot g b) }
{
    let games = games_of(books.season);
    let from = Slot::of_byte(sheet[g]);
    let to = Slot::of_byte(b);
    timetable::reslot(games, sheet, tables, g, to)?;
    let moves = Moves::of(Move::of(games.game(g), from, to), None);
    let left = unplaced - usize::from(from.is_none()) + usize::from(to.is_none());
    sheet[g] = b;
    Ok(books::rework(books, Touch::By(moves), left, tables))
}

// Set, once sentences 1 to 8 are passed.
pub fn set(
    books: &mut Books,
    unplaced: usize,
    sheet: &mut [u8],
    tables: &mut Tables,
    game: u64,
    slot: u64,
) -> Result<Accepted, Refusal>
    requires { Ready books.old.season.bytes.now (lent sheet.old books.old) unplaced tables.old }
    ensures same { SameBooks books.old books.new }
    ensures outcome { outcome (reply_of result) (lent sheet.new books.new)
        ≡ after_entry (instance_of books.old) (lent sheet.old books.old) (set_slot game slot) }
{
    let (g, slot) = set_arguments(books.season.sizes, game, slot)?;
    // a season has at most 64 slots
    let b = u8::try_from(slot).unwrap();
    set_to(books, unplaced, sheet, tables, g, b)
}
