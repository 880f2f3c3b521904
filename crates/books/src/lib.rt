// What a call does to the books: a walk works out the touched constraints, all of them when the books are opened, and the totals follow.

#![tactic(auto)]

ghost use Rattle.std.specs.Prelude.{◌≡◌, ◌+◌, ◌-◌, ◌%◌, ◌^◌, get_or};
ghost use Rattle.robinx.specs.Calls.{moved_total};
ghost use Rattle.tables.specs.Tables.{x_of, Tied};
ghost use Rattle.walk.specs.Reworked.{SameBooks, instance_of, touched_in};
ghost use Rattle.books.specs.Answer.{with_totals, Opened, Answered};

use replies::{Accepted, Verdict};
use tables::Tables;
use totals::Totals;
use walk::books::Books;
use walk::{Moved, Touch};

// Writes the two totals, the last of the tally. It is reborrowed first: of a chunk of a struct's field, lent in an `if let`, there is no proof.
fn store(books: &mut Books, totals: Totals)
    ensures same { SameBooks books.old books.new }
    ensures stored { (books.new.ledger.now ≡ books.old.ledger.now)
        × (books.new.tally.now ≡ with_totals books.old.tally.now books.old.season.sizes.constraints totals.hard totals.soft) }
{
    let tally = &mut *books.tally;
    if let Some(last) = tally.last_chunk_mut::<2>() {
        *last = [totals.hard, totals.soft];
    }
}

// Moves the two totals and gives their changes.
fn settle(books: &mut Books, moved: Moved) -> Totals
    ensures same { SameBooks books.old books.new }
    ensures changes { (result.hard ≡ (moved.gained.hard + (2 ^ 64 - moved.lost.hard)) % 2 ^ 64)
        × (result.soft ≡ (moved.gained.soft + (2 ^ 64 - moved.lost.soft)) % 2 ^ 64) }
    ensures stored { (books.new.ledger.now ≡ books.old.ledger.now)
        × (books.new.tally.now ≡ with_totals books.old.tally.now books.old.season.sizes.constraints
        (moved_total (get_or books.old.tally.now books.old.season.sizes.constraints 0) result.hard)
        (moved_total (get_or books.old.tally.now (books.old.season.sizes.constraints + 1) 0) result.soft)) }
{
    let change = moved.gained.less(moved.lost);
    let at = books.season.sizes.constraints;
    // read by their places: a `last_chunk` may be `None`, and nothing gives totals for that
    let hard = books.tally[at];
    let soft = books.tally[at + 1];
    store(books, totals::moved(Totals { hard, soft }, change));
    change
}

// The books of the tables, of whose sheet so many games are unplaced. The changes are the totals themselves.
pub fn open(books: &mut Books, unplaced: usize, tables: &Tables) -> Accepted
    requires { Tied (instance_of books.old).n tables.now }
    ensures same { SameBooks books.old books.new }
    ensures opened { Opened (instance_of books.old) (x_of tables.now.meets) unplaced books.new result }
{
    let totals = books.walk(Touch::Everything, tables).gained;
    store(books, totals);
    Accepted {
        verdict: Verdict::of(unplaced, totals.hard),
        change: totals,
    }
}

// The books after a change that touches some constraints, of which the tables are.
pub fn rework(books: &mut Books, touch: Touch, unplaced: usize, tables: &Tables) -> Accepted
    requires { Tied (instance_of books.old).n tables.now }
    ensures same { SameBooks books.old books.new }
    ensures answered { Answered books.old (touched_in books.old touch) (x_of tables.now.meets) unplaced books.new result }
{
    let moved = books.walk(touch, tables);
    let change = settle(books, moved);
    Accepted {
        verdict: Verdict::of(unplaced, books.tally[books.season.sizes.constraints]),
        change,
    }
}
