// The move of a game, and the moves of a call.

#![tactic(auto)]

ghost use Rattle.std.proofs.Props.{props};
ghost use Rattle.robinx.specs.Sheet.{byte_of};
ghost use Rattle.touch.specs.Touched.{Named, NamedToo};

use robinx::game::{Game, Slot};

// A game goes from one slot to another, and may have none before or after.
#[derive(Clone, Copy)]
pub struct Move {
    pub game: Game,
    pub from: Option<Slot>,
    pub to: Option<Slot>,
}

impl Move {
    ghost use Rattle.touch.specs.Touched.{MoveOf};

    pub fn of(game: Game, from: Option<Slot>, to: Option<Slot>) -> Self
        ensures { MoveOf game.home game.away (byte_of from) (byte_of to) result }
    {
        Self { game, from, to }
    }

    // The group of its teams.
    fn teams(self) -> u32
        ensures { Named result self }
    {
        groups::one(usize::from(self.game.home)) | groups::one(usize::from(self.game.away))
    }
}

// One or two moves, with the teams of both.
#[derive(Clone, Copy)]
pub struct Moves {
    pub teams: u32,
    pub first: Move,
    pub second: Option<Move>,
    pub ghost first_teams: { Named teams first },
    pub ghost second_teams: { NamedToo teams second } by { Prim.hlevel props },
}

impl Moves {
    ghost use Rattle.std.specs.Prelude.{◌≡◌};

    #[tactic(auto, using(crate::proofs::Teams::named_rules))]
    pub fn of(first: Move, second: Option<Move>) -> Self
        ensures { (result.first ≡ first) × (result.second ≡ second) }
    {
        Self {
            teams: first.teams() | second.map_or(0, Move::teams),
            first,
            second,
        }
    }
}
