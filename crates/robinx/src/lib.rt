// The records and limits that the definitions (specs/) and the code share.

#![tactic(auto)]

ghost use Rattle.std.specs.Prelude.{◌≡◌, ◌+◌, ◌*◌, ◌<◌};
ghost use Rattle.robinx.specs.Books.{is_hard};
ghost use Rattle.robinx.specs.Kinds.{kind_of};
ghost use Rattle.robinx.specs.Timetable.{first_modes};
ghost use Rattle.robinx.specs.RefusalNumbers.{number_of};

pub mod function;
pub mod game;
pub mod range;

use range::CountRange;

// The sizes of a season.
#[derive(Clone, Copy)]
pub struct Season {
    pub teams: usize,
    pub slots: usize,
    pub games: usize,
    pub constraints: usize,
}

impl Season {
    pub const TEAMS: usize = 32;

    pub const SLOTS: usize = 64;

    pub const GAMES: usize = 1024;

    pub const CONSTRAINTS: usize = 1024;

    pub const MEETINGS: usize = 8;

    // How many bytes a season of these sizes has: the sizes, two teams a game, a head and a body a constraint.
    pub fn length(self) -> usize
        requires { (self.games < 65536) × (self.constraints < 65536) }
        ensures { result ≡ 6 + 2 * self.games + 24 * self.constraints }
    {
        6 + 2 * self.games + 24 * self.constraints
    }
}

// A set of slots: those of a constraint, or of a team's games. Crates `masks` and `bits` have all that is done with one; an alias, since methods on
// a type would have to stand here, where nothing knows what a mask is.
pub type Slots = u64;

// A constraint: the eight bytes of its head, the three groups of its body. They are numbers, as the file has them: a constraint that breaks
// every rule has to be held too. What its kind means is decided by `Kind::from` alone, its function by `Function::try_from`; of its mode
// `first_modes` tells whether it is one of 1 to 3, `opponents` which sides it means, and `rules` whether its kind has it.
#[derive(Clone, Copy)]
pub struct Constraint {
    pub kind: u8,
    pub mode: u8,
    pub hard: u8,
    pub function: u8,
    pub weight: u8,
    pub kmin: u8,
    pub kmax: u8,
    pub w: u8,
    pub t1: u32,
    pub t2: u32,
    pub s: Slots,
}

impl Constraint {
    // Its mode is one of 1 to 3: one figure over all slots, or the fewer ones.
    pub fn first_modes(self) -> bool
        ensures { result ≡ first_modes self.mode }
    {
        self.mode <= 3
    }

    // Its penalty counts for the infeasibility, and not for the objective.
    pub fn is_hard(self) -> bool
        ensures { result ≡ is_hard self }
    {
        self.hard == 1
    }

    // kmin .. kmax.
    pub fn range(self) -> CountRange
        ensures { result ≡ record { low = self.kmin; high = self.kmax } }
    {
        CountRange {
            low: self.kmin,
            high: self.kmax,
        }
    }
}

// The kinds by RobinX's names, and what is no kind. That has a row of its own in specs/Kinds.antt: no mode, so that it breaks the rules, and
// neither deviations nor changes. So it is one more arm where a kind is matched (`kinds`, `kind_rules`, `figures`); as the None of an Option
// it would be that too, with a Some around each other arm.
#[derive(Clone, Copy, Debug, PartialEq, Eq)]
pub enum Kind {
    Ca1,
    Ca2,
    Ca3,
    Ca4,
    Ca5,
    Ga1,
    Br1,
    Br2,
    Br4,
    Fa1,
    Fa2,
    Se1,
    Unknown,
}

impl From<u8> for Kind {
    ghost from_gives = { λ number kind. kind ≡ kind_of number };

    // The kind with this number, decided by its class, then in it: the form that the customer named.
    #[tactic(auto, unfolding(crate::specs::Kinds::kind_of))]
    fn from(number: u8) -> Self {
        match number {
            10..=19 => match number {
                11 => Kind::Ca1,
                12 => Kind::Ca2,
                13 => Kind::Ca3,
                14 => Kind::Ca4,
                15 => Kind::Ca5,
                _ => Kind::Unknown,
            },
            20..=29 => match number {
                21 => Kind::Ga1,
                _ => Kind::Unknown,
            },
            30..=39 => match number {
                31 => Kind::Br1,
                32 => Kind::Br2,
                34 => Kind::Br4,
                _ => Kind::Unknown,
            },
            40..=49 => match number {
                41 => Kind::Fa1,
                42 => Kind::Fa2,
                _ => Kind::Unknown,
            },
            50..=59 => match number {
                51 => Kind::Se1,
                _ => Kind::Unknown,
            },
            _ => Kind::Unknown,
        }
    }
}

// What a kind asks of a field, besides that it is in range: that it is 0, nothing, that it is at most kmax, that it is not 0. A group that
// is not 0 has a member.
#[derive(Clone, Copy)]
pub enum Field {
    Zero,
    Any,
    UpToKmax,
    Some,
}

// How many deviations a constraint has: one, or one for each team of T1 or pair of them; or one in modes 1 to 3 and one for each slot
// of S in modes 4 to 6.
#[derive(Clone, Copy)]
pub enum Shape {
    Nothing,
    One,
    EachTeam,
    EachPair,
    OneOrEachSlot,
}

// The games whose change touches a constraint, by their teams: one is in T1; one is in T1 and the other in T2; home is in T1 and away in
// T2; both are in T1.
#[derive(Clone, Copy)]
pub enum TouchTeams {
    Nobody,
    OneInT1,
    Across,
    HomeAndAway,
    BothInT1,
}

// .. and by the slot that they leave or get: in S; at or before the last of S; any.
#[derive(Clone, Copy)]
pub enum TouchSlots {
    InS,
    UpToLastOfS,
    AnySlot,
}

// What a kind asks of its constraints: the first and the last mode, whether a penalty may square (functions 2 and 3), the fields, the fewest
// teams of T1, and whether one of T1 and T2 has to have more than one team.
#[derive(Clone, Copy)]
pub struct Asks {
    pub first: u8,
    pub last: u8,
    pub squares: bool,
    pub kmin: Field,
    pub kmax: Field,
    pub w: Field,
    pub t2: Field,
    pub s: Field,
    pub fewest: u8,
    pub several: bool,
}

// The rest that differs between kinds, but for the count itself: how many deviations there are, and which changes touch them.
#[derive(Clone, Copy)]
pub struct Form {
    pub shape: Shape,
    pub teams: TouchTeams,
    pub slots: TouchSlots,
}

// What a call of the C interface answers: a refusal's number, or a verdict with the changes of infeasibility and objective. It is no enum: C
// reads its flag and its number.
#[repr(C)]
#[derive(Clone, Copy)]
pub struct Reply {
    pub declined: bool,
    pub number: u8,
    pub infeasibility: i64,
    pub objective: i64,
}

// Why a call or a report is refused: the sentences of docs/FORMAT.md, section 6. A definition gives each its number too.
#[derive(Clone, Copy, Debug, PartialEq, Eq)]
pub enum Refusal {
    ShortSeason = 1,
    SizeOutOfRange = 2,
    SeasonLength = 3,
    BadGame = 4,
    BadConstraint = 5,
    TooManyDeviations = 6,
    BufferLength = 7,
    BadSheet = 8,
    NoSuchGame = 9,
    NoSuchSlot = 10,
    SameGame = 11,
    UnplacedGame = 12,
    TeamBusy = 13,
}

impl From<Refusal> for u8 {
    ghost from_gives = { λ refusal number. number ≡ number_of refusal };

    // The number of the sentence: a cast, which is how the number of a variant is read.
    fn from(refusal: Refusal) -> Self {
        refusal as u8
    }
}
