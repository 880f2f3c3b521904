// What the fillers of all kinds share: a check, the sides of a mode, and the slots of a team's games of some sides against a group, as a mask.

#![tactic(auto)]

pub mod check;
pub mod measure;

ghost use Rattle.std.specs.Prelude.{◌≡◌, ℕ, ◌<◌, get_or};
ghost use Rattle.robinx.specs.Season.{most_teams};
ghost use Rattle.robinx.specs.Sums.{only};
ghost use Rattle.robinx.specs.Groups.{has};
ghost use Rattle.robinx.specs.Timetable.{games_against};
ghost use Rattle.tables.specs.Tables.{x_of};
ghost use Rattle.opponents.specs.Checkable.{TiedGroup};
ghost use Rattle.opponents.specs.Sides.{code_of};
ghost use Rattle.opponents.specs.Games.{MaskOf, of_sides, GathersUnion};

use groups::members;
use masks::pattern::Pattern;
use masks::union;
use measure::{Sides, asks_away, asks_home};
use robinx::{Season, Slots};
use tables::Tables;

// The team's home-away pattern, of the sides that are asked for: of the other side no slots.
pub fn asked(tables: &Tables, sides: Sides, t: usize) -> Pattern
    requires { t < most_teams }
    ensures { (result.home ≡ only (has (code_of sides) 0) (get_or tables.now.home t 0))
        × (result.away ≡ only (has (code_of sides) 1) (get_or tables.now.away t 0)) }
{
    let home = tables.home[t];
    let away = tables.away[t];
    Pattern {
        home: if sides.asks_home() { home } else { masks::NONE },
        away: if sides.asks_away() { away } else { masks::NONE },
    }
}

// The slots of the team's games of the sides, against any team.
pub fn played(tables: &Tables, sides: Sides, t: usize) -> Slots
    requires { t < most_teams }
    ensures { result ≡ of_sides (code_of sides) (get_or tables.now.home t 0) (get_or tables.now.away t 0) }
{
    let asked = asked(tables, sides, t);
    union(asked.home, asked.away)
}

// The same of home and away words alone, tied to no other table, and of any number as sides.
pub fn played_on(
    home: &[Slots; Season::TEAMS],
    away: &[Slots; Season::TEAMS],
    sides: u8,
    t: usize,
) -> Slots
    requires { t < most_teams }
    ensures { result ≡ of_sides sides (get_or home.now t 0) (get_or away.now t 0) }
{
    let hosted = if asks_home(sides) {
        home[t]
    } else {
        masks::NONE
    };
    let visited = if asks_away(sides) {
        away[t]
    } else {
        masks::NONE
    };
    union(hosted, visited)
}

// The union of the words of the group's members.
fn gather<F: Fn(usize) -> Slots>(group: u32, word: F) -> Slots
    requires callable { (t : ℕ) → t < most_teams → F.pre word t }
    ensures { GathersUnion group (F.post word) result }
{
    members(group).fold(
        masks::NONE,
        |u, t|
            requires { F.pre word t }
        { union(u, word(t)) },
    )
}

// The slots of the team's games of the sides, against the teams of the group. Of a side that is not asked for it gathers the games of no team.
// It takes tables and a group and is no method of a check, which would ask more of callers.
pub fn against(tables: &Tables, sides: Sides, group: u32, t: usize, n: usize) -> Slots
    requires { (t < n) × TiedGroup n group tables.now }
    ensures { MaskOf (games_against n (x_of tables.now.meets) (code_of sides) group t) result }
{
    if group == groups::everyone(n) {
        return played(tables, sides, t);
    }
    let meets = &tables.meets;
    let guests = if sides.asks_home() { group } else { 0 };
    let hosts = if sides.asks_away() { group } else { 0 };
    union(
        gather(guests, |j| meets[t][j]),
        gather(hosts, |i| meets[i][t]),
    )
}
