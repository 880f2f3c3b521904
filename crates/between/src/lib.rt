// CA4 and GA1: games between two groups. Each game is counted at its home team, so that none is counted twice.

#![tactic(auto)]

ghost use Rattle.std.specs.Prelude.{◌≡◌, ◌<◌, ◌≤◌, ◌^◌, length};
ghost use Rattle.std.specs.List.{sum_by};
ghost use Rattle.robinx.specs.Season.{most_teams, most_slots, slots_of};
ghost use Rattle.robinx.specs.Groups.{bit, size};
ghost use Rattle.robinx.specs.Timetable.{games_between};
ghost use Rattle.robinx.specs.Kinds.{kind_of};
ghost use Rattle.robinx.specs.declared.Kind.TheVariants.{Ca4, Ga1};
ghost use Rattle.robinx.specs.Deviations.{each, over, outside, dev_ca4, dev_ga1};
ghost use Rattle.opponents.specs.Figures.{HasRoom, of_check};
ghost use Rattle.opponents.specs.Games.{MaskOf};
ghost use Rattle.opponents.specs.Sides.{code_of};
ghost use Rattle.between.specs.Between.{guests, hosts, MasksOf, of_meetings, one_figure};

use groups::fill::fill;
use opponents::check::Check;
use opponents::measure::Sides;
use robinx::range::CountRange;
use robinx::{Season, Slots};

// The games that a team of T1 plays on one of the sides against a team of T2, the groups of the check's constraint.
#[derive(Clone, Copy)]
struct Meetings<'a> {
    check: &'a Check<'a>,
    sides: Sides,
}

impl Meetings<'_> {
    // The teams whose games at team i's venue count.
    fn guests(self, i: usize) -> u32
        requires { i < most_teams }
        ensures { result ≡ guests (code_of self.entry.sides) self.entry.check.now.constraint.t1 self.entry.check.now.constraint.t2 i }
    {
        let c = self.check.constraint;
        let of_home = self.sides.asks_home() && groups::is_in(c.t1, i);
        let of_away = self.sides.asks_away() && groups::is_in(c.t2, i);
        (if of_home { c.t2 } else { 0 }) | (if of_away { c.t1 } else { 0 })
    }

    // The slots of these games.
    fn hosted(self, i: usize) -> Slots
        requires { i < self.check.now.sizes.teams }
        ensures { MaskOf (of_meetings hosts self.entry i) result }
    {
        self.check.against(Sides::Home, self.guests(i), i)
    }

    // .. and the games in S.
    fn hosted_in_s(self, i: usize) -> u32
        requires { i < self.check.now.sizes.teams }
        ensures { result ≡ over most_slots (slots_of self.entry.check.now.constraint) (of_meetings hosts self.entry i) }
    {
        masks::count_in(self.hosted(i), self.check.constraint.s)
    }

    // All games in S.
    fn games_in(self) -> u32
        ensures { result ≡ over most_slots (slots_of self.entry.check.now.constraint) (of_meetings games_between self.entry) }
    {
        (0..self.check.sizes.teams)
            .map(|i| self.hosted_in_s(i))
            .sum()
    }

    // One figure: how far all games in S are outside kmin .. kmax.
    fn fill_one(self, out: &mut [u32])
        requires { length out.old ≡ 1 }
        ensures { out.new ≡ of_check one_figure self.entry.check.now (code_of self.entry.sides) }
    {
        out[0] = self.check.constraint.range().outside(self.games_in());
    }

    // The mask of each team's games of `hosted`, a word for each team.
    fn lay_hosted(self, words: &mut [Slots])
        requires { length words.old ≡ self.check.now.sizes.teams }
        ensures { MasksOf (of_meetings hosts self.entry) words.new self.entry.check.now.sizes.teams }
    {
        for (i, word) in words.iter_mut().enumerate() {
            *word = self.hosted(i);
        }
    }
}

// How many of the masks have slot k.
fn column(words: &[Slots], k: usize) -> u32
    requires { (length words.now ≤ most_teams) × (k < most_slots) }
    ensures { result ≡ sum_by (λ word. bit word k) words.now }
{
    words
        .iter()
        .map(|&word| u32::from(masks::bit_at(word, k)))
        .sum()
}

// One figure a slot of s, from the masks' columns.
fn fill_columns(range: CountRange, s: Slots, p: usize, words: &[Slots], out: &mut [u32])
    requires words { length words.now ≤ most_teams }
    requires slots { (p ≤ most_slots) × (s < 2 ^ p) }
    requires room { length out.old ≡ size p s }
    ensures { out.new ≡ each p s (λ k. outside range.low range.high (sum_by (λ word. bit word k) words.now)) }
{
    fill(masks::slots_in(s), |k| range.outside(column(words, k)), out);
}

// CA4.
#[tactic(auto, using(opponents::proofs::Checkable::check_rules))]
pub fn fill_ca4(check: &Check, out: &mut [u32])
    requires { HasRoom check.now out.old × (kind_of check.now.constraint.kind ≡ Ca4) }
    ensures { out.new ≡ of_check dev_ca4 check.now }
{
    let c = check.constraint;
    let games = Meetings {
        check,
        sides: Sides::of_mode(c.mode),
    };
    if c.first_modes() {
        games.fill_one(out);
        return;
    }
    // words for all teams, since there is no heap
    let mut all = [masks::NONE; Season::TEAMS];
    let words = &mut all[..check.sizes.teams];
    games.lay_hosted(words);
    fill_columns(c.range(), c.s, check.sizes.slots, words, out);
}

// GA1: CA4's games of the home side.
#[tactic(auto, using(opponents::proofs::Checkable::check_rules), unfolding(robinx::specs::Kinds::form_of, robinx::specs::Deviations::dev_ga1))]
pub fn fill_ga1(check: &Check, out: &mut [u32])
    requires { HasRoom check.now out.old × (kind_of check.now.constraint.kind ≡ Ga1) }
    ensures { out.new ≡ of_check dev_ga1 check.now }
{
    let games = Meetings {
        check,
        sides: Sides::Home,
    };
    games.fill_one(out);
}
