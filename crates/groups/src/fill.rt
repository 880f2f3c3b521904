// A figure for each member of a group (or for each set bit that a walk has left, such as slots), or for each pair of members, and the sum of the
// members' figures. They are generic in the figure, so that each call of it is compiled in place.

ghost use Rattle.std.specs.Prelude.{◌≡◌, ℕ, ◌*◌, ◌<◌, ◌≤◌, ◌^◌, length};
ghost use Rattle.std.specs.Int.Count.{ones};
ghost use Rattle.robinx.specs.Season.{most_teams, most_slots};
ghost use Rattle.groups.specs.Pairs.{pairs_in};
ghost use Rattle.groups.specs.Figures.{OfMembers, OfPairs, FigureOfEach, EachFigure, EachPairFigure, TotalFigure};

use crate::members;
use bits::SetBits;

// The figure of each set bit that the walk has left, lowest first.
pub fn fill<F: Fn(usize) -> u32>(walk: SetBits, figure: F, out: &mut [u32])
    requires room { length out.old ≡ ones walk.rest }
    requires callable { OfMembers most_slots walk.rest (F.pre figure) }
    ensures { FigureOfEach most_slots walk.rest (F.post figure) out.new }
{
    // by place: of what a zip of `iter_mut` wrote, the library says nothing once the loop is over
    for (at, t) in walk.enumerate() {
        out[at] = figure(t);
    }
}

// The figure of each member, lowest first.
pub fn fill_each<F: Fn(usize) -> u32>(group: u32, figure: F, out: &mut [u32])
    requires room { length out.old ≡ ones group }
    requires callable { OfMembers most_teams group (F.pre figure) }
    ensures { EachFigure group (F.post figure) out.new }
{
    fill(members(group), figure, out);
}

// The figure of each pair of members, lower one first. The places are counted by hand, since they run on from one row of pairs to the next.
pub fn fill_pairs<F: Fn(usize, usize) -> u32>(group: u32, figure: F, out: &mut [u32])
    requires room { length out.old ≡ pairs_in group }
    requires callable { OfPairs most_teams group (F.pre figure) }
    ensures { EachPairFigure group (F.post figure) out.new }
{
    let mut at = 0;
    let mut higher = members(group);
    // the members that the walk has not come to are those above i
    while let Some(i) = higher.next() {
        for j in higher {
            out[at] = figure(i, j);
            at += 1;
        }
    }
}

// The sum of the members' figures, which are so small that no sum of them is too large.
pub fn total<F: Fn(usize) -> u32>(group: u32, figure: F) -> u32
    requires callable { OfMembers most_teams group (F.pre figure) }
    requires small { OfMembers most_teams group (λ t. (r : ℕ) → F.post figure t r → most_teams * r < 2 ^ 32) }
    ensures { TotalFigure group (F.post figure) result }
{
    members(group).map(figure).sum()
}
