// Guttman's quadratic split of nine rectangles into two groups, with the ties of document 01 and
// the half perimeters of Req 05. It knows nothing of pools: a place is a position among the nine,
// from 0. What is measured is kept: after a place has joined a group, only that group's
// enlargements are measured again. The arrays stand in `split_nine` and are lent; no function
// copies one.
#![tactic(auto)]

ghost use Rattle.std.specs.Prelude.{◌≡◌, ◌+◌, ◌<◌, get_or, take, pos};
ghost use Rattle.rules.specs.Geometry as G;
ghost use Rattle.rules.specs.Split as S;
ghost use Rattle.split.specs.State.{AllValid, rects_of, groups_of, Assigned, Next, ends, GroupsWhole};

pub use choice::Keyed;
pub use growing::{Group, Growing};
use left::Left;
pub use measured::Measured;
use nexts::pick_next;
use rules::{LEAST, NINE, Rect};
pub use seeds::Seeds;
use seeds::pick_seeds;

mod choice;
mod growing;
mod left;
mod measured;
mod nexts;
mod seeds;

fn measured_nine(nine: [Rect; NINE]) -> [Measured; NINE]
    requires { AllValid nine }
    ensures { rects_of result ≡ nine }
{
    let mut all = [Measured::new(nine[0]); NINE];
    for i in 1..NINE {
        all[i] = Measured::new(nine[i]);
    }
    all
}

// ---- the groups grow

// Least enlargement, then least in half perimeter, then smaller area, then smaller half perimeter,
// then fewer entries, then group 1: whether group 2 goes before group 1 for the place, with the
// rectangle r. A half perimeter is measured only where the rule before it ties.
fn second_first(one: &Growing, two: &Growing, place: usize, r: Measured) -> bool
    requires place_bound { place < 9 }
    requires grow_one_value { (pos (get_or one.now.grows place 0) ≡ G.enlargement one.now.cover.rect r.rect) × (pos (get_or two.now.grows place 0) ≡ G.enlargement two.now.cover.rect r.rect) }
    ensures { result ≡ S.second_first one.now.cover.rect two.now.cover.rect one.now.group.count two.now.group.count r.rect }
{
    let growOne = one.grows[place];
    let growTwo = two.grows[place];
    if growTwo != growOne {
        return growTwo < growOne;
    }
    let halfOne = one.cover.half_enlargement(r);
    let halfTwo = two.cover.half_enlargement(r);
    if halfTwo != halfOne {
        return halfTwo < halfOne;
    }
    if two.cover.area != one.cover.area {
        return two.cover.area < one.cover.area;
    }
    let aroundOne = one.cover.half_perimeter();
    let aroundTwo = two.cover.half_perimeter();
    if aroundTwo != aroundOne {
        return aroundTwo < aroundOne;
    }
    two.group.count < one.group.count
}

// The place that joins next, by its position among those left, and the group that it joins.
#[derive(Clone, Copy)]
pub enum Joining {
    One(usize),
    Two(usize),
}

// QS2 and QS3: which place joins which group. Where a group needs all that are left, the first of
// them joins it, and so on to the last.
fn next_joining(nine: &[Measured; NINE], one: &Growing, two: &Growing, left: &Left) -> Joining
    requires assigned { Assigned (rects_of nine.now) one.now two.now left.now }
    requires some { 0 < left.now.count }
    ensures { Next (rects_of nine.now) one.now two.now left.now result }
{
    let n = left.count();
    if one.group.count + n == LEAST {
        return Joining::One(0);
    }
    if two.group.count + n == LEAST {
        return Joining::Two(0);
    }
    let at = pick_next(nine, one, two, left);
    let place = left.at(at);
    if second_first(one, two, place, nine[place]) {
        Joining::Two(at)
    } else {
        Joining::One(at)
    }
}

// One place joins a group.
fn assign(nine: &[Measured; NINE], one: &mut Growing, two: &mut Growing, left: &mut Left)
    requires assigned { Assigned (rects_of nine.now) one.old two.old left.old }
    requires some { 0 < left.old.count }
    ensures is { ends (rects_of nine.now) left.new.count (groups_of one.new two.new left.new) ≡ ends (rects_of nine.now) left.old.count (groups_of one.old two.old left.old) }
    ensures ok { Assigned (rects_of nine.now) one.new two.new left.new }
    ensures fewer { left.new.count + 1 ≡ left.old.count }
{
    match next_joining(nine, one, two, left) {
        Joining::One(at) => one.join(nine, left, at),
        Joining::Two(at) => two.join(nine, left, at),
    }
}

// ---- all nine

// The two groups, and the cover of group 2, which gets an entry of its own.
#[derive(Clone, Copy)]
pub struct Grouping {
    pub one: Group,
    pub two: Group,
    pub coverTwo: Rect,
}

// Nine rectangles in two groups, by Guttman's quadratic split. The earlier seed opens group 1, and
// the places that are no seeds join the groups, one after another.
pub fn split_nine(nine: [Rect; NINE]) -> Grouping
    requires { AllValid nine }
    ensures one { take result.one.count result.one.places ≡ (S.quadratic_groups nine).one }
    ensures two { take result.two.count result.two.places ≡ (S.quadratic_groups nine).two }
    ensures whole { GroupsWhole nine result }
{
    let nine = measured_nine(nine);
    let seeds = pick_seeds(&nine);
    let mut left = Left::beside(seeds.first, seeds.second);
    let mut one = Growing::seed(&nine, seeds.first);
    let mut two = Growing::seed(&nine, seeds.second);
    one.measure(&nine, &left);
    two.measure(&nine, &left);
    // A `while`, since no index is counted: each turn takes one of the places left.
    while 0 < left.count() {
        assign(&nine, &mut one, &mut two, &mut left);
    }
    Grouping {
        one: one.group,
        two: two.group,
        coverTwo: two.cover.rect,
    }
}
