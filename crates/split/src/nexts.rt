// PickNext: which of the places left joins a group next.

ghost use Rattle.std.specs.Prelude.{◌≡◌, ◌<◌, get_or, length, pos};
ghost use Rattle.rules.specs.Choose.{rect_from};
ghost use Rattle.rules.specs.Split as S;
ghost use Rattle.split.specs.State.{rects_of, standing, Grows, Preferring, prefers, Choosing};
ghost use Rattle.split.specs.Orders.{by_preference};

use crate::choice::{Choice, Keyed, best_of};
use crate::growing::Growing;
use crate::left::Left;
use crate::measured::Measured;
use rules::NINE;

// PN1: the places left, by position, between two groups.
#[derive(Clone, Copy)]
pub struct Nexts<'a> {
    nine: &'a [Measured; NINE],
    one: &'a Growing,
    two: &'a Growing,
    left: &'a Left,
    ghost long: { length nine.now ≡ 9 },
}

impl<'a> Choice<usize> for Nexts<'a> {
    ghost item = { λ _ i. i };

    ghost better = { λ c. prefers (rects_of c.nine.now) c.one.now.cover.rect c.two.now.cover.rect (standing c.left.now) };

    ghost There = { λ c. Choosing (rects_of c.nine.now) c.one.now c.two.now c.left.now };

    ghost Right = { λ c. Preferring (rects_of c.nine.now) c.one.now.cover.rect c.two.now.cover.rect c.left.now };

    fn at(&self, i: usize) -> Keyed<usize> {
        let place = self.left.at(i);
        let key = self.one.grows[place].abs_diff(self.two.grows[place]);
        Keyed { item: i, key }
    }

    // PN2 with Req 05: the difference of the enlargements in half perimeter.
    fn more_by_half(&self, a: usize, b: usize) -> bool {
        let more = self.half_preference(a);
        let less = self.half_preference(b);
        less < more
    }

    ghost by_key = { λ c. by_preference (rects_of c.nine.now) c.one.now.cover.rect c.two.now.cover.rect c.left.now };
}

impl<'a> Nexts<'a> {
    fn half_preference(&self, i: usize) -> u64
        requires { i < self.now.left.now.count }
        ensures { pos result ≡ S.half_preference self.now.one.now.cover.rect self.now.two.now.cover.rect (rect_from (rects_of self.now.nine.now) (get_or (standing self.now.left.now) i 0)) }
    {
        let r = self.nine[self.left.at(i)];
        let one = self.one.cover.half_enlargement(r);
        let two = self.two.cover.half_enlargement(r);
        one.abs_diff(two)
    }
}

// Largest absolute difference of the two enlargements, then largest in half perimeter, then
// earliest: where it stands among the places left.
pub fn pick_next(nine: &[Measured; NINE], one: &Growing, two: &Growing, left: &Left) -> usize
    requires some { 0 < left.now.count }
    requires grows { Grows (rects_of nine.now) one.now.cover.rect (standing left.now) one.now.grows }
    requires grows_2 { Grows (rects_of nine.now) two.now.cover.rect (standing left.now) two.now.grows }
    ensures there { result < left.now.count }
    ensures is { get_or (standing left.now) result 0 ≡ S.most_preferring (rects_of nine.now) one.now.cover.rect two.now.cover.rect (standing left.now) }
{
    let nexts = Nexts {
        nine,
        one,
        two,
        left,
    };
    best_of(&nexts, 1, left.count(), nexts.at(0)).item
}
