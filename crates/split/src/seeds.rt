// PickSeeds: which two of the nine open the groups.

ghost use Rattle.std.specs.Prelude.{◌≡◌, ◌<◌, length};
ghost use Rattle.rules.specs.Split as S;
ghost use Rattle.split.specs.State.{rects_of, seeds_of, Wasting, wastes_more};
ghost use Rattle.split.specs.Orders.{by_waste};

use crate::choice::{Choice, Keyed, best_of};
use crate::measured::Measured;
use rules::NINE;

// Two places, the earlier first.
#[derive(Clone, Copy)]
pub struct Seeds {
    pub first: usize,
    pub second: usize,
}

// PS1: the pairs with one first member.
#[derive(Clone, Copy)]
pub struct Pairs<'a> {
    nine: &'a [Measured; NINE],
    first: usize,
    ghost long: { length nine.now ≡ 9 },
}

impl<'a> Choice<Seeds> for Pairs<'a> {
    ghost item = { λ c j. record { first = c.first; second = j } };

    ghost better = { λ c. wastes_more (rects_of c.nine.now) };

    ghost There = { λ c j. (c.first < j) × (j < 9) };

    ghost Right = { λ c. Wasting (rects_of c.nine.now) };

    fn at(&self, second: usize) -> Keyed<Seeds> {
        let first = self.first;
        let key = self.nine[first].waste(self.nine[second]);
        Keyed {
            item: Seeds { first, second },
            key,
        }
    }

    // PS2 with Req 05: d in half perimeter.
    fn more_by_half(&self, a: Seeds, b: Seeds) -> bool {
        let own = self.nine[a.first].half_waste(self.nine[a.second]);
        let other = self.nine[b.first].half_waste(self.nine[b.second]);
        other < own
    }

    ghost by_key = { λ c. by_waste (rects_of c.nine.now) };
}

// Largest d, then largest d in half perimeter, then earliest first member, then earliest second.
// The first pair is in hand before the first row.
pub fn pick_seeds(nine: &[Measured; NINE]) -> Seeds
    ensures is { seeds_of result ≡ S.pick_seeds (rects_of nine.now) }
    ensures inside { (result.first < result.second) × (result.second < 9) }
{
    let row = Pairs { nine, first: 0 };
    let mut b = best_of(&row, 2, NINE, row.at(1));
    for first in 1..NINE {
        b = best_of(&Pairs { nine, first }, first + 1, NINE, b);
    }
    b.item
}
