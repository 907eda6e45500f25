// A group of places, and what is known of it while others join it.

ghost use Rattle.std.specs.Prelude.{◌≡◌, [], ◌∷◌, ◌++◌, ◌+◌, ◌<◌, get_or, length};
ghost use Rattle.rules.specs.Lists.{without};

use crate::left::Left;
use crate::measured::Measured;
use rules::NINE;

// Places in the order of joining, with zeros after them.
#[derive(Clone, Copy)]
pub struct Group {
    pub places: [usize; NINE],
    pub count: usize,
}

// A group to which places are added, its cover, and its enlargement for each of the places left,
// kept at the place.
#[derive(Clone, Copy)]
pub struct Growing {
    pub group: Group,
    pub cover: Measured,
    pub grows: [u64; NINE],
    ghost long: { (length group.places ≡ 9) × (length grows ≡ 9) },
}

impl Growing {
    ghost use Rattle.split.specs.State.{rects_of, standing, joined, Grows, GroupOk};

    // QS1: a seed alone. Nothing is measured yet.
    pub fn seed(nine: &[Measured; NINE], i: usize) -> Growing
        requires i_bound { i < 9 }
        ensures ok { GroupOk (rects_of nine.now) result.group result.cover.rect }
        ensures joined { joined result.group ≡ i ∷ [] }
        ensures count { result.group.count ≡ 1 }
    {
        let mut places = [0; NINE];
        places[0] = i;
        Growing {
            group: Group { places, count: 1 },
            cover: nine[i],
            grows: [0; NINE],
        }
    }

    pub fn measure(&mut self, nine: &[Measured; NINE], left: &Left)
        ensures grows { Grows (rects_of nine.now) self.old.cover.rect (standing left.now) self.new.grows }
        ensures group { self.new.group ≡ self.old.group }
        ensures cover { self.new.cover ≡ self.old.cover }
    {
        for i in 0..left.count() {
            let place = left.at(i);
            self.grows[place] = self.cover.enlargement(nine[place]);
        }
    }

    // The place at `at` of those left joins, last. The enlargements for the others are measured
    // again.
    pub fn join(&mut self, nine: &[Measured; NINE], left: &mut Left, at: usize)
        requires ok { GroupOk (rects_of nine.now) self.old.group self.old.cover.rect }
        requires room { self.old.group.count < 9 }
        requires at_bound { at < left.old.count }
        ensures left { standing left.new ≡ without at (standing left.old) }
        ensures fewer { left.new.count + 1 ≡ left.old.count }
        ensures joined { joined self.new.group ≡ joined self.old.group ++ get_or (standing left.old) at 0 ∷ [] }
        ensures ok { GroupOk (rects_of nine.now) self.new.group self.new.cover.rect }
        ensures count { self.new.group.count ≡ self.old.group.count + 1 }
        ensures grows { Grows (rects_of nine.now) self.new.cover.rect (standing left.new) self.new.grows }
    {
        let place = left.take(at);
        self.group.places[self.group.count] = place;
        self.group.count += 1;
        self.cover = self.cover.cover(nine[place]);
        self.measure(nine, left);
    }
}
