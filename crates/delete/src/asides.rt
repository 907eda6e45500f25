// The entries that CondenseTree sets aside, to be inserted again.

ghost use Rattle.std.specs.Prelude.{◌≡◌, [], ◌∷◌, ◌++◌, ◌+◌, ◌≤◌, ◌<◌, length};

use free_slots::FreeSlots;
use rules::{Entry, LEAST, MOST_HEIGHT};

// A node that leaves has fewer entries than the least, and there is at most one for each level
// below the root.
const MOST_ASIDE: usize = (LEAST - 1) * (MOST_HEIGHT - 1);

// An entry set aside, and the level of the node that it was in.
#[derive(Clone, Copy)]
pub struct SetAside {
    pub level: usize,
    pub entry: Entry,
}

// What CondenseTree has in hand on its way up: the entries set aside, the first `count` of the
// list, and what is known of the free slots. An array and a count: there is no heap, and memory is
// fixed.
#[derive(Drop)]
pub struct Asides {
    pub list: [SetAside; MOST_ASIDE],
    pub count: usize,
    pub free: FreeSlots,
    ghost long: { length list ≡ 14 },
    ghost few: { count ≤ 14 },
}

impl Asides {
    ghost use Rattle.delete.specs.Aside.{aside, asides_of};

    // Nothing is set aside yet.
    pub fn none(free: FreeSlots) -> Asides
        ensures is { asides_of result ≡ [] }
        ensures free { result.free ≡ free }
    {
        let none = SetAside {
            level: 0,
            entry: pool::no_entry(),
        };
        Asides {
            list: [none; MOST_ASIDE],
            count: 0,
            free,
        }
    }

    // One more is set aside, last.
    pub fn push(&mut self, level: usize, entry: Entry)
        requires { self.old.count < 14 }
        ensures is { asides_of self.new ≡ asides_of self.old ++ aside level entry ∷ [] }
        ensures count { self.new.count ≡ self.old.count + 1 }
        ensures free { self.new.free ≡ self.old.free }
    {
        self.list[self.count] = SetAside { level, entry };
        self.count += 1;
    }
}
