// The places that are in no group yet, in stored order: the first `count` of the array.

ghost use Rattle.std.specs.Prelude.{◌≡◌, ◌+◌, ◌≤◌, ◌<◌, get_or, length, take};
ghost use Rattle.rules.specs.Lists.{up_from, without};
ghost use Rattle.rules.specs.Split as S;
ghost use Rattle.split.specs.Stored.{Stored, Stored-prop};

use rules::NINE;

#[derive(Drop)]
pub struct Left {
    places: [usize; NINE],
    count: usize,
    ghost long: { length places ≡ 9 },
    ghost few: { count ≤ 9 },
    ghost stored: { Stored (take count places) } by { Stored-prop (take count places) },
}

impl Left {
    ghost use Rattle.split.specs.State.{standing};

    // All of the nine but the seeds i and j.
    pub fn beside(i: usize, j: usize) -> Left
        requires { (i < j) × (j < 9) }
        ensures count { result.count ≡ 7 }
        ensures is { standing result ≡ S.leaving j (S.leaving i (up_from 0 9)) }
    {
        let mut left = Left {
            places: [0, 1, 2, 3, 4, 5, 6, 7, 8],
            count: NINE,
        };
        left.take(i);
        left.take(j - 1);
        left
    }

    pub fn count(&self) -> usize
        ensures { result ≡ self.now.count }
    {
        self.count
    }

    pub fn at(&self, i: usize) -> usize
        requires { i < self.now.count }
        ensures is { result ≡ get_or (standing self.now) i 0 }
        ensures inside { result < 9 }
    {
        self.places[i]
    }

    // The place at `at` is left out, and the later ones close up.
    pub fn take(&mut self, at: usize) -> usize
        requires { at < self.old.count }
        ensures is { result ≡ get_or (standing self.old) at 0 }
        ensures inside { result < 9 }
        ensures count { self.new.count + 1 ≡ self.old.count }
        ensures rest { standing self.new ≡ without at (standing self.old) }
    {
        let place = self.places[at];
        self.places.copy_within(at + 1..self.count, at);
        self.count -= 1;
        place
    }
}
