// PickSeeds and PickNext are one rule, with Req 05: the largest key, then the more by half
// perimeter, then the earliest.

ghost use Rattle.std.specs.Prelude.{◌≡◌, Bool, ℕ, cond, ltb, map, ◌-◌, ◌≤◌, ◌<◌};
ghost use Rattle.rules.specs.Lists.{earliest_best, up_from};

// What is chosen, and its key.
#[derive(Clone, Copy)]
pub struct Keyed<T> {
    pub item: T,
    pub key: u64,
}

// What is chosen among, by position, and the order that the definition has for it.
pub trait Choice<T: Copy> {
    ghost item: { Self → ℕ → T };

    ghost better: { Self → T → T → Bool };

    // .. the positions that there are, and what makes a key right.
    ghost There: { Self → ℕ → Type 0 };

    ghost Right: { Self → T → ℕ → Type 0 };

    fn at(&self, i: usize) -> Keyed<T>
        requires { There self.now i }
        ensures is { result.item ≡ item self.now i }
        ensures right { Right self.now result.item result.key };

    // Whether a goes before b, with equal keys and b the earlier. What is asked by half perimeter
    // is measured only here.
    fn more_by_half(&self, a: T, b: T) -> bool
        requires tie { (k : ℕ) × Right self.now a k × Right self.now b k }
        ensures { result ≡ better self.now a b };

    // Two keys that differ decide.
    ghost by_key: { (c : Self) (a b : T) (m n : ℕ) → Right c a m → Right c b n → (m ≡ n → ⊥) → better c a b ≡ ltb n m };
}

// Of two whose keys differ, the one with the larger.
fn larger<T: Copy>(best: Keyed<T>, other: Keyed<T>) -> Keyed<T>
    ensures { result ≡ cond (ltb best.key other.key) other best }
{
    if best.key < other.key { other } else { best }
}

// The better of two, the best so far and another after it.
fn better<T: Copy, C: Choice<T>>(c: &C, best: Keyed<T>, other: Keyed<T>) -> Keyed<T>
    requires right { C.Right c.now best.item best.key }
    requires right_2 { C.Right c.now other.item other.key }
    ensures { result ≡ cond (C.better c.now other.item best.item) other best }
{
    if other.key != best.key {
        return larger(best, other);
    }
    if c.more_by_half(other.item, best.item) {
        other
    } else {
        best
    }
}

// The best so far, and those at the positions from `from` to `to`, where a key has tied.
fn tied<T: Copy, C: Choice<T>>(c: &C, from: usize, to: usize, best: Keyed<T>) -> Keyed<T>
    requires range { from ≤ to }
    requires there { (i : ℕ) → from ≤ i → i < to → C.There c.now i }
    requires right { C.Right c.now best.item best.key }
    ensures is { result.item ≡ earliest_best (C.better c.now) best.item (map (C.item c.now) (up_from from (to - from))) }
    ensures right { C.Right c.now result.item result.key }
{
    let mut b = best;
    for i in from..to {
        b = better(c, b, c.at(i));
    }
    b
}

// .. where none has tied yet. What is asked in a tie stands in another loop, so that this one stays
// short.
pub fn best_of<T: Copy, C: Choice<T>>(c: &C, from: usize, to: usize, best: Keyed<T>) -> Keyed<T>
    requires range { from ≤ to }
    requires there { (i : ℕ) → from ≤ i → i < to → C.There c.now i }
    requires right { C.Right c.now best.item best.key }
    ensures is { result.item ≡ earliest_best (C.better c.now) best.item (map (C.item c.now) (up_from from (to - from))) }
    ensures right { C.Right c.now result.item result.key }
{
    let mut b = best;
    for i in from..to {
        let other = c.at(i);
        if other.key == b.key {
            return tied(c, i, to, b);
        }
        b = larger(b, other);
    }
    b
}
