// FindLeaf, in a whole pool: the way down to the first exact pair. It is recursive with the level
// falling; from call to call the way is one number, and it is written out level by level only where
// it is asked for.
#![tactic(auto)]

ghost use Rattle.std.specs.Prelude.{◌≡◌, ◌+◌, ◌*◌, ◌/◌, ◌%◌, ◌^◌, ◌≤◌, ◌<◌};
ghost use Rattle.rules.specs.Lists.{one_of};
ghost use Rattle.rules.specs.Layout as L;
ghost use Rattle.rules.specs.Pool as P;
ghost use Rattle.rules.specs.Delete as D;
ghost use Rattle.sound_laws.specs.Tree.{Tree, Whole};
ghost use Rattle.pool.specs.Reading.{read, node_of, entries_of};
ghost use Rattle.find_leaf.specs.Ways.{Gives};
ghost use Rattle.find_leaf.specs.Packed.{bits_below, packed_way};
ghost use Rattle.find_leaf.specs.State.{has_number, holding};

use geometry::one_if;
use pool::node::{Node, Pool};
use rules::{Edition, MOST, MOST_HEIGHT, Record, RecordNumber, Rect, SlotNumber};

// A step of the way down: the node that is passed, and the entry's place in it.
#[derive(Clone, Copy)]
pub struct Step {
    pub node: SlotNumber,
    pub place: usize,
}

// The way down to a pair: a step for each level, from 1 on.
#[derive(Clone, Copy)]
pub struct Way {
    pub steps: [Step; MOST_HEIGHT],
}

// What stands above the height.
const NO_STEP: Step = Step {
    node: SlotNumber(0),
    place: 0,
};

// ---- a way as one number

// 0 for none; else 2^31, and three bits of the place at each level, the leaf's lowest. A number
// comes back from a call in a register; a `Way` would be copied at each level.
const FOUND: usize = 2147483648;

const PLACE_BITS: usize = 3;

// How many bits are below those of a level's place.
fn bits_below(level: usize) -> usize
    requires le_level { 1 ≤ level }
    requires level_bound { level ≤ 8 }
    ensures { result ≡ bits_below level }
{
    PLACE_BITS * (level - 1)
}

// The way w, which goes on below the level given, with place i in front of it.
fn with_place(w: usize, level: usize, i: usize) -> usize
    requires le_level { 1 ≤ level }
    requires level_bound { level ≤ 8 }
    requires i_bound { i < 8 }
    requires w_bound { w < 4294967296 }
    ensures { result ≡ w + i * 2 ^ bits_below level }
{
    w + (i << bits_below(level))
}

// The place that it has at a level.
fn place_in(w: usize, level: usize) -> usize
    requires le_level { 1 ≤ level }
    requires level_bound { level ≤ 8 }
    ensures { result ≡ w / 2 ^ bits_below level % 8 }
{
    (w >> bits_below(level)) % MOST
}

// ---- FL2: a leaf

// Whether some entry of the leaf has the number. All are looked at and nothing branches on one: a
// branch that the processor guesses wrong costs more than the comparisons that it would save.
fn has_number_in(node: &Node<'_>, k: RecordNumber) -> bool
    requires { (node_of node.now).level ≡ 1 }
    ensures { result ≡ one_of (has_number k) (entries_of node.now) }
{
    let mut any = false;
    for i in 0..node.count() {
        any |= k == node.number(i);
    }
    any
}

// .. with an arm for each edition, as in `gather` of `search`: in each the compiler knows how many
// words an entry has, and unrolls the loop.
fn has_number(node: &Node<'_>, k: RecordNumber) -> bool
    requires { (node_of node.now).level ≡ 1 }
    ensures { result ≡ one_of (has_number k) (entries_of node.now) }
{
    match node.edition {
        Edition::One => has_number_in(&node.in_edition(Edition::One), k),
        Edition::Two => has_number_in(&node.in_edition(Edition::Two), k),
    }
}

// The first of its entries that is the pair. Most leaves have no entry of the number.
fn find_entry(node: &Node<'_>, r: Record) -> usize
    requires { (node_of node.now).level ≡ 1 }
    ensures { result ≡ packed_way (D.find_leaf (L.read node.now.words.now) r 1 node.now.slot) }
{
    if !has_number(node, r.number) {
        return 0;
    }
    let n = node.count();
    for at in 0..n {
        if geometry::exact_pair(r, nodes::record_of(node.entry(at))) {
            return FOUND + at;
        }
    }
    0
}

// ---- FL1: an inner node

// The places of the entries that hold the rectangle, in stored order. Each place is written down,
// and the next goes over one that does not hold it: so nothing branches on the outcome, which the
// processor would often guess wrong. Of the comparison only this half is asked: a rectangle with no
// low above its high meets what it lies in.
fn hits_in<'a>(node: &Node<'_>, r: Rect, places: &'a mut [usize; MOST]) -> &'a [usize]
    ensures { result.now ≡ holding (L.read node.now.words.now) node.now.slot r }
{
    let mut count: usize = 0;
    for i in 0..node.count() {
        places[count] = i;
        count += one_if(geometry::lies_in(r, node.rect(i)));
    }
    &places[..count]
}

// .. with an arm for each edition, as in `has_number`.
fn hits<'a>(node: &Node<'_>, r: Rect, places: &'a mut [usize; MOST]) -> &'a [usize]
    ensures { result.now ≡ holding (L.read node.now.words.now) node.now.slot r }
{
    match node.edition {
        Edition::One => hits_in(&node.in_edition(Edition::One), r, places),
        Edition::Two => hits_in(&node.in_edition(Edition::Two), r, places),
    }
}

// FindLeaf from the node at s down, which has the level given: "FindLeaf visits children in stored
// order". It goes only below entries that hold the pair's rectangle: a cover that does not hold it
// has no such pair below. Where a child has nothing, it comes back to the next.
fn find_in(pool: Pool<'_>, r: Record, level: usize, s: SlotNumber) -> usize
    requires tree { Tree (read pool) level s }
    requires level_bound { level ≤ 8 }
    ensures { result ≡ packed_way (D.find_leaf (read pool.entry) r level s) }
{
    let node = pool.node(s);
    if level == 1 {
        return find_entry(&node, r);
    }
    let mut places = [0usize; MOST];
    let hits = hits(&node, r.rect, &mut places);
    for &i in hits {
        let w = find_in(pool, r, level - 1, node.child(i));
        if w != 0 {
            return with_place(w, level, i);
        }
    }
    0
}

// ---- FindLeaf

// "FindLeaf visits children in stored order; the first exact pair found goes."
pub fn find_leaf(pool: Pool<'_>, r: Record) -> Option<Way>
    requires { Whole (read pool) }
    ensures { Gives (D.path_to (read pool.entry) r) (read pool.entry).height result }
{
    let h = pool.height();
    let mut s = pool.root();
    let w = find_in(pool, r, h, s);
    if w == 0 {
        return None;
    }
    let mut steps = [NO_STEP; MOST_HEIGHT];
    for l in (1..h).rev() {
        let place = place_in(w, l + 1);
        steps[l] = Step { node: s, place };
        s = pool.node(s).child(place);
    }
    let place = place_in(w, 1);
    steps[0] = Step { node: s, place };
    Some(Way { steps })
}

// "pair held": FindLeaf finds a pair exactly where some leaf has it.
pub fn holds(pool: Pool<'_>, r: Record) -> bool
    requires { Whole (read pool) }
    ensures { result ≡ P.held (read pool.entry) r }
{
    find_in(pool, r, pool.height(), pool.root()) != 0
}
