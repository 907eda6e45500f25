// Delete: the pair is taken out of its leaf, CondenseTree goes up the way that FindLeaf came down,
// and what was set aside is put in again.
#![tactic(auto)]

ghost use Rattle.std.specs.Prelude.{◌≡◌, true, Some, [], ◌++◌, ◌+◌, ◌-◌, ◌≤◌, ◌<◌, length};
ghost use Rattle.rules.specs.Pool as P;
ghost use Rattle.rules.specs.Sound.{owners_sound};
ghost use Rattle.rules.specs.Layout as L;
ghost use Rattle.rules.specs.Insert as I;
ghost use Rattle.rules.specs.Delete as D;
ghost use Rattle.layout_laws.specs.Slots.{Fit, InPool};
ghost use Rattle.pool.specs.Reading.{read, entries_of};
ghost use Rattle.free_slots.specs.Known.{Known};
ghost use Rattle.sound_laws.specs.Tree.{Whole};
ghost use Rattle.insert_laws.specs.Standing.{Standing};
ghost use Rattle.delete_laws.specs.Way.{leaf_of, KeepsEnough};
ghost use Rattle.delete_laws.specs.Shrunk.{Waiting, condensed};
ghost use Rattle.find_leaf.specs.Ways.{Gives, path_of};
ghost use Rattle.insert.specs.Left.{HoldsPool};
ghost use Rattle.delete.specs.Removed.{Removes};
ghost use Rattle.delete.specs.Aside.{asides_of, OwnedAside, Has, Rewritable, ChildAt, ComesDown};
ghost use Rattle.delete.specs.Aside.{thin_at, wide_at, StillKnown};

use asides::Asides;
use find_leaf::Way;
use free_slots::FreeSlots;
use pool::node::{Node, Pool};
use rules::{LEAST, Record, SlotNumber};

mod asides;

// ---- D2, and CT3 and CT4 at one node

// An entry is taken out of its node. "Later entries close up; the freed place is zeroed."
fn take_out(pool: &mut [i32], s: SlotNumber, i: usize)
    requires fit_2 { Fit pool.old }
    requires rewritable { Rewritable (L.read pool.old) s }
    requires i_in_bounds { i < length (P.entries_at (L.read pool.old) s) }
    ensures is { L.read pool.new ≡ D.take_out (L.read pool.old) (D.place s i) }
    ensures fit { Fit pool.new }
{
    pool::take_entry(pool, s, i);
}

// "its slot is zeroed and free at once"
fn zero_slot(pool: &mut [i32], s: SlotNumber)
    requires fit_2 { Fit pool.old }
    requires in_pool { InPool pool.old s }
    ensures is { L.read pool.new ≡ P.zero_slot (L.read pool.old) s }
    ensures fit { Fit pool.new }
{
    pool::put_node(pool, s, 0, &[]);
}

// "its entries are set aside", after those of the levels below, each with its node's level.
fn set_aside(node: &Node<'_>, asides: &mut Asides)
    requires { asides.old.count + length (entries_of node.now) ≤ 14 }
    ensures is { asides_of asides.new
        ≡ asides_of asides.old ++ D.asides (L.read node.now.words.now) node.now.slot }
    ensures free { asides.new.free ≡ asides.old.free }
{
    let level = node.level();
    for k in 0..node.count() {
        asides.push(level, node.entry(k));
    }
}

// CT3 and CT4 at place i of the node at s, whose child is t: "a non-root node with fewer than 3
// entries leaves its parent, its entries are set aside, and its slot is zeroed and free at once";
// else its cover is made tight.
fn relieve(pool: &mut [i32], s: SlotNumber, i: usize, t: SlotNumber, asides: &mut Asides)
    requires fit { Fit pool.old }
    requires child_at { ChildAt (L.read pool.old) s i t }
    requires known { Known (L.read pool.old) asides.old.free }
    requires count_bound { asides.old.count ≤ 12 }
    ensures { Has (D.relieve (D.place s i) t (condensed (L.read pool.old) (asides_of asides.old)))
        asides.new pool.new }
{
    let child = Node::at(pool, t);
    if child.count() < LEAST {
        set_aside(&child, asides);
        take_out(pool, s, i);
        zero_slot(pool, t);
        asides.free = free_slots::more_slot(asides.free, t);
    } else {
        nodes::tighten(pool, s, i);
    }
}

// ---- where nothing is set aside

// Whether a leaf would be left with too few entries, and leave its parent: only then is anything
// set aside. A root that is a leaf may have any number.
fn thin(pool: Pool<'_>, leaf: SlotNumber) -> bool
    requires { InPool pool.words.now leaf }
    ensures { result ≡ thin_at (read pool.entry) leaf }
{
    (pool.node(leaf).count() <= LEAST) & (1 < pool.height())
}

// CT4 at place i of the node at s, whose child is t: its cover is made tight. Whether that changed
// it: a cover that is tight is not written again.
fn tightened(pool: &mut [i32], s: SlotNumber, i: usize, t: SlotNumber) -> bool
    requires fit_2 { Fit pool.old }
    requires child_at { ChildAt (L.read pool.old) s i t }
    ensures is { L.read pool.new ≡ P.tighten (L.read pool.old) s i }
    ensures fit { Fit pool.new }
    ensures changed { result ≡ wide_at (L.read pool.old) s i }
{
    let rect = nodes::cover_of(&Node::at(pool, t));
    let old = Node::at(pool, s).rect(i);
    if rect == old {
        return false;
    }
    pool::put_rect_of(pool, s, i, rect);
    true
}

// D2 and CT4 for a leaf that is not thin: the pair goes out, and covers are made tight up the way,
// as far as they change. Above a cover that stays as it was the nodes are as they were, and their
// covers were tight.
fn tighten_up(pool: &mut [i32], way: Way, height: usize)
    requires fit_2 { Fit pool.old }
    requires comes_down { ComesDown (L.read pool.old) height way }
    requires keeps_enough { KeepsEnough (L.read pool.old) height (leaf_of (path_of height way)) }
    ensures is { L.read pool.new ≡ (D.condense (L.read pool.old) (path_of height way)).pool }
    ensures fit { Fit pool.new }
    ensures free { StillKnown (L.read pool.old) (L.read pool.new) }
{
    let steps = way.steps;
    take_out(pool, steps[0].node, steps[0].place);
    // By index, since a turn takes a step and the one below it; in `condense` too.
    for l in 1..height {
        let step = steps[l];
        if !tightened(pool, step.node, step.place, steps[l - 1].node) {
            return;
        }
    }
}

// ---- CondenseTree

// D2, then CT1 to CT5 up the way that FindLeaf came down.
fn condense(pool: &mut [i32], way: Way, height: usize, asides: &mut Asides)
    requires fit { Fit pool.old }
    requires comes_down { ComesDown (L.read pool.old) height way }
    requires known { Known (L.read pool.old) asides.old.free }
    requires none { asides_of asides.old ≡ [] }
    ensures { Has (D.condense (L.read pool.old) (path_of height way)) asides.new pool.new }
{
    let steps = way.steps;
    take_out(pool, steps[0].node, steps[0].place);
    for l in 1..height {
        let step = steps[l];
        relieve(pool, step.node, step.place, steps[l - 1].node, asides);
    }
}

// CT6: "entries set aside are inserted again, lowest level first, in stored order, each at its own
// level, by the insert rules".
fn reinsert(pool: &mut [i32], asides: &Asides) -> Option<FreeSlots>
    requires fit { Fit pool.old }
    requires waiting { Waiting (L.read pool.old) (asides_of asides.now)
        × OwnedAside (L.read pool.old).edition (asides_of asides.now) }
    requires known { Known (L.read pool.old) asides.now.free }
    requires height_bound { (L.read pool.old).height ≤ 8 }
    ensures is { Removes pool.old (D.reinsert I.ours (L.read pool.old) (asides_of asides.now))
        result pool.new }
    ensures high { (L.read pool.new).height ≤ 22 }
{
    let mut free = asides.free;
    for a in &asides.list[..asides.count] {
        free = insert::insert_at(pool, a.level, a.entry, free)?;
    }
    Some(free)
}

// ---- Delete

// D4: "Last, an inner root with one child is freed and that child is root."
fn shorten(pool: &mut [i32], free: FreeSlots) -> FreeSlots
    requires fit { Fit pool.old }
    requires standing { Standing (L.read pool.old) [] }
    requires pool_bound { (L.read pool.old).height ≤ 64 }
    requires known { Known (L.read pool.old) free }
    ensures { HoldsPool (D.shorten (L.read pool.old)) result pool.new }
{
    let tree = Pool::over(pool);
    let s = tree.root();
    let height = tree.height();
    if height == 1 {
        return free;
    }
    let root = tree.node(s);
    if root.count() == 1 {
        let t = root.child(0);
        zero_slot(pool, s);
        pool::put_root(pool, t, height - 1);
        return free_slots::more_slot(free, s);
    }
    free
}

// CT6, then D4.
fn put_back(pool: &mut [i32], asides: &Asides) -> Option<FreeSlots>
    requires fit { Fit pool.old }
    requires waiting { Waiting (L.read pool.old) (asides_of asides.now)
        × OwnedAside (L.read pool.old).edition (asides_of asides.now) }
    requires known { Known (L.read pool.old) asides.now.free }
    requires height_bound { (L.read pool.old).height ≤ 8 }
    ensures { Removes pool.old
        (D.put_back I.ours (condensed (L.read pool.old) (asides_of asides.now))) result pool.new }
{
    let after = reinsert(pool, asides)?;
    Some(shorten(pool, after))
}

// The count goes down by one.
fn count_off(pool: &mut [i32])
    requires fit_2 { Fit pool.old }
    requires bound { (1 ≤ (L.read pool.old).records) × ((L.read pool.old).records ≤ 2147483647) }
    ensures is { L.read pool.new ≡ P.put_records (L.read pool.old) ((L.read pool.old).records - 1) }
    ensures fit { Fit pool.new }
{
    let n = Pool::over(pool).records();
    pool::put_records(pool, n - 1);
}

// D1 to D4 for a pair that is held, by the way that FindLeaf found to it. From a leaf that is not
// thin nothing is set aside: no slot is taken or freed, and the root stays. Where this is refused,
// the pool is left half done, and the caller writes over it: a caller that cannot know that there
// are enough slots keeps a copy.
pub fn delete_record(pool: &mut [i32], r: Record, way: Way, free: FreeSlots) -> Option<FreeSlots>
    requires fit { Fit pool.old }
    requires whole { Whole (L.read pool.old) × (owners_sound (L.read pool.old) ≡ true) }
    requires known { Known (L.read pool.old) free }
    requires gives { Gives (D.path_to (L.read pool.old) r) (L.read pool.old).height (Some way) }
    ensures { Removes pool.old (D.delete_record I.ours (L.read pool.old) r) result pool.new }
{
    let height = Pool::over(pool).height();
    count_off(pool);
    let steps = way.steps;
    if !thin(Pool::over(pool), steps[0].node) {
        tighten_up(pool, way, height);
        return Some(free);
    }
    let mut asides = Asides::none(free);
    condense(pool, way, height, &mut asides);
    put_back(pool, &asides)
}
