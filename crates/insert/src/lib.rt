// Insert: ChooseLeaf down, SplitNode and AdjustTree up. Deletes put entries back by the same rules,
// each at its own level.
#![tactic(auto)]

ghost use Rattle.std.specs.Prelude.{◌≡◌, true, Some, suc, ◌-◌, ◌≤◌, ltb};
ghost use Rattle.std.specs.Prelude.{[], ◌∷◌, ◌++◌, map, length, take};
ghost use Rattle.rules.specs.Numbers.{good_number};
ghost use Rattle.rules.specs.Geometry.{valid};
ghost use Rattle.rules.specs.Owners.{owner_sound};
ghost use Rattle.rules.specs.Layout as L;
ghost use Rattle.rules.specs.Pool as P;
ghost use Rattle.rules.specs.Insert as I;
ghost use Rattle.rules.specs.Room.{way_up, full_run, slots_needed};
ghost use Rattle.layout_laws.specs.Slots.{Fit, InPool, SmallAll, KindAll};
ghost use Rattle.pool.specs.Reading.{read, entries_of};
ghost use Rattle.nodes.specs.Reading.{LeadsOn};
ghost use Rattle.free_slots.specs.Known.{Known};
ghost use Rattle.sound_laws.specs.Tree.{Whole};
ghost use Rattle.insert_laws.specs.Grown.{Fits};
ghost use Rattle.insert.specs.Left.{GrewTo, Leaves, MayGo, Upright};
ghost use Rattle.insert.specs.State.{Inside, Here, WayDown, GoesDown, Beside, Fitted};
ghost use Rattle.insert.specs.State.{grown_of, widened, Back, Risen};

use free_slots::FreeSlots;
use pool::node::{Node, Pool};
use rules::{Entry, MOST, NINE, Pointer, Record, Rect, SlotNumber};

// A node that has taken an entry, and what is known of the free slots now: it is still one node, or
// it is two, and the partner's entry is for the parent.
#[derive(Clone, Copy)]
pub struct Growth {
    pub partner: Option<Entry>,
    pub free: FreeSlots,
}

// Below, None is a change that is refused: "the rules call for a slot at a moment when none is
// free". One that is made leaves what is known of the free slots now.

// ---- SplitNode

// "A full node splits over nine entries, the eight in stored order and the new one ninth."
fn nine_entries(node: &Node<'_>, e: Entry) -> [Entry; NINE]
    requires { length (entries_of node.now) ≡ 8 }
    ensures { result ≡ entries_of node.now ++ e ∷ [] }
{
    let mut es = node.entries();
    es[MOST] = e;
    es
}

// Their rectangles. The array needs something in it before the loop: the first will do.
fn rects_of(es: [Entry; NINE]) -> [Rect; NINE]
    ensures { result ≡ P.rects es }
{
    let mut rects = [es[0].rect; NINE];
    for i in 0..NINE {
        rects[i] = es[i].rect;
    }
    rects
}

// The entries at the places of a group, first. There is no heap: the array has room for all nine.
fn group_of(es: [Entry; NINE], places: &[usize]) -> [Entry; NINE]
    requires few { length places.now ≤ 9 }
    requires inside { Inside places.now }
    ensures { take (length places.now) result ≡ map (P.entry_from es) places.now }
{
    let mut group = es;
    for i in 0..places.len() {
        group[i] = es[places[i]];
    }
    group
}

// A group of the nine becomes the node of a slot.
fn put_group(pool: &mut [i32], s: SlotNumber, level: usize, es: [Entry; NINE], places: &[usize])
    requires fit_2 { Fit pool.old }
    requires in_pool { InPool pool.old s }
    requires level_bound { level ≤ 4096 }
    requires few { length places.now ≤ 8 }
    requires inside { Inside places.now }
    requires small_all { SmallAll es 9 }
    requires kind_all { KindAll (L.edition_of pool.old) level es 9 }
    ensures is { L.read pool.new
        ≡ P.put_node (L.read pool.old) s (P.node level (map (P.entry_from es) places.now)) }
    ensures fit { Fit pool.new }
{
    let group = group_of(es, places);
    pool::put_node(pool, s, level, &group[..places.len()]);
}

// "Group 1 stays in the old slot. Group 2 takes the lowest free slot", t. What is left is the
// partner's entry, for the parent.
fn split_node(pool: &mut [i32], s: SlotNumber, e: Entry, t: SlotNumber) -> Entry
    requires fit_2 { Fit pool.old }
    requires here { Here (L.read pool.old) s e }
    requires in_bounds { 8 ≤ length (P.entries_at (L.read pool.old) s) }
    requires pool_value { P.lowest_free (L.read pool.old) ≡ Some t }
    ensures is { I.install I.ours (L.read pool.old) s e ≡ I.Split (L.read pool.new) result }
    ensures fit { Fit pool.new }
{
    let node = Node::at(pool, s);
    let level = node.level();
    let nine = nine_entries(&node, e);
    let g = split::split_nine(rects_of(nine));
    put_group(pool, s, level, nine, &g.one.places[..g.one.count]);
    put_group(pool, t, level, nine, &g.two.places[..g.two.count]);
    Entry {
        rect: g.coverTwo,
        pointer: Pointer::Child(t),
    }
}

// ---- down and up

// I2 and AT4: "A new entry goes last." A full node is split.
fn install(pool: &mut [i32], s: SlotNumber, e: Entry, free: FreeSlots) -> Option<Growth>
    requires fitted { Fitted pool.old free }
    requires here { Here (L.read pool.old) s e }
    ensures { GrewTo (I.install I.ours (L.read pool.old) s e) result pool.new }
{
    if Node::at(pool, s).count() < MOST {
        pool::add_entry(pool, s, e);
        return Some(Growth {
            partner: None,
            free,
        });
    }
    let t = free_slots::lowest(Pool::over(pool), free)?;
    let partner = split_node(pool, s, e, t);
    Some(Growth {
        partner: Some(partner),
        free: free_slots::less_slot(free, t),
    })
}

// AT3 where the child did not split: entry i of the node at s was tight before the new rectangle
// came below it, so the smallest rectangle that holds both is tight now. The child's entries are
// not looked at again.
fn widen(pool: &mut [i32], s: SlotNumber, i: usize, new: Rect)
    requires fit_2 { Fit pool.old }
    requires leads_on { LeadsOn (L.read pool.old) s i }
    ensures is { L.read pool.new ≡ widened (L.read pool.old) s i new }
    ensures fit { Fit pool.new }
{
    let old = Node::at(pool, s).rect(i);
    pool::put_rect_of(pool, s, i, geometry::cover(old, new));
}

// "AdjustTree sets each path cover tight and adds the partner last in the parent.": at the parent
// s, whose entry i leads to the child that an entry with the rectangle `new` went to or below.
fn adjust(pool: &mut [i32], s: SlotNumber, i: usize, grown: Growth, new: Rect) -> Option<Growth>
    requires { Back pool.old s i new grown }
    ensures { GrewTo (I.adjust I.ours s i (grown_of (L.read pool.old) grown)) result pool.new }
{
    let free = grown.free;
    let Some(partner) = grown.partner else {
        widen(pool, s, i, new);
        return Some(Growth {
            partner: None,
            free,
        });
    };
    nodes::tighten(pool, s, i);
    install(pool, s, partner, free)
}

// CL2 to CL4, then AT1 to AT5 on the way back: e goes into a node n levels below the node at s.
fn insert_below(
    pool: &mut [i32],
    n: usize,
    s: SlotNumber,
    e: Entry,
    free: FreeSlots,
) -> Option<Growth>
    requires fitted { Fitted pool.old free }
    requires goes_down { GoesDown (L.read pool.old) n s e }
    ensures { GrewTo (I.insert_below I.ours n (L.read pool.old) s e) result pool.new }
{
    if n == 0 {
        return install(pool, s, e, free);
    }
    let rect = e.rect;
    let node = Node::at(pool, s);
    let i = choose::choose_child(&node, rect);
    let c = node.child(i);
    let grown = insert_below(pool, n - 1, c, e, free)?;
    adjust(pool, s, i, grown, rect)
}

// ---- at the root

// I4: "If the root splits, a new root takes the lowest free slot then left, with entries for old
// root and partner in that order."
fn new_root(pool: &mut [i32], partner: Entry, free: FreeSlots) -> Option<FreeSlots>
    requires fitted { Fitted pool.old free }
    requires beside { Beside (L.read pool.old) partner }
    ensures { Leaves pool.old (I.grow_tree (I.Split (L.read pool.old) partner)) result pool.new }
{
    let tree = Pool::over(pool);
    let t = free_slots::lowest(tree, free)?;
    let root = tree.root();
    let height = tree.height();
    let old = Entry {
        rect: nodes::cover_of(&tree.node(root)),
        pointer: Pointer::Child(root),
    };
    pool::put_node(pool, t, height + 1, &[old, partner]);
    pool::put_root(pool, t, height + 1);
    Some(free_slots::less_slot(free, t))
}

// What became of the pool, by what became of its root.
fn grow_tree(pool: &mut [i32], grown: Growth) -> Option<FreeSlots>
    requires { Risen pool.old grown }
    ensures { Leaves pool.old (I.grow_tree (grown_of (L.read pool.old) grown)) result pool.new }
{
    match grown.partner {
        None => Some(grown.free),
        Some(partner) => new_root(pool, partner, grown.free),
    }
}

// ---- how many slots it takes

// Each of these is one test of a number or two, which no method of the library says more plainly.

// 1 for a full node, 0 for one with room.
fn one_if_full(node: &Node<'_>) -> usize
    ensures is { result ≡ length (full_run (L.read node.now.words.now) (node.now.slot ∷ [])) }
    ensures most { result ≤ 1 }
{
    if node.count() < MOST { 0 } else { 1 }
}

// How long the run of full nodes is: from the node that the rectangle comes to, n levels below the
// node at s, upward, as far as that node.
fn full_run(pool: Pool<'_>, n: usize, s: SlotNumber, new: Rect) -> usize
    requires { WayDown (read pool) n s new }
    ensures is { result ≡ length (full_run (read pool.entry)
        (way_up I.ours n (read pool.entry) s new)) }
    ensures most { result ≤ suc n }
{
    let node = pool.node(s);
    if n == 0 {
        return one_if_full(&node);
    }
    let i = choose::choose_child(&node, new);
    let c = node.child(i);
    let r = full_run(pool, n - 1, c, new);
    if r < n {
        return r;
    }
    n + one_if_full(&node)
}

// "the run of full nodes from the chosen leaf upward, plus one if the run includes the root": for
// what goes in at a level, 1 for a leaf.
pub fn needed(pool: Pool<'_>, level: usize, new: Rect) -> usize
    requires level_bound { level ≤ (read pool).height }
    requires way_down { WayDown (read pool) ((read pool).height - level) (read pool).root new }
    ensures { result ≡ slots_needed I.ours level (read pool.entry) new }
{
    let n = pool.height() - level;
    let root = pool.root();
    let r = full_run(pool, n, root, new);
    if r <= n { r } else { r + 1 }
}

// Whether there are fewer free slots than the insert takes. No entry takes more than one for each
// level and one more, so where there are that many the way is not looked at.
fn too_few(pool: Pool<'_>, level: usize, e: Entry, free: FreeSlots) -> bool
    requires upright { Upright (read pool) }
    requires level_bound { (level ≤ (read pool).height) × ((read pool).height ≤ 64) }
    requires fits { Fits (read pool) level e }
    ensures { result ≡ ltb free.count (slots_needed I.ours level (read pool.entry) e.rect) }
{
    let count = free.count;
    if pool.height() < count {
        return false;
    }
    let rect = e.rect;
    count < needed(pool, level, rect)
}

// ---- insert

// An entry goes in at a level; where the slots do not suffice, nothing is written.
pub fn insert_at(pool: &mut [i32], level: usize, e: Entry, free: FreeSlots) -> Option<FreeSlots>
    requires fit { Fit pool.old }
    requires upright { Upright (L.read pool.old) }
    requires level_bound { (level ≤ (L.read pool.old).height) × ((L.read pool.old).height ≤ 64) }
    requires may_go { MayGo (L.read pool.old) level e }
    requires known { Known (L.read pool.old) free }
    ensures { Leaves pool.old (I.insert_at I.ours level (L.read pool.old) e) result pool.new }
{
    let tree = Pool::over(pool);
    if too_few(tree, level, e, free) {
        return None;
    }
    let n = tree.height() - level;
    let root = tree.root();
    let grown = insert_below(pool, n, root, e, free)?;
    grow_tree(pool, grown)
}

// A record goes in, and is counted; where the slots do not suffice, nothing is written. It is
// counted first, and the count taken back: to count after a `?` wants a law that the count and the
// whole descent commute.
pub fn insert_record(pool: &mut [i32], r: Record, free: FreeSlots) -> Option<FreeSlots>
    requires fit { Fit pool.old }
    requires whole { Whole (L.read pool.old) }
    requires rect_value { (valid r.rect ≡ true) × (good_number r.number ≡ true)
        × (owner_sound (L.read pool.old).edition r.owner ≡ true) }
    requires known { Known (L.read pool.old) free }
    ensures { Leaves pool.old (I.insert_record I.ours (L.read pool.old) r) result pool.new }
{
    let n = Pool::over(pool).records();
    let counted = n + 1;
    pool::put_records(pool, counted);
    let rect = r.rect;
    let number = r.number;
    let owner = r.owner;
    let e = Entry {
        rect,
        pointer: Pointer::Number(number, owner),
    };
    let left = insert_at(pool, 1, e, free);
    if left.is_none() {
        pool::put_records(pool, n);
    }
    left
}
