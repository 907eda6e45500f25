// Search, in a whole pool: what it finds and how many nodes it opens, in one pass. The node
// function gathers the children that meet the window, and calls itself for each of them; the level
// falls. A leaf is a loop of its own. "All modes open the nodes whose cover meets the window": so
// the walk is the same in every mode and lists whatever meets the window, and of that the mode then
// keeps what it wants. Nor does it look at owners: in a pool of edition 2 the records of the owner
// who asks are then kept, of those that the mode wants.
//
// In a search the processor would guess wrong at about every second entry whether it meets the
// window, and a wrong guess costs more than the comparison. So no branch is taken on that: every
// place is written down, and the next place is one further where the entry meets the window.
#![tactic(auto)]

ghost use Rattle.std.specs.Prelude.{◌≡◌, ℕ, cond, ◌+◌, ◌*◌, ◌<◌, ◌≤◌, length};
ghost use Rattle.rules.specs.Numbers.{most};
ghost use Rattle.rules.specs.Layout as L;
ghost use Rattle.rules.specs.declared.Mode.TheVariants as M;
ghost use Rattle.rules.specs.Owners.{owner_in};
ghost use Rattle.rules.specs.Search as F;
ghost use Rattle.sound_laws.specs.Tree.{Tree, Whole};
ghost use Rattle.found_items.specs.Items.{spot_at};
ghost use Rattle.pool.specs.Reading.{read, node_of, entries_of};
ghost use Rattle.search.specs.State.{meets_at, found_at, meeting_places};
ghost use Rattle.search.specs.Walk.{walked, ItemRoom, Went, KeptBy, FindsAll, Finds};

use found_items::FoundItem;
use geometry::one_if;
use pool::node::{Node, Pool};
use rules::{Edition, MOST, Mode, Owner, Rect, SlotNumber};

// How far a walk has come: the next item's place, and the nodes opened.
#[derive(Clone, Copy)]
pub struct Walked {
    pub next: usize,
    pub opened: usize,
}

// ---- one node

// How far the next place moves on at the entry at place i: by 1 where it meets the window,
// "touching counts", otherwise not.
fn met(node: &Node<'_>, window: Rect, i: usize) -> usize
    requires { i < length (entries_of node.now) }
    ensures is { result ≡ cond (meets_at (L.read node.now.words.now) window node.now.slot i) 1 0 }
    ensures most { result ≤ 1 }
{
    one_if(geometry::is_meeting(geometry::compare(node.rect(i), window)))
}

// The places of the entries that meet the window, one after another. Every place is written down,
// and kept where its entry meets the window; otherwise the next is written over it.
fn gather_in<'a>(node: &Node<'_>, window: Rect, places: &'a mut [usize; MOST]) -> &'a [usize]
    ensures { result.now ≡ meeting_places (L.read node.now.words.now) window node.now.slot }
{
    let mut count: usize = 0;
    for i in 0..node.count() {
        places[count] = i;
        count += met(node, window, i);
    }
    &places[..count]
}

// .. with an arm for each edition: in each the compiler knows how many words an entry has, and
// unrolls the loop. (Tried: a method of `Node` that calls a closure in each arm. For functions that
// only read it proves; of what the closure of `list_leaf` writes to the items, no proof was found.)
fn gather<'a>(node: &Node<'_>, window: Rect, places: &'a mut [usize; MOST]) -> &'a [usize]
    ensures { result.now ≡ meeting_places (L.read node.now.words.now) window node.now.slot }
{
    match node.edition {
        Edition::One => gather_in(&node.in_edition(Edition::One), window, places),
        Edition::Two => gather_in(&node.in_edition(Edition::Two), window, places),
    }
}

// The item of the leaf's entry at place i is written at the next place, and kept where the entry
// meets the window; otherwise the next item is written over it. What comes back is the place after
// the items that are kept.
fn list_entry(node: &Node<'_>, window: Rect, i: usize, items: &mut [i32], next: usize) -> usize
    requires leaf { (node_of node.now).level ≡ 1 }
    requires i_in_bounds { i < length (entries_of node.now) }
    requires next_in_bounds { 2 * next + 2 ≤ length items.old }
    ensures { Went node.now.words.now items.old items.new (walked next 0) (walked result 0)
        (found_at (L.read node.now.words.now) window node.now.slot i) 0 }
{
    let item = FoundItem {
        number: node.number(i),
        spot: node.spot(i),
    };
    item.write(items, next);
    next + met(node, window, i)
}

// The records that search finds in the leaf become items, and the leaf is counted.
fn list_leaf_in(node: &Node<'_>, window: Rect, items: &mut [i32], done: Walked) -> Walked
    requires leaf { (node_of node.now).level ≡ 1 }
    requires item_room { ItemRoom items.old done
        (F.found_in (L.read node.now.words.now) M.Meeting window 1 node.now.slot) 1 }
    ensures { Went node.now.words.now items.old items.new done result
        (F.found_in (L.read node.now.words.now) M.Meeting window 1 node.now.slot) 1 }
{
    let mut next = done.next;
    for i in 0..node.count() {
        next = list_entry(node, window, i, items, next);
    }
    Walked {
        next,
        opened: done.opened + 1,
    }
}

// .. with an arm for each edition, as in `gather`.
fn list_leaf(node: &Node<'_>, window: Rect, items: &mut [i32], done: Walked) -> Walked
    requires leaf { (node_of node.now).level ≡ 1 }
    requires item_room { ItemRoom items.old done
        (F.found_in (L.read node.now.words.now) M.Meeting window 1 node.now.slot) 1 }
    ensures { Went node.now.words.now items.old items.new done result
        (F.found_in (L.read node.now.words.now) M.Meeting window 1 node.now.slot) 1 }
{
    match node.edition {
        Edition::One => list_leaf_in(&node.in_edition(Edition::One), window, items, done),
        Edition::Two => list_leaf_in(&node.in_edition(Edition::Two), window, items, done),
    }
}

// ---- the walk

// The records that search finds from the node at s down, which has the level given, become items,
// and each node that it opens is counted: it "opens every child whose entry rectangle meets the
// window".
fn list_node(
    pool: Pool<'_>,
    window: Rect,
    level: usize,
    s: SlotNumber,
    items: &mut [i32],
    done: Walked,
) -> Walked
    requires tree { Tree (read pool) level s }
    requires item_room { ItemRoom items.old done (F.found_in (read pool) M.Meeting window level s)
        (F.opened_in (read pool) window level s) }
    ensures { Went pool.entry.words.now items.old items.new done result
        (F.found_in (read pool.entry) M.Meeting window level s)
        (F.opened_in (read pool.entry) window level s) }
{
    let node = pool.node(s);
    if level == 1 {
        return list_leaf(&node, window, items, done);
    }
    let mut places = [0usize; MOST];
    let meeting = gather(&node, window, &mut places);
    let mut w = done;
    for &i in meeting {
        w = list_node(pool, window, level - 1, node.child(i), items, w);
    }
    Walked {
        opened: w.opened + 1,
        ..w
    }
}

// ---- of what is listed, what is kept

// Of the n items, those that the test holds for close up to the front, in their order; it says how
// many they are. The test is asked of the place where a record's entry begins. An item goes to the
// next place before it is known to be kept; where it is not, the next goes over it.
fn keep<F: Fn(usize) -> bool>(items: &mut [i32], n: usize, test: F) -> usize
    requires n_in_bounds { 2 * n ≤ length items.old }
    requires askable { (k : ℕ) → k < n → F.pre test (spot_at items.old k) }
    ensures { KeptBy (F.post test) items.old items.new n result }
{
    let mut count: usize = 0;
    for k in 0..n {
        let item = FoundItem::read(items, k);
        item.write(items, count);
        count += one_if(test(item.spot));
    }
    count
}

// ---- the search

// That the pool is whole is a clause here and above: a pool of a valid length need not be, and a
// type for one that is would have to be made anew after each change.

// "Search descends from the root and opens every child whose entry rectangle meets the window."
// "The root is always opened." The records that meet the window become items, in the order in which
// the search meets them. An item is written before it is known to be kept, so there is room for one
// item more.
fn list_meeting(pool: Pool<'_>, window: Rect, items: &mut [i32]) -> Walked
    requires whole { Whole (read pool) }
    requires window_in_bounds { 2 * length (F.found_from_root (read pool) M.Meeting window) + 2
        ≤ length items.old }
    ensures { FindsAll pool.entry.words.now M.Meeting window items.old items.new result }
{
    list_node(
        pool,
        window,
        pool.height(),
        pool.root(),
        items,
        Walked { next: 0, opened: 0 },
    )
}

// What a search of the mode finds, of every owner. Mode meeting wants whatever was found.
fn list_wanted(pool: Pool<'_>, mode: Mode, window: Rect, items: &mut [i32]) -> Walked
    requires whole { Whole (read pool) }
    requires window_in_bounds { 2 * length (F.found_from_root (read pool) M.Meeting window) + 2
        ≤ length items.old }
    ensures { FindsAll pool.entry.words.now mode window items.old items.new result }
{
    let w = list_meeting(pool, window, items);
    match mode {
        Mode::Meeting => w,
        Mode::OnlyInside | Mode::OnlyEnclosing => {
            let next = keep(items, w.next, |spot| {
                geometry::wanted(mode, pool::rect_at(pool.words, spot), window)
            });
            Walked { next, ..w }
        }
    }
}

// What a search of the mode by an owner finds, as items, and how many nodes it opens: "that owner's
// records only". In a pool of edition 1 every record is nobody's, and they are not gone through for
// it: there the owner who asks is nobody.
pub fn list(pool: Pool<'_>, owner: Owner, mode: Mode, window: Rect, items: &mut [i32]) -> Walked
    requires whole { Whole (read pool) }
    requires owner_value { owner_in (L.edition_of pool.words.now) owner ≡ owner }
    requires window_in_bounds { 2 * length (F.found_from_root (read pool) M.Meeting window) + 2
        ≤ length items.old }
    ensures { Finds pool.entry.words.now owner mode window items.old items.new result }
{
    let all = list_wanted(pool, mode, window, items);
    match pool::edition_of(pool.words) {
        Edition::One => all,
        Edition::Two => {
            let next = keep(items, all.next, |spot| {
                Owner(pool::owner_at(pool.words, spot)) == owner
            });
            Walked { next, ..all }
        }
    }
}
