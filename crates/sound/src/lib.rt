// Soundness of a pool, over any words of a valid length, in one walk from the root. The node check
// calls the entry check and the entry check calls the node check; the level and the entries left
// fall. Each slot that is met is marked, and one that is met again is refused: so the walk looks at
// a node once, whatever the words are. Then every slot has to have been met, or to be all zero.
#![tactic(auto)]

ghost use Rattle.std.specs.Prelude.{◌≡◌, false, not, ◌&&◌, ◌||◌, [], ◌∷◌, ◌≤◌};
ghost use Rattle.std.specs.Prelude.{eqb, leb, length, drop};
ghost use Rattle.rules.specs.Lists.{every};
ghost use Rattle.rules.specs.Numbers.{most, most_slots};
ghost use Rattle.rules.specs.Layout as L;
ghost use Rattle.rules.specs.Pool as P;
ghost use Rattle.rules.specs.Sound as S;
ghost use Rattle.layout_laws.specs.Slots.{InPool};
ghost use Rattle.pool.specs.Reading.{read, node_of, entries_of};
ghost use Rattle.pool.specs.Standing.{stand, tidy_around};
ghost use Rattle.sound.specs.Walked.{Answers, EntriesAnswer, Fitting, NodeAnswer, RootAnswer};
ghost use Rattle.sound.specs.Walked.{head_sound, inner_unowned, mark_of, met_or_zero, owner_fits};
ghost use Rattle.sound.specs.Walked.{owners_fit, plain_entry, record_count, record_counts};
ghost use Rattle.sound.specs.Walked.{rest_sound, upright};

use pool::node::{Node, Pool};
use rules::{Edition, LEAST, MOST_HEIGHT, MOST_SLOTS, Owner, Rect, SlotNumber};

// ---- a node's entries

// What one look at a node's entries tells: "the smallest holding that node's entries", and whether
// each has a valid rectangle and a pointer of 1 or more. "A leaf entry needs a valid rectangle and
// number": in a leaf, whether each is sound.
// Neither says whether the other is there: both are always told.
#[derive(Clone, Copy)]
struct Looked {
    cover: Rect,
    plain: bool,
}

// Low is not above high.
#[tactic(auto, unfolding(crate::specs::Walked::upright))]
fn low_to_high(r: Rect) -> bool
    ensures { result ≡ upright r }
{
    (r.lowX <= r.highX) & (r.lowY <= r.highY)
}

// One loop over the entries' words, with no branch in it: where the words are hostile the processor
// would guess wrong, and a wrong guess costs more than the comparisons. That the coordinates are in
// range is asked of the cover alone: where no low is above its high, each lies between those of the
// cover. Written in place in the node check, where the cover is compared at once, it becomes vector
// instructions: a walk takes two thirds of the instructions.
#[inline(always)]
fn look(node: &Node<'_>) -> Looked
    requires { 1 ≤ length (entries_of node.now) }
    ensures cover { result.cover ≡ P.cover_of (entries_of node.now) }
    ensures plain { result.plain ≡ every plain_entry (entries_of node.now) }
{
    let n = node.count();
    let mut cover = node.rect(0);
    let mut plain = true;
    for i in 0..n {
        let r = node.rect(i);
        cover = geometry::cover(cover, r);
        let good = low_to_high(r) & node.numbered(i);
        plain &= good;
    }
    Looked {
        cover,
        plain: plain & geometry::valid(cover),
    }
}

// ---- the walk

// It takes the edition and the number of slots beside the pool, and makes a node of them: where
// they are one value it takes 3 per cent more instructions, and where each node reads its edition
// 2.4 more.

// The node is of the level given, and what its slot's words have around the entries in use is a
// node's and nothing else. The words of those entries are asked for elsewhere: that a child's
// number is not negative, by the walk, and that it has no owner, with the owners.
fn node_fits(node: &Node<'_>, level: usize) -> bool
    ensures { result
        ≡ (eqb (node_of node.now).level level && tidy_around node.now.words.now node.now.slot) }
{
    if node.level() != level {
        return false;
    }
    node.tidy_around()
}

// The node is met: for the first time, and it fits.
fn meet(node: &Node<'_>, seen: &mut [u8; MOST_SLOTS], level: usize) -> bool
    requires seen_len { length seen.old ≡ most_slots }
    ensures { Answers (Fitting node.now.words.now level node.now.slot) (node.now.slot ∷ [])
        seen.old seen.new result }
{
    let n = node.slot.0;
    if seen[n - 1] != 0 {
        return false;
    }
    seen[n - 1] = 1;
    node_fits(node, level)
}

// "A node is sound when its entries are": the node at s, not the root, at the level given, whose
// parent's entry has the rectangle `want`. "with a count of 3 to 8", "its rectangle is the smallest
// holding that node's entries". A leaf's entries are looked at once, all together. Those of an
// inner node have to be plain as well, if they are sound: to ask it of every node leaves the walk
// one way through this function.
#[cycle(entries_sound_node_sound)]
fn node_sound(
    pool: Pool<'_>,
    seen: &mut [u8; MOST_SLOTS],
    edition: Edition,
    slots: usize,
    level: usize,
    s: SlotNumber,
    want: Rect,
) -> bool
    requires in_pool { InPool pool.words.now s }
    requires edition_value { edition ≡ L.edition_of pool.words.now }
    requires slots_value { slots ≡ L.slot_count pool.words.now }
    requires seen_len { length seen.old ≡ most_slots }
    requires le_level { 1 ≤ level }
    ensures { NodeAnswer pool.entry.words.now level s want seen.old seen.new result }
{
    let node = &Node {
        words: pool.words,
        edition,
        slot: s,
    };
    if !meet(node, seen, level) {
        return false;
    }
    let n = node.count();
    if n < LEAST {
        return false;
    }
    let looked = look(node);
    let cover = looked.cover;
    if !geometry::same_rect(want, cover) {
        return false;
    }
    if !looked.plain {
        return false;
    }
    if level == 1 {
        return true;
    }
    entries_sound(pool, seen, edition, slots, level - 1, s, 0, n)
}

// "an inner entry is sound when its pointer is a slot from 1 to N whose node is sound and one level
// lower, and its rectangle is the smallest holding that node's entries": the entries from place i
// on of the node at s, which has n. What they lead to has the level below. That a child is a slot
// is two tests here and no function's answer, and the number of slots is handed on: the compiled
// walk was measured, and is faster so.
#[cycle(entries_sound_node_sound)]
fn entries_sound(
    pool: Pool<'_>,
    seen: &mut [u8; MOST_SLOTS],
    edition: Edition,
    slots: usize,
    below: usize,
    s: SlotNumber,
    i: usize,
    n: usize,
) -> bool
    requires in_pool { InPool pool.words.now s }
    requires edition_value { edition ≡ L.edition_of pool.words.now }
    requires slots_value { slots ≡ L.slot_count pool.words.now }
    requires seen_len { length seen.old ≡ most_slots }
    requires le_below { 1 ≤ below }
    requires s_value { P.is_leaf (P.node_at (L.read pool.words.now) s) ≡ false }
    requires n_value { n ≡ length (P.entries_at (L.read pool.words.now) s) }
    ensures { EntriesAnswer pool.entry.words.now below
        (drop i (P.entries_at (read pool.entry) s)) seen.old seen.new result }
{
    if n <= i {
        return true;
    }
    let node = &Node {
        words: pool.words,
        edition,
        slot: s,
    };
    let c = node.child(i);
    let k = c.0;
    if k < 1 {
        return false;
    }
    if slots < k {
        return false;
    }
    let want = node.rect(i);
    if !node_sound(pool, seen, edition, slots, below, c, want) {
        return false;
    }
    entries_sound(pool, seen, edition, slots, below, s, i + 1, n)
}

// "but for the root 0 to 8 if a leaf and 2 to 8 otherwise": no entry has a rectangle for it. It is
// the first slot of the walk, so it is marked and not asked for a mark.
fn root_sound(
    pool: Pool<'_>,
    seen: &mut [u8; MOST_SLOTS],
    edition: Edition,
    height: usize,
    s: SlotNumber,
) -> bool
    requires in_pool { InPool pool.words.now s }
    requires edition_value { edition ≡ L.edition_of pool.words.now }
    requires seen_len { length seen.old ≡ most_slots }
    requires s_value { mark_of seen.old s ≡ 0 }
    requires le_height { 1 ≤ height }
    ensures { RootAnswer pool.entry.words.now height s seen.old seen.new result }
{
    let m = s.0;
    seen[m - 1] = 1;
    let node = &Node {
        words: pool.words,
        edition,
        slot: s,
    };
    if !node_fits(node, height) {
        return false;
    }
    if height == 1 {
        return root_leaf_sound(node);
    }
    let n = node.count();
    if n < 2 {
        return false;
    }
    entries_sound(pool, seen, edition, pool.slots(), height - 1, s, 0, n)
}

// A root that is a leaf may be empty.
fn root_leaf_sound(node: &Node<'_>) -> bool
    ensures { result ≡ every plain_entry (entries_of node.now) }
{
    if node.count() == 0 {
        return true;
    }
    let looked = look(node);
    looked.plain
}

// ---- the slots that the walk did not meet

// "free slots are all zero": the slot was met, or its words are.
fn met_or_zero(node: &Node<'_>, mark: u8) -> bool
    ensures { result
        ≡ (not (eqb mark 0)
        || stand (L.node_words (L.edition_of node.now.words.now) P.free_node) node.now.words.now
        (L.slot_start (L.edition_of node.now.words.now) node.now.slot)) }
{
    if mark != 0 {
        return true;
    }
    node.zero_slot()
}

fn rest_zero(pool: Pool<'_>, edition: Edition, seen: &[u8; MOST_SLOTS]) -> bool
    requires edition_value { edition ≡ L.edition_of pool.words.now }
    requires seen_len { length seen.now ≡ most_slots }
    ensures { result
        ≡ every (met_or_zero pool.entry.words.now seen.now) (P.slot_numbers (read pool.entry)) }
{
    (0..pool.slots()).all(|i| {
        let node = &pool.node(SlotNumber(i + 1)).in_edition(edition);
        met_or_zero(node, seen[i])
    })
}

// ---- the records

// A leaf's entries are records.
fn records_in(node: &Node<'_>) -> usize
    ensures is { result ≡ record_count (node_of node.now) }
    ensures most { result ≤ most }
{
    if node.level() == 1 {
        return node.count();
    }
    0
}

fn leaf_records(pool: Pool<'_>, edition: Edition) -> usize
    requires { edition ≡ L.edition_of pool.words.now }
    ensures { result ≡ record_counts (read pool.entry).slots }
{
    (0..pool.slots())
        .map(|i| records_in(&pool.node(SlotNumber(i + 1)).in_edition(edition)))
        .sum()
}

// "records counted in leaves equal word 3"
fn records_sound(pool: Pool<'_>, edition: Edition) -> bool
    requires { edition ≡ L.edition_of pool.words.now }
    ensures { result ≡ S.records_sound (read pool.entry) }
{
    leaf_records(pool, edition) == pool.records()
}

// ---- the owners

// Req 07: "Each leaf entry gains an owner, 1 or 2, as a sixth word (zero in inner entries ..)": the
// owner's word of an entry of a leaf, or of another node.
#[tactic(auto, unfolding(crate::specs::Walked::owner_fits, rules::specs::Lists::same))]
fn owner_fits(leaf: bool, owner: i32) -> bool
    ensures { result ≡ owner_fits leaf owner }
{
    if leaf {
        return pool::good_owner(Owner(owner));
    }
    owner == 0
}

// .. of each entry of a slot. The loop has no branch, as that of `look`.
fn slot_owners_sound(node: &Node<'_>) -> bool
    ensures { result ≡ owners_fit node.now.words.now node.now.slot }
{
    let leaf = node.level() == 1;
    let n = node.count();
    let mut all = true;
    for i in 0..n {
        all &= owner_fits(leaf, node.owner(i));
    }
    all
}

fn slots_owners_sound(pool: Pool<'_>, edition: Edition) -> bool
    requires { edition ≡ L.edition_of pool.words.now }
    ensures { result ≡ every (owners_fit pool.entry.words.now) (P.slot_numbers (read pool.entry)) }
{
    (0..pool.slots()).all(|i| {
        slot_owners_sound(&pool.node(SlotNumber(i + 1)).in_edition(edition))
    })
}

// "anything else and the pool isn't sound". An entry of edition 1 has no word for an owner: there
// is nothing to look at.
fn owners_sound(pool: Pool<'_>, edition: Edition) -> bool
    requires { edition ≡ L.edition_of pool.words.now }
    ensures { result
        ≡ (S.owners_sound (read pool.entry)
        && every (inner_unowned pool.entry.words.now) (P.slot_numbers (read pool.entry))) }
{
    match edition {
        Edition::One => true,
        Edition::Two => slots_owners_sound(pool, edition),
    }
}

// ---- all of it

// "height is 1 or more". A sound tree is at most 8 high, so a higher one is refused before the
// walk, which then goes no deeper than that, whatever the words are.
fn height_sound(height: usize) -> bool
    ensures { result ≡ (leb 1 height && leb height 8) }
{
    (1..=MOST_HEIGHT).contains(&height)
}

// "the head is as above", "root is a slot"
#[tactic(auto, unfolding(crate::specs::Walked::head_sound))]
fn head_sound(pool: Pool<'_>) -> bool
    ensures { result ≡ head_sound pool.entry.words.now }
{
    pool.tidy_head() && height_sound(pool.height()) && nodes::is_slot(pool.words, pool.root())
}

// What is asked beside the walk: the slots that it did not meet, the records, and whose they are.
// Where this is written in place, with an edition, the compiler knows how many words a slot has.
#[inline(always)]
#[tactic(auto, unfolding(crate::specs::Walked::rest_sound))]
fn rest_sound(pool: Pool<'_>, edition: Edition, seen: &[u8; MOST_SLOTS]) -> bool
    requires edition_value { edition ≡ L.edition_of pool.words.now }
    requires seen_len { length seen.now ≡ most_slots }
    ensures { result ≡ rest_sound pool.entry.words.now seen.now }
{
    rest_zero(pool, edition, seen) && records_sound(pool, edition) && owners_sound(pool, edition)
}

// "A pool is sound when ..": the head, the tree from the root down, the slots outside it, the
// records, and whose they are.
pub fn sound(pool: Pool<'_>) -> bool
    ensures { result ≡ S.sound pool.entry.words.now }
{
    if !head_sound(pool) {
        return false;
    }
    let edition = pool::edition_of(pool.words);
    let mut seen = [0u8; MOST_SLOTS];
    if !root_sound(pool, &mut seen, edition, pool.height(), pool.root()) {
        return false;
    }
    match edition {
        Edition::One => rest_sound(pool, Edition::One, &seen),
        Edition::Two => rest_sound(pool, Edition::Two, &seen),
    }
}
