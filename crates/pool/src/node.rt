// A pool that is read, and a node of it: words of a valid length, and a slot in them, each taken as
// one value.
//
// A pool goes by value: it is handed on as its words are. A node goes by reference, to functions
// that the compiler writes in place; a walk that calls itself takes the pool and a slot number,
// since a node would be written to memory at each call.
#![tactic(auto)]

ghost use Rattle.std.specs.Prelude.{◌≡◌, true, false, ◌<◌, ◌≤◌, length, take};
ghost use Rattle.rules.specs.Layout as L;
ghost use Rattle.rules.specs.Pool as P;
ghost use Rattle.rules.specs.Choose.{rect_from};
ghost use Rattle.rules.specs.Numbers.{most};
ghost use Rattle.layout_laws.specs.Slots.{InPool, NoneFrom};

use crate::{
    HEIGHT_PLACE, RECORDS_PLACE, RECT_SIZE, ROOT_PLACE, edition_of, no_entry, number_at, owner_in,
    pointer_of, rect_at, slot_count, spot_in, start_in, word,
};
use rules::{Edition, Entry, MOST, Pointer, RecordNumber, Rect, SlotNumber};

// The words of a pool, of a valid length.
#[derive(Clone, Copy)]
pub struct Pool<'a> {
    pub words: &'a [i32],
    pub ghost right: { L.valid_length words.now ≡ true },
}

// .. and "a slot from 1 to N" in them, with their edition, which is read once.
#[derive(Clone, Copy)]
pub struct Node<'a> {
    pub words: &'a [i32],
    pub edition: Edition,
    pub slot: SlotNumber,
    pub ghost in_pool: { InPool words.now slot },
    pub ghost told: { edition ≡ L.edition_of words.now },
}

impl<'a> Pool<'a> {
    ghost use Rattle.pool.specs.Reading.{read};

    pub fn over(words: &'a [i32]) -> Pool<'a>
        requires { L.valid_length words.now ≡ true }
        ensures { result.words.now ≡ words.now }
    {
        Pool { words }
    }

    pub fn root(&self) -> SlotNumber
        ensures { result ≡ (read self.now).root }
    {
        SlotNumber(number_at(self.words, ROOT_PLACE))
    }

    pub fn height(&self) -> usize
        ensures { result ≡ (read self.now).height }
    {
        number_at(self.words, HEIGHT_PLACE)
    }

    pub fn records(&self) -> usize
        ensures { result ≡ (read self.now).records }
    {
        number_at(self.words, RECORDS_PLACE)
    }

    // How many slots it has.
    pub fn slots(&self) -> usize
        ensures { result ≡ L.slot_count self.now.words.now }
    {
        slot_count(self.words)
    }

    pub fn node(&self, slot: SlotNumber) -> Node<'a>
        requires { InPool self.now.words.now slot }
        ensures words { result.words.now ≡ self.now.words.now }
        ensures slot { result.slot ≡ slot }
    {
        Node::at(self.words, slot)
    }
}

impl<'a> Node<'a> {
    ghost use Rattle.pool.specs.Reading.{node_of, entries_of, entry_of, owner_word_of, rects_of};

    pub fn at(words: &'a [i32], slot: SlotNumber) -> Node<'a>
        requires { InPool words.now slot }
        ensures words { result.words.now ≡ words.now }
        ensures slot { result.slot ≡ slot }
    {
        let edition = edition_of(words);
        Node {
            words,
            edition,
            slot,
        }
    }

    // Where its words begin, its level first.
    pub(crate) fn start(&self) -> usize
        ensures { result ≡ L.slot_start (L.edition_of self.now.words.now) self.now.slot }
    {
        start_in(self.edition, self.slot)
    }

    // Where the count of its entries stands.
    pub(crate) fn count_place(&self) -> usize
        ensures { result ≡ L.count_place (L.edition_of self.now.words.now) self.now.slot }
    {
        self.start() + 1
    }

    // Where the words of entry i begin, its rectangle first.
    pub fn spot(&self, i: usize) -> usize
        requires { i < most }
        ensures { result ≡ L.entry_place (L.edition_of self.now.words.now) self.now.slot i }
    {
        spot_in(self.edition, self.slot, i)
    }

    // Where its pointer stands.
    pub(crate) fn pointer_place(&self, i: usize) -> usize
        requires { i < most }
        ensures { result ≡ L.pointer_place (L.edition_of self.now.words.now) self.now.slot i }
    {
        self.spot(i) + RECT_SIZE
    }

    // 0 is free, 1 a leaf.
    pub fn level(&self) -> usize
        ensures { result ≡ (node_of self.now).level }
    {
        number_at(self.words, self.start())
    }

    // How many entries are in use.
    pub fn count(&self) -> usize
        ensures is { result ≡ length (entries_of self.now) }
        ensures most { result ≤ most }
    {
        number_at(self.words, self.count_place()).min(MOST)
    }

    // The rectangle of the entry at place i.
    pub fn rect(&self, i: usize) -> Rect
        requires { i < length (entries_of self.now) }
        ensures { result ≡ rect_from (rects_of self.now) i }
    {
        rect_at(self.words, self.spot(i))
    }

    // Its pointer.
    pub fn pointer(&self, i: usize) -> Pointer
        requires { i < length (entries_of self.now) }
        ensures { result ≡ (entry_of self.now i).pointer }
    {
        let level = self.level();
        let z = word(self.words, self.pointer_place(i));
        let owner = self.owner(i);
        pointer_of(level, z, owner)
    }

    // .. and both.
    pub fn entry(&self, i: usize) -> Entry
        requires { i < length (entries_of self.now) }
        ensures { result ≡ entry_of self.now i }
    {
        Entry {
            rect: self.rect(i),
            pointer: self.pointer(i),
        }
    }

    // All of them, with room for one more: entries whose words are all zero stand after them.
    pub fn entries(&self) -> [Entry; MOST + 1]
        ensures is { take (length (entries_of self.now)) result ≡ entries_of self.now }
        ensures rest { NoneFrom (length (entries_of self.now)) result }
    {
        let n = self.count();
        let mut es = [no_entry(); MOST + 1];
        for i in 0..n {
            es[i] = self.entry(i);
        }
        es
    }

    // The child that entry i of an inner node leads to.
    pub fn child(&self, i: usize) -> SlotNumber
        requires i_in_bounds { i < length (entries_of self.now) }
        requires inner { P.is_leaf (node_of self.now) ≡ false }
        ensures { result ≡ P.child_of (entry_of self.now i) }
    {
        SlotNumber(number_at(self.words, self.pointer_place(i)))
    }

    // The number of the record that entry i of a leaf is.
    pub fn number(&self, i: usize) -> RecordNumber
        requires i_in_bounds { i < length (entries_of self.now) }
        requires leaf { (node_of self.now).level ≡ 1 }
        ensures { result ≡ P.number_of (entry_of self.now i) }
    {
        RecordNumber(word(self.words, self.pointer_place(i)))
    }

    // The word for the owner of entry i, which the place of an unused entry has too; 0 in edition
    // 1, whose entries have none.
    pub fn owner(&self, i: usize) -> i32
        requires { i < most }
        ensures { result ≡ owner_word_of self.now i }
    {
        owner_in(self.words, self.edition, self.spot(i))
    }

    // The node as it is, with its edition written out. Where a function has an arm for each
    // edition, and calls another with this, the compiler knows in each arm how many words an entry
    // has.
    pub fn in_edition(&self, edition: Edition) -> Node<'a>
        requires { edition ≡ self.now.edition }
        ensures { result ≡ self.now }
    {
        let words = self.words;
        let slot = self.slot;
        Node {
            words,
            edition,
            slot,
        }
    }
}
