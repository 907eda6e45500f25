// The layout again, as a question: are words of a valid length exactly those that would be written
// for the pool that is read from them? It is asked of the head, and of each slot by itself: whether
// it is all zero, or what it has around its entries. A leaf's entries are always written as they
// were read. What is left to ask of an inner node's, that no child is negative and that there is no
// owner, is asked by whoever looks at them.
ghost use Rattle.std.specs.Prelude.{◌≡◌, ◌&&◌, ◌+◌, ◌-◌, ◌<◌, ◌≤◌, min, length, replicate, pos};
ghost use Rattle.std.specs.Int.Signed.{le_z};
ghost use Rattle.rules.specs.Lists as Li;
ghost use Rattle.rules.specs.Numbers.{most};
ghost use Rattle.rules.specs.Layout as L;
ghost use Rattle.rules.specs.Pool as P;
ghost use Rattle.pool.specs.Standing.{stand, tidy_around, zero_from};

use crate::node::{Node, Pool};
use crate::{
    EDITION_PLACE, HEAD_SIZE, HEIGHT_PLACE, RECORDS_PLACE, RECT_SIZE, ROOT_PLACE, UNUSED_PLACE,
    edition_of, owner_in, slot_size,
};
use rules::{Edition, MOST};

// The number of entries at most, as a word.
const MOST_WORD: i32 = MOST as i32;

// ---- words

// The word at a place is x or more.
#[tactic(auto, unfolding(rules::specs::Layout::word_at))]
fn at_least(pool: &[i32], at: usize, x: i32) -> bool
    requires { at < length pool.now }
    ensures { result ≡ le_z x (L.word_at pool.now at) }
{
    x <= pool[at]
}

// .. is x itself.
#[tactic(auto, unfolding(rules::specs::Layout::word_at, rules::specs::Lists::same))]
fn is_word(pool: &[i32], at: usize, x: i32) -> bool
    requires { at < length pool.now }
    ensures { result ≡ Li.same x (L.word_at pool.now at) }
{
    x == pool[at]
}

// All words from one place to another are zero. No branch leaves the loop early, so that the
// compiler can join several words at a time.
fn zeros(pool: &[i32], from: usize, to: usize) -> bool
    requires from_le_to { from ≤ to }
    requires to_in_bounds { to ≤ length pool.now }
    ensures { result ≡ stand (replicate (to - from) (pos 0)) pool.now from }
{
    let mut all = 0;
    for x in &pool[from..to] {
        all |= *x;
    }
    all == 0
}

// ---- the head

// "word 1 root slot; word 2 height; word 3 number of records": none is negative.
fn tidy_numbers(pool: &[i32]) -> bool
    requires { L.head_size ≤ length pool.now }
    ensures { result ≡ (le_z (pos 0) (L.word_at pool.now L.root_place) && (le_z (pos 0) (L.word_at pool.now L.height_place) && le_z (pos 0) (L.word_at pool.now L.records_place))) }
{
    let root = at_least(pool, ROOT_PLACE, 0);
    let height = at_least(pool, HEIGHT_PLACE, 0);
    let records = at_least(pool, RECORDS_PLACE, 0);
    root & height & records
}

impl Pool<'_> {
    ghost use Rattle.pool.specs.Reading.{read};

    // "Head: word 0 edition, 1; .. words 4 to 7 zero." A word 0 that is not 2 has to be 1.
    pub fn tidy_head(&self) -> bool
        ensures { result ≡ stand (L.head_words (read self.now)) self.now.words.now 0 }
    {
        let words = self.words;
        let edition = is_word(words, EDITION_PLACE, edition_of(words).number());
        let numbers = tidy_numbers(words);
        let rest = zeros(words, UNUSED_PLACE, HEAD_SIZE);
        edition & numbers & rest
    }
}

// ---- a slot

// The bits of all words of an entry: none is set where each word is zero.
fn entry_bits(pool: &[i32], edition: Edition, at: usize) -> i32
    requires { at + L.entry_size edition ≤ length pool.now }
    ensures { Li.same (pos 0) result ≡ stand (replicate (L.entry_size edition) (pos 0)) pool.now at }
{
    let low = pool[at] | pool[at + 1];
    let high = pool[at + 2] | pool[at + 3];
    low | high | (pool[at + RECT_SIZE] | owner_in(pool, edition, at))
}

// "M = 8 entries in a node at most": the count is not one that `read` cuts off.
#[tactic(auto, unfolding(rules::specs::Layout::word_at))]
fn tidy_count(pool: &[i32], at: usize) -> bool
    requires { at < length pool.now }
    ensures { result ≡ Li.same (pos (min (L.natural (L.word_at pool.now at)) most)) (L.word_at pool.now at) }
{
    (0..=MOST_WORD).contains(&pool[at])
}

impl Node<'_> {
    ghost use Rattle.pool.specs.Reading.{entries_of, entry_of};

    // "unused entries .. are all zero". They are joined an entry at a time: to join the words of
    // all of them, of which there are few, takes a fifth more instructions where the counts vary.
    fn unused_zero(&self) -> bool
        ensures { result ≡ zero_from self.now.words.now self.now.slot (length (entries_of self.now)) }
    {
        let mut all = 0;
        for i in self.count()..MOST {
            all |= entry_bits(self.words, self.edition, self.spot(i));
        }
        all == 0
    }

    // "level, count, then 8 entries": what stands around the entries in use, the count and the
    // places after them, is as it would be written.
    #[tactic(auto, unfolding(crate::specs::Standing::tidy_around))]
    pub fn tidy_around(&self) -> bool
        ensures { result ≡ tidy_around self.now.words.now self.now.slot }
    {
        let count = tidy_count(self.words, self.count_place());
        let unused = self.unused_zero();
        count & unused
    }

    // "free slots are all zero"
    pub fn zero_slot(&self) -> bool
        ensures { result ≡ stand (L.node_words (L.edition_of self.now.words.now) P.free_node) self.now.words.now (L.slot_start (L.edition_of self.now.words.now) self.now.slot) }
    {
        let long = slot_size(self.edition);
        let at = self.start();
        zeros(self.words, at, at + long)
    }

    // The pointer of the entry at place i is 1 or more, whether it is a record number or a child
    // slot.
    pub fn numbered(&self, i: usize) -> bool
        requires { i < length (entries_of self.now) }
        ensures { result ≡ le_z (pos 1) (L.pointer_word (entry_of self.now i).pointer) }
    {
        at_least(self.words, self.pointer_place(i), 1)
    }
}
