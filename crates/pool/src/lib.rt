// The pool, word by word: the one crate that knows where a word stands. Here are the sizes and
// places, what is read and what is written; `tidy` asks whether the words are a pool's and nothing
// else, `blank` makes them those of a blank pool. What is read is what the definition `read` reads,
// of any words of a valid length.
#![tactic(auto)]

ghost use Rattle.std.specs.Prelude.{◌≡◌, not, ◌||◌, [], ◌∷◌, ◌++◌, ◌+◌, ◌-◌, ◌<◌, ◌≤◌, eqb, length, set, take, drop, replicate, pos};
ghost use Rattle.std.proofs.lemmas.List.Edits.{sets};
ghost use Rattle.rules.specs.declared.Edition.TheVariants as E;
ghost use Rattle.rules.specs.Lists.{without};
ghost use Rattle.rules.specs.Numbers.{good_number, good_owner, most, most_slots};
ghost use Rattle.rules.specs.Layout as L;
ghost use Rattle.rules.specs.Pool as P;
ghost use Rattle.layout_laws.specs.Slots.{Fit, InPool, KindOf, KindAll, Small, SmallAll};

pub mod blank;
pub mod node;
pub mod tidy;

use node::Node;
use rules::{Edition, Entry, MOST, MOST_SLOTS, Owner, Pointer, RecordNumber, Rect, SlotNumber};

// ---- sizes and places: those of the definitions in `Layout`, by the same names

// "Head: word 0 edition, 1; word 1 root slot; word 2 height; word 3 number of records; words 4 to 7
// zero."
pub const HEAD_SIZE: usize = 8;

const EDITION_PLACE: usize = 0;

const ROOT_PLACE: usize = 1;

const HEIGHT_PLACE: usize = 2;

const RECORDS_PLACE: usize = 3;

const UNUSED_PLACE: usize = RECORDS_PLACE + 1;

// "8 entries of five words: low x, low y, high x, high y, pointer"; Req 07: "an owner, 1 or 2, as a
// sixth word"
const RECT_SIZE: usize = 4;

const OWNER_PLACE: usize = RECT_SIZE + 1;

// "level, count, then 8 entries"
const SLOT_HEAD: usize = 2;

// The edition of a pool: "a pool whose word 0 isn't 2 is measured as edition 1".
#[tactic(auto, unfolding(rules::specs::Layout::edition_of, rules::specs::Layout::word_at, rules::specs::Lists::same))]
pub fn edition_of(pool: &[i32]) -> Edition
    requires { 1 ≤ length pool.now }
    ensures { result ≡ L.edition_of pool.now }
{
    if pool[EDITION_PLACE] == 2 {
        Edition::Two
    } else {
        Edition::One
    }
}

// How many words an entry has.
fn entry_size(edition: Edition) -> usize
    ensures { result ≡ L.entry_size edition }
{
    match edition {
        Edition::One => OWNER_PLACE,
        Edition::Two => OWNER_PLACE + 1,
    }
}

// .. and a slot.
pub fn slot_size(edition: Edition) -> usize
    ensures { result ≡ L.slot_size edition }
{
    SLOT_HEAD + MOST * entry_size(edition)
}

// "Slot s (from 1) takes 42 words from word 8 + 42(s - 1)", the first of them its level; in edition
// 2, 50 words.
fn start_in(edition: Edition, s: SlotNumber) -> usize
    requires { (1 ≤ s.0) × (s.0 ≤ most_slots) }
    ensures { result ≡ L.slot_start edition s }
{
    HEAD_SIZE + slot_size(edition) * (s.0 - 1)
}

// Where the words of the entry at place i of slot s begin, its rectangle first: in any pool of the
// edition, whether or not it has that slot.
pub fn spot_in(edition: Edition, s: SlotNumber, i: usize) -> usize
    requires le_s { (1 ≤ s.0) × (s.0 ≤ most_slots) }
    requires i_lt_most { i < most }
    ensures { result ≡ L.entry_place edition s i }
{
    start_in(edition, s) + SLOT_HEAD + entry_size(edition) * i
}

// How many slots of an edition fit into so many words. Each division is by a number that the
// compiler knows: it is asked at every node, and a division by any other is slow.
#[tactic(auto, unfolding(rules::specs::Layout::slots_fitting))]
fn slots_fitting(edition: Edition, n: usize) -> usize
    ensures { result ≡ L.slots_fitting edition n }
{
    let words = n.saturating_sub(HEAD_SIZE);
    match edition {
        Edition::One => words / (SLOT_HEAD + MOST * OWNER_PLACE),
        Edition::Two => words / (SLOT_HEAD + MOST * (OWNER_PLACE + 1)),
    }
}

// "A pool is 8 + 42N signed 32-bit words", N from 1 to 4,096; in edition 2, 8 + 50N.
#[tactic(auto, unfolding(rules::specs::Layout::valid_size))]
pub fn valid_size(edition: Edition, n: usize) -> bool
    ensures { result ≡ L.valid_size edition n }
{
    let slots = slots_fitting(edition, n);
    (1..=MOST_SLOTS).contains(&slots) && n == HEAD_SIZE + slot_size(edition) * slots
}

// How many slots any words have.
#[tactic(auto, unfolding(rules::specs::Layout::slot_count))]
pub fn slot_count(pool: &[i32]) -> usize
    ensures { result ≡ L.slot_count pool.now }
{
    let n = pool.len();
    if n < HEAD_SIZE {
        return 0;
    }
    slots_fitting(edition_of(pool), n)
}

// Whether its length is valid, measured by its own edition.
#[tactic(auto, unfolding(rules::specs::Layout::valid_length))]
pub fn valid_length(pool: &[i32]) -> bool
    ensures { result ≡ L.valid_length pool.now }
{
    let n = pool.len();
    n >= HEAD_SIZE && valid_size(edition_of(pool), n)
}

// False where 1 is given: "pool length wrong, or workspace length differs from the pool's".
pub fn lengths_fit(pool: &[i32], workspace: usize) -> bool
    ensures { not result ≡ (not (L.valid_length pool.now) || not (eqb workspace (length pool.now))) }
{
    valid_length(pool) && workspace == pool.len()
}

// "Record numbers: 1 to 2,147,483,647."
#[tactic(auto, unfolding(rules::specs::Numbers::good_number))]
pub fn good_number(n: RecordNumber) -> bool
    ensures { result ≡ good_number n }
{
    n.0 >= 1
}

// Req 07: "an owner, 1 or 2".
#[tactic(auto, unfolding(rules::specs::Numbers::good_owner))]
pub fn good_owner(o: Owner) -> bool
    ensures { result ≡ good_owner o }
{
    (1..=2).contains(&o.0)
}

// ---- a copy

// The words of one list into another of the same length.
pub fn copy(source: &[i32], target: &mut [i32])
    requires { length source.now ≡ length target.old }
    ensures { target.new ≡ source.now }
{
    // A loop that the compiler joins: `copy_from_slice` takes 4 instructions a word here, and this
    // one.
    for i in 0..target.len() {
        target[i] = source[i];
    }
}

// ---- a word read

// A word as a natural number; a word below zero is read as 0.
#[tactic(auto, unfolding(rules::specs::Layout::natural))]
fn natural(x: i32) -> usize
    ensures { result ≡ L.natural x }
{
    x.max(0) as usize
}

// The word at a place.
pub fn word(pool: &[i32], at: usize) -> i32
    requires { at < length pool.now }
    ensures { result ≡ L.word_at pool.now at }
{
    pool[at]
}

// .. as a natural number.
pub fn number_at(pool: &[i32], at: usize) -> usize
    requires { at < length pool.now }
    ensures { result ≡ L.natural (L.word_at pool.now at) }
{
    natural(word(pool, at))
}

// ---- an entry read, from the place on where its words begin; `node` has the places

// The rectangle whose words begin at a place.
#[tactic(auto, unfolding(rules::specs::Layout::rect_of))]
pub fn rect_at(pool: &[i32], at: usize) -> Rect
    requires { at + L.rect_size ≤ length pool.now }
    ensures { result ≡ L.rect_of (drop at pool.now) }
{
    Rect {
        lowX: pool[at],
        lowY: pool[at + 1],
        highX: pool[at + 2],
        highY: pool[at + 3],
    }
}

// The owner's word of an entry of an edition, whose words begin at a place; an entry of edition 1
// has none, 0.
pub fn owner_in(pool: &[i32], edition: Edition, at: usize) -> i32
    requires { at + L.entry_size edition ≤ length pool.now }
    ensures { result ≡ L.owner_at edition (drop at pool.now) }
{
    match edition {
        Edition::One => 0,
        Edition::Two => word(pool, at + OWNER_PLACE),
    }
}

// .. by the pool's own edition: it is asked at a place of which no node is known.
pub fn owner_at(pool: &[i32], at: usize) -> i32
    requires in_bounds { 1 ≤ length pool.now }
    requires pool_in_bounds { at + L.entry_size (L.edition_of pool.now) ≤ length pool.now }
    ensures { result ≡ L.owner_at (L.edition_of pool.now) (drop at pool.now) }
{
    owner_in(pool, edition_of(pool), at)
}

// A leaf's pointer is a record number, with its owner, any other a child slot: here words become
// one of them.
#[tactic(auto, unfolding(rules::specs::Layout::pointer_of))]
fn pointer_of(level: usize, z: i32, owner: i32) -> Pointer
    ensures { result ≡ L.pointer_of level z owner }
{
    if level == 1 {
        Pointer::Number(RecordNumber(z), Owner(owner))
    } else {
        Pointer::Child(SlotNumber(natural(z)))
    }
}

// An entry whose words are all zero.
pub fn no_entry() -> Entry
    ensures { result ≡ P.no_entry }
{
    Entry {
        rect: Rect::default(),
        pointer: Pointer::Child(SlotNumber(0)),
    }
}

// ---- the head written

// A pool that is written to goes as its words, and what is known of them is a clause. In a struct,
// as `node::Pool` is for one that is read, it would be lent as `&mut`, and each function would have
// to say that what the struct knows stays: a clause for the one that goes.

// Sets the root and the height.
pub fn put_root(pool: &mut [i32], s: SlotNumber, height: usize)
    requires fit_2 { Fit pool.old }
    requires s_le_most_slots { (s.0 ≤ most_slots) × (height ≤ most_slots) }
    ensures is { L.read pool.new ≡ P.put_root (L.read pool.old) s height }
    ensures fit { Fit pool.new }
{
    pool[ROOT_PLACE] = s.0 as i32;
    pool[HEIGHT_PLACE] = height as i32;
}

// Sets the number of records.
pub fn put_records(pool: &mut [i32], n: usize)
    requires fit_2 { Fit pool.old }
    requires n_bound { n ≤ 2147483647 }
    ensures is { L.read pool.new ≡ P.put_records (L.read pool.old) n }
    ensures fit { Fit pool.new }
{
    pool[RECORDS_PLACE] = n as i32;
}

// ---- a slot written

// The word for a pointer: here a record number or a slot number is unwrapped.
#[tactic(auto, unfolding(rules::specs::Layout::pointer_word))]
fn pointer_word(p: Pointer) -> i32
    requires { Small p }
    ensures { result ≡ L.pointer_word p }
{
    match p {
        Pointer::Number(n, _) => n.0,
        Pointer::Child(s) => s.0 as i32,
    }
}

// The word for its owner: "zero in inner entries".
#[tactic(auto, unfolding(rules::specs::Layout::owner_word))]
fn owner_word(p: Pointer) -> i32
    ensures { result ≡ L.owner_word p }
{
    match p {
        Pointer::Number(_, o) => o.0,
        Pointer::Child(_) => 0,
    }
}

// The words of a rectangle, from a place on.
fn put_rect(pool: &mut [i32], at: usize, r: Rect)
    requires { at + L.rect_size ≤ length pool.old }
    ensures { pool.new ≡ sets pool.old at (r.lowX ∷ r.lowY ∷ r.highX ∷ r.highY ∷ []) }
{
    pool[at] = r.lowX;
    pool[at + 1] = r.lowY;
    pool[at + 2] = r.highX;
    pool[at + 3] = r.highY;
}

// The words that an entry has in every edition, from a place on.
fn put_pair(pool: &mut [i32], at: usize, e: Entry)
    requires at_in_bounds { at + L.entry_size E.One ≤ length pool.old }
    requires small { Small e.pointer }
    ensures { pool.new ≡ sets pool.old at (L.entry_words E.One e) }
{
    put_rect(pool, at, e.rect);
    pool[at + RECT_SIZE] = pointer_word(e.pointer);
}

// The words of an entry of an edition, from a place on.
fn put_entry(pool: &mut [i32], edition: Edition, at: usize, e: Entry)
    requires edition_in_bounds { at + L.entry_size edition ≤ length pool.old }
    requires small { Small e.pointer }
    ensures { pool.new ≡ sets pool.old at (L.entry_words edition e) }
{
    put_pair(pool, at, e);
    match edition {
        Edition::One => {}
        Edition::Two => pool[at + OWNER_PLACE] = owner_word(e.pointer),
    }
}

// The words of a slot: level, count, the entries, and zeros.
fn write_slot(pool: &mut [i32], s: SlotNumber, level: usize, es: &[Entry])
    requires in_pool { InPool pool.old s }
    requires level_le_most_slots { level ≤ most_slots }
    requires few { length es.now ≤ most }
    requires small_all { SmallAll es.now (length es.now) }
    ensures { pool.new ≡ sets pool.old (L.slot_start (L.edition_of pool.old) s) (L.node_words (L.edition_of pool.old) (P.node level es.now)) }
{
    let node = Node::at(pool, s);
    let edition = node.edition;
    let at = node.start();
    pool[at] = level as i32;
    pool[at + 1] = es.len() as i32;
    let mut next = at + SLOT_HEAD;
    for e in es {
        put_entry(pool, edition, next, *e);
        next += entry_size(edition);
    }
    zero_words(pool, next, at + slot_size(edition));
}

// A node is put into its slot: its level, and its entries.
pub fn put_node(pool: &mut [i32], s: SlotNumber, level: usize, es: &[Entry])
    requires fit_2 { Fit pool.old }
    requires in_pool { InPool pool.old s }
    requires level_le_most_slots { level ≤ most_slots }
    requires few { length es.now ≤ most }
    requires small_all { SmallAll es.now (length es.now) }
    requires kind_all { KindAll (L.edition_of pool.old) level es.now (length es.now) }
    ensures is { L.read pool.new ≡ P.put_node (L.read pool.old) s (P.node level es.now) }
    ensures fit { Fit pool.new }
{
    write_slot(pool, s, level, es);
}

// "A new entry goes last": its words, and the count. No other word changes.
pub fn add_entry(pool: &mut [i32], s: SlotNumber, e: Entry)
    requires fit_2 { Fit pool.old }
    requires in_pool { InPool pool.old s }
    requires s_len_bound { length (P.entries_at (L.read pool.old) s) < most }
    requires small { Small e.pointer }
    requires kind_of { KindOf (L.edition_of pool.old) (P.node_at (L.read pool.old) s).level e.pointer }
    ensures is { L.read pool.new ≡ P.put_entries (L.read pool.old) s (P.entries_at (L.read pool.old) s ++ e ∷ []) }
    ensures fit { Fit pool.new }
{
    let node = Node::at(pool, s);
    let edition = node.edition;
    let n = node.count();
    let spot = node.spot(n);
    let at = node.count_place();
    put_entry(pool, edition, spot, e);
    pool[at] = (n + 1) as i32;
}

// Another rectangle for the entry at place i, which leads where it did: no words but those of the
// rectangle change, and its pointer is not read.
pub fn put_rect_of(pool: &mut [i32], s: SlotNumber, i: usize, r: Rect)
    requires fit_2 { Fit pool.old }
    requires in_pool { InPool pool.old s }
    requires i_in_bounds { i < length (P.entries_at (L.read pool.old) s) }
    ensures is { L.read pool.new ≡ P.put_entries (L.read pool.old) s (set (P.entries_at (L.read pool.old) s) i (P.entry r (P.entry_at (L.read pool.old) s i).pointer)) }
    ensures fit { Fit pool.new }
{
    let at = Node::at(pool, s).spot(i);
    put_rect(pool, at, r);
}

// ---- an entry taken out

// Each word from one place up to another becomes the word that stood so many places after it.
fn move_down(pool: &mut [i32], from: usize, to: usize, by: usize)
    requires from_le_to { from ≤ to }
    requires by_in_bounds { to + by ≤ length pool.old }
    ensures { pool.new ≡ sets pool.old from (take (to - from) (drop (from + by) pool.old)) }
{
    // `copy_within` takes 8 instructions more, of the 63 to 140 of `take_entry`.
    for k in from..to {
        pool[k] = pool[k + by];
    }
}

// The words from one place up to another are zeroed.
fn zero_words(pool: &mut [i32], from: usize, to: usize)
    requires from_le_to { from ≤ to }
    requires to_in_bounds { to ≤ length pool.old }
    ensures { pool.new ≡ sets pool.old from (replicate (to - from) (pos 0)) }
{
    pool[from..to].fill(0);
}

// "Later entries close up; the freed place is zeroed.": the words of the entries after place i, as
// they are, go down by one entry, and there is one less. No entry is read.
pub fn take_entry(pool: &mut [i32], s: SlotNumber, i: usize)
    requires fit_2 { Fit pool.old }
    requires in_pool { InPool pool.old s }
    requires i_in_bounds { i < length (P.entries_at (L.read pool.old) s) }
    ensures is { L.read pool.new ≡ P.put_entries (L.read pool.old) s (without i (P.entries_at (L.read pool.old) s)) }
    ensures fit { Fit pool.new }
{
    let node = Node::at(pool, s);
    let size = entry_size(node.edition);
    let n = node.count();
    let from = node.spot(i);
    let last = node.spot(n - 1);
    let at = node.count_place();
    move_down(pool, from, last, size);
    zero_words(pool, last, last + size);
    pool[at] = (n - 1) as i32;
}
