// Req 02, "Carry the map between offices": the records of a pool in one file, and a pool from such
// a file. The file is frames as in `dustmap`, every frame of a kind having one size, so that record
// k of a file begins at byte 12 + 24k. Req 07, "the file .. gains edition 2": there each record has
// its owner before it, and record k begins at byte 12 + 28k.
#![tactic(auto)]

ghost use Rattle.std.specs.Prelude.{◌≡◌, true, ◌++◌, map, ◌+◌, ◌*◌, ◌≤◌, ◌<◌, length, drop, None};
ghost use Rattle.std.specs.Result.{result_unwrap_or};
ghost use Rattle.std.proofs.lemmas.List.Edits.{sets};
ghost use Rattle.rules.specs.Lists.{joined};
ghost use Rattle.rules.specs.Owners.{owner_in, owner_sound, as_found};
ghost use Rattle.rules.specs.Layout as L;
ghost use Rattle.rules.specs.Insert.{ours};
ghost use Rattle.rules.specs.File as F;
ghost use Rattle.layout_laws.specs.Slots.{Fit};
ghost use Rattle.pool.specs.Reading.{read};
ghost use Rattle.free_slots.specs.Known.{Known};
ghost use Rattle.sound_laws.specs.Tree.{Whole};
ghost use Rattle.search_laws.specs.Window.{whole_site};
ghost use Rattle.frames.specs.Writing.{Wrote};
ghost use Rattle.file.specs.Items.{Listed, InOrder, is_new, new_from, item_words, first_owner};
ghost use Rattle.file.specs.Items.{second_carried, CountsFile};
ghost use Rattle.promises.specs.Files.{Writes, Reads};
ghost use Rattle.file.specs.Filling.{owner_bytes, new_frames, second_frames, Fills};
ghost use Rattle.file.specs.Loading.{is_due, record_bytes, place_of, pair_from, record_at};
ghost use Rattle.file.specs.Loading.{last_at, number_of, Gives, Took, took_at, Loads, end_told};
ghost use Rattle.file.specs.Loading.{settled};

use free_slots::FreeSlots;
use geometry::less_then;
use pool::node::Pool;
use rules::{
    Edition, FileFault, FoundRecord, MOST, MOST_SLOTS, Mode, Owner, Record, RecordNumber, Rect,
};

// ---- sizes, in bytes: two for a frame's length, two for its kind, four for each word

// "kind 16 first (edition 1, record count)"
const HEAD_BYTES: usize = 12;

// The length of a frame and its kind, which stand before its words.
const START_BYTES: usize = 4;

// "kind 18 last with no words"
const END_BYTES: usize = 4;

// Two words for the item of every record that a pool has room for, and as many again as scratch for
// the order.
const ITEM_WORDS: usize = 4 * MOST * MOST_SLOTS;

// ---- what an edition has of its own

// The kind of a record's frame, how many words it has, and whose records come first.
#[derive(Clone, Copy)]
struct FileForm {
    kind: u16,
    words: u16,
    first: Owner,
}

impl FileForm {
    // "kind 17 per record (number, rectangle)", a rectangle being four words; "kind 19 (owner, then
    // as 17)". "ordered by owner first": in edition 1 the records are nobody's, and no others come
    // after them.
    fn of(edition: Edition) -> FileForm
        ensures kind { result.kind ≡ F.record_kind edition }
        ensures words { result.words ≡ F.record_size edition }
        ensures few { result.words ≤ 6 }
        ensures first { result.first ≡ first_owner edition }
    {
        match edition {
            Edition::One => FileForm {
                kind: 17,
                words: 5,
                first: Owner(0),
            },
            Edition::Two => FileForm {
                kind: 19,
                words: 6,
                first: Owner(1),
            },
        }
    }
}

// Where record k begins; so it is too where a file of k records has its last frame.
fn place_of(edition: Edition, k: usize) -> usize
    requires { k ≤ 2147483647 }
    ensures is { result ≡ place_of edition k }
    ensures most { result ≤ 12 + 28 * k }
{
    let bytes = START_BYTES + 4 * usize::from(FileForm::of(edition).words);
    HEAD_BYTES + bytes * k
}

// ---- the records of an owner, in found order

// "Coordinates: -1,000,000,000 to 1,000,000,000."
fn whole_site() -> Rect
    ensures { result ≡ whole_site }
{
    Rect {
        lowX: -1000000000,
        lowY: -1000000000,
        highX: 1000000000,
        highY: 1000000000,
    }
}

// All stored records of an owner, as items in found order: what the owner's search of the whole
// site finds. It says how many they are.
fn list_all(pool: Pool<'_>, owner: Owner, items: &mut [i32]) -> usize
    requires whole { Whole (read pool) }
    requires owner_value { owner_in (L.edition_of pool.words.now) owner ≡ owner }
    requires len { length items.old ≡ item_words }
    ensures { InOrder pool.entry.words.now owner items.new result }
{
    let site = whole_site();
    let w = search::list(pool, owner, Mode::Meeting, site, items);
    let n = w.next;
    found_order::sort(pool.words, items, n);
    n
}

// "drops a pair held twice": whether item k is another pair than the one before it. In found order
// a pair that is held twice stands beside itself. (What goes by items takes the words: these they
// point into, and nothing is read as a pool.)
fn is_new(pool: &[i32], items: &[i32], n: usize, k: usize) -> bool
    requires listed { Listed pool.now items.now n }
    requires k_lt_n { k < n }
    ensures { result ≡ is_new pool.now items.now k }
{
    if k == 0 {
        return true;
    }
    found_order::item_before(pool, items, k - 1, k)
}

// "counts distinct pairs"
fn count_new(pool: &[i32], items: &[i32], n: usize) -> usize
    requires { Listed pool.now items.now n }
    ensures is { result ≡ length (new_from pool.now items.now 0 n) }
    ensures most { result ≤ n }
{
    let mut count = 0;
    for k in 0..n {
        count += usize::from(is_new(pool, items, n, k));
    }
    count
}

// How many records a file has after those of the first owner. In edition 1 there are none, and
// nothing is listed.
fn count_second(pool: Pool<'_>, items: &mut [i32]) -> usize
    requires whole { Whole (read pool) }
    requires len { length items.old ≡ item_words }
    ensures is { result
        ≡ length (second_carried (L.edition_of pool.entry.words.now) (read pool.entry)) }
    ensures most { result ≤ 32768 }
{
    match pool::edition_of(pool.words) {
        Edition::One => 0,
        Edition::Two => {
            let n = list_all(pool, Owner(2), items);
            count_new(pool.words, items, n)
        }
    }
}

// ---- the bytes of a file. Each of these gives the place after what it wrote

// "two bytes length of what follows, two bytes kind"
fn put_start(file: &mut [u8], at: usize, kind: u16, words: u16) -> usize
    requires at_in_bounds { at + 4 ≤ length file.old }
    requires words_bound { words ≤ 6 }
    ensures { Wrote file.old at (F.pair_bytes (2 + 4 * words) ++ F.pair_bytes kind)
        file.new result }
{
    let next = frames::put_pair(file, at, u64::from(2 + 4 * words));
    frames::put_pair(file, next, u64::from(kind))
}

// "kind 16 first (edition 1, record count)"; Req 07: edition 2
fn put_head(file: &mut [u8], edition: Edition, count: usize) -> usize
    requires in_bounds { 12 ≤ length file.old }
    requires count_bound { count ≤ 2147483647 }
    ensures { Wrote file.old 0 (F.head_frame edition count) file.new result }
{
    let start = put_start(file, 0, 16, 2);
    let number = frames::put_word(file, start, edition.number());
    frames::put_word(file, number, count as i32)
}

// The owner's word of a record, which edition 1 does not have.
// Here and below what is done is another thing in each edition, so `FileForm` does not have it.
fn put_owner(file: &mut [u8], at: usize, edition: Edition, o: Owner) -> usize
    requires { at + length (owner_bytes edition o) ≤ length file.old }
    ensures { Wrote file.old at (owner_bytes edition o) file.new result }
{
    match edition {
        Edition::One => at,
        Edition::Two => frames::put_word(file, at, o.0),
    }
}

// "number, rectangle"
fn put_pair_words(file: &mut [u8], at: usize, r: Record) -> usize
    requires { at + 20 ≤ length file.old }
    ensures { Wrote file.old at (joined (map F.word_bytes (F.pair_words r))) file.new result }
{
    let number = r.number;
    let rect = r.rect;
    let lowX = frames::put_word(file, at, number.0);
    let lowY = frames::put_word(file, lowX, rect.lowX);
    let highX = frames::put_word(file, lowY, rect.lowY);
    let highY = frames::put_word(file, highX, rect.highX);
    frames::put_word(file, highY, rect.highY)
}

// "then kind 17 per record (number, rectangle)"; "kind 19 (owner, then as 17)"
fn put_record(file: &mut [u8], at: usize, edition: Edition, r: Record) -> usize
    requires { at + record_bytes edition ≤ length file.old }
    ensures { Wrote file.old at (F.record_frame edition r) file.new result }
{
    let owner = r.owner;
    let form = FileForm::of(edition);
    let start = put_start(file, at, form.kind, form.words);
    let pair = put_owner(file, start, edition, owner);
    put_pair_words(file, pair, r)
}

// The frame of item k, where it is another pair than the one before it.
fn put_new(
    pool: &[i32],
    items: &[i32],
    n: usize,
    k: usize,
    owner: Owner,
    file: &mut [u8],
    at: usize,
) -> usize
    requires listed { Listed pool.now items.now n }
    requires k_lt_n { k < n }
    requires k_in_bounds { at + length (new_frames pool.now owner items.now k 1) ≤ length file.old }
    ensures { Wrote file.old at (new_frames pool.now owner items.now k 1) file.new result }
{
    if !is_new(pool, items, n, k) {
        return at;
    }
    let edition = pool::edition_of(pool);
    let f = found_items::item(pool, items, k);
    let number = f.number;
    let rect = f.rect;
    let r = Record {
        owner,
        number,
        rect,
    };
    put_record(file, at, edition, r)
}

// The frames of all n items, "in found order".
fn put_records(
    pool: &[i32],
    items: &[i32],
    n: usize,
    owner: Owner,
    file: &mut [u8],
    at: usize,
) -> usize
    requires listed { Listed pool.now items.now n }
    requires n_in_bounds { at + length (new_frames pool.now owner items.now 0 n) ≤ length file.old }
    ensures { Wrote file.old at (new_frames pool.now owner items.now 0 n) file.new result }
{
    let mut next = at;
    for k in 0..n {
        next = put_new(pool, items, n, k, owner, file, next);
    }
    next
}

// The frames after those of the first owner, of which edition 1 has none.
fn put_second(pool: Pool<'_>, items: &mut [i32], file: &mut [u8], at: usize) -> usize
    requires whole { Whole (read pool) }
    requires len { length items.old ≡ item_words }
    requires pool_in_bounds { at + length (second_frames pool.words.now) ≤ length file.old }
    ensures { Wrote file.old at (second_frames pool.entry.words.now) file.new result }
{
    match pool::edition_of(pool.words) {
        Edition::One => at,
        Edition::Two => {
            let owner = Owner(2);
            let n = list_all(pool, owner, items);
            put_records(pool.words, items, n, owner, file, at)
        }
    }
}

// "A writer fills the front of a lent buffer". The items are those of the first owner: these are
// written, and then the others' are listed.
fn put_file(pool: Pool<'_>, items: &mut [i32], n: usize, count: usize, file: &mut [u8])
    requires whole { Whole (read pool) }
    requires counts_file { CountsFile pool.words.now items.old n count }
    requires pool_in_bounds { length (F.pool_file (read pool)) ≤ length file.old }
    ensures { file.new ≡ sets file.old 0 (F.pool_file (read pool.entry)) }
{
    let edition = pool::edition_of(pool.words);
    let owner = FileForm::of(edition).first;
    let first = put_head(file, edition, count);
    let second = put_records(pool.words, items, n, owner, file, first);
    let end = put_second(pool, items, file, second);
    put_start(file, end, 18, 0);
}

// ---- the writer

// What is known before the first byte is written: n items of the first owner, and how many records
// the file has in all.
#[derive(Clone, Copy)]
struct FileCount {
    n: usize,
    count: usize,
}

// Counts the records before the first is written. The first owner's are listed last, so that they
// are the items there when writing begins.
fn count_file(pool: Pool<'_>, items: &mut [i32]) -> FileCount
    requires whole { Whole (read pool) }
    requires len { length items.old ≡ item_words }
    ensures { CountsFile pool.entry.words.now items.new result.n result.count }
{
    let others = count_second(pool, items);
    let owner = FileForm::of(pool::edition_of(pool.words)).first;
    let n = list_all(pool, owner, items);
    let count = count_new(pool.words, items, n) + others;
    FileCount { n, count }
}

// "8 if its buffer is short": how many bytes there will be is known before the first is written.
fn fill(pool: Pool<'_>, items: &mut [i32], file: &mut [u8]) -> Result<usize, FileFault>
    requires whole { Whole (read pool) }
    requires len { length items.old ≡ item_words }
    ensures { Fills pool.entry.words.now file.old result file.new }
{
    let c = count_file(pool, items);
    let bytes = place_of(pool::edition_of(pool.words), c.count) + END_BYTES;
    if file.len() < bytes {
        return Err(FileFault::ShortBuffer);
    }
    put_file(pool, items, c.n, c.count, file);
    Ok(bytes)
}

// Of a sound pool only 8 is left to refuse. The writer is lent no workspace, so the words of the
// items are its own.
fn write_sound(pool: Pool<'_>, file: &mut [u8]) -> Result<usize, FileFault>
    requires { Whole (read pool) }
    ensures { Fills pool.entry.words.now file.old result file.new }
{
    let mut items = [0i32; ITEM_WORDS];
    fill(pool, &mut items[..], file)
}

// Writes the file of a pool to the front of a buffer, and tells how many bytes that are; or
// refuses, and the buffer stays.
pub fn write(pool: &[i32], file: &mut [u8]) -> Result<usize, FileFault>
    ensures { Writes pool.now file.old (number_of result) file.new (result_unwrap_or result 0) }
{
    if !pool::valid_length(pool) {
        return Err(FileFault::BadLength);
    }
    let right = Pool::over(pool);
    if !sound::sound(right) {
        return Err(FileFault::NotSound);
    }
    write_sound(right, file)
}

// ---- frames read

// Whether the frame that is due begins at a place: whole, of the kind, and with so many words.
fn is_due(file: &[u8], at: usize, kind: u16, words: u16) -> bool
    requires at_in_bounds { at ≤ length file.now }
    requires words_bound { words ≤ 6 }
    ensures { result ≡ is_due kind words (drop at file.now) }
{
    let long = 2 + 4 * words;
    if file.len() - at < 2 + usize::from(long) {
        return false;
    }
    frames::pair_at(file, at) == long && frames::pair_at(file, at + 2) == kind
}

// "number, rectangle", from a place on.
fn pair_from(file: &[u8], at: usize, owner: Owner) -> Record
    requires { at + 20 ≤ length file.now }
    ensures { result ≡ pair_from owner file.now at }
{
    let number = RecordNumber(frames::word_at(file, at));
    let rect = frames::rect_at(file, at + 4);
    Record {
        owner,
        number,
        rect,
    }
}

// Record k, which in edition 2 has its owner before it.
fn record_at(file: &[u8], edition: Edition, k: usize) -> Record
    requires edition_in_bounds { place_of edition k + record_bytes edition ≤ length file.now }
    requires k_bound { k ≤ 2147483647 }
    ensures { result ≡ record_at edition file.now k }
{
    let at = place_of(edition, k);
    match edition {
        Edition::One => pair_from(file, at + 4, Owner(0)),
        Edition::Two => pair_from(file, at + 8, Owner(frames::word_at(file, at + 4))),
    }
}

// What the found list shows of a record.
fn as_found(r: Record) -> FoundRecord
    ensures { result ≡ as_found r }
{
    let number = r.number;
    let rect = r.rect;
    FoundRecord { number, rect }
}

// "ordered by owner first", then in found order.
fn before_in_file(a: Record, b: Record) -> bool
    ensures { result ≡ F.before_in_file a b }
{
    let p = a.owner;
    let q = b.owner;
    let next = found_order::record_before(as_found(a), as_found(b));
    less_then(p.0 < q.0, q.0 < p.0, next)
}

// "11 for a record not after its predecessor"; the first has none.
fn is_after(file: &[u8], edition: Edition, k: usize) -> bool
    requires edition_in_bounds { place_of edition k + record_bytes edition ≤ length file.now }
    requires k_bound { k ≤ 2147483647 }
    ensures { result ≡ F.follows (last_at edition file.now k) (record_at edition file.now k) }
{
    if k == 0 {
        return true;
    }
    let last = record_at(file, edition, k - 1);
    let r = record_at(file, edition, k);
    before_in_file(last, r)
}

// "an owner, 1 or 2"; nobody's in edition 1.
#[tactic(auto, unfolding(rules::specs::Owners::owner_sound, rules::specs::Lists::same))]
fn owner_sound(edition: Edition, o: Owner) -> bool
    ensures { result ≡ owner_sound edition o }
{
    match edition {
        Edition::One => o.0 == 0,
        Edition::Two => pool::good_owner(o),
    }
}

// Record k, or what refuses it: 10, "then 3, 4, then 11". Req 07: "13 for another owner, .. in a
// file after 4".
fn good_record(file: &[u8], edition: Edition, k: usize) -> Result<Record, FileFault>
    requires k_in_bounds { place_of edition k ≤ length file.now }
    requires k_bound { k ≤ 2147483647 }
    ensures { Gives edition file.now k result }
{
    let at = place_of(edition, k);
    let form = FileForm::of(edition);
    if !is_due(file, at, form.kind, form.words) {
        return Err(FileFault::BadFrame);
    }
    let r = record_at(file, edition, k);
    if !geometry::valid(r.rect) {
        return Err(FileFault::BadRectangle);
    }
    if !pool::good_number(r.number) {
        return Err(FileFault::BadNumber);
    }
    if !owner_sound(edition, r.owner) {
        return Err(FileFault::BadOwner);
    }
    if !is_after(file, edition, k) {
        return Err(FileFault::NotAfter);
    }
    Ok(r)
}

// ---- the reader

// Record k goes into the pool: what is known of the free slots then.
fn take_record(
    pool: &mut [i32],
    file: &[u8],
    edition: Edition,
    k: usize,
    free: FreeSlots,
) -> Result<FreeSlots, FileFault>
    requires fit { Fit pool.old × Whole (L.read pool.old) × Known (L.read pool.old) free }
    requires pool_value { (L.read pool.old).edition ≡ edition }
    requires k_in_bounds { place_of edition k ≤ length file.now }
    requires k_bound { k ≤ 2147483647 }
    ensures { Took (took_at edition (L.read pool.old) file.now k) result pool.new }
{
    let r = good_record(file, edition, k)?;
    insert::insert_record(pool, r, free).ok_or(FileFault::NoSlot)
}

// "kind 18 last with no words", and no "bytes after kind 18".
fn check_end(file: &[u8], at: usize) -> Result<(), FileFault>
    requires { at ≤ length file.now }
    ensures { result ≡ end_told (drop at file.now) }
{
    if !is_due(file, at, 18, 0) {
        return Err(FileFault::BadFrame);
    }
    if file.len() - at != END_BYTES {
        return Err(FileFault::BadFrame);
    }
    Ok(())
}

// "inserts in file order"; "the first frame at fault decides".
fn load_records(
    pool: &mut [i32],
    file: &[u8],
    edition: Edition,
    count: usize,
) -> Result<(), FileFault>
    requires fit { Fit pool.old × Whole (L.read pool.old) }
    requires pool_value { (L.read pool.old).edition ≡ edition }
    requires in_bounds { 12 ≤ length file.now }
    requires count_bound { count ≤ 2147483647 }
    ensures { Loads (F.load_records ours edition count None (L.read pool.old) (drop 12 file.now))
        result pool.new }
{
    let mut free = free_slots::free_slots(Pool::over(pool));
    for k in 0..count {
        free = take_record(pool, file, edition, k, free)?;
    }
    check_end(file, place_of(edition, count))
}

// "kind 16 first (edition 1, record count)". Req 07: reading is "told the edition .. and goes by
// it", so a head of the other is wrong.
fn load_file(pool: &mut [i32], file: &[u8], edition: Edition) -> Result<(), FileFault>
    requires fit { Fit pool.old × Whole (L.read pool.old) }
    requires pool_value { (L.read pool.old).edition ≡ edition }
    ensures { Loads (F.load_file ours edition (L.read pool.old) file.now) result pool.new }
{
    if !is_due(file, 0, 16, 2) {
        return Err(FileFault::BadFrame);
    }
    let said = frames::word_at(file, 4);
    let count = frames::word_at(file, 8);
    if said != edition.number() {
        return Err(FileFault::BadFrame);
    }
    if count < 0 {
        return Err(FileFault::BadFrame);
    }
    load_records(pool, file, edition, count as usize)
}

// "A read refused past 1 leaves the pool, and its workspace equal to it"; one that is not leaves
// both as the file made the workspace.
fn settle(pool: &mut [i32], work: &mut [i32], loaded: bool)
    requires { length work.old ≡ length pool.old }
    ensures pool { pool.new ≡ settled loaded pool.old work.old }
    ensures workspace { work.new ≡ settled loaded pool.old work.old }
{
    if loaded {
        pool::copy(work, pool);
    } else {
        pool::copy(pool, work);
    }
}

// "a reader blanks a pool and inserts in file order". The workspace is blanked and takes the
// records: the pool is written only when the last frame is found right. What edition the pool had
// makes no difference.
pub fn read(
    pool: &mut [i32],
    work: &mut [i32],
    file: &[u8],
    edition: Edition,
) -> Result<(), FileFault>
    ensures { Reads edition pool.old work.old file.now (number_of result) pool.new work.new }
{
    if !pool::valid_size(edition, pool.len()) {
        return Err(FileFault::BadLength);
    }
    if work.len() != pool.len() {
        return Err(FileFault::BadLength);
    }
    // The length is right, so nothing is refused.
    let _ = pool::blank::blank(work, edition);
    let loaded = load_file(work, file, edition);
    settle(pool, work, loaded.is_ok());
    loaded
}
