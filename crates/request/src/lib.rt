// One request: the checks in the table's order, and what an accepted one does.
#![tactic(auto)]

ghost use Rattle.std.specs.Prelude.{◌≡◌, true, false, ◌≤◌, ltb, length, Some};
ghost use Rattle.rules.specs.declared.Asked.TheVariants as K;
ghost use Rattle.rules.specs.declared.RequestFault.TheVariants as Q;
ghost use Rattle.rules.specs.Numbers as N;
ghost use Rattle.rules.specs.Geometry as G;
ghost use Rattle.rules.specs.Owners as O;
ghost use Rattle.rules.specs.Owners.{owner_sound};
ghost use Rattle.rules.specs.Pool as P;
ghost use Rattle.rules.specs.Layout as L;
ghost use Rattle.rules.specs.Sound.{owners_sound};
ghost use Rattle.rules.specs.Search as F;
ghost use Rattle.rules.specs.Insert as I;
ghost use Rattle.rules.specs.Delete as D;
ghost use Rattle.rules.specs.Answers as T;
ghost use Rattle.rules.specs.Request as R;
ghost use Rattle.rules.specs.Call.{is_request};
ghost use Rattle.layout_laws.specs.Slots.{Fit};
ghost use Rattle.pool.specs.Reading.{read};
ghost use Rattle.free_slots.specs.Known.{Known};
ghost use Rattle.sound_laws.specs.Tree.{Whole};
ghost use Rattle.delete_laws.specs.Way.{thin_levels};
ghost use Rattle.find_leaf.specs.Ways.{Gives, path_of};
ghost use Rattle.delete.specs.Aside.{ComesDown};
ghost use Rattle.delete.specs.Removed.{Removes};
ghost use Rattle.in_force_laws.specs.Force.{asked_by};
ghost use Rattle.request.specs.Serving.{Ready, Serves, ChangesTo, ServesTo, TakenBack};
ghost use Rattle.request.specs.Serving.{replied, changed, refused_unless};
ghost use Rattle.request.specs.Serving.{room_from, other_held, mode_of};

use find_leaf::Way;
use free_slots::FreeSlots;
use pool::node::Pool;
use rules::{
    Accepted, Answer, Asked, Edition, LEAST, Mode, Owner, Record, RecordNumber, Rect, Reply,
    Request, RequestFault,
};

// The outcome of a request: its answer, how many items wait in the workspace for the found list,
// and what is known of the free slots now.
#[derive(Clone, Copy)]
pub struct Served {
    pub answer: Answer,
    pub listed: usize,
    pub free: FreeSlots,
}

// ---- requests and answers

// "kind 4 keeps meeting; kinds 5 and 6, of the same layout, are inside and enclosing".
#[tactic(auto, unfolding(crate::specs::Serving::mode_of, rules::specs::Lists::same))]
fn mode_of(kind: i32) -> Mode
    ensures { result ≡ mode_of kind }
{
    match kind {
        5 => Mode::OnlyInside,
        6 => Mode::OnlyEnclosing,
        _ => Mode::Meeting,
    }
}

// "A request is of one of the four kinds; fields that its kind doesn't use are not looked at". It
// is an owner's.
#[tactic(auto, unfolding(rules::specs::Lists::same))]
fn asked(owner: Owner, q: Request) -> Asked
    requires { is_request q ≡ true }
    ensures { R.asked owner q ≡ Some result }
{
    let pair = Record {
        owner,
        number: q.number,
        rect: q.first,
    };
    match q.kind {
        1 => Asked::Insert(pair),
        2 => Asked::Delete(pair),
        3 => Asked::Update(pair, q.second),
        kind => Asked::Search(owner, mode_of(kind), q.first),
    }
}

// "Changes and refusals report zeros for the last three".
fn zeros(number: u32) -> Answer
    ensures { result ≡ T.answer number 0 0 0 }
{
    Answer {
        number,
        found: 0,
        start: 0,
        opened: 0,
    }
}

// .. "8 reports found and opened as they would have been, start zero."
#[tactic(auto, unfolding(rules::specs::Answers::answer_of))]
fn answer_of(reply: Reply) -> Answer
    ensures { result ≡ T.answer_of reply }
{
    match reply {
        Ok(Accepted::Changed) => zeros(0),
        Ok(
            Accepted::Listed {
                found,
                start,
                opened,
            },
        ) => Answer {
            number: 0,
            found,
            start,
            opened,
        },
        Err(RequestFault::BadRectangle) => zeros(3),
        Err(RequestFault::BadNumber) => zeros(4),
        Err(RequestFault::NotHeld) => zeros(5),
        Err(RequestFault::Held) => zeros(6),
        Err(RequestFault::NoSlot) => zeros(7),
        Err(RequestFault::NoRoom { found, opened }) => Answer {
            number: 8,
            found,
            start: 0,
            opened,
        },
    }
}

// ---- a copy of the pool

// The pool is kept in the workspace where a change may be refused halfway: it is then taken back
// from there.
fn keep(pool: &[i32], work: &mut [i32], halfway: bool)
    requires { length pool.now ≡ length work.old }
    ensures long { length work.new ≡ length work.old }
    ensures kept { halfway ≡ true → work.new ≡ pool.now }
{
    if halfway {
        pool::copy(pool, work);
    }
}

// What was refused halfway is taken back from the copy.
fn take_back(pool: &mut [i32], kept: &[i32], o: Option<FreeSlots>)
    requires { length kept.now ≡ length pool.old }
    ensures { TakenBack o pool.old kept.now pool.new }
{
    match o {
        Some(_) => {}
        None => pool::copy(kept, pool),
    }
}

// ---- changes

// 3: the rectangle of a request.
fn valid(rect: Rect) -> Result<(), RequestFault>
    ensures { result ≡ refused_unless (G.valid rect) Q.BadRectangle }
{
    if geometry::valid(rect) {
        Ok(())
    } else {
        Err(RequestFault::BadRectangle)
    }
}

// 4: its record number.
fn numbered(number: RecordNumber) -> Result<(), RequestFault>
    ensures { result ≡ refused_unless (N.good_number number) Q.BadNumber }
{
    if pool::good_number(number) {
        Ok(())
    } else {
        Err(RequestFault::BadNumber)
    }
}

// 3, 4 and 6, and then the record goes in. 7: "the rules call for a slot at a moment when none is
// free".
fn insert(pool: &mut [i32], r: Record, free: FreeSlots) -> Result<FreeSlots, RequestFault>
    requires ready { Ready pool.old free }
    requires owner_value { owner_sound (L.read pool.old).edition r.owner ≡ true }
    ensures { ChangesTo pool.old (K.Insert r) (changed free result) pool.new }
{
    valid(r.rect)?;
    numbered(r.number)?;
    if find_leaf::holds(Pool::over(pool), r) {
        return Err(RequestFault::Held);
    }
    insert::insert_record(pool, r, free).ok_or(RequestFault::NoSlot)
}

// How many nodes leave their parents when the pair at the end of the way goes out. A leaf leaves
// that would be left with too few entries; a node above loses an entry only where its child leaves.
// So they are counted from the leaf up, as far as one keeps enough; the root stays.
fn leaving(pool: Pool<'_>, way: Way, height: usize) -> usize
    requires { ComesDown (read pool) height way }
    ensures is { result ≡ thin_levels (read pool.entry) (path_of height way) }
    ensures few { result ≤ 7 }
{
    let root = height - 1;
    for k in 0..root {
        if LEAST < pool.node(way.steps[k].node).count() {
            return k;
        }
    }
    root
}

// Whether free slots are so few that a change may be refused halfway: one that takes out the pair
// at the end of the way, and then puts in so many records. Only the entries of the nodes that leave
// are put back, fewer than the least of each. Whatever goes in takes at most a slot for each level
// and one more, and the tree grows by at most one level.
fn scarce(pool: Pool<'_>, way: Way, free: FreeSlots, records: usize) -> bool
    requires comes_down { ComesDown (read pool) (read pool).height way }
    requires records_bound { records ≤ 1 }
    ensures { result ≡ ltb free.count
        (room_from (read pool.entry) (path_of (read pool.entry).height way) records) }
{
    let h = pool.height();
    let n = (LEAST - 1) * leaving(pool, way, h);
    free.count < n * (h + n) + records * (h + n + 1)
}

// 3, 4 and 5, and then the pair goes out.
fn delete(
    pool: &mut [i32],
    work: &mut [i32],
    r: Record,
    free: FreeSlots,
) -> Result<FreeSlots, RequestFault>
    requires ready { Ready pool.old free }
    requires work_len { length work.old ≡ length pool.old }
    ensures is { ChangesTo pool.old (K.Delete r) (changed free result) pool.new }
    ensures long { length work.new ≡ length work.old }
{
    valid(r.rect)?;
    numbered(r.number)?;
    let tree = Pool::over(pool);
    let Some(way) = find_leaf::find_leaf(tree, r) else {
        return Err(RequestFault::NotHeld);
    };
    keep(pool, work, scarce(tree, way, free, 0));
    let left = delete::delete_record(pool, r, way, free);
    take_back(pool, work, left);
    left.ok_or(RequestFault::NoSlot)
}

// "the new rectangle under the same number", and of the same owner.
fn moved(old: Record, new: Rect) -> Record
    ensures { result ≡ P.moved old new }
{
    Record { rect: new, ..old }
}

// "Update deletes the old pair, then inserts the new rectangle under the same number; also where
// old equals new."
fn replace(pool: &mut [i32], old: Record, new: Rect, way: Way, free: FreeSlots) -> Option<FreeSlots>
    requires fit { Fit pool.old }
    requires whole { Whole (L.read pool.old) × (owners_sound (L.read pool.old) ≡ true) }
    requires known { Known (L.read pool.old) free }
    requires gives { Gives (D.path_to (L.read pool.old) old) (L.read pool.old).height (Some way) }
    requires value { (G.valid new ≡ true) × (N.good_number old.number ≡ true)
        × (owner_sound (L.read pool.old).edition old.owner ≡ true) }
    ensures { Removes pool.old (D.update_record I.ours (L.read pool.old) old new) result pool.new }
{
    let moved = moved(old, new);
    let left = delete::delete_record(pool, old, way, free)?;
    insert::insert_record(pool, moved, left)
}

// 6: "update: new pair held and not the old pair".
fn other_held(pool: Pool<'_>, old: Record, new: Rect) -> bool
    requires { Whole (read pool) }
    ensures { result ≡ other_held (read pool.entry) old new }
{
    if geometry::is_equal(geometry::compare(old.rect, new)) {
        return false;
    }
    find_leaf::holds(pool, moved(old, new))
}

// The old pair, at the end of the way, goes out and the new one goes in. What is refused halfway is
// taken back.
fn update_held(
    pool: &mut [i32],
    work: &mut [i32],
    old: Record,
    new: Rect,
    way: Way,
    free: FreeSlots,
) -> Result<FreeSlots, RequestFault>
    requires ready { Ready pool.old free }
    requires work_len { length work.old ≡ length pool.old }
    requires rect_value { (G.valid old.rect ≡ true) × (G.valid new ≡ true)
        × (N.good_number old.number ≡ true) }
    requires gives { Gives (D.path_to (L.read pool.old) old) (L.read pool.old).height (Some way) }
    requires value { other_held (L.read pool.old) old new ≡ false }
    ensures is { ChangesTo pool.old (K.Update old new) (changed free result) pool.new }
    ensures long { length work.new ≡ length work.old }
{
    keep(pool, work, scarce(Pool::over(pool), way, free, 1));
    let left = replace(pool, old, new, way, free);
    take_back(pool, work, left);
    left.ok_or(RequestFault::NoSlot)
}

// 3, 4, 5 and 6, and then the update is done.
fn update(
    pool: &mut [i32],
    work: &mut [i32],
    old: Record,
    new: Rect,
    free: FreeSlots,
) -> Result<FreeSlots, RequestFault>
    requires ready { Ready pool.old free }
    requires work_len { length work.old ≡ length pool.old }
    ensures is { ChangesTo pool.old (K.Update old new) (changed free result) pool.new }
    ensures long { length work.new ≡ length work.old }
{
    valid(old.rect)?;
    valid(new)?;
    numbered(old.number)?;
    let tree = Pool::over(pool);
    let Some(way) = find_leaf::find_leaf(tree, old) else {
        return Err(RequestFault::NotHeld);
    };
    if other_held(tree, old, new) {
        return Err(RequestFault::Held);
    }
    update_held(pool, work, old, new, way, free)
}

// ---- searches

// "Opened is reported as 0" in edition 2.
fn reported(pool: Pool<'_>, opened: usize) -> u32
    requires { opened ≤ 43046721 }
    ensures { result ≡ F.reported (L.edition_of pool.entry.words.now) opened }
{
    match pool::edition_of(pool.words) {
        Edition::One => opened as u32,
        Edition::Two => 0,
    }
}

// 3 and 8; otherwise the records found are left in the workspace, in order. How many there are is
// known before any goes to the found list.
fn search(
    pool: Pool<'_>,
    work: &mut [i32],
    owner: Owner,
    mode: Mode,
    window: Rect,
    filled: usize,
    room: usize,
    free: FreeSlots,
) -> Served
    requires ready { Ready pool.words.now free }
    requires work_len { length work.old ≡ length pool.words.now }
    requires owner_value { owner_sound (read pool).edition owner ≡ true }
    requires filled_bound { filled ≤ 33554432 }
    ensures { Serves (length pool.entry.words.now)
        (R.request I.ours (read pool.entry) filled room (K.Search owner mode window))
        result pool.entry.words.now work.new }
{
    if !geometry::valid(window) {
        return told(Err(RequestFault::BadRectangle), free);
    }
    let w = search::list(pool, owner, mode, window, work);
    let found = w.next as u32;
    let opened = reported(pool, w.opened);
    if room < w.next {
        return told(Err(RequestFault::NoRoom { found, opened }), free);
    }
    found_order::sort(pool.words, work, w.next);
    Served {
        answer: answer_of(Ok(Accepted::Listed {
            found,
            start: filled as u32,
            opened,
        })),
        listed: w.next,
        free,
    }
}

// ---- what is handed back

// A reply that lists nothing.
#[tactic(auto, unfolding(crate::specs::Serving::replied))]
fn told(reply: Reply, free: FreeSlots) -> Served
    ensures { result ≡ replied reply free }
{
    Served {
        answer: answer_of(reply),
        listed: 0,
        free,
    }
}

// A change that was made, with what is known of the free slots now, or refused: then it is as it
// was.
#[tactic(auto, unfolding(crate::specs::Serving::changed))]
fn changed(free: FreeSlots, outcome: Result<FreeSlots, RequestFault>) -> Served
    ensures { result ≡ changed free outcome }
{
    match outcome {
        Ok(left) => told(Ok(Accepted::Changed), left),
        Err(fault) => told(Err(fault), free),
    }
}

// ---- any request

// Whose records a batch of an owner sees and changes: an edition 1 pool is "served .. for owners 1
// and 2 alike", and its records are nobody's.
fn batch_owner(pool: Pool<'_>, owner: i32) -> Owner
    ensures { result ≡ O.owner_in (L.edition_of pool.entry.words.now) (O.owner owner) }
{
    match pool::edition_of(pool.words) {
        Edition::One => Owner(0),
        Edition::Two => Owner(owner),
    }
}

// What is asked is done, by its kind.
fn serve_asked(
    pool: &mut [i32],
    work: &mut [i32],
    a: Asked,
    filled: usize,
    room: usize,
    free: FreeSlots,
) -> Served
    requires ready { Ready pool.old free }
    requires work_len { length work.old ≡ length pool.old }
    requires a_value { owner_sound (L.read pool.old).edition (asked_by a) ≡ true }
    requires filled_bound { filled ≤ 33554432 }
    ensures { Serves (length pool.old) (R.request I.ours (L.read pool.old) filled room a)
        result pool.new work.new }
{
    match a {
        Asked::Insert(r) => changed(free, insert(pool, r, free)),
        Asked::Delete(r) => changed(free, delete(pool, work, r, free)),
        Asked::Update(old, new) => changed(free, update(pool, work, old, new, free)),
        Asked::Search(whose, mode, window) => {
            search(
                Pool::over(pool),
                work,
                whose,
                mode,
                window,
                filled,
                room,
                free,
            )
        }
    }
}

// A request of an owner's batch is done in a sound pool, with `filled` places of the found list
// filled and `room` left. The workspace is scratch; what a search lists is left there as items, in
// found order.
pub fn one_request(
    pool: &mut [i32],
    work: &mut [i32],
    owner: i32,
    q: Request,
    filled: usize,
    room: usize,
    free: FreeSlots,
) -> Served
    requires ready { Ready pool.old free }
    requires work_len { length work.old ≡ length pool.old }
    requires q_value { is_request q ≡ true }
    requires owner_value { N.good_owner (O.owner owner) ≡ true }
    requires filled_bound { filled ≤ 33554432 }
    ensures { ServesTo pool.old (O.owner_in (L.edition_of pool.old) (O.owner owner))
        q filled room result pool.new work.new }
{
    let who = batch_owner(Pool::over(pool), owner);
    let a = asked(who, q);
    serve_asked(pool, work, a, filled, room, free)
}
