// The map for other languages: the functions that `map_c` exports, with no `requires`.
#![tactic(auto)]

ghost use Rattle.std.specs.Prelude.{◌≡◌, pos, MatchResult};
ghost use Rattle.rules.specs.declared.Edition.TheVariants as E;
ghost use Rattle.rules.specs.Owners as O;
ghost use Rattle.rules.specs.Owners.{edition_told};
ghost use Rattle.rules.specs.Call as C;
ghost use Rattle.rules.specs.Room.{room_number, room_words};
ghost use Rattle.promises.specs.Calls.{lent, nothing_asked, left, Allowed};
ghost use Rattle.promises.specs.Blanks.{Blanks, BlanksAs};
ghost use Rattle.promises.specs.Files.{Writes, Reads, ReadsAs};
ghost use Rattle.promises.specs.Rooms.{Tells};
ghost use Rattle.promises.specs.Surveys.{Converts, of_box, of_point, of_disc};

use rules::{
    Answer, Edition, FoundRecord, InsertRoom, Query, Rect, Request, RoomFault, SurveyBox, Surveyed,
};

// For any words: 0 and a blank pool of edition 1; or 1 for a wrong length, and nothing is written.
pub fn dustmap_blank(pool: &mut [i32]) -> i32
    ensures { Blanks E.One pool.old result pool.new }
{
    number(pool::blank::blank(pool, Edition::One))
}

// What is returned where two numbers tell no edition.
const NONE_TOLD: i32 = -1;

// The edition that a number tells, with the number of a rule: "told the edition, by an enum that has
// no other": 1 and 2. Of rules there is 0 alone.
#[tactic(auto, unfolding(rules::specs::Owners::edition_told, rules::specs::Answers::first_row, rules::specs::Lists::same))]
fn edition_told(edition: i32, rule: i32) -> Option<Edition>
    ensures { result ≡ edition_told edition rule }
{
    match (edition, rule) {
        (1, 0) => Some(Edition::One),
        (2, 0) => Some(Edition::Two),
        _ => None,
    }
}

// What a call returns: 0, or the number of what refuses it.
fn number<F: Into<i32>>(outcome: Result<(), F>) -> i32
    ensures { MatchResult outcome (λ _. result ≡ pos 0) (λ fault. F.converts fault result) }
{
    match outcome {
        Ok(()) => 0,
        Err(fault) => fault.into(),
    }
}

// .. of the edition told. -1, before all else, where there is none of it or of the rule, and nothing is written.
pub fn dustmap_blank_as(pool: &mut [i32], edition: i32, rule: i32) -> i32
    ensures { BlanksAs edition rule pool.old result pool.new }
{
    match edition_told(edition, rule) {
        Some(e) => number(pool::blank::blank(pool, e)),
        None => NONE_TOLD,
    }
}

// What a call with no request would return: 1 for a wrong length, 2 for a pool that is not sound, else 0. Nothing is written.
pub fn dustmap_check(pool: &[i32]) -> i32
    ensures { result ≡ (C.call (nothing_asked pool.now)).number }
{
    let n = pool.len();
    number(refusal::refusal(pool, 1, n, 0, 0, true))
}

// One call: a batch of an owner over lent lists. For any input at all, the number, the pool, the workspace, the answers and the found list
// are those that the definition `call` gives.
pub fn dustmap_call_as(
    pool: &mut [i32],
    work: &mut [i32],
    requests: &[Request],
    answers: &mut [Answer],
    found: &mut [FoundRecord],
    owner: i32,
) -> i32
    ensures { Allowed (lent (O.owner owner) pool.old work.old requests.now answers.old found.old) (left result pool.new work.new answers.new found.new) }
{
    number(batch::one_call(pool, work, requests, answers, found, owner))
}

// .. of owner 1.
pub fn dustmap_call(
    pool: &mut [i32],
    work: &mut [i32],
    requests: &[Request],
    answers: &mut [Answer],
    found: &mut [FoundRecord],
) -> i32
    ensures { Allowed (lent (O.owner (pos 1)) pool.old work.old requests.now answers.old found.old) (left result pool.new work.new answers.new found.new) }
{
    number(batch::one_call(pool, work, requests, answers, found, 1))
}

// The file of the map, at the front of a lent buffer, and how many bytes it has. Beside a refusal the buffer stays and the length is 0.
pub fn dustmap_write(pool: &[i32], file: &mut [u8], size: &mut u64) -> i32
    ensures { Writes pool.now file.old result file.new size.new }
{
    match file::write(pool, file) {
        Ok(bytes) => {
            *size = bytes as u64;
            0
        }
        Err(fault) => {
            *size = 0;
            fault.into()
        }
    }
}

// The map of a file of edition 1. Beside a refusal past 1 the pool stays, and the workspace is made equal to it.
pub fn dustmap_read(pool: &mut [i32], work: &mut [i32], file: &[u8]) -> i32
    ensures { Reads E.One pool.old work.old file.now result pool.new work.new }
{
    number(file::read(pool, work, file, Edition::One))
}

// .. of the edition told. -1, before all else, where there is none of it or of the rule, and nothing is written.
pub fn dustmap_read_as(
    pool: &mut [i32],
    work: &mut [i32],
    file: &[u8],
    edition: i32,
    rule: i32,
) -> i32
    ensures { ReadsAs edition rule pool.old work.old file.now result pool.new work.new }
{
    match edition_told(edition, rule) {
        Some(e) => number(file::read(pool, work, file, e)),
        None => NONE_TOLD,
    }
}

// What is written of a window, and its number: the rectangle beside 0; beside a refusal, nothing.
#[tactic(auto, unfolding(rules::specs::Survey::survey_number, rules::specs::Survey::survey_words))]
fn told(window: Surveyed, rect: &mut [i32; 4]) -> i32
    ensures { Converts window rect.old result rect.new }
{
    match window {
        Ok(r) => {
            rect[0] = r.lowX;
            rect[1] = r.lowY;
            rect[2] = r.highX;
            rect[3] = r.highY;
            0
        }
        Err(refused) => refused.into(),
    }
}

// A survey box in doubles, as the rectangle of whole millimetres that holds it.
pub fn dustmap_box(low_x: f64, low_y: f64, high_x: f64, high_y: f64, rect: &mut [i32; 4]) -> i32
    ensures { Converts (of_box low_x low_y high_x high_y) rect.old result rect.new }
{
    let b = SurveyBox {
        lowX: low_x,
        lowY: low_y,
        highX: high_x,
        highY: high_y,
    };
    told(survey::query_window(Query::Box(b)), rect)
}

pub fn dustmap_point(x: f64, y: f64, rect: &mut [i32; 4]) -> i32
    ensures { Converts (of_point x y) rect.old result rect.new }
{
    told(survey::query_window(Query::Point { x, y }), rect)
}

// A disc by its centre and its radius, as a window that holds it.
pub fn dustmap_disc(x: f64, y: f64, radius: f64, rect: &mut [i32; 4]) -> i32
    ensures { Converts (of_disc x y radius) rect.old result rect.new }
{
    told(survey::query_window(Query::Disc { x, y, radius }), rect)
}

// What is written of it, and its number: needed and free beside 0; beside a refusal, nothing.
#[tactic(auto, unfolding(rules::specs::Room::room_number, rules::specs::Room::room_words))]
fn told_room(room: Result<InsertRoom, RoomFault>, slots: &mut [u32; 2]) -> i32
    ensures number { result ≡ room_number room }
    ensures written { slots.new ≡ room_words room slots.old }
{
    match room {
        Ok(room) => {
            slots[0] = room.needed;
            slots[1] = room.free;
            0
        }
        Err(fault) => i32::from(fault),
    }
}

// Whether an insert of a rectangle would fit: the slots that it needs, and those that are free. The pool is only read.
pub fn dustmap_room(pool: &[i32], rect: &[i32; 4], slots: &mut [u32; 2]) -> i32
    ensures { Tells pool.now rect.now slots.old result slots.new }
{
    let new = Rect {
        lowX: rect[0],
        lowY: rect[1],
        highX: rect[2],
        highY: rect[3],
    };
    told_room(room::insert_room(pool, new), slots)
}
