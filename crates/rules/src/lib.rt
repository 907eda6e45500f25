// The things documents 01 and 02 speak of, as types that the code and the definitions in specs/ share.
// What is right stands in specs/, and the crates above cite it. The code here is the equality and
// the order of these types, field by field in the order in which they stand, and the numbers of
// editions and of what refuses.
#![tactic(auto)]

ghost use Rattle.std.specs.Prelude.{◌≡◌, pos};
ghost use Rattle.rules.specs.Owners.{edition_number};
ghost use Rattle.rules.specs.Answers.{call_fault_number};
ghost use Rattle.rules.specs.Survey.{survey_fault_number};
ghost use Rattle.rules.specs.Room.{room_fault_number};
ghost use Rattle.rules.specs.File.{file_number};

// "M = 8 entries in a node at most, m = 3 at least (root excepted)."
pub const MOST: usize = 8;

pub const LEAST: usize = 3;

// "A full node splits over nine entries".
pub const NINE: usize = MOST + 1;

// "Height is 8 at most".
pub const MOST_HEIGHT: usize = 8;

// "Slots N: 1 to 4,096. A batch has 0 to 1,024 requests."
pub const MOST_SLOTS: usize = 4096;

pub const MOST_REQUESTS: usize = 1024;

// A closed rectangle in whole millimetres.
#[repr(C)]
#[derive(Clone, Copy, PartialEq, Eq, PartialOrd, Ord, Default)]
pub struct Rect {
    pub lowX: i32,
    pub lowY: i32,
    pub highX: i32,
    pub highY: i32,
}

// The paper's tuple-identifier. It is never mixed with a slot number.
#[repr(C)]
#[derive(Clone, Copy, PartialEq, Eq, PartialOrd, Ord)]
pub struct RecordNumber(pub i32);

// The paper's child-pointer. Slots are counted from 1.
#[derive(Clone, Copy, PartialEq, Eq)]
pub struct SlotNumber(pub usize);

// Req 07: the pool's edition, "an enum that has no other".
#[derive(Clone, Copy, PartialEq, Eq)]
pub enum Edition {
    One,
    Two,
}

impl Edition {
    // As word 0 of a pool and the head of a file have it.
    #[tactic(auto, unfolding(crate::specs::Owners::edition_number))]
    pub fn number(self) -> i32
        ensures { result ≡ pos (edition_number self) }
    {
        match self {
            Edition::One => 1,
            Edition::Two => 2,
        }
    }
}

// Req 07: "an owner, 1 or 2". An entry of an edition 1 pool has none, which is 0.
#[derive(Clone, Copy, PartialEq, Eq, PartialOrd, Ord)]
pub struct Owner(pub i32);

// "A record is a record number and a rectangle." Req 07: "Each leaf entry gains an owner".
#[derive(Clone, Copy, PartialEq, Eq)]
pub struct Record {
    pub owner: Owner,
    pub number: RecordNumber,
    pub rect: Rect,
}

// A place of the found list: what is shown of a record to its owner.
#[repr(C)]
#[derive(Clone, Copy, PartialEq, Eq, PartialOrd, Ord)]
pub struct FoundRecord {
    pub number: RecordNumber,
    pub rect: Rect,
}

// "A leaf's pointer is a record number, any other a child slot." Beside a record number stands its owner.
#[derive(Clone, Copy, PartialEq, Eq)]
pub enum Pointer {
    Number(RecordNumber, Owner),
    Child(SlotNumber),
}

// An entry of a node.
#[derive(Clone, Copy, PartialEq, Eq)]
pub struct Entry {
    pub rect: Rect,
    pub pointer: Pointer,
}

// Req 01: "The comparison of two rectangles shall now say apart, inside, enclosing, equal or otherwise meeting": what the first is to the
// second.
#[derive(Clone, Copy, PartialEq, Eq)]
pub enum Relation {
    Apart,
    Inside,
    Enclosing,
    Equal,
    OtherwiseMeeting,
}

// "A search carries one of three modes": it lists every record that meets the window, "only records inside the window, or only those that
// enclose it".
#[derive(Clone, Copy, PartialEq, Eq)]
pub enum Mode {
    Meeting,
    OnlyInside,
    OnlyEnclosing,
}

// A place of the lent request list. `kind` is 1 insert, 2 delete, 3 update, 4 search, 5 search inside, 6 search enclosing; `first` is the
// rectangle inserted, deleted or to be replaced, or the window; `second` is an update's new one.
#[repr(C)]
#[derive(Clone, Copy)]
pub struct Request {
    pub kind: i32,
    pub number: RecordNumber,
    pub first: Rect,
    pub second: Rect,
}

// "A request is of one of the four kinds", with the fields that its kind uses and no other. A search has its mode and its window. Each is
// the request of an owner.
#[derive(Clone, Copy)]
pub enum Asked {
    Insert(Record),
    Delete(Record),
    Update(Record, Rect),
    Search(Owner, Mode, Rect),
}

// What an accepted request did: a change, or what a search listed.
#[derive(Clone, Copy, PartialEq, Eq)]
pub enum Accepted {
    Changed,
    Listed { found: u32, start: u32, opened: u32 },
}

// What refuses a request: a case for each row of the table of document 01 that does.
#[derive(Clone, Copy, PartialEq, Eq)]
pub enum RequestFault {
    BadRectangle,
    BadNumber,
    NotHeld,
    Held,
    NoSlot,
    NoRoom { found: u32, opened: u32 },
}

// The outcome of a request.
pub type Reply = Result<Accepted, RequestFault>;

// A place of the answer list: the numbers of a reply.
#[repr(C)]
#[derive(Clone, Copy, PartialEq, Eq)]
pub struct Answer {
    pub number: u32,
    pub found: u32,
    pub start: u32,
    pub opened: u32,
}

// What refuses a call: a case for each row of the table that does, and one for a request list that
// holds something which is no request.
#[derive(Clone, Copy, PartialEq, Eq)]
pub enum CallFault {
    BadLists,
    BadOwner,
    BadLength,
    NotSound,
    NoRequest,
}

// The number that a refused call returns.
impl From<CallFault> for i32 {
    ghost from_gives = { λ fault n. n ≡ call_fault_number fault };

    #[tactic(auto, unfolding(crate::specs::Answers::call_fault_number))]
    fn from(fault: CallFault) -> i32 {
        match fault {
            CallFault::BadLists => 9,
            CallFault::BadOwner => 13,
            CallFault::BadLength => 1,
            CallFault::NotSound => 2,
            CallFault::NoRequest => -1,
        }
    }
}

// Req 03: "Survey boxes come as four doubles, in millimetres."
#[derive(Clone, Copy)]
pub struct SurveyBox {
    pub lowX: f64,
    pub lowY: f64,
    pub highX: f64,
    pub highY: f64,
}

// "a query that is a point, a box or a disc (centre and radius, as doubles)"
#[derive(Clone, Copy)]
pub enum Query {
    Point { x: f64, y: f64 },
    Box(SurveyBox),
    Disc { x: f64, y: f64, radius: f64 },
}

// What refuses a survey box or a query: 12 alone.
#[derive(Clone, Copy, PartialEq, Eq)]
pub enum SurveyFault {
    BadSurvey,
}

impl From<SurveyFault> for i32 {
    ghost from_gives = { λ fault n. n ≡ survey_fault_number fault };

    #[tactic(auto, unfolding(crate::specs::Survey::survey_fault_number))]
    fn from(fault: SurveyFault) -> i32 {
        match fault {
            SurveyFault::BadSurvey => 12,
        }
    }
}

// What becomes of a survey box or a query: a rectangle in whole millimetres.
pub type Surveyed = Result<Rect, SurveyFault>;

// Req 02: what refuses a file, or a write of one: a case for each number of its refusals.
#[derive(Clone, Copy, PartialEq, Eq)]
pub enum FileFault {
    BadLength,
    NotSound,
    BadRectangle,
    BadNumber,
    BadOwner,
    NoSlot,
    ShortBuffer,
    BadFrame,
    NotAfter,
}

// "Refusals: 1 first, then 2 for the writer only; 8 if its buffer is short; 10 for a wrong frame,
// edition or count, or bytes after kind 18; then 3, 4, then 11 for a record not after its
// predecessor; then 7". Req 07: "13 for another owner".
impl From<FileFault> for i32 {
    ghost from_gives = { λ fault n. n ≡ file_number fault };

    #[tactic(auto, unfolding(crate::specs::File::file_number))]
    fn from(fault: FileFault) -> i32 {
        match fault {
            FileFault::BadLength => 1,
            FileFault::NotSound => 2,
            FileFault::BadRectangle => 3,
            FileFault::BadNumber => 4,
            FileFault::BadOwner => 13,
            FileFault::NoSlot => 7,
            FileFault::ShortBuffer => 8,
            FileFault::BadFrame => 10,
            FileFault::NotAfter => 11,
        }
    }
}

// Req 06: the slots that an insert of a rectangle would need, and those that are free.
#[derive(Clone, Copy, PartialEq, Eq)]
pub struct InsertRoom {
    pub needed: u32,
    pub free: u32,
}

// What refuses to tell them: a case for each number.
#[derive(Clone, Copy, PartialEq, Eq)]
pub enum RoomFault {
    BadLength,
    NotSound,
    BadRectangle,
}

impl From<RoomFault> for i32 {
    ghost from_gives = { λ fault n. n ≡ room_fault_number fault };

    #[tactic(auto, unfolding(crate::specs::Room::room_fault_number))]
    fn from(fault: RoomFault) -> i32 {
        match fault {
            RoomFault::BadLength => 1,
            RoomFault::NotSound => 2,
            RoomFault::BadRectangle => 3,
        }
    }
}
