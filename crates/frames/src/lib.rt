// Frames in, lines out: the bytes that `dustmap` reads and writes, and the numbers of a file's frames. There is no pool here and no system call.
#![tactic(auto)]

ghost use Rattle.std.specs.Prelude.{◌≡◌, [], ◌∷◌, ◌++◌, suc, min, ◌+◌, ◌-◌, ◌≤◌, ◌<◌, length, take, drop, pos};
ghost use Rattle.rules.specs.Frames as F;
ghost use Rattle.rules.specs.File.{pair_bytes, word_bytes};
ghost use Rattle.frames.specs.Reading.{kind_length, some_length, kind_number, TellsKind, framed};
ghost use Rattle.frames.specs.Places.{word_from, rect_of_bytes, change_from, update_from, search_from, request_from};
ghost use Rattle.frames.specs.Writing.{Wrote, Room, Adds};

use itoa::{Buffer, Integer};
use rules::{Answer, FoundRecord, RecordNumber, Rect, Request};

// ---- numbers, from their bytes: "all little-endian"

// Two bytes, the lowest first.
pub fn pair_at(bytes: &[u8], at: usize) -> u16
    requires { at + 2 ≤ length bytes.now }
    ensures { result ≡ F.pair_value (take 2 (drop at bytes.now)) }
{
    u16::from_le_bytes([bytes[at], bytes[at + 1]])
}

// A "signed 32-bit" word.
pub fn word_at(bytes: &[u8], at: usize) -> i32
    requires { at + 4 ≤ length bytes.now }
    ensures { result ≡ word_from bytes.now at }
{
    i32::from_le_bytes([bytes[at], bytes[at + 1], bytes[at + 2], bytes[at + 3]])
}

// Low x, low y, high x, high y.
pub fn rect_at(bytes: &[u8], at: usize) -> Rect
    requires { at + 16 ≤ length bytes.now }
    ensures { result ≡ rect_of_bytes bytes.now at }
{
    let lowX = word_at(bytes, at);
    let lowY = word_at(bytes, at + 4);
    let highX = word_at(bytes, at + 8);
    let highY = word_at(bytes, at + 12);
    Rect {
        lowX,
        lowY,
        highX,
        highY,
    }
}

// ---- numbers, as their bytes. Each of these gives the place after what it wrote. `out` and `at`
// stay apart: under a cursor, as `Lines` is one below, each would be three lines for one.

fn put_bytes(out: &mut [u8], at: usize, text: &[u8]) -> usize
    requires { at + length text.now ≤ length out.old }
    ensures { Wrote out.old at text.now out.new result }
{
    let end = at + text.len();
    out[at..end].copy_from_slice(text);
    end
}

// Two bytes, the lowest first.
pub fn put_pair(out: &mut [u8], at: usize, n: u64) -> usize
    requires { at + 2 ≤ length out.old }
    ensures { Wrote out.old at (pair_bytes n) out.new result }
{
    let bytes = n.to_le_bytes();
    put_bytes(out, at, &bytes[..2])
}

// A "signed 32-bit" word.
pub fn put_word(out: &mut [u8], at: usize, z: i32) -> usize
    requires { at + 4 ≤ length out.old }
    ensures { Wrote out.old at (word_bytes z) out.new result }
{
    put_bytes(out, at, &z.to_le_bytes())
}

// ---- frames

// A frame that is here, whole: what it asks, and how many bytes it has.
#[derive(Clone, Copy)]
pub struct WholeFrame {
    pub request: Request,
    pub size: usize,
}

// Whatever comes after the bytes that are here, they are a bad frame.
#[derive(Clone, Copy, PartialEq, Eq)]
pub struct BadFrame;

// "Kind 1 insert and 2 delete .. 3 update .. 4 search". Req 01: "kind 4 keeps meeting; kinds 5 and 6, of
// the same layout, are inside and enclosing".
#[derive(Clone, Copy, PartialEq, Eq)]
enum FrameKind {
    Insert,
    Delete,
    Update,
    Search,
    SearchInside,
    SearchEnclosing,
}

impl FrameKind {
    // As a request has it.
    fn number(self) -> i32
        ensures { result ≡ pos (kind_number self) }
    {
        match self {
            FrameKind::Insert => 1,
            FrameKind::Delete => 2,
            FrameKind::Update => 3,
            FrameKind::Search => 4,
            FrameKind::SearchInside => 5,
            FrameKind::SearchEnclosing => 6,
        }
    }

    // "insert and .. delete: number, rectangle (length 22). .. update: number, old, new (38). .. search:
    // window (18)." Req 01: "kinds 5 and 6, of the same layout".
    #[tactic(auto, unfolding(crate::specs::Reading::kind_length, crate::specs::Reading::search_kind))]
    fn length(self) -> u16
        ensures is { result ≡ kind_length (kind_number self) }
        ensures small { result ≤ 38 }
    {
        match self {
            FrameKind::Insert | FrameKind::Delete => 22,
            FrameKind::Update => 38,
            FrameKind::Search | FrameKind::SearchInside | FrameKind::SearchEnclosing => 18,
        }
    }
}

impl TryFrom<u16> for FrameKind {
    type Error = BadFrame;

    ghost try_from_gives = { TellsKind };

    fn try_from(number: u16) -> Result<FrameKind, BadFrame> {
        match number {
            1 => Ok(FrameKind::Insert),
            2 => Ok(FrameKind::Delete),
            3 => Ok(FrameKind::Update),
            4 => Ok(FrameKind::Search),
            5 => Ok(FrameKind::SearchInside),
            6 => Ok(FrameKind::SearchEnclosing),
            _ => Err(BadFrame),
        }
    }
}

// Whether some kind has the length.
fn is_length(n: u16) -> bool
    ensures { result ≡ some_length n }
{
    matches!(n, 18 | 22 | 38)
}

// Insert and delete: number, rectangle.
fn change_in(bytes: &[u8], kind: FrameKind) -> Request
    requires { 24 ≤ length bytes.now }
    ensures { result ≡ change_from (pos (kind_number kind)) bytes.now }
{
    Request {
        kind: kind.number(),
        number: RecordNumber(word_at(bytes, 4)),
        first: rect_at(bytes, 8),
        second: Rect::default(),
    }
}

// Update: number, old, new.
fn update_in(bytes: &[u8]) -> Request
    requires { 40 ≤ length bytes.now }
    ensures { result ≡ update_from bytes.now }
{
    Request {
        kind: FrameKind::Update.number(),
        number: RecordNumber(word_at(bytes, 4)),
        first: rect_at(bytes, 8),
        second: rect_at(bytes, 24),
    }
}

// Search, in each of its kinds: window. It has no number.
fn search_in(bytes: &[u8], kind: FrameKind) -> Request
    requires { 20 ≤ length bytes.now }
    ensures { result ≡ search_from (pos (kind_number kind)) bytes.now }
{
    Request {
        kind: kind.number(),
        number: RecordNumber(0),
        first: rect_at(bytes, 4),
        second: Rect::default(),
    }
}

// What a whole frame of a kind asks.
fn request_in(bytes: &[u8], kind: FrameKind) -> Request
    requires { 2 + kind_length (kind_number kind) ≤ length bytes.now }
    ensures { result ≡ request_from (kind_number kind) bytes.now }
{
    match kind {
        FrameKind::Insert | FrameKind::Delete => change_in(bytes, kind),
        FrameKind::Update => update_in(bytes),
        FrameKind::Search | FrameKind::SearchInside | FrameKind::SearchEnclosing => {
            search_in(bytes, kind)
        }
    }
}

// Reads the frame that the bytes begin: "two bytes length of what follows, two bytes kind, then signed 32-bit words". There is none yet while
// its end has yet to come. A length that no kind has is bad before the kind has arrived, and so is a kind with another length, before its
// words have.
pub fn read_frame(bytes: &[u8]) -> Result<Option<WholeFrame>, BadFrame>
    ensures { result ≡ framed bytes.now }
{
    if bytes.len() < 2 {
        return Ok(None);
    }
    let length = pair_at(bytes, 0);
    if !is_length(length) {
        return Err(BadFrame);
    }
    if bytes.len() < 4 {
        return Ok(None);
    }
    let kind = FrameKind::try_from(pair_at(bytes, 2))?;
    if kind.length() != length {
        return Err(BadFrame);
    }
    let size = 2 + usize::from(length);
    if bytes.len() < size {
        return Ok(None);
    }
    let request = request_in(bytes, kind);
    Ok(Some(WholeFrame { request, size }))
}

// ---- lines

// Lines that are being written into a lent buffer: `at` is the place after what is written.
#[derive(Drop)]
struct Lines<'a> {
    out: &'a mut [u8],
    at: usize,
}

impl Lines<'_> {
    #[inline(always)]
    fn byte(&mut self, byte: u8)
        requires { Room 1 self.old }
        ensures { Adds 1 self.old (byte ∷ []) self.new }
    {
        self.out[self.at] = byte;
        self.at += 1;
    }

    // A text as it stands. Most numbers of an answer have one digit, and for that no copy is called.
    #[inline(always)]
    fn text(&mut self, text: &[u8])
        requires { Room (length text.now) self.old }
        ensures { Adds (length text.now) self.old text.now self.new }
    {
        if text.len() == 1 {
            self.byte(text[0]);
            return;
        }
        self.at = put_bytes(self.out, self.at, text);
    }

    // A number in decimal digits, with its sign, and the byte that separates it from the next field
    // or ends the line. It is put in place: called, it takes a fifth more instructions.
    #[inline(always)]
    fn field<I: Integer>(&mut self, n: I, after: u8)
        requires { Room (suc I.MAX_STR_LEN) self.old }
        ensures { Adds (suc I.MAX_STR_LEN) self.old (I.text n ++ after ∷ []) self.new }
    {
        let mut digits = Buffer::new();
        self.text(digits.format(n).as_bytes());
        self.byte(after);
    }

    // "a line of request place from 1, answer number, found, opened". `before` is how many frames
    // came before this one.
    fn answer(&mut self, before: u64, answer: Answer)
        requires room { Room 84 self.old }
        requires counted { before < 18446744073709551615 }
        ensures { Adds 84 self.old (F.answer_line (suc before) answer) self.new }
    {
        self.field(before + 1, b' ');
        self.field(answer.number, b' ');
        self.field(answer.found, b' ');
        self.field(answer.opened, b'\n');
    }

    // "a line per record: number, low x, low y, high x, high y"
    fn record(&mut self, listed: &FoundRecord)
        requires { Room 110 self.old }
        ensures { Adds 110 self.old (F.record_line listed.now) self.new }
    {
        let FoundRecord { number, rect } = *listed;
        self.field(number.0, b' ');
        self.field(rect.lowX, b' ');
        self.field(rect.lowY, b' ');
        self.field(rect.highX, b' ');
        self.field(rect.highY, b'\n');
    }
}

// How many record lines follow an answer: "after an accepted search a line per record". The found list has 64 places.
fn listed_of(answer: Answer) -> usize
    ensures { result ≡ min (F.listed_of answer) 64 }
{
    if answer.number != 0 {
        return 0;
    }
    answer.found.min(64) as usize
}

// What is printed for a call: the line of its answer, and a line for each record that it lists.
pub fn reply_lines(
    out: &mut [u8],
    at: usize,
    before: u64,
    answer: Answer,
    found: &[FoundRecord; 64],
) -> usize
    requires room { at + 7124 ≤ length out.old }
    requires counted { before < 18446744073709551615 }
    ensures wrote { Wrote out.old at (F.reply_lines (suc before) answer found.now) out.new result }
    ensures short { result ≤ at + 7124 }
{
    let listed = listed_of(answer);
    let mut lines = Lines { out, at };
    lines.answer(before, answer);
    for record in &found[..listed] {
        lines.record(record);
    }
    lines.at
}

// "prints `bad frame`, a space and its place"
pub fn bad_line(out: &mut [u8], at: usize, before: u64) -> usize
    requires room { at + 31 ≤ length out.old }
    requires counted { before < 18446744073709551615 }
    ensures wrote { Wrote out.old at (F.bad_line (suc before)) out.new result }
    ensures short { result ≤ at + 31 }
{
    let mut lines = Lines { out, at };
    lines.text(b"bad frame ");
    lines.field(before + 1, b'\n');
    lines.at
}

// ---- the bytes that wait

// Moves the bytes from `at` up to `end`, which begin a frame whose end has yet to come, to the start of the buffer. Gives how many there
// are.
pub fn keep_rest(buffer: &mut [u8], at: usize, end: usize) -> usize
    requires { (at ≤ end) × (end ≤ length buffer.old) }
    ensures many { result ≡ end - at }
    ensures front { take (end - at) buffer.new ≡ take (end - at) (drop at buffer.old) }
    ensures others { drop (end - at) buffer.new ≡ drop (end - at) buffer.old }
{
    buffer.copy_within(at..end, 0);
    end - at
}
