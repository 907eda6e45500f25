// The program `dustmap`: reads frames from a reader into a 128-slot pool and prints the lines of
// each to a writer. Crate `frames` knows how a frame is read and how lines are written, and crate
// `request` what a request does; here one follows the other. What the reader and the writer are
// asked is in `receive` and `send` alone. Where it is known what bytes they have, the contracts say
// what became of them.
#![tactic(auto)]

ghost use Rattle.std.specs.Prelude.{◌≡◌, true, suc, ◌+◌, ◌-◌, ◌≤◌, ◌<◌, min, length};
ghost use Rattle.std.proofs.lemmas.List.Edits.{sets};
ghost use Rattle.rules.specs.Pool.{number, no_record};
ghost use Rattle.rules.specs.Call.{is_request};
ghost use Rattle.rules.specs.Frames.{bad_line};
ghost use Rattle.found_items.specs.Items.{shown_from, Pointing};
ghost use Rattle.request.specs.Serving.{Ready};
ghost use Rattle.frames.specs.Writing.{Wrote};
ghost use Rattle.program.specs.Moving.{most_rounds, again, moved_by, filled_up_to, came_by, count_of, Sends, Flushes, Receives};
ghost use Rattle.program.specs.Running.{status_of, Begins, Stands, Onward, Replies, passed_by, Drains, Closes, Ending, Moves, Waited, Rounds, RunsTo, Runs, PrintsAll};

use frames::BadFrame;
use free_slots::FreeSlots;
use pool::node::Pool;
use rules::{Edition, FoundRecord, RecordNumber, Rect, Request};
use std::io::{Eprint, Error, ErrorKind, Read, Write};
use std::ops::ControlFlow;
use std::{hint, io};

// "a 128-slot pool (5,384 words)" The pool and the workspace are handed on as arrays, so that no
// contract has to say how long they are. The input and the output are slices: what reads and writes
// them is proved for any length, and most functions have one of the two. In one struct of all four
// each function would have what it leaves alone, and would have to say so.
const WORDS: usize = 5384;

// The lines of one frame take no more bytes of the output than this.
const ROOM: usize = 7124;

// The bytes that are read at a time, and those that wait to be written.
const BUFFER: usize = 65536;

// More rounds than any run has, and more tries than it takes to write. Nothing says that the input
// ends, or that the other side will ever be ready, and a loop has to end.
const ROUNDS: u64 = u64::MAX;

const TRIES: u64 = u64::MAX;

// How a run ends. The numbers are the program's status.
pub const ANSWERED: i32 = 0;

pub const BAD_FRAME: i32 = 1;

pub const NOT_READ: i32 = 2;

pub const NOT_WRITTEN: i32 = 3;

pub const ENDLESS: i32 = 4;

// How a run ends, and what could not be read or written.
#[derive(Clone, Copy)]
enum End {
    Answered,
    BadFrame,
    NotRead(Error),
    // Without an error, no byte was taken.
    NotWritten(Option<Error>),
    Endless,
}

impl End {
    // The program's status.
    fn status(self) -> i32
        ensures { result ≡ status_of self }
    {
        match self {
            Self::Answered => ANSWERED,
            Self::BadFrame => BAD_FRAME,
            Self::NotRead(_) => NOT_READ,
            Self::NotWritten(_) => NOT_WRITTEN,
            Self::Endless => ENDLESS,
        }
    }
}

// How far the run has come: so many frames came before, the bytes of the input from `at` up to
// `end` are not done, and the first `filled` of the output are not written. That one frame more can
// be counted, `before < most_rounds`, is asked where it is, and is nothing that every run has: after
// the last round it is not so.
#[derive(Clone, Copy)]
struct Run {
    before: u64,
    free: FreeSlots,
    at: usize,
    end: usize,
    filled: usize,
}

// What is next: the next frame; more bytes, which are waited for; room for lines; or nothing, since
// the frame was bad. These are four ways on, each with its own step after it, and no enum of the
// library has as many.
#[derive(Clone, Copy)]
enum Then {
    Goes(Run),
    Waits(Run),
    Full(Run),
    Ends(Run),
}

// A place of the found list before anything is found.
fn no_record() -> FoundRecord
    ensures { result ≡ no_record }
{
    FoundRecord {
        number: RecordNumber(0),
        rect: Rect::default(),
    }
}

// What the request listed goes to the first places of the found list.
fn fill_list(pool: &[i32; WORDS], work: &[i32; WORDS], listed: usize, found: &mut [FoundRecord; 64])
    requires { Pointing pool.now work.now 0 listed }
    ensures { found.new
        ≡ sets found.old 0 (shown_from pool.now work.now 0 (min listed 64)) }
{
    for k in 0..listed.min(64) {
        found[k] = found_items::item(pool, work, k);
    }
}

// "Each frame is a batch of one with a found list of 64." The run has passed the frame then, and
// its lines wait to be written.
fn answer(
    pool: &mut [i32; WORDS],
    work: &mut [i32; WORDS],
    q: Request,
    size: usize,
    run: Run,
    out: &mut [u8],
) -> Run
    requires ready { Ready pool.old run.free }
    requires asks { is_request q ≡ true }
    requires room { run.filled + 7124 ≤ length out.old }
    requires counted { run.before < most_rounds }
    requires within { run.at + size ≤ run.end }
    ensures reply { Replies pool.old q run.before out.old run.filled pool.new out.new result.free
        result.filled }
    ensures passed { result ≡ passed_by run size result.free result.filled }
{
    let served = request::one_request(pool, work, 1, q, 0, 64, run.free);
    let mut found = [no_record(); 64];
    fill_list(pool, work, served.listed, &mut found);
    let filled = frames::reply_lines(out, run.filled, run.before, served.answer, &found);
    Run {
        before: run.before + 1,
        free: served.free,
        at: run.at + size,
        filled,
        ..run
    }
}

// The line of a bad frame, after those that wait.
fn bad_frame(out: &mut [u8], run: Run) -> Run
    requires room { run.filled + 31 ≤ length out.old }
    requires counted { run.before < most_rounds }
    ensures line { Wrote out.old run.filled (bad_line (suc run.before)) out.new result.filled
        × (result.filled ≤ length out.old) }
    ensures rest { result ≡ filled_up_to run result.filled }
{
    let filled = frames::bad_line(out, run.filled, run.before);
    Run { filled, ..run }
}

// The frame that the bytes begin, if it is here.
fn turn(
    pool: &mut [i32; WORDS],
    work: &mut [i32; WORDS],
    input: &[u8],
    run: Run,
    out: &mut [u8],
) -> Then
    requires stands { Stands pool.old input.now out.old run }
    requires counted { run.before < most_rounds }
    ensures { Onward pool.old input.now out.old run pool.new out.new result }
{
    if out.len() - run.filled < ROOM {
        return Then::Full(run);
    }
    match frames::read_frame(&input[run.at..run.end]) {
        Ok(Some(frame)) => { Then::Goes(answer(pool, work, frame.request, frame.size, run, out)) }
        Ok(None) => Then::Waits(run),
        Err(BadFrame) => Then::Ends(bad_frame(out, run)),
    }
}

// ---- the reader's and the writer's calls

// A call is made again where a signal came in between, or the other side was not ready.
fn try_again(error: Error) -> bool
    ensures { result ≡ again error }
{
    matches!(error.kind(), ErrorKind::Interrupted | ErrorKind::WouldBlock)
}

// How many bytes a call moved, or `None` where it is made again.
#[tactic(auto, unfolding(crate::specs::Moving::moved_by))]
fn what_moved(answer: io::Result<usize>) -> io::Result<Option<usize>>
    ensures { result ≡ moved_by answer }
{
    match answer {
        Ok(n) => Ok(Some(n)),
        Err(error) if try_again(error) => {
            hint::spin_loop();
            Ok(None)
        }
        Err(error) => Err(error),
    }
}

// Hands the bytes of the output from `sent` up to `filled` to `write`, once, and says how far the
// output is written then. It may take fewer than all. `Err(None)`: it took none.
fn send<W: Write>(
    writer: &mut W,
    out: &[u8],
    sent: usize,
    filled: usize,
) -> Result<usize, Option<Error>>
    requires { (sent ≤ filled) × (filled ≤ length out.now) }
    ensures { Sends (W.contents writer.old) (W.contents writer.new) out.now sent filled result }
{
    let answer = writer.write(&out[sent..filled]);
    match what_moved(answer)? {
        Some(0) => Err(None),
        Some(n) => Ok(sent + n),
        None => Ok(sent),
    }
}

// Only so many bytes were taken, and then no more; `error` is what the last `write` said, if it
// said why.
#[derive(Clone, Copy)]
struct Stopped {
    sent: usize,
    error: Option<Error>,
}

// Writes all that is not written yet: the run goes on with an empty output then. Nothing is written
// after a `write` that failed.
fn flush<W: Write>(writer: &mut W, out: &[u8], run: Run) -> Result<Run, Stopped>
    requires { run.filled ≤ length out.now }
    ensures { Flushes (W.contents writer.old) (W.contents writer.new) out.now run result }
{
    let mut sent: usize = 0;
    for _ in 0..TRIES {
        if sent == run.filled {
            return Ok(Run { filled: 0, ..run });
        }
        sent = send(writer, out, sent, run.filled).map_err(|error| Stopped { sent, error })?;
    }
    Err(Stopped { sent, error: None })
}

// Reads once, to the place after the bytes that wait, which go to the front of the input first.
// `None`: the input has ended.
fn receive<R: Read>(reader: &mut R, input: &mut [u8], run: Run) -> io::Result<Option<Run>>
    requires bytes { (run.at ≤ run.end) × (run.end ≤ length input.old) }
    requires room { run.end - run.at < length input.old }
    ensures { Receives (R.remaining reader.old) (R.remaining reader.new) input.old input.new run
        result }
{
    let rest = frames::keep_rest(input, run.at, run.end);
    let answer = reader.read(&mut input[rest..]);
    Ok(after_read(run, rest, what_moved(answer)?))
}

// How the run goes on after a read to the place after the `rest` bytes that wait.
#[tactic(auto, unfolding(crate::specs::Moving::came_by))]
fn after_read(run: Run, rest: usize, moved: Option<usize>) -> Option<Run>
    requires { rest + count_of moved ≤ 18446744073709551615 }
    ensures { result ≡ came_by run rest moved }
{
    let end = match moved {
        Some(0) => return None,
        Some(n) => rest + n,
        None => rest,
    };
    Some(Run { at: 0, end, ..run })
}

// ---- the run

// The answers are written, and the run goes on.
fn drain<W: Write>(writer: &mut W, out: &[u8], run: Run) -> ControlFlow<End, Run>
    requires { run.filled ≤ length out.now }
    ensures { Drains (W.contents writer.old) (W.contents writer.new) out.now run result }
{
    match flush(writer, out, run) {
        Ok(next) => ControlFlow::Continue(next),
        Err(stopped) => ControlFlow::Break(End::NotWritten(stopped.error)),
    }
}

// The bad frame's line is written, and the run ends.
fn close<W: Write>(writer: &mut W, out: &[u8], run: Run) -> End
    requires { run.filled ≤ length out.now }
    ensures { Closes (W.contents writer.old) (W.contents writer.new) out.now run result }
{
    match flush(writer, out, run) {
        Ok(_) => End::BadFrame,
        Err(stopped) => End::NotWritten(stopped.error),
    }
}

// At the end of the input the bytes that are left are a cut frame.
fn last_line<W: Write>(writer: &mut W, out: &mut [u8], run: Run) -> End
    requires counted { run.before < most_rounds }
    requires room { 31 ≤ length out.old }
    ensures { Ending (W.contents writer.old) (W.contents writer.new) out.old out.new run result }
{
    if run.at == run.end {
        return End::Answered;
    }
    let filled = frames::bad_line(out, 0, run.before);
    close(writer, out, Run { filled, ..run })
}

// The answers to the frames that have arrived are seen before more input is waited for.
fn wait<R: Read, W: Write>(
    reader: &mut R,
    writer: &mut W,
    input: &mut [u8],
    out: &mut [u8],
    run: Run,
) -> ControlFlow<End, Run>
    requires bytes { (run.at ≤ run.end) × (run.end ≤ length input.old) }
    requires room { run.end - run.at < length input.old }
    requires lines { (run.filled ≤ length out.old) × (31 ≤ length out.old) }
    requires counted { run.before < most_rounds }
    ensures { Waited
        (Moves (R.remaining reader.old) (R.remaining reader.new) (W.contents writer.old)
        (W.contents writer.new)) (R.remaining reader.new)
        input.old out.old run input.new out.new result }
{
    let next = drain(writer, out, run)?;
    match receive(reader, input, next) {
        Ok(Some(more)) => ControlFlow::Continue(more),
        Ok(None) => ControlFlow::Break(last_line(writer, out, next)),
        Err(error) => ControlFlow::Break(End::NotRead(error)),
    }
}

// One frame, or what it takes to get to the next.
fn round<R: Read, W: Write>(
    reader: &mut R,
    writer: &mut W,
    pool: &mut [i32; WORDS],
    work: &mut [i32; WORDS],
    input: &mut [u8],
    out: &mut [u8],
    run: Run,
) -> ControlFlow<End, Run>
    requires stands { Stands pool.old input.old out.old run }
    requires bytes { 40 ≤ length input.old }
    requires room { 7124 ≤ length out.old }
    requires counted { run.before < most_rounds }
    ensures { Rounds
        (Moves (R.remaining reader.old) (R.remaining reader.new) (W.contents writer.old)
        (W.contents writer.new)) (R.remaining reader.new)
        pool.old input.old out.old run pool.new input.new out.new result }
{
    match turn(pool, work, input, run, out) {
        Then::Goes(r) => ControlFlow::Continue(r),
        Then::Full(r) => drain(writer, out, r),
        Then::Waits(r) => wait(reader, writer, input, out, r),
        Then::Ends(r) => ControlFlow::Break(close(writer, out, r)),
    }
}

// The pool blank, and the run at its start.
fn first_run(pool: &mut [i32; WORDS]) -> Run
    ensures { Begins pool.new result }
{
    // The length is right, so nothing is refused.
    let _ = pool::blank::blank(pool, Edition::One);
    let free = free_slots::free_slots(Pool::over(pool));
    Run {
        before: 0,
        free,
        at: 0,
        end: 0,
        filled: 0,
    }
}

// Reads and answers frame after frame, to the end of the input or of the rounds.
fn answer_all<R: Read, W: Write>(reader: &mut R, writer: &mut W) -> End
    ensures { RunsTo
        (Moves (R.remaining reader.old) (R.remaining reader.new) (W.contents writer.old)
        (W.contents writer.new)) (R.remaining reader.new) result }
{
    let mut pool = [0i32; WORDS];
    let mut work = [0i32; WORDS];
    let mut input = [0u8; BUFFER];
    let mut out = [0u8; BUFFER];
    let mut run = first_run(&mut pool);
    for _ in 0..ROUNDS {
        match round(
            reader, writer, &mut pool, &mut work, &mut input, &mut out, run,
        ) {
            ControlFlow::Continue(next) => run = next,
            ControlFlow::Break(end) => return end,
        }
    }
    End::Endless
}

// Says on standard error what could not be read or written, with the system's word for it.
fn report<E: Eprint>(errors: &E, end: End) {
    let said = match end {
        End::NotRead(error) => eprintln!(errors; "dustmap: standard input: {error}"),
        End::NotWritten(Some(error)) => eprintln!(errors; "dustmap: standard output: {error}"),
        End::NotWritten(None) => eprintln!(errors; "dustmap: standard output: no byte was taken"),
        _ => Ok(()),
    };
    let _ = said;
}

// The whole program. Its result is the status that it ends with.
pub fn whole_run<R: Read, W: Write, E: Eprint>(reader: &mut R, writer: &mut W, errors: &E) -> i32
    ensures ran { Runs (Moves (R.remaining reader.old) (R.remaining reader.new) (W.contents writer.old) (W.contents writer.new)) result }
    ensures whole { PrintsAll (R.remaining reader.old) (W.contents writer.old) (W.contents writer.new) result }
{
    let end = answer_all(reader, writer);
    report(errors, end);
    end.status()
}
