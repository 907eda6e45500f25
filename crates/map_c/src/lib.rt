// The map for other languages: a static library, since a crate is a library or a static library and not both. Each function hands on to that of its name in
// `map`, and promises what that promises.
#![tactic(auto)]

ghost use Rattle.std.specs.Prelude.{◌≡◌, pos};
ghost use Rattle.rules.specs.declared.Edition.TheVariants as E;
ghost use Rattle.rules.specs.Owners as O;
ghost use Rattle.rules.specs.Call as C;
ghost use Rattle.promises.specs.Calls.{lent, nothing_asked, left, Allowed};
ghost use Rattle.promises.specs.Blanks.{Blanks, BlanksAs};
ghost use Rattle.promises.specs.Files.{Writes, Reads, ReadsAs};
ghost use Rattle.promises.specs.Rooms.{Tells};
ghost use Rattle.promises.specs.Surveys.{Converts, of_box, of_point, of_disc};

use rules::{Answer, FoundRecord, Request};

// For any words: 0 and a blank pool of edition 1; or 1 for a wrong length, and nothing is written.
#[unsafe(no_mangle)]
pub extern "C" fn dustmap_blank(pool: &mut [i32]) -> i32
    ensures { Blanks E.One pool.old result pool.new }
{
    map::dustmap_blank(pool)
}

// .. of the edition told. -1, before all else, where there is none of it or of the rule, and nothing is written.
#[unsafe(no_mangle)]
pub extern "C" fn dustmap_blank_as(pool: &mut [i32], edition: i32, rule: i32) -> i32
    ensures { BlanksAs edition rule pool.old result pool.new }
{
    map::dustmap_blank_as(pool, edition, rule)
}

// What a call with no request would return: 1 for a wrong length, 2 for a pool that is not sound, else 0. Nothing is written.
#[unsafe(no_mangle)]
pub extern "C" fn dustmap_check(pool: &[i32]) -> i32
    ensures { result ≡ (C.call (nothing_asked pool.now)).number }
{
    map::dustmap_check(pool)
}

// One call: a batch of an owner over lent lists. For any input at all, the number, the pool, the workspace, the answers and the found list
// are those that the definition `call` gives.
#[unsafe(no_mangle)]
pub extern "C" fn dustmap_call_as(
    pool: &mut [i32],
    work: &mut [i32],
    requests: &[Request],
    answers: &mut [Answer],
    found: &mut [FoundRecord],
    owner: i32,
) -> i32
    ensures { Allowed (lent (O.owner owner) pool.old work.old requests.now answers.old found.old) (left result pool.new work.new answers.new found.new) }
{
    map::dustmap_call_as(pool, work, requests, answers, found, owner)
}

// .. of owner 1.
#[unsafe(no_mangle)]
pub extern "C" fn dustmap_call(
    pool: &mut [i32],
    work: &mut [i32],
    requests: &[Request],
    answers: &mut [Answer],
    found: &mut [FoundRecord],
) -> i32
    ensures { Allowed (lent (O.owner (pos 1)) pool.old work.old requests.now answers.old found.old) (left result pool.new work.new answers.new found.new) }
{
    map::dustmap_call(pool, work, requests, answers, found)
}

// The file of the map, at the front of a lent buffer, and how many bytes it has. Beside a refusal the buffer stays and the length is 0.
#[unsafe(no_mangle)]
pub extern "C" fn dustmap_write(pool: &[i32], file: &mut [u8], size: &mut u64) -> i32
    ensures { Writes pool.now file.old result file.new size.new }
{
    map::dustmap_write(pool, file, size)
}

// The map of a file of edition 1. Beside a refusal past 1 the pool stays, and the workspace is made equal to it.
#[unsafe(no_mangle)]
pub extern "C" fn dustmap_read(pool: &mut [i32], work: &mut [i32], file: &[u8]) -> i32
    ensures { Reads E.One pool.old work.old file.now result pool.new work.new }
{
    map::dustmap_read(pool, work, file)
}

// .. of the edition told. -1, before all else, where there is none of it or of the rule, and nothing is written.
#[unsafe(no_mangle)]
pub extern "C" fn dustmap_read_as(
    pool: &mut [i32],
    work: &mut [i32],
    file: &[u8],
    edition: i32,
    rule: i32,
) -> i32
    ensures { ReadsAs edition rule pool.old work.old file.now result pool.new work.new }
{
    map::dustmap_read_as(pool, work, file, edition, rule)
}

// A survey box in doubles, as the rectangle of whole millimetres that holds it.
#[unsafe(no_mangle)]
pub extern "C" fn dustmap_box(
    low_x: f64,
    low_y: f64,
    high_x: f64,
    high_y: f64,
    rect: &mut [i32; 4],
) -> i32
    ensures { Converts (of_box low_x low_y high_x high_y) rect.old result rect.new }
{
    map::dustmap_box(low_x, low_y, high_x, high_y, rect)
}

#[unsafe(no_mangle)]
pub extern "C" fn dustmap_point(x: f64, y: f64, rect: &mut [i32; 4]) -> i32
    ensures { Converts (of_point x y) rect.old result rect.new }
{
    map::dustmap_point(x, y, rect)
}

// A disc by its centre and its radius, as a window that holds it.
#[unsafe(no_mangle)]
pub extern "C" fn dustmap_disc(x: f64, y: f64, radius: f64, rect: &mut [i32; 4]) -> i32
    ensures { Converts (of_disc x y radius) rect.old result rect.new }
{
    map::dustmap_disc(x, y, radius, rect)
}

// Whether an insert of a rectangle would fit: the slots that it needs, and those that are free. The pool is only read.
#[unsafe(no_mangle)]
pub extern "C" fn dustmap_room(pool: &[i32], rect: &[i32; 4], slots: &mut [u32; 2]) -> i32
    ensures { Tells pool.now rect.now slots.old result slots.new }
{
    map::dustmap_room(pool, rect, slots)
}
