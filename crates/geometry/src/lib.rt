// Rectangles of whole millimetres, their comparison and their measures, as documents 01 and 02 have them. It knows nothing of nodes or pools.
// A measure that cannot be negative is a u64; d can be, and is counted from -8,000,000,000,000,000,000.
#![tactic(auto)]

ghost use Rattle.std.specs.Prelude.{◌≡◌, true, cond, not, ◌&&◌, ◌||◌, ◌≤◌, pos, ◌-ℤ◌};
ghost use Rattle.std.proofs.Math.IntN.{sub_ℕ};
ghost use Rattle.std.specs.Int.Signed.{le_z};
ghost use Rattle.rules.specs.Lists as L;
ghost use Rattle.rules.specs.Numbers as N;
ghost use Rattle.rules.specs.Geometry as G;
ghost use Rattle.rules.specs.Compare as C;

use rules::{Mode, Record, Rect, Relation};

// ---- truths

// A rule and the next, for coordinates, measures and counts alike: `less_then(a < b, b < a, next)`. The outcome is computed and nothing
// branches on it: the processor would guess it wrong half of the time.
pub fn less_then(less: bool, more: bool, next: bool) -> bool
    ensures { result ≡ (less || (not more && next)) }
{
    less | (!more & next)
}

// One of two by a test, with no branch: the processor would guess the test wrong too often.
pub fn pick<T: Copy>(t: bool, a: T, b: T) -> T
    ensures { result ≡ cond t a b }
{
    if t { a } else { b }
}

// 1 where it is so, 0 where it is not: a sum in place of a branch.
pub fn one_if(b: bool) -> usize
    ensures is { result ≡ cond b 1 0 }
    ensures most { result ≤ 1 }
{
    b as usize
}

// ---- rectangles

#[tactic(auto, unfolding(rules::specs::Numbers::in_range))]
pub fn in_range(x: i32) -> bool
    ensures { result ≡ N.in_range x }
{
    (-1000000000 <= x) & (x <= 1000000000)
}

// Low may equal high.
#[tactic(auto, unfolding(rules::specs::Geometry::valid))]
pub fn valid(r: Rect) -> bool
    ensures { result ≡ G.valid r }
{
    let low = in_range(r.lowX) & in_range(r.lowY);
    let high = in_range(r.highX) & in_range(r.highY);
    low & high & (r.lowX <= r.highX) & (r.lowY <= r.highY)
}

// Touching counts.
#[tactic(auto, unfolding(rules::specs::Geometry::meets))]
fn meets(a: Rect, b: Rect) -> bool
    ensures { result ≡ G.meets a b }
{
    (a.lowX <= b.highX) & (b.lowX <= a.highX) & (a.lowY <= b.highY) & (b.lowY <= a.highY)
}

#[tactic(auto, unfolding(rules::specs::Lists::same))]
pub fn same(a: i32, b: i32) -> bool
    ensures { result ≡ L.same a b }
{
    a == b
}

// Derived `==` takes 17 instructions with three branches, this six with none: the soundness walk asks
// it of every node.
#[tactic(auto, unfolding(rules::specs::Geometry::same_rect))]
pub fn same_rect(a: Rect, b: Rect) -> bool
    ensures { result ≡ G.same_rect a b }
{
    let low = same(a.lowX, b.lowX) & same(a.lowY, b.lowY);
    low & same(a.highX, b.highX) & same(a.highY, b.highY)
}

// ---- Req 01: the comparison, and the questions on it

// Whether a lies in b. A side may lie on a side.
#[tactic(auto, unfolding(rules::specs::Compare::lies_in))]
pub fn lies_in(a: Rect, b: Rect) -> bool
    ensures { result ≡ C.lies_in a b }
{
    (b.lowX <= a.lowX) & (b.lowY <= a.lowY) & (a.highX <= b.highX) & (a.highY <= b.highY)
}

// Two that meet, by whether the first lies in the second, and the second in the first.
#[tactic(auto, unfolding(rules::specs::Compare::meeting_as))]
fn meeting_as(inside: bool, enclosing: bool) -> Relation
    ensures { result ≡ C.meeting_as inside enclosing }
{
    match (inside, enclosing) {
        (true, true) => Relation::Equal,
        (true, false) => Relation::Inside,
        (false, true) => Relation::Enclosing,
        (false, false) => Relation::OtherwiseMeeting,
    }
}

// "apart, inside, enclosing, equal or otherwise meeting": what a is to b. All three answers are there before the first is looked at, so that
// nothing branches on them; where only one question is asked of the outcome, the compiler leaves out what that does not need.
pub fn compare(a: Rect, b: Rect) -> Relation
    ensures { result ≡ C.compared a b }
{
    let meeting = meets(a, b);
    let inside = lies_in(a, b);
    let enclosing = lies_in(b, a);
    if meeting {
        meeting_as(inside, enclosing)
    } else {
        Relation::Apart
    }
}

// All but apart.
#[tactic(auto, unfolding(rules::specs::Compare::is_meeting))]
pub fn is_meeting(r: Relation) -> bool
    ensures { result ≡ C.is_meeting r }
{
    r != Relation::Apart
}

// "Equal counts as inside and as enclosing."
#[tactic(auto, unfolding(rules::specs::Compare::is_inside))]
fn is_inside(r: Relation) -> bool
    ensures { result ≡ C.is_inside r }
{
    matches!(r, Relation::Inside | Relation::Equal)
}

#[tactic(auto, unfolding(rules::specs::Compare::is_enclosing))]
fn is_enclosing(r: Relation) -> bool
    ensures { result ≡ C.is_enclosing r }
{
    matches!(r, Relation::Enclosing | Relation::Equal)
}

#[tactic(auto, unfolding(rules::specs::Compare::is_equal))]
pub fn is_equal(r: Relation) -> bool
    ensures { result ≡ C.is_equal r }
{
    r == Relation::Equal
}

// Whether a search of the mode lists a record with this rectangle.
pub fn wanted(mode: Mode, a: Rect, window: Rect) -> bool
    ensures { result ≡ C.wanted mode (C.compared a window) }
{
    match mode {
        Mode::Meeting => is_meeting(compare(a, window)),
        Mode::OnlyInside => is_inside(compare(a, window)),
        Mode::OnlyEnclosing => is_enclosing(compare(a, window)),
    }
}

// "the first exact pair": the same number, an equal rectangle, and one owner. Hardly any two records have the same number: only these are
// compared.
pub fn exact_pair(a: Record, b: Record) -> bool
    ensures { result ≡ C.exact_pair a b }
{
    if a.number != b.number {
        return false;
    }
    is_equal(compare(a.rect, b.rect)) & (b.owner == a.owner)
}

// ---- covers

// Req 04: the smallest rectangle holding both, "a smaller low and a larger high for each axis". Every cover is made here.
pub fn cover(a: Rect, b: Rect) -> Rect
    ensures { result ≡ G.cover a b }
{
    Rect {
        lowX: a.lowX.min(b.lowX),
        lowY: a.lowY.min(b.lowY),
        highX: a.highX.max(b.highX),
        highY: a.highY.max(b.highY),
    }
}

// ---- measures

// How far apart the ends of a valid rectangle are on one axis: at most 2,000,000,000, which 32 bits hold.
fn span(low: i32, high: i32) -> u64
    requires low_value { N.in_range low ≡ true }
    requires high_value { N.in_range high ≡ true }
    requires high_value_2 { le_z low high ≡ true }
    ensures is { pos result ≡ high -ℤ low }
    ensures small { result ≤ 2000000000 }
{
    (high - low) as u32 as u64
}

// Width times height, 4,000,000,000,000,000,000 at most.
pub fn area(r: Rect) -> u64
    requires { G.valid r ≡ true }
    ensures is { pos result ≡ G.area r }
    ensures small { result ≤ 4000000000000000000 }
{
    span(r.lowX, r.highX) * span(r.lowY, r.highY)
}

// The area of the joint cover less a's.
pub fn enlargement(a: Rect, b: Rect) -> u64
    requires a_value { G.valid a ≡ true }
    requires b_value { G.valid b ≡ true }
    ensures is { pos result ≡ G.enlargement a b }
    ensures small { result ≤ 4000000000000000000 }
{
    area(cover(a, b)) - area(a)
}

// PS1: d of two rectangles with areas m and n. It may be negative, and is counted from -8,000,000,000,000,000,000.
pub fn waste(a: Rect, b: Rect, m: u64, n: u64) -> u64
    requires a_value { (G.valid a ≡ true) × (G.valid b ≡ true) }
    requires m_value { (pos m ≡ G.area a) × (pos n ≡ G.area b) }
    ensures { sub_ℕ result 8000000000000000000 ≡ G.waste a b }
{
    area(cover(a, b)) + (8000000000000000000 - (m + n))
}

// ---- Req 05: the same in half perimeter, asked for only where the areas tie. Each is one line: with
// the measure as a parameter, what it asks and promises of the measure would be longer than it is

// Width plus height, 4,000,000,000 at most.
pub fn half_perimeter(r: Rect) -> u64
    requires { G.valid r ≡ true }
    ensures is { pos result ≡ G.half_perimeter r }
    ensures small { result ≤ 4000000000 }
{
    span(r.lowX, r.highX) + span(r.lowY, r.highY)
}

// The half perimeter of the joint cover less a's.
pub fn half_enlargement(a: Rect, b: Rect) -> u64
    requires a_value { G.valid a ≡ true }
    requires b_value { G.valid b ≡ true }
    ensures { pos result ≡ G.half_enlargement a b }
{
    half_perimeter(cover(a, b)) - half_perimeter(a)
}

// d in half perimeter. It may be negative, and is counted from -8,000,000,000.
pub fn half_waste(a: Rect, b: Rect) -> u64
    requires a_value { G.valid a ≡ true }
    requires b_value { G.valid b ≡ true }
    ensures { sub_ℕ result 8000000000 ≡ G.half_waste a b }
{
    half_perimeter(cover(a, b)) + (8000000000 - (half_perimeter(a) + half_perimeter(b)))
}
