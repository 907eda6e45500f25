// The surveyor's boxes and dispatch's queries, in doubles, turned into rectangles of whole millimetres.
#![tactic(auto)]

ghost use Rattle.std.specs.Prelude.{◌≡◌, true};
ghost use Rattle.rules.specs.Doubles as D;
ghost use Rattle.rules.specs.Survey as S;
ghost use Rattle.survey_laws.specs.Sizes as Z;

use geometry::in_range;
use rules::{Query, Rect, SurveyBox, SurveyFault, Surveyed};

// ---- outward rounding

// The largest whole number not above x. (`x.floor()` is no plainer: it would still be a double,
// and its cast has to be shown to lose nothing.)
fn floor(x: f64) -> i32
    requires { Z.NumberWithin 2000000000 x }
    ensures { result ≡ D.floor_of (D.exact_of x) }
{
    let cut = std::num::truncating_f64_to_i64(x);
    // What is cut off is cut off toward zero, which is upward for a number below zero.
    let whole = cut as f64;
    if x < whole {
        (cut - 1) as i32
    } else {
        cut as i32
    }
}

// The smallest whole number not below x.
fn ceiling(x: f64) -> i32
    requires { Z.NumberWithin 2000000000 x }
    ensures { result ≡ D.ceiling_of (D.exact_of x) }
{
    -floor(-x)
}

#[tactic(auto, unfolding(rules::specs::Survey::outward))]
fn outward(b: SurveyBox) -> Rect
    requires { Z.BoxWithin 2000000000 b }
    ensures { result ≡ S.outward b }
{
    Rect {
        lowX: floor(b.lowX),
        lowY: floor(b.lowY),
        highX: ceiling(b.highX),
        highY: ceiling(b.highY),
    }
}

// ---- boxes

// Two bounds that no box is refused for: in order, and in range when they are rounded. A NaN passes
// no comparison. (With `moderate` of each, two tests more would be made, which follow from these.)
fn spans(low: f64, high: f64) -> bool
    ensures { result ≡ Z.spans low high }
{
    (-1000000000.0 <= low) & (low <= high) & (high <= 1000000000.0)
}

pub fn box_window(b: SurveyBox) -> Surveyed
    ensures { result ≡ S.box_window b }
{
    if spans(b.lowX, b.highX) & spans(b.lowY, b.highY) {
        Ok(outward(b))
    } else {
        Err(SurveyFault::BadSurvey)
    }
}

// ---- discs

fn moderate(x: f64) -> bool
    ensures { result ≡ S.moderate x }
{
    (-1000000000.0 <= x) & (x <= 1000000000.0)
}

fn good_disc(x: f64, y: f64, radius: f64) -> bool
    ensures { result ≡ S.good_disc x y radius }
{
    moderate(x) & moderate(y) & moderate(radius) & (0.0 <= radius)
}

// The centre less the radius and the centre and the radius, each rounded once to a double.
#[tactic(auto, unfolding(rules::specs::Survey::spread))]
fn spread(x: f64, y: f64, radius: f64) -> SurveyBox
    ensures { result ≡ S.spread x y radius }
{
    SurveyBox {
        lowX: x - radius,
        lowY: y - radius,
        highX: x + radius,
        highY: y + radius,
    }
}

// One millimetre further on each side, so that what the doubles were rounded by is held too.
fn further(r: Rect) -> Rect
    requires { Z.RectWithin 2000000001 r }
    ensures { result ≡ S.further r }
{
    Rect {
        lowX: r.lowX - 1,
        lowY: r.lowY - 1,
        highX: r.highX + 1,
        highY: r.highY + 1,
    }
}

#[tactic(auto, unfolding(survey_laws::specs::Sizes::all_in_range))]
fn all_in_range(r: Rect) -> bool
    ensures { result ≡ Z.all_in_range r }
{
    in_range(r.lowX) & in_range(r.lowY) & in_range(r.highX) & in_range(r.highY)
}

fn finish(r: Rect) -> Surveyed
    ensures { result ≡ S.finish true r }
{
    if all_in_range(r) {
        Ok(r)
    } else {
        Err(SurveyFault::BadSurvey)
    }
}

pub fn disc_window(x: f64, y: f64, radius: f64) -> Surveyed
    ensures { result ≡ S.disc_window x y radius }
{
    if good_disc(x, y, radius) {
        let r = outward(spread(x, y, radius));
        let s = further(r);
        finish(s)
    } else {
        Err(SurveyFault::BadSurvey)
    }
}

// ---- any query

// A point is a box with low equal to high.
#[tactic(auto, unfolding(rules::specs::Survey::query_window))]
pub fn query_window(q: Query) -> Surveyed
    ensures { result ≡ S.query_window q }
{
    match q {
        Query::Point { x, y } => box_window(SurveyBox {
            lowX: x,
            lowY: y,
            highX: x,
            highY: y,
        }),
        Query::Box(b) => box_window(b),
        Query::Disc { x, y, radius } => disc_window(x, y, radius),
    }
}
