// A rectangle and its area, which is measured once and kept. Whoever holds one knows that it is
// valid.

ghost use Rattle.std.specs.Prelude.{◌≡◌, true, pos};
ghost use Rattle.std.proofs.Math.IntN.{sub_ℕ};
ghost use Rattle.rules.specs.Geometry as G;

use rules::Rect;

#[derive(Clone, Copy)]
pub struct Measured {
    pub rect: Rect,
    pub area: u64,
    ghost valid: { G.valid rect ≡ true },
    ghost right: { pos area ≡ G.area rect },
}

impl Measured {
    pub fn new(rect: Rect) -> Measured
        requires { G.valid rect ≡ true }
        ensures { result.rect ≡ rect }
    {
        let area = geometry::area(rect);
        Measured { rect, area }
    }

    // The smallest rectangle that holds both.
    pub fn cover(self, other: Measured) -> Measured
        ensures { result.rect ≡ G.cover self.rect other.rect }
    {
        Measured::new(geometry::cover(self.rect, other.rect))
    }

    pub fn enlargement(self, other: Measured) -> u64
        ensures { pos result ≡ G.enlargement self.rect other.rect }
    {
        self.cover(other).area - self.area
    }

    pub fn half_enlargement(self, other: Measured) -> u64
        ensures { pos result ≡ G.half_enlargement self.rect other.rect }
    {
        geometry::half_enlargement(self.rect, other.rect)
    }

    pub fn half_perimeter(self) -> u64
        ensures { pos result ≡ G.half_perimeter self.rect }
    {
        geometry::half_perimeter(self.rect)
    }

    // PS1: d, as `geometry::waste` counts it.
    pub fn waste(self, other: Measured) -> u64
        ensures { sub_ℕ result 8000000000000000000 ≡ G.waste self.rect other.rect }
    {
        geometry::waste(self.rect, other.rect, self.area, other.area)
    }

    // .. and in half perimeter, as `geometry::half_waste` does.
    pub fn half_waste(self, other: Measured) -> u64
        ensures { sub_ℕ result 8000000000 ≡ G.half_waste self.rect other.rect }
    {
        geometry::half_waste(self.rect, other.rect)
    }
}
