// ChooseLeaf's step (CL3), over a node's entries as they lie in the pool, with the half perimeters of Req 05.
#![tactic(auto)]

ghost use Rattle.std.specs.Prelude.{◌≡◌, true, cond, ◌<◌, ◌≤◌, pos, length};
ghost use Rattle.rules.specs.Geometry as G;
ghost use Rattle.rules.specs.Choose as C;
ghost use Rattle.rules.specs.Choose.{rect_from};
ghost use Rattle.pool.specs.Reading.{entries_of, rects_of};
ghost use Rattle.choose.specs.State.{Choosable, Measured, better, ahead};

use geometry::pick;
use pool::node::Node;
use rules::Rect;

// An entry's place, its enlargement for the new rectangle, and its area.
#[derive(Clone, Copy)]
pub struct Best {
    pub at: usize,
    pub grows: u64,
    pub size: u64,
}

// A node that has entries, and the new rectangle that one of them is to take.
#[derive(Clone, Copy)]
struct Step<'a> {
    node: Node<'a>,
    new: Rect,
    ghost choosable: { Choosable (rects_of node) },
    ghost valid: { G.valid new ≡ true },
}

impl Step<'_> {
    // CL3 with Req 05, of two entries: least enlargement, then least in half perimeter, then
    // smallest area, then smallest half perimeter. A half perimeter is measured only where the rule
    // before it ties.
    fn is_better(&self, a: Best, b: Best) -> bool
        requires a_measured { Measured (rects_of self.now.node) self.now.new a }
        requires b_measured { Measured (rects_of self.now.node) self.now.new b }
        ensures { result ≡ better (rects_of self.now.node) self.now.new a.at b.at }
    {
        if a.grows != b.grows {
            return a.grows < b.grows;
        }
        let x = self.node.rect(a.at);
        let y = self.node.rect(b.at);
        let p = geometry::half_enlargement(x, self.new);
        let q = geometry::half_enlargement(y, self.new);
        if p != q {
            return p < q;
        }
        if a.size != b.size {
            return a.size < b.size;
        }
        geometry::half_perimeter(x) < geometry::half_perimeter(y)
    }

    // A tie stays with the earlier.
    fn keep(&self, best: Best, other: Best) -> Best
        requires best_measured { Measured (rects_of self.now.node) self.now.new best }
        requires other_measured { Measured (rects_of self.now.node) self.now.new other }
        ensures { result ≡ cond (better (rects_of self.now.node) self.now.new other.at best.at) other best }
    {
        if self.is_better(other, best) {
            other
        } else {
            best
        }
    }

    // The measures of entry i.
    fn measured(&self, i: usize) -> Best
        requires { i < length (rects_of self.now.node) }
        ensures at { result.at ≡ i }
        ensures is { Measured (rects_of self.now.node) self.now.new result }
    {
        let r = self.node.rect(i);
        let grows = geometry::enlargement(r, self.new);
        let size = geometry::area(r);
        Best { at: i, grows, size }
    }

    // CL3 where enlargements have tied: the entry at `first`, and those at `from` and later.
    fn choose_tied(&self, first: usize, from: usize) -> usize
        requires first_in_bounds { first < length (rects_of self.now.node) }
        requires from_in_bounds { from ≤ length (rects_of self.now.node) }
        ensures is { result ≡ ahead (rects_of self.now.node) self.now.new first from }
        ensures there { result < length (rects_of self.now.node) }
    {
        let mut best = self.measured(first);
        for i in from..self.node.count() {
            best = self.keep(best, self.measured(i));
        }
        best.at
    }

    // The enlargement of entry i.
    fn growth(&self, i: usize) -> u64
        requires { i < length (rects_of self.now.node) }
        ensures { pos result ≡ G.enlargement (rect_from (rects_of self.now.node) i) self.now.new }
    {
        geometry::enlargement(self.node.rect(i), self.new)
    }

    // CL3: only enlargements are asked, as long as none ties with the least: what is asked in a tie
    // stands in another loop, so that this one stays short.
    fn choose(&self) -> usize
        ensures is { result ≡ C.choose_child (rects_of self.now.node) self.now.new }
        ensures there { result < length (rects_of self.now.node) }
    {
        let mut at: usize = 0;
        let mut least = self.growth(0);
        for i in 1..self.node.count() {
            let grows = self.growth(i);
            if grows == least {
                return self.choose_tied(at, i);
            }
            let less = grows < least;
            at = pick(less, i, at);
            least = pick(less, grows, least);
        }
        at
    }
}

// CL3: the place of the entry that takes the new rectangle best; in a tie, the earliest.
pub fn choose_child(node: &Node<'_>, new: Rect) -> usize
    requires choosable { Choosable (rects_of node.now) }
    requires value { G.valid new ≡ true }
    ensures is { result ≡ C.choose_child (rects_of node.now) new }
    ensures there { result < length (entries_of node.now) }
{
    Step { node: *node, new }.choose()
}
