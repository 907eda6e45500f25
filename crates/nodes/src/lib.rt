// Nodes: what a slot number and an entry stand for, a node's cover, an entry's rectangle made
// tight.
#![tactic(auto)]

ghost use Rattle.std.specs.Prelude.{◌≡◌};
ghost use Rattle.rules.specs.Layout as L;
ghost use Rattle.rules.specs.Pool as P;
ghost use Rattle.rules.specs.Sound as S;
ghost use Rattle.layout_laws.specs.Slots.{Fit};
ghost use Rattle.pool.specs.Reading.{entries_of, read};
ghost use Rattle.nodes.specs.Reading.{LeadsOn};

use pool::node::{Node, Pool};
use rules::{Entry, Owner, Pointer, Record, RecordNumber, Rect, SlotNumber};

// ---- slot numbers

// "a slot from 1 to N"
pub fn is_slot(pool: &[i32], s: SlotNumber) -> bool
    ensures { result ≡ S.is_slot (L.read pool.now) s }
{
    (1..=pool::slot_count(pool)).contains(&s.0)
}

// ---- what an entry stands for

// A leaf entry as the record that it holds; a child slot is no number, and nobody's.
#[tactic(auto, unfolding(rules::specs::Pool::record_of, rules::specs::Pool::number_of, rules::specs::Pool::owner_of))]
pub fn record_of(e: Entry) -> Record
    ensures { result ≡ P.record_of e }
{
    let (number, owner) = match e.pointer {
        Pointer::Number(number, owner) => (number, owner),
        Pointer::Child(_) => (RecordNumber(0), Owner(0)),
    };
    Record {
        owner,
        number,
        rect: e.rect,
    }
}

// ---- covers

// A cover: "its rectangle is the smallest holding that node's entries"; of none, the point (0, 0).
pub fn cover_of(node: &Node<'_>) -> Rect
    ensures { result ≡ P.cover_of (entries_of node.now) }
{
    let n = node.count();
    if n == 0 {
        return Rect::default();
    }
    let mut all = node.rect(0);
    for i in 1..n {
        all = geometry::cover(all, node.rect(i));
    }
    all
}

// AT3 and CT4: entry i of the node at s gets the smallest rectangle that holds its child's entries.
pub fn tighten(pool: &mut [i32], s: SlotNumber, i: usize)
    requires fit_2 { Fit pool.old }
    requires leads_on { LeadsOn (L.read pool.old) s i }
    ensures is { L.read pool.new ≡ P.tighten (L.read pool.old) s i }
    ensures fit { Fit pool.new }
{
    let node = Node::at(pool, s);
    let c = node.child(i);
    let child = Node::at(pool, c);
    let rect = cover_of(&child);
    pool::put_rect_of(pool, s, i, rect);
}
