// The free slots of a pool: the lowest, how many there are, and what a batch knows of them.
#![tactic(auto)]

ghost use Rattle.std.specs.Prelude.{◌≡◌, ◌-◌, ◌<◌, ◌≤◌, drop};
ghost use Rattle.rules.specs.Numbers.{most_slots};
ghost use Rattle.rules.specs.Pool as P;
ghost use Rattle.pool.specs.Reading.{read};
ghost use Rattle.free_slots.specs.Known.{Known, less_slot, more_slot};

use pool::node::Pool;
use rules::SlotNumber;

// What is known of the free slots: how many there are, and a slot below which there is none.
#[derive(Clone, Copy)]
pub struct FreeSlots {
    pub count: usize,
    pub low: SlotNumber,
}

// "the lowest free slot", of the slots from a given one on: the lowest of all where every slot
// below is in use.
fn lowest_free_from(pool: Pool<'_>, from: SlotNumber) -> Option<SlotNumber>
    requires { 1 ≤ from.0 }
    ensures { result ≡ P.free_from from.0 (drop (from.0 - 1) (read pool.entry).slots) }
{
    for s in from.0..pool.slots() + 1 {
        if pool.node(SlotNumber(s)).level() == 0 {
            return Some(SlotNumber(s));
        }
    }
    None
}

// How many slots are free; 0 at "a moment when none is free".
pub fn free_count(pool: Pool<'_>) -> usize
    ensures { result ≡ P.free_count (read pool.entry) }
{
    let mut free = 0;
    for at in 1..pool.slots() + 1 {
        if pool.node(SlotNumber(at)).level() == 0 {
            free += 1;
        }
    }
    free
}

// What is known of the free slots before a batch's first request: all are counted, and no slot is
// below slot 1.
pub fn free_slots(pool: Pool<'_>) -> FreeSlots
    ensures { Known (read pool.entry) result }
{
    FreeSlots {
        count: free_count(pool),
        low: SlotNumber(1),
    }
}

// "the lowest free slot". The search starts at the slot below which, as is known, none is free.
pub fn lowest(pool: Pool<'_>, free: FreeSlots) -> Option<SlotNumber>
    requires { Known (read pool) free }
    ensures { result ≡ P.lowest_free (read pool.entry) }
{
    lowest_free_from(pool, free.low)
}

// What is known once the lowest free slot, t, is taken: the next search starts after it.
#[tactic(auto, unfolding(crate::specs::Known::less_slot))]
pub fn less_slot(free: FreeSlots, t: SlotNumber) -> FreeSlots
    requires count_nonzero { 0 < free.count }
    requires t_le_most_slots { t.0 ≤ most_slots }
    ensures { result ≡ less_slot free t }
{
    FreeSlots {
        count: free.count - 1,
        low: SlotNumber(t.0 + 1),
    }
}

// What is known once slot s has become free: "its slot is zeroed and free at once".
#[tactic(auto, unfolding(crate::specs::Known::more_slot))]
pub fn more_slot(free: FreeSlots, s: SlotNumber) -> FreeSlots
    requires { free.count ≤ most_slots }
    ensures { result ≡ more_slot free s }
{
    FreeSlots {
        count: free.count + 1,
        low: SlotNumber(free.low.0.min(s.0)),
    }
}
