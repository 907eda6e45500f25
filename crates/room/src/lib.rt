// Req 06, "Know before the truck leaves": whether an insert will fit, told from the pool as it is.
// Nothing is written.
#![tactic(auto)]

ghost use Rattle.std.specs.Prelude.{◌≡◌, true};
ghost use Rattle.rules.specs.Geometry.{valid};
ghost use Rattle.rules.specs.Pool.{free_count};
ghost use Rattle.rules.specs.Insert.{ours};
ghost use Rattle.rules.specs.Room.{slots_needed, slots, insert_room};
ghost use Rattle.sound_laws.specs.Tree.{Whole};
ghost use Rattle.pool.specs.Reading.{read};

use pool::node::Pool;
use rules::{InsertRoom, Rect, RoomFault};

// Of a sound pool: the slots that an insert of the rectangle needs, and those that are free. The
// chosen leaf is of level 1.
fn slots(pool: Pool<'_>, new: Rect) -> InsertRoom
    requires whole { Whole (read pool) }
    requires value { valid new ≡ true }
    ensures { result
        ≡ slots (slots_needed ours 1 (read pool.entry) new) (free_count (read pool.entry)) }
{
    let needed = insert::needed(pool, 1, new);
    let free = free_slots::free_count(pool);
    InsertRoom {
        needed: needed as u32,
        free: free as u32,
    }
}

// Of any words: refused 1, 2 or 3, in this order, or told.
pub fn insert_room(pool: &[i32], new: Rect) -> Result<InsertRoom, RoomFault>
    ensures { result ≡ insert_room pool.now new }
{
    if !pool::valid_length(pool) {
        return Err(RoomFault::BadLength);
    }
    let pool = Pool::over(pool);
    if !sound::sound(pool) {
        return Err(RoomFault::NotSound);
    }
    if !geometry::valid(new) {
        return Err(RoomFault::BadRectangle);
    }
    Ok(slots(pool, new))
}
