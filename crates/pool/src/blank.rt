// A blank pool, in any words of a valid length.
ghost use Rattle.std.specs.Prelude.{◌≡◌, length, replicate, pos};
ghost use Rattle.rules.specs.Layout as L;
ghost use Rattle.pool.specs.Blanking.{number_of};

use crate::{EDITION_PLACE, HEAD_SIZE, HEIGHT_PLACE, ROOT_PLACE, valid_size};
use rules::Edition;

// "all else zero": every word is zeroed, and blanking writes the others after that.
fn zero_all(pool: &mut [i32])
    ensures { pool.new ≡ replicate (length pool.old) (pos 0) }
{
    pool.fill(0);
}

// "Blanking knows only 1, for the pool's length."
#[derive(Clone, Copy, PartialEq, Eq)]
pub struct BadLength;

impl From<BadLength> for i32 {
    ghost from_gives = { λ _ n. n ≡ pos 1 };

    fn from(_: BadLength) -> i32 {
        1
    }
}

// "Blanking writes edition 1, root 1, height 1, records 0, slot 1 as an empty leaf, all else zero."
// Where it refuses, it writes nothing. Req 07: it is told the edition, and goes by it.
pub fn blank(pool: &mut [i32], edition: Edition) -> Result<(), BadLength>
    ensures number { number_of result ≡ (L.blank edition pool.old).number }
    ensures words { pool.new ≡ (L.blank edition pool.old).pool }
{
    if !valid_size(edition, pool.len()) {
        return Err(BadLength);
    }
    zero_all(pool);
    pool[EDITION_PLACE] = edition.number();
    pool[ROOT_PLACE] = 1;
    pool[HEIGHT_PLACE] = 1;
    // Slot 1 begins after the head, with its level.
    pool[HEAD_SIZE] = 1;
    Ok(())
}
