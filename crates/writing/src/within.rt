// 13 with the block of a call from C, which comes last of all.
ghost use Rattle.std.specs.Prelude.{◌≡◌};
ghost use Rattle.meaning.specs.Answer.{checked_of};
ghost use Rattle.writing.specs.Block.{room_within};

use crate::{Lengths, Needs};
use meaning::{Bytes, Refusal};

// The cells of a block that takes the rows written in tables 1 to 4.
pub const BLOCK: usize = 4;

// As check_room, and 7 where all fits but a block of so many cells is short.
pub fn check_room_and_block(need: Needs, lent: Lengths, cells: usize) -> Result<(), Refusal>
    ensures { checked_of result ≡ room_within need lent cells }
{
    crate::check_room(need, lent)?;
    if cells < BLOCK {
        return Err(Refusal::NoRoom(Bytes::NUMBER));
    }
    Ok(())
}
