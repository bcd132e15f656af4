// What the calls give: the answer as one number, and the rows written in the lent block.
ghost use Rattle.std.specs.Prelude.{◌≡◌, [], ◌∷◌, ◌+◌, ◌*◌, ◌<◌, ◌≤◌, length};
ghost use Rattle.meaning.specs.Answer.{put, refusal_of};
ghost use Rattle.meaning.specs.Called.{packed};
ghost use Rattle.ffr.specs.Told.{Tellable, Told};

use meaning::{Counts, Refusal};

// A refusal's number times 2^32 plus its row.
pub fn pack(x: Refusal) -> u64
    requires { (refusal_of x).row < 4294967296 }
    ensures { result ≡ packed (refusal_of x) }
{
    let t = meaning::Told::from(x);
    (t.number as u64) * 4294967296 + (t.row as u64)
}

// The rows written in tables 1 to 4, in the first four cells.
fn put_block(block: &mut [u32], rows: Counts)
    requires { (4 ≤ length block.old) × (rows.nodes < 4294967296) × (rows.edges < 4294967296) × (rows.sites < 4294967296) × (rows.mutations < 4294967296) }
    ensures { block.new ≡ put (rows.nodes ∷ rows.edges ∷ rows.sites ∷ rows.mutations ∷ []) block.old }
{
    block[0] = rows.nodes as u32;
    block[1] = rows.edges as u32;
    block[2] = rows.sites as u32;
    block[3] = rows.mutations as u32;
}

// A call's answer as one number; after 0 the rows written stand in the block.
pub fn tell(x: Result<Counts, Refusal>, block: &mut [u32]) -> u64
    requires { Tellable x (length block.old) }
    ensures { Told x block.old result block.new }
{
    match x {
        Err(r) => pack(r),
        Ok(rows) => {
            put_block(block, rows);
            0
        }
    }
}
