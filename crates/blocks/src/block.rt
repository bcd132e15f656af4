// Blocks of bytes, fish by fish: whether all fit, and one site's column written to one.
ghost use Rattle.std.specs.Prelude.{◌≡◌, ℕ, ◌+◌, ◌*◌, ◌<◌, ◌≤◌, min, leb, length};
ghost use Rattle.blocks.specs.Block.{Scattered};

// Whether a block takes a byte for each fish and site. The product may be larger than any number that there is, so it is not made.
fn has_room(fish: usize, sites: usize, room: usize) -> bool
    requires { 0 < sites }
    ensures { result ≡ leb (fish * sites) room }
{
    fish <= room / sites
}

// Whether both blocks of a panel take a byte for each fish and site.
pub fn both_have_room(fish: usize, sites: usize, states: usize, flags: usize) -> bool
    requires { 0 < sites }
    ensures { result ≡ leb (fish * sites) (min states flags) }
{
    has_room(fish, sites, states.min(flags))
}

// Writes the first k cells of a column to place j of the rows of k fish from base on, each row as long as there are sites.
pub fn scatter(column: &[u8], k: usize, base: usize, sites: usize, j: usize, block: &mut [u8])
    requires { (k ≤ length column.now) × (j < sites) × ((base + k) * sites ≤ length block.old) }
    ensures { Scattered sites base k j column.now block.old block.new }
{
    for a in 0..k {
        block[(base + a) * sites + j] = column[a];
    }
}
