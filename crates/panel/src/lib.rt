// Alleles for a whole panel (M-100): the single calls of a list of sites and a list of fish, fish by fish, in two lent blocks of bytes. The
// tables are checked once, each fish is found once, and all fish of a site share what is found there.

#![tactic(auto)]

ghost use Rattle.std.specs.Prelude.{◌≡◌, ◌≤◌, length};
ghost use Rattle.meaning.specs.Columns.{tables_in, lent_in};
ghost use Rattle.meaning.specs.Answer.{limits};
ghost use Rattle.meaning.specs.Panel.{panel_of, panel};
ghost use Rattle.order.specs.Ranks.{Ranked};
ghost use Rattle.alleles.specs.Reading.{Readable};
ghost use Rattle.panel.specs.Whole.{SitesNamed, after_check};

mod fill; // the bytes of all fish at all sites
mod portions; // so many fish at a time, told at each site

use blocks::{block, lists};
use meaning::columns::{Lent, Tables};
use meaning::{Bytes, Refusal};

// The panel of tables that the check does not refuse, with the orders that it leaves.
fn panel_sound(
    len: u32,
    tables: Tables,
    by_child: &[u32],
    by_birth: &[u32],
    sites: &[u32],
    fish: &[u32],
    states: &mut [u8],
    flags: &mut [u8],
) -> Result<usize, Refusal>
    requires { Readable len (tables_in tables) by_child.now ×
        SitesNamed (length tables.sites.position.now) tables.mutations.site.now ×
        (length tables.sites.position.now ≤ 512) ×
        (length tables.mutations.site.now ≤ 1024) ×
        Ranked tables.ages.birth.now by_birth.now }
    ensures { panel_of result states.new flags.new
        ≡ after_check len (tables_in tables.entry) sites.now fish.now states.old flags.old }
{
    if sites.len() == 0 {
        return Ok(0);
    }
    if fish.len() == 0 {
        return Ok(0);
    }
    lists::first_refused(
        tables.ages.birth,
        by_birth,
        tables.sites.position.len(),
        sites,
        fish,
    )?;
    if !block::both_have_room(fish.len(), sites.len(), states.len(), flags.len()) {
        return Err(Refusal::NoRoom(Bytes::NUMBER));
    }
    fill::fill_blocks(len, tables, by_child, by_birth, sites, fish, states, flags);
    Ok(fish.len() * sites.len())
}

// The check of the tables, which leaves the edges by child and the nodes by birth in lent columns, and then the panel.
fn panel_lent(
    len: u32,
    lent: Lent,
    by_child: &mut [u32],
    by_birth: &mut [u32],
    sites: &[u32],
    fish: &[u32],
    states: &mut [u8],
    flags: &mut [u8],
) -> Result<usize, Refusal>
    requires { (length by_child.old ≡ 4096) × (length by_birth.old ≡ 1024) }
    ensures { panel_of result states.new flags.new
        ≡ panel limits len (lent_in lent.entry) sites.now fish.now states.old flags.old }
{
    let n = lent.left.len();
    let m = lent.birth.len();
    checker::check_lent(len, lent, by_child, by_birth)?;
    panel_sound(
        len,
        alleles::evened(lent),
        &by_child[..n],
        &by_birth[..m],
        sites,
        fish,
        states,
        flags,
    )
}

// M-100's call: the state of each fish of a list at each site of a list, and, in the second block, 1 where it is missing there. The two
// blocks are lent apart, as the C interface has them.
pub fn alleles(
    len: u32,
    lent: Lent,
    sites: &[u32],
    fish: &[u32],
    states: &mut [u8],
    flags: &mut [u8],
) -> Result<usize, Refusal>
    ensures { panel_of result states.new flags.new
        ≡ panel limits len (lent_in lent.entry) sites.now fish.now states.old flags.old }
{
    let mut by_child = [0u32; meaning::EdgeTable::MOST];
    let mut by_birth = [0u32; meaning::NodeTable::MOST];
    panel_lent(
        len,
        lent,
        &mut by_child,
        &mut by_birth,
        sites,
        fish,
        states,
        flags,
    )
}
