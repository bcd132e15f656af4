// So many fish at a time are found once, and then told at each site.
ghost use Rattle.std.specs.Prelude.{◌≡◌, true, ℕ, ◌+◌, ◌*◌, ◌<◌, ◌≤◌, length};
ghost use Rattle.meaning.specs.Words.{at, mem};
ghost use Rattle.meaning.specs.Columns.{tables_in};
ghost use Rattle.order.specs.Ranks.{Ranked};
ghost use Rattle.overtaking.specs.Same.{SameKept};
ghost use Rattle.carrying.specs.Work.{Kept};
ghost use Rattle.carrying.specs.Lent.{IsPrepared, work_in, KeptAt};
ghost use Rattle.carrying.specs.Same.{SameKids};
ghost use Rattle.blocks.specs.Block.{SitesWritten, FishWritten};
ghost use Rattle.blocks.specs.Lists.{AllThere};
ghost use Rattle.panel.specs.Rows.{state_byte, flag_byte};
ghost use Rattle.panel.specs.Whole.{RowsFound};

use blocks::block;
use carrying::kids::Kids;
use carrying::{Filled, Trail};
use overtaking::known;

// As many fish are told at each site before the next ones are found.
pub const FISH: usize = 1024;

// The rows of k fish of a list from base on, all of them known.
fn find_rows(birth: &[u32], by_birth: &[u32], fish: &[u32], base: usize, k: usize, rows: &mut [u32])
    requires { Ranked birth.now by_birth.now ×
        (base + k ≤ length fish.now) ×
        (k ≤ length rows.old) ×
        (length birth.now < 4294967296) ×
        ((a : ℕ) → a < length fish.now → mem (at fish.now a) birth.now ≡ true) }
    ensures { RowsFound birth.now fish.now base k rows.new }
{
    for a in 0..k {
        rows[a] = order::ranks::row_of(birth, by_birth, fish[base + a]).unwrap() as u32;
    }
}

// The bytes of k fish from base on, whose rows are found, at one site after another; column and gaps are working columns.
fn fill_portion(
    filled: Filled,
    sites: &[u32],
    fish: &[u32],
    base: usize,
    rows: &[u32],
    k: usize,
    trail: Trail,
    kept: &mut known::Kept,
    kids: &mut Kids,
    own: &mut [u32],
    told: &mut [u32],
    state: &mut [u8],
    column: &mut [u8],
    gaps: &mut [u8],
    states: &mut [u8],
    flags: &mut [u8],
) -> Trail
    requires { IsPrepared filled ×
        KeptAt (tables_in filled.tables) trail (work_in kept.old kids.old own.old told.old state.old) ×
        AllThere (length filled.tables.sites.position.now) filled.tables.ages.birth.now sites.now fish.now ×
        RowsFound filled.tables.ages.birth.now fish.now base k rows.now ×
        (base + k ≤ length fish.now) ×
        (k ≤ length rows.now) ×
        (k ≤ length column.old) ×
        (k ≤ length gaps.old) ×
        ((base + k) * length sites.now ≤ length states.old) ×
        ((base + k) * length sites.now ≤ length flags.old) }
    ensures states { SitesWritten (state_byte (tables_in filled.entry.tables) sites.now fish.now) (length sites.now) base k (length sites.now)
        states.old states.new }
    ensures flags { SitesWritten (flag_byte (tables_in filled.entry.tables) sites.now fish.now) (length sites.now) base k (length sites.now)
        flags.old flags.new }
    ensures kept { KeptAt (tables_in filled.entry.tables) result (work_in kept.new kids.new own.new told.new state.new) }
    ensures same { SameKept kept.old kept.new }
    ensures kids_same { SameKids kids.old kids.new }
    ensures long { length kept.new.par.now ≡ length kept.old.par.now }
    ensures kids_long { length kids.new.has.now ≡ length kids.old.has.now }
{
    let mut reached = trail;
    for j in 0..sites.len() {
        reached = carrying::tell_site(
            filled, sites[j], reached, kept, kids, own, told, state, rows, k, column, gaps,
        );
        block::scatter(column, k, base, sites.len(), j, states);
        block::scatter(gaps, k, base, sites.len(), j, flags);
    }
    reached
}

// The bytes of all fish, so many at a time. It goes on by whole portions, the last of them shorter, so it is a while.
pub fn fill_fish(
    filled: Filled,
    by_birth: &[u32],
    sites: &[u32],
    fish: &[u32],
    rows: &mut [u32],
    kept: &mut known::Kept,
    kids: &mut Kids,
    own: &mut [u32],
    told: &mut [u32],
    state: &mut [u8],
    column: &mut [u8],
    gaps: &mut [u8],
    states: &mut [u8],
    flags: &mut [u8],
)
    requires { IsPrepared filled ×
        Ranked filled.tables.ages.birth.now by_birth.now ×
        Kept (tables_in filled.tables) 0 0 (work_in kept.old kids.old own.old told.old state.old) ×
        AllThere (length filled.tables.sites.position.now) filled.tables.ages.birth.now sites.now fish.now ×
        (1024 ≤ length rows.old) ×
        (1024 ≤ length column.old) ×
        (1024 ≤ length gaps.old) ×
        (length fish.now * length sites.now ≤ length states.old) ×
        (length fish.now * length sites.now ≤ length flags.old) }
    ensures written { FishWritten (state_byte (tables_in filled.entry.tables) sites.now fish.now) (length sites.now) (length fish.now) states.old states.new ×
        FishWritten (flag_byte (tables_in filled.entry.tables) sites.now fish.now) (length sites.now) (length fish.now) flags.old flags.new }
    ensures same { SameKept kept.old kept.new }
    ensures kids_same { SameKids kids.old kids.new }
    ensures long { length kept.new.par.now ≡ length kept.old.par.now }
    ensures kids_long { length kids.new.has.now ≡ length kids.old.has.now }
{
    let mut trail = Trail { last: 0, stamp: 0 };
    let mut base = 0;
    while base < fish.len() {
        let k = (fish.len() - base).min(FISH);
        find_rows(filled.tables.ages.birth, by_birth, fish, base, k, rows);
        trail = fill_portion(
            filled, sites, fish, base, rows, k, trail, kept, kids, own, told, state, column, gaps,
            states, flags,
        );
        base += k;
    }
}
