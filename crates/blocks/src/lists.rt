// The first single call in block order that is refused with 41 or 42, told from the two lists: of the first fish each site in turn, and
// then, where all sites are there, each fish.
ghost use Rattle.std.specs.Prelude.{◌≡◌, not, ℕ, ◌<◌, leb, length};
ghost use Rattle.meaning.specs.Words.{at, mem, any_below};
ghost use Rattle.order.specs.Ranks.{Ranked};
ghost use Rattle.blocks.specs.Lists.{ListsTold};

use meaning::Refusal;

// Whether some number of the list names no site, where there are so many.
fn some_no_site(sites: &[u32], most: usize) -> bool
    ensures { result ≡ any_below (λ j. leb most (at sites.now j)) (length sites.now) }
{
    sites.iter().any(|i| most <= *i as usize)
}

// Whether a number names no fish.
fn is_unknown(birth: &[u32], by_birth: &[u32], b: u32) -> bool
    requires { Ranked birth.now by_birth.now }
    ensures { result ≡ not (mem b birth.now) }
{
    !order::ranks::known(birth, by_birth, b)
}

// Whether some number of the list names no fish.
fn some_unknown(birth: &[u32], by_birth: &[u32], fish: &[u32]) -> bool
    requires { Ranked birth.now by_birth.now }
    ensures { result ≡ any_below (λ a. not (mem (at fish.now a) birth.now)) (length fish.now) }
{
    fish.iter().any(|b| is_unknown(birth, by_birth, *b))
}

// The refusal of the first single call that has one, of lists that are not empty.
pub fn first_refused(
    birth: &[u32],
    by_birth: &[u32],
    most: usize,
    sites: &[u32],
    fish: &[u32],
) -> Result<(), Refusal>
    requires { Ranked birth.now by_birth.now × (0 < length sites.now) × (0 < length fish.now) }
    ensures { ListsTold most birth.now sites.now fish.now result }
{
    if most <= sites[0] as usize {
        return Err(Refusal::NoSite);
    }
    if is_unknown(birth, by_birth, fish[0]) {
        return Err(Refusal::NoBirth);
    }
    let site_missing = some_no_site(sites, most);
    let fish_unknown = some_unknown(birth, by_birth, fish);
    if site_missing {
        return Err(Refusal::NoSite);
    }
    if fish_unknown {
        return Err(Refusal::NoBirth);
    }
    Ok(())
}
