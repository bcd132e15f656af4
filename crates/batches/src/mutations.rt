// Rule 25: the mutations of a batch by birth number. Their derived states, whatever they are, play no part.
ghost use Rattle.std.specs.Prelude.{◌≡◌, ◌<◌, List, ℕ, length};
ghost use Rattle.meaning.specs.Words.{lowest_row};
ghost use Rattle.meaning.specs.Rows.{mutation_table};
ghost use Rattle.meaning.specs.Join.{batch_mutation};
ghost use Rattle.order.specs.Ranks.{Helps};

// Whether batch mutation i names no site, or no batch node; idx helps to find the node.
fn batch_mutation_at(
    sites: usize,
    birth: &[u32],
    idx: &[u32],
    site: &[u32],
    node: &[u32],
    i: usize,
) -> bool
    requires { (i < length site.now) × (length node.now ≡ length site.now) × Helps birth.now idx.now }
    ensures { (derived : List ℕ) → result ≡ batch_mutation sites birth.now (mutation_table site.now node.now derived) i }
{
    if sites <= site[i] as usize {
        return true;
    }
    !order::ranks::known(birth, idx, node[i])
}

// 25: the lowest such mutation. There are sites so many.
pub fn first_batch_mutation(
    sites: usize,
    birth: &[u32],
    idx: &[u32],
    site: &[u32],
    node: &[u32],
) -> Option<usize>
    requires { (length node.now ≡ length site.now) × Helps birth.now idx.now }
    ensures { (derived : List ℕ) → result ≡ lowest_row (batch_mutation sites birth.now (mutation_table site.now node.now derived)) (length site.now) }
{
    for i in 0..site.len() {
        if batch_mutation_at(sites, birth, idx, site, node, i) {
            return Some(i);
        }
    }
    None
}
