// How far up a mutation's ancestors matter: to the oldest node among the later mutations of its site.
ghost use Rattle.std.specs.Prelude.{◌<◌, length};
ghost use Rattle.overtaking.specs.Bounds.{Bounded};

use crate::sites::BySite;

// How many later mutations are gone over at most, so that a row costs no more than so many steps.
const MOST: usize = 64;

// The oldest time that there is, which bounds every node.
const OLDEST: u32 = u32::MAX;

// The oldest time among the nodes of the mutations after row i at its site. Where too many follow they are not gone over, and the
// answer is the oldest time that there is.
pub fn oldest_later(mutations: BySite, i: usize) -> u32
    requires { i < length mutations.site.now }
    ensures { Bounded mutations.entry.time.now mutations.entry.site.now mutations.entry.node.now i result }
{
    let mut top = 0u32;
    for k in i + 1..mutations.site.len() {
        if mutations.site[k] != mutations.site[i] {
            return top;
        }
        if k - i > MOST {
            return OLDEST;
        }
        top = top.max(mutations.time[mutations.node[k] as usize]);
    }
    top
}
