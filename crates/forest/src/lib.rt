// Laws of the forest at one position, in specs/; the code of this crate is one number.

#![tactic(auto)]

ghost use Rattle.std.specs.Prelude.{◌≡◌};

// A node has at most so many parents at one position.
pub fn most_parents() -> usize
    ensures { result ≡ 1 }
{
    1
}
