// Laws of the words of the crate meaning, in specs/; the code of this crate is one number.

#![tactic(auto)]

ghost use Rattle.std.specs.Prelude.{◌≡◌};

// No row comes before the first.
pub fn first_row() -> usize
    ensures { result ≡ 0 }
{
    0
}
