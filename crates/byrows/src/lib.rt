// Cleaning said by rows, as the code does it, and that this is what 01 says by births: laws in specs/; the code of this crate is one number.

#![tactic(auto)]

ghost use Rattle.std.specs.Prelude.{◌≡◌};

// A row is one number.
pub fn words_of_a_row() -> usize
    ensures { result ≡ 1 }
{
    1
}
