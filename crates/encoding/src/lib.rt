// When a list of edges is the list that cleaning defines: laws in specs/; the code of this crate is one number.

#![tactic(auto)]

ghost use Rattle.std.specs.Prelude.{◌≡◌};

// Every chromosome begins at position 0.
pub fn first_position() -> u32
    ensures { result ≡ 0 }
{
    0
}
