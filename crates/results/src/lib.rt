// That results can be trusted, proved of the definitions, in specs/; the code of this crate is one number.

#![tactic(auto)]

ghost use Rattle.std.specs.Prelude.{◌≡◌};

// No row of a result comes before the first.
pub fn first_result() -> usize
    ensures { result ≡ 0 }
{
    0
}
