// The customer's three demands as theorems over the definitions, in specs/; the code of this crate is one number.

#![tactic(auto)]

ghost use Rattle.std.specs.Prelude.{◌≡◌};

// The letter has three demands.
pub fn demands() -> usize
    ensures { result ≡ 3 }
{
    3
}
