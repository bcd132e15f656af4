// No two outcomes of a call meet its promise, as theorems in specs/; the code of this crate is one number.

#![tactic(auto)]

ghost use Rattle.std.specs.Prelude.{◌≡◌};

// Cleaning, joining, reading and writing have an enum for their answer.
pub fn calls() -> usize
    ensures { result ≡ 4 }
{
    4
}
