// What an answer 0 tells of the tables lent, as laws in specs/; the code of this crate is one number.

#![tactic(auto)]

ghost use Rattle.std.specs.Prelude.{◌≡◌};

// The number of the answer that refuses nothing.
pub fn done_number() -> usize
    ensures { result ≡ 0 }
{
    0
}
