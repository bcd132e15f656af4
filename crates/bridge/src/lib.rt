// Laws in specs/: rows and births name the same forest. The code of this crate is one number.

#![tactic(auto)]

ghost use Rattle.std.specs.Prelude.{◌≡◌};

// A row that is its own name.
pub fn first_name() -> usize
    ensures { result ≡ 0 }
{
    0
}
