// What a new site begins with: a stamp that no row has, and answers that hold from its position on.
ghost use Rattle.std.specs.Prelude.{◌≡◌, ℕ, ◌≤◌};
ghost use Rattle.meaning.specs.Words.{at};
ghost use Rattle.overtaking.specs.Same.{SameKept};
ghost use Rattle.carrying.specs.Fresh.{Unstamped, Forgotten};
ghost use Rattle.carrying.specs.Same.{SameKids};

use crate::kids::Kids;
use overtaking::known::Kept;

// A stamp that no row has: one more than the last, or 1 after all stamps are taken off where there is none above it.
pub fn next_stamp(t: u32, own: &mut [u32], told: &mut [u32]) -> u32
    requires { ((v : ℕ) → at own.old v ≤ t) × ((v : ℕ) → at told.old v ≤ t) }
    ensures { Unstamped result own.new told.new }
{
    if t < u32::MAX {
        return t + 1;
    }
    own.fill(0);
    told.fill(0);
    1
}

// Throws away what is kept of answers from the last position on, where x lies before it.
pub fn forget(x: u32, last: u32, kept: &mut Kept, kids: &mut Kids)
    ensures ends { Forgotten x last kept.old.until.now kids.old.until.now kept.new.until.now kids.new.until.now }
    ensures par { kept.new.par.now ≡ kept.old.par.now }
    ensures has { kids.new.has.now ≡ kids.old.has.now }
    ensures same { SameKept kept.old kept.new }
    ensures kids_same { SameKids kids.old kids.new }
{
    if last <= x {
        return;
    }
    kept.until.fill(0);
    kids.until.fill(0);
}
