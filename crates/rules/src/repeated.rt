// Rules 4 and 12: rows with one number.
ghost use Rattle.rules.specs.Lined.{twins};
ghost use Rattle.rules.specs.Mutual.{twins_even};
ghost use Rattle.std.specs.Prelude.{length};

use crate::lined::Relation;

// The numbers of a column; rows with one number are related.
#[derive(Clone, Copy)]
pub struct Numbers<'a> {
    pub column: &'a [u32],
}

impl<'a> Relation for Numbers<'a> {
    ghost relates = { λ r. twins r.column.now };

    ghost many = { λ r. length r.column.now };

    ghost even = { λ r. twins_even r.column.now };

    fn relate(&self, j: u32, i: u32) -> bool {
        self.column[j as usize] == self.column[i as usize]
    }
}
