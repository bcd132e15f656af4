// What a join writes of edges and mutations: the base's and the batch's together, in key order and by site.

#![tactic(auto)]

mod merge; // the rows of the edges in key order
pub mod edges; // the edges in key order
pub mod mutations; // the mutations by site

ghost use Rattle.std.specs.Prelude.{◌≡◌, ◌+◌, ◌≤◌};

use order::wide;

// A row of the batch, counted on from the base's n rows.
fn counted_on(n: usize, row: u32) -> u32
    requires { n + row ≤ 4294967295 }
    ensures { result ≡ n + row }
{
    (n + wide(row)) as u32
}
