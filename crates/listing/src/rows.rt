// The line of one row of each table. A cell past the end of a column counts as 0.
ghost use Rattle.std.specs.Prelude.{◌≡◌, ◌+◌, ◌<◌, ◌≤◌, length};
ghost use Rattle.meaning.specs.Words.{at as cell_of};
ghost use Rattle.meaning.specs.Columns.{lent_in};
ghost use Rattle.meaning.specs.Printed.{node_line, edge_line, site_line, mutation_line, map_line};
ghost use Rattle.listing.specs.Written.{Wrote};

use crate::put::Page;
use meaning::columns::Lent;

// One for each type of cell: a trait with its law and three impls would be longer than the three.
fn cell(column: &[u32], i: usize) -> usize
    ensures { result ≡ cell_of column.now i }
{
    if i < column.len() {
        column[i] as usize
    } else {
        0
    }
}

fn state(column: &[u8], i: usize) -> usize
    ensures { result ≡ cell_of column.now i }
{
    if i < column.len() {
        column[i] as usize
    } else {
        0
    }
}

fn stock(column: &[u16], i: usize) -> usize
    ensures { result ≡ cell_of column.now i }
{
    if i < column.len() {
        column[i] as usize
    } else {
        0
    }
}

pub fn node(page: &mut Page, lent: Lent, i: usize)
    requires { page.old.len + length (node_line (lent_in lent).nodes i) ≤ length page.old.out.now }
    ensures wrote { Wrote page.old.len (node_line (lent_in lent.entry).nodes i) page.old.out.now page.new.out.now page.new.len }
    ensures same { page.new.out.ghost_name ≡ page.old.out.ghost_name }
{
    let t = cell(lent.time, i);
    let b = cell(lent.birth, i);
    let p = stock(lent.population, i);
    page.line(b'N', &[i, t, b, p]);
}

pub fn edge(page: &mut Page, lent: Lent, i: usize)
    requires { page.old.len + length (edge_line (lent_in lent).edges i) ≤ length page.old.out.now }
    ensures wrote { Wrote page.old.len (edge_line (lent_in lent.entry).edges i) page.old.out.now page.new.out.now page.new.len }
    ensures same { page.new.out.ghost_name ≡ page.old.out.ghost_name }
{
    let a = cell(lent.left, i);
    let b = cell(lent.right, i);
    let p = cell(lent.parent, i);
    let c = cell(lent.child, i);
    page.line(b'E', &[a, b, p, c]);
}

pub fn site(page: &mut Page, lent: Lent, i: usize)
    requires { page.old.len + length (site_line (lent_in lent).sites i) ≤ length page.old.out.now }
    ensures wrote { Wrote page.old.len (site_line (lent_in lent.entry).sites i) page.old.out.now page.new.out.now page.new.len }
    ensures same { page.new.out.ghost_name ≡ page.old.out.ghost_name }
{
    let x = cell(lent.position, i);
    let s = state(lent.ancestral, i);
    page.line(b'S', &[x, s]);
}

pub fn mutation(page: &mut Page, lent: Lent, i: usize)
    requires { page.old.len + length (mutation_line (lent_in lent).muts i) ≤ length page.old.out.now }
    ensures wrote { Wrote page.old.len (mutation_line (lent_in lent.entry).muts i) page.old.out.now page.new.out.now page.new.len }
    ensures same { page.new.out.ghost_name ≡ page.old.out.ghost_name }
{
    let j = cell(lent.site, i);
    let u = cell(lent.node, i);
    let s = state(lent.derived, i);
    page.line(b'M', &[j, u, s]);
}

// A row of the node map: its letter and number, and its output row.
pub fn mapped(page: &mut Page, map: &[u32], i: usize)
    requires { page.old.len + length (map_line map.now i) ≤ length page.old.out.now }
    ensures wrote { Wrote page.old.len (map_line map.now i) page.old.out.now page.new.out.now page.new.len }
    ensures same { page.new.out.ghost_name ≡ page.old.out.ghost_name }
{
    let row = cell(map, i);
    page.byte(b'X');
    page.field(i);
    page.byte(b' ');
    page.out_row(row);
    page.byte(b'\n');
}
