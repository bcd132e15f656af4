// The lines of each table, one for a row; the first column counts the rows. Each loop has its own columns, so there is no loop
// to share.
ghost use Rattle.std.specs.Prelude.{◌≡◌, ◌+◌, ◌<◌, ◌≤◌, length};
ghost use Rattle.meaning.specs.Columns.{lent_in};
ghost use Rattle.meaning.specs.Printed.{lines, node_line, edge_line, site_line, mutation_line, map_line};
ghost use Rattle.listing.specs.Written.{Wrote};

use crate::put::Page;
use crate::rows;
use meaning::columns::Lent;

pub fn nodes(page: &mut Page, lent: Lent)
    requires { page.old.len + length (lines (node_line (lent_in lent).nodes) (length lent.time.now)) ≤ length page.old.out.now }
    ensures wrote { Wrote page.old.len (lines (node_line (lent_in lent.entry).nodes) (length lent.entry.time.now)) page.old.out.now page.new.out.now page.new.len }
    ensures same { page.new.out.ghost_name ≡ page.old.out.ghost_name }
{
    for i in 0..lent.time.len() {
        rows::node(page, lent, i);
    }
}

pub fn edges(page: &mut Page, lent: Lent)
    requires { page.old.len + length (lines (edge_line (lent_in lent).edges) (length lent.left.now)) ≤ length page.old.out.now }
    ensures wrote { Wrote page.old.len (lines (edge_line (lent_in lent.entry).edges) (length lent.entry.left.now)) page.old.out.now page.new.out.now page.new.len }
    ensures same { page.new.out.ghost_name ≡ page.old.out.ghost_name }
{
    for i in 0..lent.left.len() {
        rows::edge(page, lent, i);
    }
}

pub fn sites(page: &mut Page, lent: Lent)
    requires { page.old.len + length (lines (site_line (lent_in lent).sites) (length lent.position.now)) ≤ length page.old.out.now }
    ensures wrote { Wrote page.old.len (lines (site_line (lent_in lent.entry).sites) (length lent.entry.position.now)) page.old.out.now page.new.out.now page.new.len }
    ensures same { page.new.out.ghost_name ≡ page.old.out.ghost_name }
{
    for i in 0..lent.position.len() {
        rows::site(page, lent, i);
    }
}

pub fn mutations(page: &mut Page, lent: Lent)
    requires { page.old.len + length (lines (mutation_line (lent_in lent).muts) (length lent.site.now)) ≤ length page.old.out.now }
    ensures wrote { Wrote page.old.len (lines (mutation_line (lent_in lent.entry).muts) (length lent.entry.site.now)) page.old.out.now page.new.out.now page.new.len }
    ensures same { page.new.out.ghost_name ≡ page.old.out.ghost_name }
{
    for i in 0..lent.site.len() {
        rows::mutation(page, lent, i);
    }
}

// The node map's lines.
pub fn mapping(page: &mut Page, map: &[u32])
    requires { page.old.len + length (lines (map_line map.now) (length map.now)) ≤ length page.old.out.now }
    ensures wrote { Wrote page.old.len (lines (map_line map.now) (length map.now)) page.old.out.now page.new.out.now page.new.len }
    ensures same { page.new.out.ghost_name ≡ page.old.out.ghost_name }
{
    for i in 0..map.len() {
        rows::mapped(page, map, i);
    }
}
