// Edges and mutations of a result written to the lent columns, which are known to have the room.
ghost use Rattle.meaning.specs.Forest.{stands};
ghost use Rattle.meaning.specs.Clean.{cleaned};
ghost use Rattle.order.specs.Ranks.{Ranked};
ghost use Rattle.cleaner.specs.Work.{Ready, whole_in, store_in, moves_in};
ghost use Rattle.cleaner.specs.Lists.{RoomForLists, ListsWritten};

use crate::edges_out::EdgesOut;
use crate::first::FirstSweep;
use crate::{fill, finish};
use meaning::columns::Tables;

// Tables 2 and 4: the sweep's lists at the fronts of the columns, then the edges in key order and all rows by their places.
pub fn write_lists(
    len: u32,
    tables: Tables,
    population: &[u16],
    samples: &[u32],
    by_birth: &[u32],
    kept: &[u32],
    places: &[u32],
    sample: &[u8],
    bl: &mut [u32],
    br: &mut [u32],
    first: FirstSweep,
    stood: &mut [u8],
    nodes: usize,
    out_left: &mut [u32],
    out_right: &mut [u32],
    out_parent: &mut [u32],
    out_child: &mut [u32],
    out_site: &mut [u32],
    out_node: &mut [u32],
    out_derived: &mut [u8],
)
    requires { Ready len (whole_in tables population.now) samples.now
        (record {
          kept = kept.now;
          nodes = nodes;
          places = places.now;
          sample = sample.now;
          by_left = bl.old;
          by_right = br.old;
          store = store_in first stood.old;
          moves = moves_in first;
        }) ×
        Ranked tables.ages.birth.now by_birth.now ×
        RoomForLists first.made first.moved (record { left = out_left.old; right = out_right.old; parent = out_parent.old; child = out_child.old })
        (record { site = out_site.old; node = out_node.old; derived = out_derived.old }) }
    ensures { ListsWritten
        (cleaned stands len (whole_in tables.entry population.now) samples.now)
        (record {
          left = out_left.old;
          right = out_right.old;
          parent = out_parent.old;
          child = out_child.old;
        })
        (record {
          left = out_left.new;
          right = out_right.new;
          parent = out_parent.new;
          child = out_child.new;
        })
        (record { site = out_site.old; node = out_node.old; derived = out_derived.old })
        (record { site = out_site.new; node = out_node.new; derived = out_derived.new }) }
{
    let mut out = EdgesOut {
        left: out_left,
        right: out_right,
        parent: out_parent,
        child: out_child,
    };
    fill::fill(
        len, tables, sample, bl, br, first, stood, &mut out, out_site, out_node,
    );
    out.order(tables.ages, by_birth, first.made, bl, br);
    out.finish(places, bl, first.made, br);
    finish::finish_mutations(
        places,
        tables.mutations,
        first.moved,
        out_site,
        out_node,
        out_derived,
    );
}
