// Joining, called from C.
ghost use Rattle.std.specs.Prelude.{◌≡◌};
ghost use Rattle.meaning.specs.Rows.{node_table, edge_table, site_table, mutation_table, tables};
ghost use Rattle.meaning.specs.Join.{batch_tables};
ghost use Rattle.meaning.specs.Answer.{limits};
ghost use Rattle.meaning.specs.Called.{JoinCall, join_call};

use crate::pack;
use meaning::columns::{Batch, Lent};

// The answer's number times 2^32 plus its row; after 0 the rows written in tables 1 to 4 stand in the block.
#[unsafe(no_mangle)]
pub extern "C" fn ffr_join_v2<'a>(
    len: u32,
    basetime: &'a [u32],
    basebirth: &'a [u32],
    basepopulation: &'a [u16],
    baseleft: &'a [u32],
    baseright: &'a [u32],
    baseparent: &'a [u32],
    basechild: &'a [u32],
    position: &'a [u32],
    ancestral: &'a [u8],
    basesite: &'a [u32],
    basenode: &'a [u32],
    basederived: &'a [u8],
    time: &'a [u32],
    birth: &'a [u32],
    population: &'a [u16],
    left: &'a [u32],
    right: &'a [u32],
    parent: &'a [u32],
    child: &'a [u32],
    site: &'a [u32],
    node: &'a [u32],
    derived: &'a [u8],
    out_time: &mut [u32],
    out_birth: &mut [u32],
    out_population: &mut [u16],
    out_left: &mut [u32],
    out_right: &mut [u32],
    out_parent: &mut [u32],
    out_child: &mut [u32],
    out_position: &mut [u32],
    out_ancestral: &mut [u8],
    out_site: &mut [u32],
    out_node: &mut [u32],
    out_derived: &mut [u8],
    block: &mut [u32],
) -> u64
    ensures { ◌≡◌ {A = JoinCall} (record {
      code = result;
      cells =
          (tables
          (node_table out_time.new out_birth.new out_population.new)
          (edge_table out_left.new out_right.new out_parent.new out_child.new)
          (site_table out_position.new out_ancestral.new)
          (mutation_table out_site.new out_node.new out_derived.new));
      block = block.new;
    }) (join_call limits len
        (tables
        (node_table basetime.now basebirth.now basepopulation.now)
        (edge_table baseleft.now baseright.now baseparent.now basechild.now)
        (site_table position.now ancestral.now)
        (mutation_table basesite.now basenode.now basederived.now))
        (batch_tables
        (node_table time.now birth.now population.now)
        (edge_table left.now right.now parent.now child.now)
        (mutation_table site.now node.now derived.now))
        (tables
        (node_table out_time.old out_birth.old out_population.old)
        (edge_table out_left.old out_right.old out_parent.old out_child.old)
        (site_table out_position.old out_ancestral.old)
        (mutation_table out_site.old out_node.old out_derived.old)) block.old) }
{
    let base = Lent {
        time: basetime,
        birth: basebirth,
        population: basepopulation,
        left: baseleft,
        right: baseright,
        parent: baseparent,
        child: basechild,
        position,
        ancestral,
        site: basesite,
        node: basenode,
        derived: basederived,
    };
    let batch = Batch {
        time,
        birth,
        population,
        left,
        right,
        parent,
        child,
        site,
        node,
        derived,
    };
    let answer = joiner::join(
        len,
        base,
        batch,
        out_time,
        out_birth,
        out_population,
        out_left,
        out_right,
        out_parent,
        out_child,
        out_position,
        out_ancestral,
        out_site,
        out_node,
        out_derived,
        block.len(),
    );
    pack::tell(answer, block)
}
