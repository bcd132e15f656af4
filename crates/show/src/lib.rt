// Cleaning a stored file and listing the result: what the program prints. What the bytes mean is in specs/.
// The columns read and those cleaned stand on the stack, in 88,576 and 91,648 bytes; the cleaner has its own beside them.

#![tactic(auto)]

ghost use Rattle.std.specs.Prelude.{◌≡◌, ◌≤◌, length, take};
ghost use Rattle.meaning.specs.Columns.{lent_in};
ghost use Rattle.meaning.specs.Answer.{refusal_of};
ghost use Rattle.meaning.specs.Printed.{listed, refused_line};
ghost use Rattle.listing.specs.Written.{Printed, room};
ghost use Rattle.meaning.specs.Shown.{Long, front, clean_shown, shown, answered};

use meaning::columns::Lent;
use meaning::{Counts, Refusal, Told};
use stored::Rows;

// The line that a refusal prints.
fn refused(x: Refusal, out: &mut [u8]) -> usize
    requires { 40 ≤ length out.old }
    ensures { Printed (refused_line (refusal_of x).number (refusal_of x).row) out.old out.new result }
{
    let t = Told::from(x);
    listing::refused_line(t.number, t.row, out)
}

// So many rows of each table.
fn fronts(lent: Lent, rows: Counts) -> Lent
    requires { Long (record { nodes = rows.nodes; edges = rows.edges; sites = rows.sites; mutations = rows.mutations }) (lent_in lent) }
    ensures { lent_in result
        ≡ front (record { nodes = rows.nodes; edges = rows.edges; sites = rows.sites; mutations = rows.mutations }) (lent_in lent.entry) }
{
    Lent {
        time: &lent.time[..rows.nodes],
        birth: &lent.birth[..rows.nodes],
        population: &lent.population[..rows.nodes],
        left: &lent.left[..rows.edges],
        right: &lent.right[..rows.edges],
        parent: &lent.parent[..rows.edges],
        child: &lent.child[..rows.edges],
        position: &lent.position[..rows.sites],
        ancestral: &lent.ancestral[..rows.sites],
        site: &lent.site[..rows.mutations],
        node: &lent.node[..rows.mutations],
        derived: &lent.derived[..rows.mutations],
    }
}

// The listing of so many rows of each table and of the node map.
fn list_rows(len: u32, lent: Lent, map: &[u32], rows: Counts, k: usize, out: &mut [u8]) -> usize
    requires { Long (record { nodes = rows.nodes; edges = rows.edges; sites = rows.sites; mutations = rows.mutations }) (lent_in lent)
        × (k ≤ length map.now)
        × (room rows.nodes rows.edges rows.sites rows.mutations k ≤ length out.old) }
    ensures { Printed (listed len
        (front (record { nodes = rows.nodes; edges = rows.edges; sites = rows.sites; mutations = rows.mutations }) (lent_in lent.entry))
        (take k map.now)) out.old out.new result }
{
    listing::list(len, fronts(lent, rows), &map[..k], out)
}

// Tables cleaned and listed.
fn clean_and_list(len: u32, lent: Lent, samples: &[u32], out: &mut [u8]) -> usize
    requires { 313344 ≤ length out.old }
    ensures { Printed (clean_shown len (lent_in lent.entry) samples.now) out.old out.new result }
{
    let mut out_time = [0u32; meaning::NodeTable::STORED];
    let mut out_birth = [0u32; meaning::NodeTable::STORED];
    let mut out_population = [0u16; meaning::NodeTable::STORED];
    let mut out_left = [0u32; meaning::EdgeTable::STORED];
    let mut out_right = [0u32; meaning::EdgeTable::STORED];
    let mut out_parent = [0u32; meaning::EdgeTable::STORED];
    let mut out_child = [0u32; meaning::EdgeTable::STORED];
    let mut out_position = [0u32; meaning::SiteTable::STORED];
    let mut out_ancestral = [0u8; meaning::SiteTable::STORED];
    let mut out_site = [0u32; meaning::MutationTable::STORED];
    let mut out_node = [0u32; meaning::MutationTable::STORED];
    let mut out_derived = [0u8; meaning::MutationTable::STORED];
    let mut out_map = [0u32; meaning::NodeTable::STORED];
    let answer = cleaner::clean(
        len,
        lent.time,
        lent.birth,
        lent.population,
        lent.left,
        lent.right,
        lent.parent,
        lent.child,
        lent.position,
        lent.ancestral,
        lent.site,
        lent.node,
        lent.derived,
        samples,
        &mut out_time,
        &mut out_birth,
        &mut out_population,
        &mut out_left,
        &mut out_right,
        &mut out_parent,
        &mut out_child,
        &mut out_position,
        &mut out_ancestral,
        &mut out_site,
        &mut out_node,
        &mut out_derived,
        &mut out_map,
        writing::within::BLOCK,
    );
    match answer {
        Ok(rows) => {
            let cells = Lent {
                time: &out_time,
                birth: &out_birth,
                population: &out_population,
                left: &out_left,
                right: &out_right,
                parent: &out_parent,
                child: &out_child,
                position: &out_position,
                ancestral: &out_ancestral,
                site: &out_site,
                node: &out_node,
                derived: &out_derived,
            };
            list_rows(len, cells, &out_map, rows, lent.birth.len(), out)
        }
        Err(x) => refused(x, out),
    }
}

// So many rows of each table and of the samples, cleaned and listed.
fn clean_rows(len: u32, lent: Lent, samples: &[u32], rows: Rows, out: &mut [u8]) -> usize
    requires { Long (record { nodes = rows.nodes; edges = rows.edges; sites = rows.sites; mutations = rows.mutations }) (lent_in lent)
        × (rows.samples ≤ length samples.now)
        × (313344 ≤ length out.old) }
    ensures { Printed (clean_shown len
        (front (record { nodes = rows.nodes; edges = rows.edges; sites = rows.sites; mutations = rows.mutations }) (lent_in lent.entry))
        (take rows.samples samples.now)) out.old out.new result }
{
    let counts = Counts {
        nodes: rows.nodes,
        edges: rows.edges,
        sites: rows.sites,
        mutations: rows.mutations,
    };
    clean_and_list(len, fronts(lent, counts), &samples[..rows.samples], out)
}

// What a stored file prints, at the front of out; the number of its bytes.
pub fn show(bytes: &[u8], out: &mut [u8]) -> usize
    requires { 313344 ≤ length out.old }
    ensures { Printed (shown bytes.now) out.old out.new result }
{
    let mut time = [0u32; meaning::NodeTable::STORED];
    let mut birth = [0u32; meaning::NodeTable::STORED];
    let mut population = [0u16; meaning::NodeTable::STORED];
    let mut left = [0u32; meaning::EdgeTable::STORED];
    let mut right = [0u32; meaning::EdgeTable::STORED];
    let mut parent = [0u32; meaning::EdgeTable::STORED];
    let mut child = [0u32; meaning::EdgeTable::STORED];
    let mut position = [0u32; meaning::SiteTable::STORED];
    let mut ancestral = [0u8; meaning::SiteTable::STORED];
    let mut site = [0u32; meaning::MutationTable::STORED];
    let mut node = [0u32; meaning::MutationTable::STORED];
    let mut derived = [0u8; meaning::MutationTable::STORED];
    let mut samples = [0u32; meaning::SampleTable::STORED];
    let answer = stored::read(
        bytes,
        &mut time,
        &mut birth,
        &mut population,
        &mut left,
        &mut right,
        &mut parent,
        &mut child,
        &mut position,
        &mut ancestral,
        &mut site,
        &mut node,
        &mut derived,
        &mut samples,
    );
    match answer {
        Ok(contents) => {
            let lent = Lent {
                time: &time,
                birth: &birth,
                population: &population,
                left: &left,
                right: &right,
                parent: &parent,
                child: &child,
                position: &position,
                ancestral: &ancestral,
                site: &site,
                node: &node,
                derived: &derived,
            };
            clean_rows(contents.len, lent, &samples, contents.rows, out)
        }
        Err(x) => refused(x, out),
    }
}

// What the program prints for its input: a longer one than 01 takes has a line of its own.
pub fn answer(bytes: &[u8], out: &mut [u8]) -> usize
    requires { 313344 ≤ length out.old }
    ensures { Printed (answered bytes.now) out.old out.new result }
{
    if 65536 < bytes.len() {
        return listing::too_long(out);
    }
    show(bytes, out)
}
