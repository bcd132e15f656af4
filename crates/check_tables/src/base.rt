// Sound tables of any size up to the limits, on the worst shapes: a line of nodes, and one child of all edges.
use crate::columns::{Column, Columns};

// The chromosome of these tables; four edges of each pair of nodes lie side by side on it.
const LENGTH: u32 = 4096;

// How many rows each table has.
#[derive(Clone, Copy, Debug, PartialEq, Eq)]
pub struct Sizes {
    pub nodes: u32,
    pub edges: u32,
    pub sites: u32,
    pub mutations: u32,
    pub samples: u32,
}

// How the edges lie.
#[derive(Clone, Copy, Debug, PartialEq, Eq)]
pub enum Shape {
    Line,
    OneChild,
}

impl Columns {
    // Sets the lengths of all columns, and L.
    fn put_heads(&mut self, z: Sizes) {
        for c in [Column::Time, Column::Birth, Column::Population] {
            self.put_length(c, z.nodes);
        }
        for c in [Column::Left, Column::Right, Column::Parent, Column::Child] {
            self.put_length(c, z.edges);
        }
        for c in [Column::Position, Column::Ancestral] {
            self.put_length(c, z.sites);
        }
        for c in [Column::Site, Column::Node, Column::Derived] {
            self.put_length(c, z.mutations);
        }
        self.put_length(Column::Samples, z.samples);
        self.put_chromosome(LENGTH);
    }

    // Edge i of a line, where node p's parent is node p + 1, or of one child, where node 0 has another edge at each position: four edges
    // of each parent, of the last one what is left.
    fn put_edge(&mut self, shape: Shape, last: u32, i: u32) {
        let p = last.min(i / 4);
        let piece = (i - 4 * p) % 8;
        let (child, left, right) = match shape {
            Shape::Line if p < last => (p, piece * 1024, piece * 1024 + 1024),
            Shape::Line => (p, piece * 512, piece * 512 + 512),
            Shape::OneChild => (0, i, i.wrapping_add(1)),
        };
        self.put(Column::Child, i, child);
        self.put(Column::Parent, i, p.wrapping_add(1));
        self.put(Column::Left, i, left);
        self.put(Column::Right, i, right);
    }

    // The nodes, with times and births at both ends of u32: the oldest has the largest time, row 0 the largest birth number, row i the
    // birth number i - 1. The samples are the first nodes. The populations go up by 257 from 65535, and so over the top of u16.
    fn put_nodes(&mut self, n: u32, samples: u32) {
        self.fill(Column::Time, n, 0, 1);
        self.put(Column::Time, n.saturating_sub(1), u32::MAX);
        self.fill(Column::Birth, n, u32::MAX, 1);
        self.fill(Column::Population, n, 65535, 257);
        self.fill(Column::Samples, samples, u32::MAX, 1);
    }

    // The sites, eight positions apart.
    fn put_sites(&mut self, n: u32) {
        self.fill(Column::Position, n, 0, 8);
        self.fill(Column::Ancestral, n, 65, 1);
    }

    // The mutations, all on one site: the first on the oldest node, and so on down.
    fn put_mutations(&mut self, n: u32, site: u32, oldest: u32) {
        self.fill(Column::Site, n, site, 0);
        self.fill(Column::Node, n, oldest, u32::MAX);
        self.fill(Column::Derived, n, 0, 1);
    }

    // Sound tables of these sizes, the mutations on the last site, for at most four edges to a node and one mutation.
    pub fn make(&mut self, shape: Shape, z: Sizes) {
        self.put_heads(z);
        self.put_nodes(z.nodes, z.samples);
        for i in 0..z.edges {
            self.put_edge(shape, z.nodes.saturating_sub(2), i);
        }
        self.put_sites(z.sites);
        self.put_mutations(
            z.mutations,
            z.sites.saturating_sub(1),
            z.nodes.saturating_sub(1),
        );
    }
}
