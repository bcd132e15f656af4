// 01's stored form, record by record: where the rows of each kind stand, columns filled from records, and records laid into
// lent bytes. What the bytes mean is in specs/.

#![tactic(auto)]

pub mod fill; // fill.rt: columns filled from the records
pub mod lay; // lay.rt: records laid into lent bytes
pub mod walk; // walk.rt: where the rows of each kind stand, or why not

use meaning::{EdgeTable, MutationTable, NodeTable, SampleTable, SiteTable};

// A kind of record: its mark, the bytes of a record with it, and the most rows of its table.
#[derive(Clone, Copy, Debug, PartialEq, Eq)]
pub struct Kind {
    pub mark: [u8; 2],
    pub size: usize,
    pub most: usize,
}

impl Kind {
    pub const SAMPLE: Kind = Kind {
        mark: *b"SA",
        size: 6,
        most: SampleTable::STORED,
    };

    pub const NODE: Kind = Kind {
        mark: *b"ND",
        size: 10,
        most: NodeTable::STORED,
    };

    pub const EDGE: Kind = Kind {
        mark: *b"ED",
        size: 14,
        most: EdgeTable::STORED,
    };

    pub const SITE: Kind = Kind {
        mark: *b"SI",
        size: 7,
        most: SiteTable::STORED,
    };

    pub const MUTATION: Kind = Kind {
        mark: *b"MU",
        size: 7,
        most: MutationTable::STORED,
    };
}

// The rows of one kind: where its records start, how many there are, and where they end.
#[derive(Clone, Copy, Debug, PartialEq, Eq)]
pub struct Stretch {
    pub start: usize,
    pub count: usize,
    pub end: usize,
}

// The rows of every kind.
#[derive(Clone, Copy, Debug, PartialEq, Eq)]
pub struct Layout {
    pub samples: Stretch,
    pub nodes: Stretch,
    pub edges: Stretch,
    pub sites: Stretch,
    pub mutations: Stretch,
}
