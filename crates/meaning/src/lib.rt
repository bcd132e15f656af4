// The limits of 01's tables, each once, with the table it belongs to, and the answers of the calls.
// What they mean is in specs/.

#![tactic(auto)]

pub mod columns; // tables 1 to 4 as lent

ghost use Rattle.std.specs.Prelude.{◌≡◌};
ghost use Rattle.meaning.specs.Answer.{Limits, limits, longest, refusal_of, told_of};

// Table 1: time, birth number and population of each node.
#[derive(Drop)]
pub struct NodeTable {
    pub rows: usize,
}

impl NodeTable {
    pub const NUMBER: usize = 1;

    pub const MOST: usize = 1024;

    // As many rows may stand in a stored file and in a listing.
    pub const STORED: usize = 1024;
}

// Table 2: left, right, parent row and child row of each edge.
#[derive(Drop)]
pub struct EdgeTable {
    pub rows: usize,
}

impl EdgeTable {
    pub const NUMBER: usize = 2;

    pub const MOST: usize = 4096;

    // As many rows may stand in a stored file and in a listing.
    pub const STORED: usize = 4096;
}

// Table 3: position and ancestral state of each site.
#[derive(Drop)]
pub struct SiteTable {
    pub rows: usize,
}

impl SiteTable {
    pub const NUMBER: usize = 3;

    pub const MOST: usize = 512;

    // As many rows may stand in a stored file and in a listing.
    pub const STORED: usize = 512;
}

// Table 4: site row, node row and derived state of each mutation.
#[derive(Drop)]
pub struct MutationTable {
    pub rows: usize,
}

impl MutationTable {
    pub const NUMBER: usize = 4;

    pub const MOST: usize = 1024;

    // As many rows may stand in a stored file and in a listing.
    pub const STORED: usize = 1024;
}

// Table 5: the birth number of each sample.
#[derive(Drop)]
pub struct SampleTable {
    pub rows: usize,
}

impl SampleTable {
    pub const NUMBER: usize = 5;

    pub const MOST: usize = 256;

    // As many rows may stand in a stored file and in a listing.
    pub const STORED: usize = 256;
}

// Table 6: the output row of each input node row.
#[derive(Drop)]
pub struct MapTable {
    pub rows: usize,
}

impl MapTable {
    pub const NUMBER: usize = 6;

    pub const NONE: u32 = 4294967295;
}

// The stored bytes, which 13 calls table 7.
#[derive(Drop)]
pub struct Bytes {
    pub count: usize,
}

impl Bytes {
    pub const NUMBER: usize = 7;
}

// The chromosome, whose length L is 1 to LONGEST.
#[derive(Drop)]
pub struct Chromosome {
    pub len: u32,
}

impl Chromosome {
    pub const LONGEST: u32 = 1073741824;
}

// 01's refusals by name, each with its row; specs/Answer.antt has their numbers.
#[derive(Clone, Copy, Debug, PartialEq, Eq)]
pub enum Refusal {
    Ragged(usize),
    TooMany(usize),
    Length,
    BirthRepeated(usize),
    EdgeBroken(usize),
    EdgeOrder(usize),
    EdgeShared(usize),
    SiteBroken(usize),
    MutationBroken(usize),
    MutationAbove(usize),
    SampleUnknown(usize),
    SampleRepeated(usize),
    NoRoom(usize),
    BatchRagged(usize),
    BatchTooMany(usize),
    BatchBirth(usize),
    BatchEdge(usize),
    BatchShared(usize),
    BatchMutation(usize),
    BatchAbove(usize),
    MarkWrong(usize),
    BytesEnd(usize),
    BytesFollow(usize),
    RowsOver(usize),
    EdgeWide(usize),
    MutationWide(usize),
    Populated(usize),
    NoSite,
    NoBirth,
}

// The rows that a call has written in each of tables 1 to 4.
#[derive(Clone, Copy, Debug, PartialEq, Eq)]
pub struct Counts {
    pub nodes: usize,
    pub edges: usize,
    pub sites: usize,
    pub mutations: usize,
}

// A refusal as 01 tells it.
#[derive(Clone, Copy, Debug, PartialEq, Eq)]
pub struct Told {
    pub number: u32,
    pub row: usize,
}

// The number and the row of a refusal: the one place of the code that has them.
impl From<Refusal> for Told {
    ghost from_gives = { λ x t. told_of t ≡ refusal_of x };

    fn from(x: Refusal) -> Told {
        match x {
            Refusal::Ragged(row) => Told { number: 1, row },
            Refusal::TooMany(row) => Told { number: 2, row },
            Refusal::Length => Told { number: 3, row: 0 },
            Refusal::BirthRepeated(row) => Told { number: 4, row },
            Refusal::EdgeBroken(row) => Told { number: 5, row },
            Refusal::EdgeOrder(row) => Told { number: 6, row },
            Refusal::EdgeShared(row) => Told { number: 7, row },
            Refusal::SiteBroken(row) => Told { number: 8, row },
            Refusal::MutationBroken(row) => Told { number: 9, row },
            Refusal::MutationAbove(row) => Told { number: 10, row },
            Refusal::SampleUnknown(row) => Told { number: 11, row },
            Refusal::SampleRepeated(row) => Told { number: 12, row },
            Refusal::NoRoom(row) => Told { number: 13, row },
            Refusal::BatchRagged(row) => Told { number: 20, row },
            Refusal::BatchTooMany(row) => Told { number: 21, row },
            Refusal::BatchBirth(row) => Told { number: 22, row },
            Refusal::BatchEdge(row) => Told { number: 23, row },
            Refusal::BatchShared(row) => Told { number: 24, row },
            Refusal::BatchMutation(row) => Told { number: 25, row },
            Refusal::BatchAbove(row) => Told { number: 26, row },
            Refusal::MarkWrong(row) => Told { number: 31, row },
            Refusal::BytesEnd(row) => Told { number: 32, row },
            Refusal::BytesFollow(row) => Told { number: 33, row },
            Refusal::RowsOver(row) => Told { number: 34, row },
            Refusal::EdgeWide(row) => Told { number: 35, row },
            Refusal::MutationWide(row) => Told { number: 36, row },
            Refusal::Populated(row) => Told { number: 38, row },
            Refusal::NoSite => Told { number: 41, row: 0 },
            Refusal::NoBirth => Told { number: 42, row: 0 },
        }
    }
}

// The limits of the code are 01's.
pub fn most_nodes() -> usize
    ensures { result ≡ limits.nodes }
{
    NodeTable::MOST
}

pub fn most_edges() -> usize
    ensures { result ≡ limits.edges }
{
    EdgeTable::MOST
}

pub fn most_sites() -> usize
    ensures { result ≡ limits.sites }
{
    SiteTable::MOST
}

pub fn most_mutations() -> usize
    ensures { result ≡ limits.mutations }
{
    MutationTable::MOST
}

pub fn most_samples() -> usize
    ensures { result ≡ limits.samples }
{
    SampleTable::MOST
}

pub fn longest_chromosome() -> u32
    ensures { result ≡ longest }
{
    Chromosome::LONGEST
}
