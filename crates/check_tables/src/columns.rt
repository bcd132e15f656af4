// All columns of the five input tables in two blocks: one of words, one of bytes for the states. Each column has one cell more than its
// table may have rows. The first cells of the words hold the columns' lengths, by their numbers, with L among them.
// The populations stand as words, and are put into cells of their own width before a call.
ghost use Rattle.std.specs.Prelude.{◌≤◌};

// The cells of one column of each table.
pub const NODES: usize = meaning::NodeTable::MOST + 1;

const EDGES: usize = meaning::EdgeTable::MOST + 1;

const SITES: usize = meaning::SiteTable::MOST + 1;

const MUTATIONS: usize = meaning::MutationTable::MOST + 1;

const SAMPLES: usize = meaning::SampleTable::MOST + 1;

// Where each column of words starts, and how many cells the block has.
const TIME: usize = 16;

const BIRTH: usize = TIME + NODES;

const LEFT: usize = BIRTH + NODES;

const RIGHT: usize = LEFT + EDGES;

const PARENT: usize = RIGHT + EDGES;

const CHILD: usize = PARENT + EDGES;

const POSITION: usize = CHILD + EDGES;

const SITE: usize = POSITION + SITES;

const NODE: usize = SITE + MUTATIONS;

const LISTED: usize = NODE + MUTATIONS;

const POPULATION: usize = LISTED + SAMPLES;

const WORDS: usize = POPULATION + NODES;

// Where the derived states start, and how many cells the block of states has.
const DERIVED: usize = SITES;

const STATES: usize = DERIVED + MUTATIONS;

// The head that holds L.
const LENGTH: u32 = 12;

// The columns in the order of their numbers; the heads are the lengths by those numbers, and L.
#[derive(Clone, Copy, Debug, PartialEq, Eq)]
pub enum Column {
    Time,
    Birth,
    Left,
    Right,
    Parent,
    Child,
    Position,
    Ancestral,
    Site,
    Node,
    Derived,
    Samples,
    Heads,
    Population,
}

impl Column {
    // The column of this number.
    pub fn numbered(n: u32) -> Option<Column> {
        Some(match n {
            0 => Column::Time,
            1 => Column::Birth,
            2 => Column::Left,
            3 => Column::Right,
            4 => Column::Parent,
            5 => Column::Child,
            6 => Column::Position,
            7 => Column::Ancestral,
            8 => Column::Site,
            9 => Column::Node,
            10 => Column::Derived,
            11 => Column::Samples,
            12 => Column::Heads,
            13 => Column::Population,
            _ => return None,
        })
    }

    // Where the column starts in its block.
    fn start(self) -> usize
        ensures { result ≤ 22299 }
    {
        match self {
            Column::Time => TIME,
            Column::Birth => BIRTH,
            Column::Left => LEFT,
            Column::Right => RIGHT,
            Column::Parent => PARENT,
            Column::Child => CHILD,
            Column::Position => POSITION,
            Column::Ancestral => 0,
            Column::Site => SITE,
            Column::Node => NODE,
            Column::Derived => DERIVED,
            Column::Samples => LISTED,
            Column::Heads => 0,
            Column::Population => POPULATION,
        }
    }

    // Whether the column holds states.
    fn holds_states(self) -> bool {
        matches!(self, Column::Ancestral | Column::Derived)
    }
}

// The two blocks.
#[derive(Drop)]
pub struct Columns {
    words: [u32; WORDS],
    states: [u8; STATES],
}

impl Columns {
    // All cells 0, and so no row in any column.
    pub fn new() -> Columns {
        Columns {
            words: [0; WORDS],
            states: [0; STATES],
        }
    }

    // What stands in row i of a column, 0 past its block.
    pub fn read(&self, column: Column, i: u32) -> u32 {
        let at = column.start() + i as usize;
        if column.holds_states() {
            self.states.get(at).map_or(0, |s| u32::from(*s))
        } else {
            cases::get(&self.words, at)
        }
    }

    // Puts a value into row i of a column, where its block has that row.
    pub fn put(&mut self, column: Column, i: u32, v: u32) {
        let at = column.start() + i as usize;
        if column.holds_states() {
            if at < STATES {
                self.states[at] = (v % 256) as u8;
            }
        } else if at < WORDS {
            self.words[at] = v;
        }
    }

    // Puts a value into row i of a column, and gives back what stood there.
    pub fn swap(&mut self, column: Column, i: u32, v: u32) -> u32 {
        let old = self.read(column, i);
        self.put(column, i, v);
        old
    }

    // Fills the first n rows of a column: start, and step more in each row, past the top from 0 on.
    pub fn fill(&mut self, column: Column, n: u32, start: u32, step: u32) {
        let mut v = start;
        for i in 0..n {
            self.put(column, i, v);
            v = v.wrapping_add(step);
        }
    }

    // Sets how many rows a column has.
    pub fn put_length(&mut self, column: Column, n: u32) {
        self.put(Column::Heads, column as u32, n);
    }

    // Sets L.
    pub fn put_chromosome(&mut self, n: u32) {
        self.put(Column::Heads, LENGTH, n);
    }

    // L.
    pub fn chromosome(&self) -> u32 {
        self.read(Column::Heads, LENGTH)
    }

    // How many rows a column has.
    fn length(&self, column: Column) -> u32 {
        self.read(Column::Heads, column as u32)
    }

    // The rows of a column of words; none where the block is too short.
    pub fn column(&self, column: Column) -> &[u32] {
        let a = column.start();
        self.words
            .get(a..a + self.length(column) as usize)
            .unwrap_or(&[])
    }

    // The rows of a column of states; none where the block is too short.
    pub fn column_states(&self, column: Column) -> &[u8] {
        let a = column.start();
        self.states
            .get(a..a + self.length(column) as usize)
            .unwrap_or(&[])
    }
}
