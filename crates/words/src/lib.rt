// Working memory as one block of words: with n nodes and m edges, word k * n + u is row u of the nodes' column k, and word
// 16 * n + k * m + e is row e of the edges' column k. The laws of columns are in specs.

#![tactic(auto)]

ghost use Rattle.std.specs.Prelude.{◌≡◌, [], ◌∷◌, ℕ, ◌+◌, ◌-◌, ◌*◌, ◌<◌, ◌≤◌, length};
ghost use Rattle.meaning.specs.Words.{rows};
ghost use Rattle.words.specs.Columns.{column, Only, edge, Aside};

// The nodes' columns, by number, which an enum would not tell: three of them have no name.
#[derive(Drop)]
pub struct NodeColumn {
    pub number: usize,
}

impl NodeColumn {
    // The parent row of the open run, or none.
    pub const OPEN_PAR: usize = 0;

    // The parent at the position where the sweep is.
    pub const PAR: usize = 1;

    // How many live children.
    pub const COUNT: usize = 2;

    // The wrapping sum of the live children.
    pub const SUM: usize = 3;

    // The nearest standing row above.
    pub const UP: usize = 4;

    // Where the open run began.
    pub const OPEN_LEFT: usize = 5;

    // Above 0 at the samples.
    pub const SAMPLE: usize = 6;

    // The nearest standing row at or below.
    pub const LOW: usize = 8;

    // 1 at the parents of finished edges.
    pub const STOOD: usize = 11;

    // The rows whose row above was written since the last change.
    pub const TOUCHED: usize = 12;

    // Above 0 at the rows that are touched.
    pub const LISTED: usize = 13;

    // The mutations that move.
    pub const MOVER: usize = 14;

    // Where they go.
    pub const GOAL: usize = 15;

    // How many columns.
    pub const ALL: usize = 16;
}

// The edges' columns, by number, which an enum would not tell: one of them has two names.
#[derive(Drop)]
pub struct EdgeColumn {
    pub number: usize,
}

impl EdgeColumn {
    // The edge rows in the order of left.
    pub const BY_LEFT: usize = 0;

    // The edge rows in the order of right.
    pub const BY_RIGHT: usize = 1;

    // Before a sweep: a working column.
    pub const SPARE: usize = 2;

    // From a sweep on: the finished edges.
    pub const LEFT: usize = 2;

    pub const RIGHT: usize = 3;

    pub const PARENT: usize = 4;

    pub const CHILD: usize = 5;

    // How many columns.
    pub const ALL: usize = 6;
}

// Every row of the nodes' column k gets v. The five functions differ in the column and in what is written, and a closure for that asks more
// clauses than it spares.
pub fn fill(words: &mut [u32], n: usize, k: usize, v: u32)
    requires { (k < 16) × (16 * n ≤ length words.old) }
    ensures { (column k words.new n ≡ rows (λ u. v) n) × Only (k ∷ []) n words.old words.new }
{
    let a = k * n;
    for i in 0..n {
        words[a + i] = v;
    }
}

// Every row of the nodes' column k gets its own number.
pub fn number(words: &mut [u32], n: usize, k: usize)
    requires { (k < 16) × (16 * n ≤ length words.old) × (n ≤ 4294967295) }
    ensures { (column k words.new n ≡ rows (λ u. u) n) × Only (k ∷ []) n words.old words.new }
{
    let a = k * n;
    for i in 0..n {
        words[a + i] = i as u32;
    }
}

// Every row of the edges' column k gets v.
pub fn fill_edges(words: &mut [u32], n: usize, m: usize, k: usize, v: u32)
    requires { (k < 6) × (16 * n + 6 * m ≤ length words.old) }
    ensures { (edge k words.new n m ≡ rows (λ e. v) m) × Aside [] (k ∷ []) n m words.old words.new }
{
    let a = NodeColumn::ALL * n + k * m;
    for e in 0..m {
        words[a + e] = v;
    }
}

// Every row of the edges' column k gets its own number.
pub fn number_edges(words: &mut [u32], n: usize, m: usize, k: usize)
    requires { (k < 6) × (16 * n + 6 * m ≤ length words.old) × (m ≤ 4294967295) }
    ensures { (edge k words.new n m ≡ rows (λ e. e) m) × Aside [] (k ∷ []) n m words.old words.new }
{
    let a = NodeColumn::ALL * n + k * m;
    for e in 0..m {
        words[a + e] = e as u32;
    }
}

// Every row of the edges' column k gets its own number from the last one down.
pub fn number_edges_down(words: &mut [u32], n: usize, m: usize, k: usize)
    requires { (k < 6) × (16 * n + 6 * m ≤ length words.old) × (m ≤ 4294967295) }
    ensures { (edge k words.new n m ≡ rows (λ e. m - (e + 1)) m) × Aside [] (k ∷ []) n m words.old words.new }
{
    let a = NodeColumn::ALL * n + k * m;
    for e in 0..m {
        words[a + e] = (m - (e + 1)) as u32;
    }
}
