// Answers of the lookup, kept for each row up to the end that came with them: a row is looked up again only where its parent changes.
ghost use Rattle.std.specs.Prelude.{◌≡◌, ◌<◌, length};
ghost use Rattle.meaning.specs.Columns.{edges_in};
ghost use Rattle.bridge.specs.Parents.{code, parent_row};
ghost use Rattle.overtaking.specs.Known.{Known};

use ancestry::edge_index::EdgeIndex;

// The answers kept: the parent of each row, and up to where it is so.
#[derive(Drop)]
pub struct Kept<'a> {
    pub par: &'a mut [u32],
    pub until: &'a mut [u32],
    pub ghost even: { length until.now ≡ length par.now },
}

impl Kept<'_> {
    ghost use Rattle.overtaking.specs.Same.{SameKept};

    // The parent row of row u at x, or none: the answer kept while it holds, and else a new one.
    pub fn parent(&mut self, index: EdgeIndex, x: u32, u: u32) -> u32
        requires { (u < length index.ends.now) ×
            (u < length self.old.par.now) ×
            Known (edges_in index.edges) x self.old.par.now self.old.until.now }
        ensures answer { result ≡ code (parent_row (edges_in index.entry.edges) x u) }
        ensures known { Known (edges_in index.entry.edges) x self.new.par.now self.new.until.now }
        ensures same { SameKept self.old self.new }
        ensures long { length self.new.par.now ≡ length self.old.par.now }
    {
        let i = u as usize;
        if x < self.until[i] {
            return self.par[i];
        }
        let s = ancestry::lookup::parent_from(index, x, u);
        self.par[i] = s.parent;
        self.until[i] = s.end;
        s.parent
    }
}
