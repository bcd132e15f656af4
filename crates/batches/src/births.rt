// The nodes of base and batch by birth number: where a birth stands, its time, and rule 22.
ghost use Rattle.std.specs.Prelude.{◌≡◌, ◌≤◌, ◌+◌, ◌++◌, not, length};
ghost use Rattle.meaning.specs.Words.{at, or, mem, index_of, place_in, lowest_row};
ghost use Rattle.meaning.specs.Columns.{ages_in};
ghost use Rattle.meaning.specs.Answer.{limits};
ghost use Rattle.meaning.specs.Join.{batch_birth, time_in};
ghost use Rattle.order.specs.Ranks.{Ranked, Helps};
ghost use Rattle.batches.specs.Helping.{helps_once};

use meaning::columns::Ages;

// Nodes, and a column that helps to find a birth among them: their rows by birth.
#[derive(Clone, Copy)]
pub struct Nodes<'a> {
    pub ages: Ages<'a>,
    pub by_birth: &'a [u32],
    pub ghost helped: { Helps ages.birth.now by_birth.now } by { helps_once ages.birth.now by_birth.now },
}

impl Nodes<'_> {
    // The row of the birth b, where a node has it.
    pub fn row_of(self, b: u32) -> Option<usize>
        ensures { result ≡ place_in b self.entry.ages.birth.now }
    {
        order::ranks::row_of(self.ages.birth, self.by_birth, b)
    }

    // Whether a node has the birth b.
    pub fn have(self, b: u32) -> bool
        ensures { result ≡ mem b self.entry.ages.birth.now }
    {
        order::ranks::known(self.ages.birth, self.by_birth, b)
    }
}

// The nodes of a base and of a batch.
#[derive(Clone, Copy)]
pub struct Both<'a> {
    pub base: Nodes<'a>,
    pub batch: Nodes<'a>,
}

impl Both<'_> {
    // Whether no node has the birth b.
    pub fn lack(self, b: u32) -> bool
        ensures { result ≡ not (or (mem b self.entry.base.ages.birth.now) (mem b self.entry.batch.ages.birth.now)) }
    {
        if self.base.have(b) {
            return false;
        }
        !self.batch.have(b)
    }

    // The row of the birth b among the base's nodes with the batch's after them, of which there are no more than there may be.
    pub fn row_of(self, b: u32) -> u32
        requires { length self.base.ages.birth.now + length self.batch.ages.birth.now ≤ limits.nodes }
        ensures { result ≡ index_of b (self.entry.base.ages.birth.now ++ self.entry.batch.ages.birth.now) }
    {
        let before = self.base.ages.birth.len();
        if let Some(i) = self.base.row_of(b) {
            return i as u32;
        }
        if let Some(j) = self.batch.row_of(b) {
            return (before + j) as u32;
        }
        (before + self.batch.ages.birth.len()) as u32
    }

    // The time of the birth b; 0 where no node has it. It is asked twice for each edge of a batch: a call would pass both tables by value.
    #[inline(always)]
    pub fn time_of(self, b: u32) -> u32
        ensures { result ≡ time_in (ages_in self.entry.base.ages) (ages_in self.entry.batch.ages) b }
    {
        if let Some(i) = self.base.row_of(b) {
            return self.base.ages.time[i];
        }
        if let Some(j) = self.batch.row_of(b) {
            return self.batch.ages.time[j];
        }
        0
    }
}

// The lowest row of l whose number is in the base; idx helps to find it.
fn first_known(base: &[u32], idx: &[u32], l: &[u32]) -> Option<usize>
    requires { Helps base.now idx.now }
    ensures { result ≡ lowest_row (λ i. mem (at l.now i) base.now) (length l.now) }
{
    for i in 0..l.len() {
        if order::ranks::known(base, idx, l[i]) {
            return Some(i);
        }
    }
    None
}

// 22: the lowest row whose birth number is in the base or earlier in the batch; baseidx helps to find the base's, and idx is left with the batch's rows by birth, for later rules.
pub fn first_batch_birth(
    base: &[u32],
    baseidx: &[u32],
    birth: &[u32],
    idx: &mut [u32],
) -> Option<usize>
    requires { Helps base.now baseidx.now × (length idx.old ≡ length birth.now) × (length birth.now ≤ limits.nodes) }
    ensures { (result ≡ lowest_row (batch_birth base.now birth.now) (length birth.now)) × Ranked birth.now idx.new }
{
    let repeated = rules::columns::first_repeated(birth, idx);
    match first_known(base, baseidx, birth) {
        None => repeated,
        Some(known) => match repeated {
            None => Some(known),
            Some(again) => Some(known.min(again)),
        },
    }
}
