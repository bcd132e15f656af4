// Whether a row has a child, found by one pass over the rows of its edges, and kept up to where that can change.
ghost use Rattle.std.specs.Prelude.{◌≡◌, ◌<◌, length};
ghost use Rattle.meaning.specs.Columns.{edges_in};
ghost use Rattle.missing.specs.Alone.{child_row};
ghost use Rattle.carrying.specs.Spans.{Spans, InSpan};
ghost use Rattle.carrying.specs.Kids.{KidsKnown};
ghost use Rattle.carrying.specs.Children.{Sooner, ChildHolds};

use crate::spans::SpanColumns;
use meaning::columns::EdgeColumns;

// The answers kept: whether each row has a child, and up to where it is so. A byte of 1 is a yes, since working memory is fixed.
#[derive(Drop)]
pub struct Kids<'a> {
    pub has: &'a mut [u8],
    pub until: &'a mut [u32],
    pub ghost even: { length until.now ≡ length has.now },
}

// Whether a row has a child, and how far that holds.
#[derive(Drop)]
struct Below {
    has: bool,
    end: u32,
}

// An end that is not past the begin of edge row e, where that edge of u begins after x.
fn sooner(edges: EdgeColumns, x: u32, u: u32, e: usize, end: u32) -> u32
    requires { e < length edges.left.now }
    ensures { Sooner edges.entry.left.now edges.entry.parent.now x u e end result }
{
    if edges.parent[e] != u {
        return end;
    }
    let begin = edges.left[e];
    if begin <= x {
        return end;
    }
    end.min(begin)
}

// Whether row u, whose edges lie from one edge row to before another, has a child at x: an edge that holds there tells it up to its own
// end, and else there is none before the next edge begins.
fn child_from(len: u32, edges: EdgeColumns, from: u32, to: u32, x: u32, u: u32) -> Below
    requires { InSpan edges.parent.now u from to }
    ensures { ChildHolds edges.entry.left.now edges.entry.right.now edges.entry.parent.now x u result.has result.end }
{
    let mut end = len;
    for e in from as usize..to as usize {
        if missing::is_under(edges.left, edges.right, edges.parent, x, u, e) {
            return Below {
                has: true,
                end: edges.right[e],
            };
        }
        end = sooner(edges, x, u, e, end);
    }
    Below { has: false, end }
}

impl Kids<'_> {
    ghost use Rattle.carrying.specs.Same.{SameKids};

    // Whether row u has a child at x: the answer kept while it holds, and else a new one.
    pub fn child(
        &mut self,
        len: u32,
        edges: EdgeColumns,
        spans: SpanColumns,
        x: u32,
        u: u32,
    ) -> bool
        requires { Spans edges.parent.now spans.first.now spans.past.now ×
            (u < length spans.first.now) ×
            (u < length spans.past.now) ×
            (u < length self.old.has.now) ×
            KidsKnown (edges_in edges) x self.old.has.now self.old.until.now }
        ensures answer { result ≡ child_row edges.entry.left.now edges.entry.right.now edges.entry.parent.now x u }
        ensures known { KidsKnown (edges_in edges.entry) x self.new.has.now self.new.until.now }
        ensures same { SameKids self.old self.new }
        ensures long { length self.new.has.now ≡ length self.old.has.now }
    {
        let i = u as usize;
        if x < self.until[i] {
            return self.has[i] == 1;
        }
        let b = child_from(len, edges, spans.first[i], spans.past[i], x, u);
        self.has[i] = b.has as u8;
        self.until[i] = b.end;
        b.has
    }
}
