// The bytes of a printed listing, made from the columns of tables 1 to 4 and the node map. The columns lent are the rows to print.

#![tactic(auto)]

mod put;
mod rows;
mod tables;

ghost use Rattle.std.specs.Prelude.{◌≤◌, length};
ghost use Rattle.meaning.specs.Columns.{lent_in};
ghost use Rattle.meaning.specs.Printed.{listed, refused_line, too_long};
ghost use Rattle.listing.specs.Written.{Printed, Below, Narrow, room};

use meaning::columns::Lent;
use put::Page;

// The cells of a column fit its type: a fact for the room that a listing takes, by a function that does nothing, since of a column in
// a struct only its list is known.
fn words(column: &[u32])
    ensures { Below 4294967296 column.now }
{}

fn stocks(column: &[u16])
    ensures { Below 65536 column.now }
{}

fn states(column: &[u8])
    ensures { Below 256 column.now }
{}

fn narrow(lent: Lent)
    ensures { Narrow (lent_in lent.entry) }
{
    words(lent.time);
    words(lent.birth);
    stocks(lent.population);
    words(lent.left);
    words(lent.right);
    words(lent.parent);
    words(lent.child);
    words(lent.position);
    states(lent.ancestral);
    words(lent.site);
    words(lent.node);
    states(lent.derived);
}

// The listing, whole, at the front of out; the number of its bytes.
pub fn list(len: u32, lent: Lent, map: &[u32], out: &mut [u8]) -> usize
    requires { room (length lent.time.now) (length lent.left.now) (length lent.position.now) (length lent.site.now) (length map.now) ≤ length out.old }
    ensures { Printed (listed len (lent_in lent.entry) map.now) out.old out.new result }
{
    narrow(lent);
    let mut page = Page { out, len: 0 };
    page.line(b'Q', &[len as usize]);
    tables::nodes(&mut page, lent);
    tables::edges(&mut page, lent);
    tables::sites(&mut page, lent);
    tables::mutations(&mut page, lent);
    tables::mapping(&mut page, map);
    page.len
}

// The line that a refusal prints.
pub fn refused_line(number: u32, row: usize, out: &mut [u8]) -> usize
    requires { 40 ≤ length out.old }
    ensures { Printed (refused_line number row) out.old out.new result }
{
    let mut page = Page { out, len: 0 };
    page.word(b"refused");
    page.field(number as usize);
    page.field(row);
    page.byte(b'\n');
    page.len
}

// The line that a longer input prints.
pub fn too_long(out: &mut [u8]) -> usize
    requires { 9 ≤ length out.old }
    ensures { Printed too_long out.old out.new result }
{
    let mut page = Page { out, len: 0 };
    page.word(b"too long\n");
    page.len
}
