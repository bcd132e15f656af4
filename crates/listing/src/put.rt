// Writing fields and lines on a page: lent bytes, with how many of them are written.
ghost use Rattle.std.specs.Prelude.{◌≡◌, [], ◌∷◌, ◌+◌, ◌<◌, ◌≤◌, length};
ghost use Rattle.meaning.specs.Printed.{decimal, numbers, lines, out_row};
ghost use Rattle.listing.specs.Written.{Wrote, spaced};

use meaning::MapTable;

// The lent bytes, and how many of them are written. Each writer goes on behind those, on the same bytes.
#[derive(Drop)]
pub struct Page<'a> {
    pub out: &'a mut [u8],
    pub len: usize,
}

impl<'a> Page<'a> {
    pub fn byte(&mut self, b: u8)
        requires { self.old.len + length (b ∷ []) ≤ length self.old.out.now }
        ensures wrote { Wrote self.old.len (b ∷ []) self.old.out.now self.new.out.now self.new.len }
        ensures same { self.new.out.ghost_name ≡ self.old.out.ghost_name }
    {
        self.out[self.len] = b;
        self.len += 1;
    }

    // A number in decimal digits, written by hand since nothing is known of the bytes that the library's printing writes. It calls itself
    // for all digits but the last; the number falls.
    pub fn number(&mut self, n: usize)
        requires { self.old.len + length (decimal n) ≤ length self.old.out.now }
        ensures wrote { Wrote self.old.len (decimal n) self.old.out.now self.new.out.now self.new.len }
        ensures same { self.new.out.ghost_name ≡ self.old.out.ghost_name }
    {
        if n < 10 {
            self.byte(b'0' + n as u8);
            return;
        }
        self.number(n / 10);
        self.byte(b'0' + (n % 10) as u8);
    }

    // A space and a number.
    pub fn field(&mut self, n: usize)
        requires { self.old.len + length (32 ∷ decimal n) ≤ length self.old.out.now }
        ensures wrote { Wrote self.old.len (32 ∷ decimal n) self.old.out.now self.new.out.now self.new.len }
        ensures same { self.new.out.ghost_name ≡ self.old.out.ghost_name }
    {
        self.byte(b' ');
        self.number(n);
    }

    // Each number after a space.
    fn fields(&mut self, ns: &[usize])
        requires { self.old.len + length (lines (spaced ns.now) (length ns.now)) ≤ length self.old.out.now }
        ensures wrote { Wrote self.old.len (lines (spaced ns.now) (length ns.now)) self.old.out.now self.new.out.now self.new.len }
        ensures same { self.new.out.ghost_name ≡ self.old.out.ghost_name }
    {
        for n in ns {
            self.field(*n);
        }
    }

    // A line of a letter and numbers.
    pub fn line(&mut self, letter: u8, ns: &[usize])
        requires { self.old.len + length (numbers letter ns.now) ≤ length self.old.out.now }
        ensures wrote { Wrote self.old.len (numbers letter ns.now) self.old.out.now self.new.out.now self.new.len }
        ensures same { self.new.out.ghost_name ≡ self.old.out.ghost_name }
    {
        self.byte(letter);
        self.fields(ns);
        self.byte(b'\n');
    }

    // The bytes of a word.
    pub fn word(&mut self, w: &[u8])
        requires { self.old.len + length w.now ≤ length self.old.out.now }
        ensures wrote { Wrote self.old.len w.now self.old.out.now self.new.out.now self.new.len }
        ensures same { self.new.out.ghost_name ≡ self.old.out.ghost_name }
    {
        let end = self.len + w.len();
        self.out[self.len..end].copy_from_slice(w);
        self.len = end;
    }

    // An output row, or `-` for none.
    pub fn out_row(&mut self, row: usize)
        requires { self.old.len + length (out_row row) ≤ length self.old.out.now }
        ensures wrote { Wrote self.old.len (out_row row) self.old.out.now self.new.out.now self.new.len }
        ensures same { self.new.out.ghost_name ≡ self.old.out.ghost_name }
    {
        if row == MapTable::NONE as usize {
            self.byte(b'-');
            return;
        }
        self.number(row);
    }
}
