// How many cases of a group came out right, and what is printed.
use check_tables::answer::Answer;
use std::io;

// The line of the input, the group's title, and the counts.
#[derive(Clone, Copy, Debug)]
pub struct Tally<'a> {
    pub line: u32,
    title: &'a [u8],
    right: u32,
    cases: u32,
}

impl<'a> Tally<'a> {
    pub fn new() -> Tally<'a> {
        Tally {
            line: 0,
            title: &[],
            right: 0,
            cases: 0,
        }
    }

    // The next group, whose title stands on this line.
    pub fn begin(self, text: &'a [u8]) -> Tally<'a> {
        Tally {
            line: self.line,
            title: text.get(2..).unwrap_or(&[]),
            right: 0,
            cases: 0,
        }
    }
}

impl Tally<'_> {
    // Ends a group: its title, how many cases came out right, and how many there were.
    pub fn finish(&self, rt: &impl Print) -> io::Result<()> {
        if self.cases == 0 {
            return Ok(());
        }
        let right = self.right;
        let cases = self.cases;
        rt.write_all(self.title)?;
        println!(rt; ": {right} of {cases}")
    }

    // One more case.
    fn count(&mut self, right: bool) {
        self.cases = self.cases.wrapping_add(1);
        if right {
            self.right = self.right.wrapping_add(1);
        }
    }

    // Counts a case, and says so where the answer is another than the one that is due.
    pub fn judge(&mut self, rt: &impl Print, got: Answer, due: Answer) -> io::Result<()> {
        self.count(got == due);
        if got == due {
            return Ok(());
        }
        let line = self.line;
        println!(rt; "line {line} gave {got}")
    }

    // Counts a case of many cells, and says which is the first that is not as it is due, where there is one.
    pub fn judge_cells(&mut self, rt: &impl Print, wrong: Option<u32>) -> io::Result<()> {
        self.count(wrong.is_none());
        let line = self.line;
        match wrong {
            Some(cell) => println!(rt; "line {line} left another cell {cell}"),
            None => Ok(()),
        }
    }
}
