// The answers of the three calls, by 01's numbers.
use meaning::{Refusal, Told};
use std::fmt;

// A number and a row, and the state where an allele is read, or how many bytes of each block a panel says it has written.
#[derive(Clone, Copy, Debug, PartialEq, Eq)]
pub struct Answer {
    pub number: usize,
    pub row: usize,
    pub state: u32,
}

impl Answer {
    // Stands for the state of a fish that is missing: no byte.
    pub const MISSING: u32 = 256;

    // The answer of a call that was done.
    fn done(state: u32) -> Answer {
        Answer {
            number: 0,
            row: 0,
            state,
        }
    }
}

impl fmt::Display for Answer {
    fn fmt<W: fmt::Write>(&self, f: &mut fmt::Formatter<W>) -> fmt::Result {
        let number = self.number;
        let row = self.row;
        let state = self.state;
        write!(f, "{number} {row} {state}")
    }
}

impl From<Refusal> for Answer {
    fn from(x: Refusal) -> Answer {
        let t = Told::from(x);
        Answer {
            number: t.number as usize,
            row: t.row,
            state: 0,
        }
    }
}

// The check's.
impl From<Result<(), Refusal>> for Answer {
    fn from(r: Result<(), Refusal>) -> Answer {
        match r {
            Ok(()) => Answer::done(0),
            Err(x) => x.into(),
        }
    }
}

// The allele call's.
impl From<Result<Option<u8>, Refusal>> for Answer {
    fn from(r: Result<Option<u8>, Refusal>) -> Answer {
        match r {
            Ok(state) => Answer::done(state.map_or(Answer::MISSING, u32::from)),
            Err(x) => x.into(),
        }
    }
}

// The panel's.
impl From<Result<usize, Refusal>> for Answer {
    fn from(r: Result<usize, Refusal>) -> Answer {
        match r {
            Ok(n) => Answer::done((n % 4294967296) as u32),
            Err(x) => x.into(),
        }
    }
}
