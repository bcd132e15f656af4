// What the lines of the input do: they build tables, or ask the calls on them.
use crate::line::Line;
use crate::tally::Tally;
use crate::{panels, wide};
use check_tables::answer::Answer;
use check_tables::base::{Shape, Sizes};
use check_tables::columns::{Column, Columns};
use std::io;

// M: sound tables of the sizes that follow, a line (0) or all edges of one child (1).
fn make(line: &Line, tables: &mut Columns) {
    let shape = if line.get(1) == 1 {
        Shape::OneChild
    } else {
        Shape::Line
    };
    let sizes = Sizes {
        nodes: line.get(2),
        edges: line.get(3),
        sites: line.get(4),
        mutations: line.get(5),
        samples: line.get(6),
    };
    tables.make(shape, sizes);
}

// Puts a value into row i of the column of this number, where there is one.
fn put(tables: &mut Columns, number: u32, i: u32, v: u32) {
    if let Some(column) = Column::numbered(number) {
        tables.put(column, i, v);
    }
}

// R: all rows of a column, and how many there are.
fn put_column(line: &Line, tables: &mut Columns) {
    if line.count == 0 {
        return;
    }
    let rows = line.count - 1;
    for i in 0..rows {
        put(tables, line.get(1), i, line.get(i as usize + 2));
    }
    tables.put(Column::Heads, line.get(1), rows);
}

// The answer that is due.
fn due(number: u32, row: u32, state: u32) -> Answer {
    Answer {
        number: number as usize,
        row: row as usize,
        state,
    }
}

// Makes the line's edits from number k on, asks, and takes the edits back.
fn edited<R: Print, F: FnOnce(&R, &Line, &Columns, &mut Tally) -> io::Result<()>>(
    rt: &R,
    line: &mut Line,
    k: u32,
    tables: &mut Columns,
    tally: &mut Tally,
    ask: F,
) -> io::Result<()>
    requires { F.IsAlwaysCallable ask }
{
    line.edit(k, tables);
    let asked = ask(rt, line, tables, tally);
    line.mend(k, tables);
    asked
}

// C: the check, due to give this number and row.
fn check(rt: &impl Print, line: &Line, tables: &Columns, tally: &mut Tally) -> io::Result<()> {
    tally.judge(rt, tables.check(), due(line.get(1), line.get(2), 0))
}

// B: the check, and the allele call, which is due to give the same refusal.
fn both(rt: &impl Print, line: &Line, tables: &Columns, tally: &mut Tally) -> io::Result<()> {
    check(rt, line, tables, tally)?;
    tally.judge(rt, tables.allele(0, 0), due(line.get(1), line.get(2), 0))
}

// A: the allele call at a site row for a birth number, due to give this number, row and state.
fn allele(rt: &impl Print, line: &Line, tables: &Columns, tally: &mut Tally) -> io::Result<()> {
    let got = tables.allele(line.get(1), line.get(2));
    tally.judge(rt, got, due(line.get(3), line.get(4), line.get(5)))
}

// Does what a line says; another letter says nothing.
pub fn obey<R: Print>(
    rt: &R,
    line: &mut Line,
    tables: &mut Columns,
    tally: &mut Tally,
) -> io::Result<()> {
    match line.letter {
        Some(b'M') => make(line, tables),
        Some(b'R') => put_column(line, tables),
        Some(b'S') => put(tables, line.get(1), line.get(2), line.get(3)),
        Some(b'A') => edited(rt, line, 6, tables, tally, |r, l, w, t| allele(r, l, w, t))?,
        Some(b'B') => edited(rt, line, 3, tables, tally, |r, l, w, t| both(r, l, w, t))?,
        Some(b'C') => edited(rt, line, 3, tables, tally, |r, l, w, t| check(r, l, w, t))?,
        Some(b'P') => {
            let k = panels::edits_start(line);
            edited(
                rt,
                line,
                k,
                tables,
                tally,
                |r, l, w, t| panels::ask(r, l, w, t),
            )?;
        }
        Some(b'W') => wide::ask(rt, line, tables, tally)?,
        _ => {}
    }
    Ok(())
}
