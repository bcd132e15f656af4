// Prints how long the check and the allele call take at a quarter of the limits, at half of them and at the limits, on the worst
// shapes: a line of nodes, and all edges of one child, each with all mutations on one site, and a line with a mutation at each site.
//
// Run it with an argument: out/check_bench now. Without one it only says so, since times change from run to run.

#![tactic(auto)]

use check_tables::answer::Answer;
use check_tables::base;
use check_tables::base::Sizes;
use check_tables::columns::{Column, Columns};
use std::env::{Env, FillError};
use std::time::CpuClock;
use std::{fmt, io};

// How many calls are timed together, and the length of the first one's chromosome.
const CALLS: u32 = 10;

const LENGTH: u32 = 4096;

// The shapes.
#[derive(Clone, Copy, Debug, PartialEq, Eq)]
enum Shape {
    Line,
    OneChild,
    Spread,
}

impl fmt::Display for Shape {
    fn fmt<W: fmt::Write>(&self, f: &mut fmt::Formatter<W>) -> fmt::Result {
        match self {
            Shape::Line => write!(f, "a line of nodes"),
            Shape::OneChild => write!(f, "all edges of one child"),
            Shape::Spread => write!(f, "a line of nodes, a mutation at each site"),
        }
    }
}

// The processor time used, in microseconds, 0 where they are too many to tell.
fn ticks(rt: &impl CpuClock) -> io::Result<u64> {
    let used = rt.process_cpu_time()?;
    Ok(u64::try_from(used.as_micros()).unwrap_or(0))
}

// The microseconds of all calls, 0 where one was refused; each on a chromosome of another length, so that none can stand for another.
fn timed<F: Fn(&Columns) -> Answer>(
    rt: &impl CpuClock,
    tables: &mut Columns,
    call: F,
) -> io::Result<u64>
    requires { F.IsAlwaysCallable call }
{
    let before = ticks(rt)?;
    let mut refused = false;
    for length in LENGTH..LENGTH + CALLS {
        tables.put_chromosome(length);
        refused |= call(tables).number != 0;
    }
    if refused {
        return Ok(0);
    }
    Ok(ticks(rt)?.wrapping_sub(before))
}

// The sizes that go with so many nodes, in the proportion of the limits.
fn sizes(nodes: u32) -> Sizes {
    Sizes {
        nodes: nodes,
        edges: (nodes % 65536) * 4,
        sites: nodes / 2,
        mutations: nodes,
        samples: nodes / 4,
    }
}

// Leaves one mutation at each of n sites, at the foot of the line.
fn spread(tables: &mut Columns, n: u32) {
    for c in [Column::Site, Column::Node, Column::Derived] {
        tables.put_length(c, n);
    }
    tables.fill(Column::Site, n, 0, 1);
    tables.fill(Column::Node, n, 0, 0);
}

// Makes the tables of a shape.
fn prepare(tables: &mut Columns, shape: Shape, nodes: u32) {
    match shape {
        Shape::Line => tables.make(base::Shape::Line, sizes(nodes)),
        Shape::OneChild => tables.make(base::Shape::OneChild, sizes(nodes)),
        Shape::Spread => {
            tables.make(base::Shape::Line, sizes(nodes));
            spread(tables, nodes / 2);
        }
    }
}

// Prints the microseconds of one check and of one allele call on tables of so many nodes: of the allele of row 0 at the first site, up
// the whole line.
fn measure(
    rt: &(impl Print + CpuClock),
    tables: &mut Columns,
    shape: Shape,
    nodes: u32,
) -> io::Result<()> {
    prepare(tables, shape, nodes);
    let check = timed(rt, tables, |t| t.check())? / 10;
    let allele = timed(rt, tables, |t| t.allele(0, u32::MAX))? / 10;
    println!(rt; " {nodes} nodes: check {check} us, allele {allele} us")
}

fn run(rt: &(impl Print + CpuClock)) -> io::Result<()> {
    let mut tables = Columns::new();
    for shape in [Shape::Line, Shape::OneChild, Shape::Spread] {
        println!(rt; "{shape}")?;
        for nodes in [256, 512, 1024] {
            measure(rt, &mut tables, shape, nodes)?;
        }
    }
    Ok(())
}

fn main(rt: HostRuntime) -> io::Result<()> {
    if let Err(FillError::NotPresent) = rt.arg(1, &mut []) {
        return rt.write_all(b"give an argument to measure\n");
    }
    run(&rt)
}
