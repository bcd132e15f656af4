// The two calls, each from a record into new columns and back into the record.
use crate::record;
use cases::front;
use meaning::Counts;
use meaning::columns::Lent;

const NODES: usize = meaning::NodeTable::MOST;

const EDGES: usize = meaning::EdgeTable::MOST;

const SITES: usize = meaning::SiteTable::MOST;

const MUTATIONS: usize = meaning::MutationTable::MOST;

// Joins the batch whose pairs start at this cell to the record; false where that is refused.
pub fn join(w: &[u32], bytes: &[u8], at: usize, rec: &mut [u32], states: &mut [u8]) -> bool {
    let mut time = [0u32; NODES];
    let mut birth = [0u32; NODES];
    let mut population = [0u16; NODES];
    let mut left = [0u32; EDGES];
    let mut right = [0u32; EDGES];
    let mut parent = [0u32; EDGES];
    let mut child = [0u32; EDGES];
    let mut position = [0u32; SITES];
    let mut ancestral = [0u8; SITES];
    let mut site = [0u32; MUTATIONS];
    let mut node = [0u32; MUTATIONS];
    let mut derived = [0u8; MUTATIONS];
    // The record is lent once for all its columns: each lending is a step to prove.
    let old: &[u32] = rec;
    let old_states: &[u8] = states;
    let mut base = [0u16; NODES];
    let mut young = [0u16; NODES];
    let first = cases::narrow(cases::column(old, 0, 11), &mut base);
    let more = cases::narrow(cases::column(w, at, 9), &mut young);
    let answer = joiner::join(
        cases::get(w, 0),
        cases::tables(old, old_states, 0, first),
        cases::batch(w, bytes, at, more),
        &mut time,
        &mut birth,
        &mut population,
        &mut left,
        &mut right,
        &mut parent,
        &mut child,
        &mut position,
        &mut ancestral,
        &mut site,
        &mut node,
        &mut derived,
        writing::within::BLOCK,
    );
    let Ok(
        Counts {
            nodes,
            edges,
            sites,
            mutations,
        },
    ) = answer
    else {
        return false;
    };
    let done = Lent {
        time: front(&time, nodes),
        birth: front(&birth, nodes),
        population: front(&population, nodes),
        left: front(&left, edges),
        right: front(&right, edges),
        parent: front(&parent, edges),
        child: front(&child, edges),
        position: front(&position, sites),
        ancestral: front(&ancestral, sites),
        site: front(&site, mutations),
        node: front(&node, mutations),
        derived: front(&derived, mutations),
    };
    record::keep(rec, states, done);
    record::put_stocks(rec, done.population);
    true
}

// Cleans the record for the list whose pair stands at this cell; false where that is refused.
pub fn clean(w: &[u32], at: usize, rec: &mut [u32], states: &mut [u8]) -> bool {
    let mut time = [0u32; NODES];
    let mut birth = [0u32; NODES];
    let mut population = [0u16; NODES];
    let mut left = [0u32; EDGES];
    let mut right = [0u32; EDGES];
    let mut parent = [0u32; EDGES];
    let mut child = [0u32; EDGES];
    let mut position = [0u32; SITES];
    let mut ancestral = [0u8; SITES];
    let mut site = [0u32; MUTATIONS];
    let mut node = [0u32; MUTATIONS];
    let mut derived = [0u8; MUTATIONS];
    let mut map = [0u32; NODES];
    // The record is lent once for all its columns: each lending is a step to prove.
    let old: &[u32] = rec;
    let old_states: &[u8] = states;
    let mut stocks = [0u16; NODES];
    let given = cases::narrow(cases::column(old, 0, 11), &mut stocks);
    let answer = cleaner::clean(
        cases::get(w, 0),
        cases::column(old, 0, 0),
        cases::column(old, 0, 1),
        given,
        cases::column(old, 0, 2),
        cases::column(old, 0, 3),
        cases::column(old, 0, 4),
        cases::column(old, 0, 5),
        cases::column(old, 0, 6),
        cases::states(old_states, old, 0, 7),
        cases::column(old, 0, 8),
        cases::column(old, 0, 9),
        cases::states(old_states, old, 0, 10),
        cases::column(w, at, 0),
        &mut time,
        &mut birth,
        &mut population,
        &mut left,
        &mut right,
        &mut parent,
        &mut child,
        &mut position,
        &mut ancestral,
        &mut site,
        &mut node,
        &mut derived,
        &mut map,
        writing::within::BLOCK,
    );
    let Ok(
        Counts {
            nodes,
            edges,
            sites,
            mutations,
        },
    ) = answer
    else {
        return false;
    };
    let done = Lent {
        time: front(&time, nodes),
        birth: front(&birth, nodes),
        population: front(&population, nodes),
        left: front(&left, edges),
        right: front(&right, edges),
        parent: front(&parent, edges),
        child: front(&child, edges),
        position: front(&position, sites),
        ancestral: front(&ancestral, sites),
        site: front(&site, mutations),
        node: front(&node, mutations),
        derived: front(&derived, mutations),
    };
    record::keep(rec, states, done);
    record::put_stocks(rec, done.population);
    true
}
