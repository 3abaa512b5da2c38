// Many calls for one line: a walk through all graphs, and every query of a graph.
use crate::calls;
use answers::code;
use std::io;
use trial::digest::{fold, fold_numbers};
use trial::memory::Tables;
use trial::script::small;

// The pair at place t of 0 1, 0 2, 1 2, 0 3, and so on: its lesser and its greater node.
fn pair_at(t: usize) -> (u16, u16) {
    let pairs = [
        (0u16, 1u16),
        (0, 2),
        (1, 2),
        (0, 3),
        (1, 3),
        (2, 3),
        (0, 4),
        (1, 4),
        (2, 4),
        (3, 4),
        (0, 5),
        (1, 5),
        (2, 5),
        (3, 5),
        (4, 5),
    ];
    pairs.get(t).copied().unwrap_or((0, 6))
}

// Step i of a walk: the pair at the place of i's lowest bit is toggled, in a batch of its own.
fn walk_step(tables: &mut Tables, i: u64, h: u64) -> u64 {
    let (u, v) = pair_at(rows::lowest(i));
    let e = tables.tied(u, v);
    let d = tables.fold_apply(h, &[1, u, v, u16::from(!e.unwrap_or(false))]);
    tables.fold(d)
}

// Steps a up to b: from step 1 of the empty graph on, every graph once.
pub fn walk(rt: &impl Print, tables: &mut Tables, a: u64, b: u64) -> io::Result<()> {
    let mut d = 0;
    for i in a..b {
        d = walk_step(tables, i, d);
    }
    println!(rt; "walk digest {d}")
}

fn fold_tied(h: u64, tables: &Tables, p: u16, q: u16) -> u64 {
    let e = tables.tied(p, q);
    fold(fold(h, u64::from(code(&e))), u64::from(e.unwrap_or(false)))
}

fn fold_group(h: u64, tables: &Tables, p: u16) -> u64 {
    let r = tables.group(p);
    let g = r.unwrap_or_default();
    fold_numbers(h, &[code(&r), g.least, u16::from(g.kind), g.size])
}

fn fold_neighbours(h: u64, tables: &Tables, p: u16) -> u64 {
    let mut out = [4660u16; 1024];
    let l = calls::listed(tables, p, &mut out);
    fold_numbers(fold_numbers(h, &[code(&l), l.unwrap_or(0)]), &out)
}

// The group and the neighbours of p, and whether it is tied to each node below `limit`.
fn fold_node(h: u64, tables: &Tables, p: u16, limit: u64) -> u64 {
    let mut d = fold_neighbours(fold_group(h, tables, p), tables, p);
    for q in 0..limit {
        d = fold_tied(d, tables, p, small(q));
    }
    d
}

// Every query of the nodes below `limit`.
pub fn queries(rt: &impl Print, tables: &Tables, limit: u64) -> io::Result<()> {
    let mut d = 0;
    for p in 0..limit {
        d = fold_node(d, tables, small(p), limit);
    }
    println!(rt; "queries digest {d}")
}
