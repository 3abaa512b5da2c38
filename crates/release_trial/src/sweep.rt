// Many calls for one line.
use crate::calls;
use answers::{Refusal, code};
use rows::Graph;
use std::io;
use trial::digest::{fold, fold_numbers};
use trial::draws;
use trial::memory::{Tables, batch_of, front};
use trial::script::{small, within};
use writer::Written;

// The neighbours of p, into a buffer.
fn fold_asked(h: u64, file: &[u8], p: u16, out: &mut [u16]) -> u64 {
    let r = release::file_neighbours(file, p, out);
    fold_numbers(fold_numbers(h, &[code(&r), r.unwrap_or(0)]), out)
}

// The neighbours of p, into a buffer of eight.
fn fold_eight(h: u64, file: &[u8], p: u16) -> u64 {
    fold_asked(h, file, p, &mut [4660u16; 8])
}

// And into one that is never too short.
fn fold_all(h: u64, file: &[u8], p: u16) -> u64 {
    fold_asked(h, file, p, &mut [4660u16; 1024])
}

// The distance of p and q.
fn fold_hops(h: u64, file: &[u8], p: u16, q: u16) -> u64 {
    let r = release::file_distance(file, p, q);
    fold_numbers(h, &[code(&r), r.unwrap_or(0)])
}

// The neighbours of p, into a buffer of eight, and its distance from node 0.
fn fold_asked_twice(h: u64, file: &[u8], p: u16) -> u64 {
    fold_hops(fold_eight(h, file, p), file, p, 0)
}

// The distances of p and each node below `limit`.
fn fold_from(h: u64, file: &[u8], p: u16, limit: u64) -> u64 {
    let mut d = h;
    for q in 0..limit {
        d = fold_hops(d, file, p, small(q));
    }
    d
}

// The distances of every two nodes below `limit`.
pub fn pairs(rt: &impl Print, file: &[u8], limit: u64) -> io::Result<()> {
    let mut d = 0;
    for p in 0..limit {
        d = fold_from(d, file, small(p), limit);
    }
    println!(rt; "pairs digest {d}")
}

// The neighbours of each node below `limit`.
pub fn queries(rt: &impl Print, file: &[u8], limit: u64) -> io::Result<()> {
    let mut d = 0;
    for p in 0..limit {
        d = fold_all(fold_eight(d, file, small(p)), file, small(p));
    }
    println!(rt; "queries digest {d}")
}

// How many files were read, and the digest of all that came back.
#[derive(Clone, Copy, Default)]
struct Tally {
    read: u64,
    digest: u64,
}

impl Tally {
    fn tell(self, rt: &impl Print, text: &str) -> io::Result<()> {
        println!(rt; "{text} read {} digest {}", self.read, self.digest)
    }

    // A file read into tables for six nodes, filled with 7, and asked for the neighbours of p and its distance from node 0.
    fn attempt(&mut self, file: &[u8], p: u16) {
        let mut edges = [7u64; 48];
        let mut nodes = [7u16; 6 * Graph::NODE_NUMBERS];
        let mut keys = [7u32; 12];
        let r = release::read(6, &mut edges, &mut nodes, &mut keys, file);
        let tables = Tables {
            n: 6,
            edges: &mut edges,
            nodes: &mut nodes,
            keys: &mut keys,
        };
        let d = tables.fold(fold(self.digest, u64::from(code(&r))));
        self.digest = fold_asked_twice(d, file, p);
        if r.is_ok() {
            self.read = self.read.wrapping_add(1);
        }
    }

    // The file with every byte at place i.
    fn attempt_place(&mut self, file: &mut [u8], i: usize) {
        let Some(old) = file.get(i).copied() else {
            return;
        };
        for x in 0..=255u8 {
            file[i] = x;
            self.attempt(file, u16::from(x % 8));
        }
        file[i] = old;
    }
}

// The file cut after each number of bytes.
pub fn ends(rt: &impl Print, file: &[u8]) -> io::Result<()> {
    let mut t = Tally::default();
    for k in 0..file.len() {
        t.attempt(&file[..k], (k % 8) as u16);
    }
    t.tell(rt, "ends")
}

// The file with every byte at each place from a up to b.
pub fn damage(rt: &impl Print, file: &mut [u8], a: u64, b: u64) -> io::Result<()> {
    let to = within(b, file.len());
    let mut t = Tally::default();
    for i in within(a, to)..to {
        t.attempt_place(file, i);
    }
    t.tell(rt, "damage")
}

fn fold_written(h: u64, r: &Result<Written, Refusal>) -> u64 {
    let sizes = r.unwrap_or_default();
    let d = fold_numbers(h, &[code(r), sizes.nodes, sizes.groups]);
    fold_numbers(d, &[sizes.superedges, sizes.bytes])
}

// The release, into a buffer of 512 bytes, asked for the neighbours of p and its distance from node 0.
fn fold_release(h: u64, tables: &Tables, p: u16) -> u64 {
    let mut out = [165u8; 512];
    let r = calls::released(tables, &mut out);
    let d = fold_numbers(fold_written(h, &r), &out);
    fold_asked_twice(
        d,
        front(&mut out, u64::from(r.unwrap_or_default().bytes)),
        p,
    )
}

// Updates drawn from a seed, of nodes below `span`, and the release after each.
pub fn mix(
    rt: &impl Print,
    tables: &mut Tables,
    seed: u64,
    times: u64,
    span: u64,
) -> io::Result<()> {
    let mut d = 0;
    let mut x = seed;
    for _ in 0..times {
        let u = draws::update(x, span);
        x = u.next;
        d = tables.fold_apply(d, &batch_of(&u));
        d = fold_release(d, tables, small(u.u));
    }
    println!(rt; "mix digest {d}")
}
