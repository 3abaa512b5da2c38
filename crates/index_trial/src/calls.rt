// Each call of the index, and a line that says what came back.
use answers::{Refusal, code};
use std::io;
use trial::memory::{Tables, front};
use trial::say;
use trial::script::{small, small_byte};

pub fn open(rt: &impl Print, tables: &mut Tables, store: &mut [u64]) -> io::Result<()> {
    let r = index::open(tables.n, tables.edges, tables.nodes, tables.keys, store);
    say::stored(rt, "open", code(&r), tables, store)
}

// The bytes of the name that k stands for.
pub fn name_of(k: u64) -> [u8; 24] {
    let mut name = [small_byte(k / 10); 24];
    name[..8].fill(small_byte(k % 10));
    name
}

pub fn keep(rt: &impl Print, tables: &Tables, store: &mut [u64], name: &[u8]) -> io::Result<()> {
    let r = store::keep(
        tables.n,
        tables.edges,
        tables.nodes,
        tables.keys,
        store,
        name,
    );
    say::stored(rt, "keep", code(&r), tables, store)
}

pub fn restore(rt: &impl Print, tables: &mut Tables, store: &[u64], name: &[u8]) -> io::Result<()> {
    let r = store::restore(
        tables.n,
        tables.edges,
        tables.nodes,
        tables.keys,
        store,
        name,
    );
    say::stored(rt, "restore", code(&r), tables, store)
}

pub fn drop(rt: &impl Print, tables: &Tables, store: &mut [u64], name: &[u8]) -> io::Result<()> {
    let r = store::drop(tables.n, store, name);
    say::stored(rt, "drop", code(&r), tables, store)
}

// The batch, into a buffer of answers filled with 4660.
pub fn apply(
    rt: &impl Print,
    tables: &mut Tables,
    batch: &[u16],
    room: u64,
    shown: u64,
) -> io::Result<()> {
    let mut buffer = [4660i16; 4100];
    let answers = front(&mut buffer, room);
    let r = tables.apply(batch, answers);
    say::applied(rt, "apply", r, answers, shown)?;
    tables.say(rt)
}

pub fn listed(tables: &Tables, p: u16, out: &mut [u16]) -> Result<u16, Refusal> {
    index::neighbours(tables.n, tables.edges, tables.nodes, tables.keys, p, out)
}

// The neighbours of p, into a buffer filled with 4660.
pub fn neighbours(
    rt: &impl Print,
    tables: &Tables,
    p: u64,
    room: u64,
    shown: u64,
) -> io::Result<()> {
    let mut buffer = [4660u16; 1100];
    let out = front(&mut buffer, room);
    let r = listed(tables, small(p), out);
    say::listed(rt, code(&r), r.unwrap_or(0), out, shown)
}

pub fn tied(rt: &impl Print, tables: &Tables, p: u64, q: u64) -> io::Result<()> {
    let r = tables.tied(small(p), small(q));
    println!(rt; "tied {} {}", code(&r), say::yes_or_no(r.unwrap_or(false)))
}

pub fn group(rt: &impl Print, tables: &Tables, p: u64) -> io::Result<()> {
    let r = tables.group(small(p));
    let g = r.unwrap_or_default();
    println!(rt;
        "group {} least {} kind {} size {}",
        code(&r),
        g.least,
        u16::from(g.kind),
        g.size
    )
}
