// Each call, and a line that says what came back.
use answers::{Refusal, code};
use std::io;
use trial::digest::fold_numbers;
use trial::memory::{Tables, front};
use trial::say;
use trial::script::small;
use writer::Written;

pub fn read(rt: &impl Print, tables: &mut Tables, file: &[u8]) -> io::Result<()> {
    let r = release::read(tables.n, tables.edges, tables.nodes, tables.keys, file);
    print!(rt; "read {}", code(&r))?;
    tables.say(rt)
}

pub fn released(tables: &Tables, out: &mut [u8]) -> Result<Written, Refusal> {
    release::release(tables.n, tables.edges, tables.nodes, tables.keys, out)
}

// The release, into a buffer filled with 165.
pub fn write(rt: &impl Print, tables: &Tables, file: &[u8], room: u64) -> io::Result<()> {
    let mut buffer = [165u8; 65536];
    let out = front(&mut buffer, room);
    let r = released(tables, out);
    print!(rt; "write {}", code(&r))?;
    let sizes = r.unwrap_or_default();
    written(rt, sizes)?;
    compared(rt, file, out, sizes.bytes)
}

fn written(rt: &impl Print, sizes: Written) -> io::Result<()> {
    let Written {
        nodes,
        groups,
        superedges,
        bytes,
    } = sizes;
    print!(rt; " nodes {nodes} groups {groups} superedges {superedges} bytes {bytes}")
}

// Whether the file is the first `count` bytes of a buffer, and the buffer's digest.
fn compared(rt: &impl Print, file: &[u8], out: &[u8], count: u32) -> io::Result<()> {
    let same = file.len() == count as usize && out.starts_with(file);
    println!(rt;
        " same {} digest {}",
        say::yes_or_no(same),
        fold_numbers(0, out)
    )
}

// The neighbours of p, asked of the file, into a buffer filled with 4660.
pub fn neighbours(rt: &impl Print, file: &[u8], p: u64, room: u64, shown: u64) -> io::Result<()> {
    let mut buffer = [4660u16; 1100];
    let out = front(&mut buffer, room);
    let r = release::file_neighbours(file, small(p), out);
    say::listed(rt, code(&r), r.unwrap_or(0), out, shown)
}

// The distance of p and q, asked of the file.
pub fn hops(rt: &impl Print, file: &[u8], p: u64, q: u64) -> io::Result<()> {
    let r = release::file_distance(file, small(p), small(q));
    println!(rt; "hops {} distance {}", code(&r), r.unwrap_or(0))
}
