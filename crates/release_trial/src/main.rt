// Reads files of its folder as releases, releases them again and asks them, as a script on standard input says, and prints
// a line for each call. tools/reference/README.md has the script's language.
#![tactic(auto)]

mod calls;
mod files;
mod sweep;

use rows::Graph;
use std::io;
use std::rt::Files;
use trial::memory::{Tables, front};
use trial::script::{Line, small, within};
use trial::sizes::Sizes;

// Lines that change the file: how many bytes it has then.
fn change(
    rt: &(impl Files + Print),
    line: &Line,
    file: &mut [u8],
    length: usize,
) -> io::Result<usize> {
    let [_, a, b, _, _, _] = line.numbers;
    match line.command {
        b'f' => files::load(rt, line.text, file),
        b'c' => Ok(within(a, length)),
        b'a' => Ok(files::add(file, length, a)),
        b'b' => Ok(files::put(file, length, a, b)),
        _ => Ok(length),
    }
}

// Lines that need the file alone.
fn on_file(rt: &impl Print, line: &Line, file: &mut [u8]) -> io::Result<()> {
    let [_, a, b, c, _, _] = line.numbers;
    match line.command {
        b'n' => calls::neighbours(rt, file, a, b, c),
        b'q' => sweep::queries(rt, file, a),
        b'h' => calls::hops(rt, file, a, b),
        b'p' => sweep::pairs(rt, file, a),
        b'e' => sweep::ends(rt, file),
        b'd' => sweep::damage(rt, file, a, b),
        _ => Ok(()),
    }
}

// Lines that need the tables.
fn on_tables(rt: &impl Print, line: &Line, tables: &mut Tables, file: &[u8]) -> io::Result<()> {
    let [_, a, b, c, d, _] = line.numbers;
    match line.command {
        b'r' => calls::read(rt, tables, file),
        b'w' => calls::write(rt, tables, file, a),
        b'u' => tables.update(rt, &[small(a), small(b), small(c), small(d)]),
        b'm' => sweep::mix(rt, tables, a, b, c),
        _ => Ok(()),
    }
}

// One line, after those that set sizes.
fn execute(
    rt: &(impl Files + Print),
    line: &Line,
    sizes: &mut Sizes,
    tables: &mut Tables,
    file: &mut [u8],
) -> io::Result<()> {
    let length = within(sizes.own, file.len());
    sizes.own = change(rt, line, file, length)? as u64;
    let file = front(file, sizes.own);
    on_file(rt, line, file)?;
    on_tables(rt, line, tables, file)
}

// The tables start filled with 7.
fn main(rt: HostRuntime) -> io::Result<()> {
    let mut script = [0u8; 65536];
    let n = stream::read_full(&mut rt.reader(), &mut script)?;
    let mut sizes = Sizes::default();
    let mut edges = [7u64; 4104];
    let mut nodes = [7u16; 513 * Graph::NODE_NUMBERS];
    let mut keys = [7u32; 1026];
    let mut file = [0u8; 65536];
    for text in script[..n].split_inclusive(|b| *b == b'\n') {
        let line = Line::new(text);
        line.echo(&rt)?;
        sizes.execute(&line);
        let mut tables = Tables::new(&sizes, &mut edges, &mut nodes, &mut keys);
        execute(&rt, &line, &mut sizes, &mut tables, &mut file)?;
    }
    Ok(())
}
