// Runs the histories of a script, read from standard input, over the index, and prints a line for each call.
// tools/reference/README.md has the script's language.
#![tactic(auto)]

mod calls;
mod sweep;

use rows::Graph;
use std::io;
use trial::batch;
use trial::memory::{self, Tables};
use trial::script::{Line, within};
use trial::sizes::Sizes;

// What a line does with the tables, the store, the name that its number stands for and the batch, as they are lent.
fn call(
    rt: &impl Print,
    line: &Line,
    tables: &mut Tables,
    store: &mut [u64],
    name: &[u8],
    batch: &[u16],
) -> io::Result<()> {
    let [_, a, b, c, _, _] = line.numbers;
    match line.command {
        b'o' => calls::open(rt, tables, store),
        b'K' => calls::keep(rt, tables, store, name),
        b'R' => calls::restore(rt, tables, store, name),
        b'D' => calls::drop(rt, tables, store, name),
        b'a' => calls::apply(rt, tables, batch, a, b),
        b'w' => sweep::walk(rt, tables, a, b),
        b'n' => calls::neighbours(rt, tables, a, b, c),
        b't' => calls::tied(rt, tables, a, b),
        b'g' => calls::group(rt, tables, a),
        b'q' => sweep::queries(rt, tables, a),
        b'd' => tables.show(rt, a, b),
        _ => Ok(()),
    }
}

// Lines that change the tables or the store behind the library's back.
fn poke(line: &Line, tables: &mut Tables, store: &mut [u64]) {
    let [_, a, b, _, _, _] = line.numbers;
    match line.command {
        b'f' => tables.flip(a, b),
        b'p' => tables.put_number(a, b),
        b'k' => tables.put_key(a, b),
        b'P' => memory::put_word(store, a, b),
        _ => {}
    }
}

// One line, after those that set sizes.
fn execute(
    rt: &impl Print,
    line: &Line,
    sizes: &mut Sizes,
    tables: &mut Tables,
    store: &mut [u64],
    batch: &mut [u16],
) -> io::Result<()> {
    let store = memory::front(store, sizes.store);
    let name = calls::name_of(line.numbers[1]);
    let end = within(sizes.name, name.len());
    let count = within(sizes.own, batch.len());
    call(rt, line, tables, store, &name[..end], &batch[..count])?;
    poke(line, tables, store);
    sizes.own = batch::execute(line, batch, count) as u64;
    Ok(())
}

// The tables and the store start filled with 7.
fn main(rt: HostRuntime) -> io::Result<()> {
    let mut script = [0u8; 65536];
    let n = stream::read_full(&mut rt.reader(), &mut script)?;
    let mut sizes = Sizes::default();
    let mut edges = [7u64; 4104];
    let mut nodes = [7u16; 513 * Graph::NODE_NUMBERS];
    let mut keys = [7u32; 1026];
    let mut store = [7u64; 36897];
    let mut batch = [0u16; 16400];
    for text in script[..n].split_inclusive(|b| *b == b'\n') {
        let line = Line::new(text);
        line.echo(&rt)?;
        sizes.execute(&line);
        let mut tables = Tables::new(&sizes, &mut edges, &mut nodes, &mut keys);
        execute(&rt, &line, &mut sizes, &mut tables, &mut store, &mut batch)?;
    }
    Ok(())
}
