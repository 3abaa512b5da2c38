// Words and numbers on standard output.
use crate::digest::{code_of, fold_answers, fold_numbers, fold_words};
use crate::memory::Tables;
use crate::script::within;
use std::io;

// A space and a number.
pub fn number(rt: &impl Print, x: u64) -> io::Result<()> {
    print!(rt; " {x}")
}

pub fn yes_or_no(yes: bool) -> &'static str {
    if yes { "yes" } else { "no" }
}

// What a call on tables and a store returned, and their digests.
pub fn stored(
    rt: &impl Print,
    text: &str,
    res: u16,
    tables: &Tables,
    store: &[u64],
) -> io::Result<()> {
    let held = tables.fold(0);
    let kept = fold_words(0, store);
    println!(rt; "{text} {res} tables {held} store {kept}")
}

// An answer, by its code where it is neither -1 nor -2.
fn answer(rt: &impl Print, x: i16) -> io::Result<()> {
    match x {
        -2 | -1 => print!(rt; " {x}"),
        _ => number(rt, code_of(x)),
    }
}

// What a batch returned and left in its buffer, the first answers of it, at most `shown`.
pub fn applied(
    rt: &impl Print,
    text: &str,
    res: u16,
    buffer: &[i16],
    shown: u64,
) -> io::Result<()> {
    print!(rt; "{text} {res} answers")?;
    for x in &buffer[..within(shown, buffer.len())] {
        answer(rt, *x)?;
    }
    print!(rt; " digest {}", fold_answers(0, buffer))
}

// What a query for neighbours returned and left in its buffer, the first numbers of it, at most `shown`.
pub fn listed(rt: &impl Print, res: u16, count: u16, buffer: &[u16], shown: u64) -> io::Result<()> {
    print!(rt; "neighbours {res} count {count} buffer")?;
    for x in &buffer[..within(shown, buffer.len())] {
        number(rt, u64::from(*x))?;
    }
    println!(rt; " digest {}", fold_numbers(0, buffer))
}
