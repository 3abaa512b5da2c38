// Updates drawn from a seed.
#[derive(Clone, Copy)]
pub struct Drawn {
    pub kind: u64,
    pub u: u64,
    pub v: u64,
    pub wanted: u64,
    pub next: u64,
}

// The next number of the generator, and a number below `below` drawn from it.
fn step(x: u64) -> u64 {
    ((x % 2147483648) * 1103515245 + 12345) % 2147483648
}

fn draw(x: u64, below: u64) -> u64 {
    (x / 65536).checked_rem(below).unwrap_or(0)
}

// A kind of update from a number below 10: 9 gives any number below 5.
fn kind_of(k: u64, any: u64) -> u64 {
    match k {
        0 | 1 | 2 | 3 | 4 => 1,
        5 | 6 => 2,
        7 | 8 => 3,
        _ => any % 5,
    }
}

// A wanted mark: one in three hides, so that most nodes stay visible.
fn mark_of(any: u64) -> u64 {
    u64::from(any % 3 == 0)
}

// What is wanted, from the same number: 9 gives any number below 4.
fn wanted_of(k: u64, any: u64) -> u64 {
    match k {
        0 | 1 | 2 => 1,
        3 | 4 | 6 | 7 | 8 => 0,
        5 => mark_of(any),
        _ => any / 4,
    }
}

// A class, mostly below 3, so that nodes share classes: now and then the greatest, or one that is none.
fn class_of(any: u64) -> u64 {
    match any {
        0 => 256,
        1 => 255,
        _ => any % 3,
    }
}

// v, but mostly 0.
fn seldom(any: u64, v: u64) -> u64 {
    if any == 0 { v } else { 0 }
}

// The third number of an update, from the same number: the second node of an edge, a class, else mostly 0.
fn second_of(k: u64, any: u64, v: u64) -> u64 {
    match k {
        0 | 1 | 2 | 3 | 4 => v,
        7 | 8 => class_of(any),
        _ => seldom(any, v),
    }
}

// An update of nodes below `span`, and the seed of the next.
pub fn update(seed: u64, span: u64) -> Drawn {
    let a = step(seed);
    let b = step(a);
    let c = step(b);
    let d = step(c);
    let k = draw(a, 10);
    let any = draw(d, 16);
    Drawn {
        kind: kind_of(k, any),
        u: draw(b, span),
        v: second_of(k, any, draw(c, span)),
        wanted: wanted_of(k, any),
        next: d,
    }
}
