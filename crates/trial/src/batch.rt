// Updates put at the end of the batch.
use crate::draws;
use crate::script::{Line, small};

// The numbers that the batch has room for, and how many it has.
#[derive(Drop)]
struct Batch<'a> {
    numbers: &'a mut [u16],
    count: usize,
}

impl Batch<'_> {
    // One number, if there is room.
    fn push(&mut self, x: u64) {
        let i = self.count;
        if let Some(number) = self.numbers.get_mut(i) {
            *number = small(x);
            self.count = i + 1;
        }
    }

    fn push_update(&mut self, kind: u64, u: u64, v: u64, wanted: u64) {
        self.push(kind);
        self.push(u);
        self.push(v);
        self.push(wanted);
    }

    // The same update, so many times.
    fn push_many(&mut self, times: u64, kind: u64, u: u64, v: u64, wanted: u64) {
        for _ in 0..times {
            self.push_update(kind, u, v, wanted);
        }
    }

    // The edge of u and each greater node from a up to b.
    fn push_row(&mut self, wanted: u64, u: u64, a: u64, b: u64) {
        for v in a..b {
            if u < v {
                self.push_update(1, u, v, wanted);
            }
        }
    }

    // The edge of each pair, lesser node first, of one from a up to b and one from c up to d.
    fn push_block(&mut self, wanted: u64, a: u64, b: u64, c: u64, d: u64) {
        for u in a..b {
            self.push_row(wanted, u, c, d);
        }
    }

    // Updates drawn from a seed, of nodes below `span`.
    fn push_random(&mut self, seed: u64, times: u64, span: u64) {
        let mut x = seed;
        for _ in 0..times {
            let d = draws::update(x, span);
            x = d.next;
            self.push_update(d.kind, d.u, d.v, d.wanted);
        }
    }
}

// Lines that change the batch, and apply, which empties it: how many numbers it has then.
pub fn execute(line: &Line, numbers: &mut [u16], count: usize) -> usize {
    let mut batch = Batch { numbers, count };
    let [_, a, b, c, d, e] = line.numbers;
    match line.command {
        b'u' => batch.push_update(a, b, c, d),
        b'e' => batch.push(a),
        b'm' => batch.push_many(a, b, c, d, e),
        b'b' => batch.push_block(a, b, c, d, e),
        b'r' => batch.push_random(a, b, c),
        b'a' => batch.count = 0,
        _ => {}
    }
    batch.count
}
