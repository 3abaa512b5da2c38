// The tables of a graph: called, changed behind the index's back, and shown.
use crate::digest::{code_of, fold, fold_numbers, fold_words};
use crate::draws::Drawn;
use crate::say;
use crate::script::{small, within};
use crate::sizes::Sizes;
use answers::{Refusal, code};
use index::Grouped;
use rows::Graph;
use std::io;

// The first k, or all where there are fewer.
pub fn front<T>(all: &mut [T], k: u64) -> &mut [T] {
    let end = within(k, all.len());
    &mut all[..end]
}

#[derive(Drop)]
pub struct Tables<'a> {
    pub n: usize,
    pub edges: &'a mut [u64],
    pub nodes: &'a mut [u16],
    pub keys: &'a mut [u32],
}

impl<'a> Tables<'a> {
    // The front of each table, of the length set.
    pub fn new(
        sizes: &Sizes,
        edges: &'a mut [u64],
        nodes: &'a mut [u16],
        keys: &'a mut [u32],
    ) -> Tables<'a> {
        Tables {
            n: within(sizes.n, 65536),
            edges: front(edges, sizes.edges),
            nodes: front(nodes, sizes.nodes),
            keys: front(keys, sizes.keys),
        }
    }

    // The three tables: edges, nodes, keys.
    pub fn fold(&self, h: u64) -> u64 {
        fold_numbers(
            fold_numbers(fold_words(h, self.edges), self.nodes),
            self.keys,
        )
    }

    // The digest of the tables, which ends a line.
    pub fn say(&self, rt: &impl Print) -> io::Result<()> {
        println!(rt; " tables {}", self.fold(0))
    }

    pub fn apply(&mut self, batch: &[u16], answers: &mut [i16]) -> u16 {
        code(&index::apply(self.n, self.edges, self.nodes, self.keys, batch, answers))
    }

    pub fn tied(&self, p: u16, q: u16) -> Result<bool, Refusal> {
        index::tied(self.n, self.edges, self.nodes, self.keys, p, q)
    }

    pub fn group(&self, p: u16) -> Result<Grouped, Refusal> {
        index::group(self.n, self.edges, self.nodes, self.keys, p)
    }

    // An update applied as a batch of its own, its result and its answer folded.
    pub fn fold_apply(&mut self, h: u64, batch: &[u16; 4]) -> u64 {
        let mut answers = [4660i16; 1];
        let r = self.apply(batch, &mut answers);
        fold(fold(h, u64::from(r)), code_of(answers[0]))
    }

    // An update applied as a batch of its own, and a line that says what came back.
    pub fn update(&mut self, rt: &impl Print, batch: &[u16; 4]) -> io::Result<()> {
        let mut answers = [4660i16; 1];
        let r = self.apply(batch, &mut answers);
        say::applied(rt, "update", r, &answers, 1)?;
        self.say(rt)
    }

    // Node q's bit in node p's row, the other way.
    pub fn flip(&mut self, p: u64, q: u64) {
        let q = within(q, 511);
        if let Some(word) = self.edges.get_mut(8 * within(p, 600) + rows::word_of(q)) {
            *word ^= rows::mask(q);
        }
    }

    // One number of the node table.
    pub fn put_number(&mut self, i: u64, x: u64) {
        if let Some(number) = self.nodes.get_mut(within(i, 3000)) {
            *number = small(x);
        }
    }

    // One key; the greatest where x is more.
    pub fn put_key(&mut self, i: u64, x: u64) {
        if let Some(key) = self.keys.get_mut(within(i, 3000)) {
            *key = u32::try_from(x).unwrap_or(u32::MAX);
        }
    }

    fn number_at(&self, i: usize) -> u16 {
        self.nodes.get(i).copied().unwrap_or(0)
    }

    fn key_at(&self, i: usize) -> u32 {
        self.keys.get(i).copied().unwrap_or(0)
    }

    // The five numbers and the two keys of a node.
    fn show_node(&self, rt: &impl Print, p: u64) -> io::Result<()> {
        let at = within(p, 600);
        print!(rt; "node {p} holds")?;
        for k in 0..Graph::NODE_NUMBERS {
            say::number(rt, u64::from(self.number_at(Graph::NODE_NUMBERS * at + k)))?;
        }
        println!(rt; " keys {} {}", self.key_at(2 * at), self.key_at(2 * at + 1))
    }

    // The nodes from a up to b.
    pub fn show(&self, rt: &impl Print, a: u64, b: u64) -> io::Result<()> {
        for p in a..b {
            self.show_node(rt, p)?;
        }
        Ok(())
    }
}

// One word of a store.
pub fn put_word(store: &mut [u64], i: u64, x: u64) {
    if let Some(word) = store.get_mut(within(i, store.len())) {
        *word = x;
    }
}

// The batch of one update.
pub fn batch_of(d: &Drawn) -> [u16; 4] {
    [small(d.kind), small(d.u), small(d.v), small(d.wanted)]
}
