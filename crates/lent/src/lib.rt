// An edge table that is lent, with the number of its nodes.
#![tactic(auto)]

ghost use Rattle.std.specs.Prelude.{◌≡◌, ◌+◌, ◌*◌, ◌≤◌, ◌<◌, length, slice_index};
ghost use Rattle.model.specs.Graph.{max_nodes, row_words};
ghost use Rattle.model.specs.Tables.{edge_bit};
ghost use Rattle.rows.specs.Rows.{Words};

use rows::Graph;

#[derive(Clone, Copy)]
pub struct Edges<'a> {
    pub n: usize,
    pub words: &'a [u64],
    ghost small: { n ≤ max_nodes },
    ghost rows: { length words.now ≡ row_words * n },
    ghost bits: { Words words.now },
}

impl<'a> Edges<'a> {
    // Word w of p's row.
    #[inline]
    pub fn word(self, p: usize, w: usize) -> u64
        requires { (p < self.n) × (w < row_words) }
        ensures { result ≡ slice_index self.entry.words.now (row_words * p + w) }
    {
        self.words[Graph::ROW_WORDS * p + w]
    }

    // Whether p's row has the bit for q.
    #[inline]
    pub fn tied(self, p: usize, q: usize) -> bool
        requires { (p < self.n) × (q < max_nodes) }
        ensures { result ≡ edge_bit self.entry.words.now p q }
    {
        rows::edge(self.words, p, q)
    }
}
