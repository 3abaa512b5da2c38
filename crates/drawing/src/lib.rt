// Bits put into the rows of an edge table.
#![tactic(auto)]

ghost use Rattle.std.specs.Prelude.{◌+◌, ◌*◌, ◌≤◌, ◌<◌, length};
ghost use Rattle.model.specs.Graph.{max_nodes, row_words};
ghost use Rattle.drawing.specs.Drawing.{Added, one_bit, pair_bits, row_to};

use rows::Graph;

// Node q's bit set in node p's row.
pub fn set_bit(edges: &mut [u64], p: usize, q: usize)
    requires { (p < max_nodes) × (q < max_nodes) × (row_words * p + row_words ≤ length edges.old) }
    ensures { Added (one_bit p q) edges.old edges.new }
{
    let i = rows::place(p, q);
    edges[i] |= rows::mask(q);
}

// Node p's bit set in node q's row, and q's in p's row too if both.
pub fn join(edges: &mut [u64], p: usize, q: usize, both: bool)
    requires { (p < max_nodes) × (q < max_nodes) × (row_words * p + row_words ≤ length edges.old) × (row_words * q + row_words ≤ length edges.old) }
    ensures { Added (pair_bits both p q) edges.old edges.new }
{
    set_bit(edges, q, p);
    if !both {
        return;
    }
    set_bit(edges, p, q);
}

// A whole set put into p's row.
pub fn draw_row(edges: &mut [u64], p: usize, set: &[u64])
    requires { (p < max_nodes) × (row_words * p + row_words ≤ length edges.old) × (row_words ≤ length set.now) }
    ensures { Added (row_to p set.now) edges.old edges.new }
{
    let a = Graph::ROW_WORDS * p;
    for w in 0..Graph::ROW_WORDS {
        edges[a + w] |= set[w];
    }
}
