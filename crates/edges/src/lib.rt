// The test that an edge table is that of a graph: symmetric, without loops, without a bit for a number n or above.
#![tactic(auto)]

ghost use Rattle.std.specs.Prelude.{◌≡◌, ◌&&◌, ◌*◌, ◌≤◌, ◌<◌, length};
ghost use Rattle.model.specs.Graph.{max_nodes, row_words};
ghost use Rattle.symmetry.specs.Symmetry.{symmetric};
ghost use Rattle.edges.specs.Edges.{edges_hold, loopless, mirrored, row_holds};

use bits::{Bits, WORD_BITS};
use lent::Edges;
use rows::Graph;

// Whether q is another node, with p's bit in its row.
pub fn is_mirrored(edges: Edges, p: usize, q: usize) -> bool
    requires { p < edges.n }
    ensures { result ≡ mirrored edges.entry.n edges.entry.words.now p q }
{
    if q >= edges.n {
        return false;
    }
    if q == p {
        return false;
    }
    edges.tied(q, p)
}

// Whether the bits of p's row are mirrored. The check of keys has a walk of its own, so that each is inlined in its one caller.
fn is_row_mirrored(edges: Edges, p: usize) -> bool
    requires { p < edges.n }
    ensures { result ≡ row_holds edges.entry.n edges.entry.words.now p }
{
    for w in 0..Graph::ROW_WORDS {
        // Judged together: with a return at each bit the walk takes up to two and a half times as long, from one place of its code to another.
        let mut held = true;
        for k in Bits::of(edges.word(p, w)) {
            held &= is_mirrored(edges, p, WORD_BITS * w + k);
        }
        if !held {
            return false;
        }
    }
    true
}

// Whether the table is that of a graph, bit by bit.
fn hold_by_walks(edges: Edges) -> bool
    ensures { result ≡ edges_hold edges.entry.n edges.entry.words.now }
{
    for p in 0..edges.n {
        if !is_row_mirrored(edges, p) {
            return false;
        }
    }
    true
}

// Whether no node has an edge to itself: the own bits, each moved to the lowest place, are united without a branch.
fn is_loopless(edges: Edges) -> bool
    ensures { result ≡ loopless edges.entry.n edges.entry.words.now }
{
    let mut loops = 0u64;
    for p in 0..edges.n {
        loops |= edges.word(p, rows::word_of(p)) >> rows::bit_of(p);
    }
    loops & 1 == 0
}

// And by strips: whether the table is symmetric and without loops.
pub fn hold_by_strips(edges: Edges) -> bool
    ensures { result ≡ (symmetric edges.entry.words.now && loopless edges.entry.n edges.entry.words.now) }
{
    if !symmetry::is_symmetric(edges) {
        return false;
    }
    is_loopless(edges)
}

// Whether the table is that of a graph of n nodes.
pub fn hold(edges: &[u64], n: usize) -> bool
    requires { (n ≤ max_nodes) × (length edges.now ≡ row_words * n) }
    ensures { result ≡ edges_hold n edges.now }
{
    let table = Edges { n, words: edges };
    if keys::is_dense(edges, n) {
        return hold_by_strips(table);
    }
    hold_by_walks(table)
}
