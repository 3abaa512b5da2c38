// The edges between visible nodes.
#![tactic(auto)]

ghost use Rattle.std.specs.Prelude.{◌≡◌, List, ℕ, ◌+◌, ◌*◌, ◌≤◌, ◌<◌, length};
ghost use Rattle.model.specs.Graph.{max_nodes, row_words};
ghost use Rattle.model.specs.Tables.{edges_of};
ghost use Rattle.model.specs.Release.{visible_part};
ghost use Rattle.layout.specs.Words.{Marking};
ghost use Rattle.masking.specs.Masking.{RowPut, cut_word, drawn, masked_word, shown};

use rows::Graph;

// Whether node q is visible.
pub fn is_visible(hidden: &[u16], q: usize) -> bool
    requires { q < length hidden.now }
    ensures { result ≡ shown hidden.now q }
{
    hidden[q] != 1
}

// The visible nodes as a set of bits.
fn visible_set(hidden: &[u16], n: usize) -> [u64; Graph::ROW_WORDS]
    requires { (n ≤ max_nodes) × (n ≤ length hidden.now) }
    ensures { Marking (shown hidden.now) result n }
{
    let mut set = [0u64; Graph::ROW_WORDS];
    for q in 0..n {
        if is_visible(hidden, q) {
            set[rows::word_of(q)] ^= rows::mask(q);
        }
    }
    set
}

// Row p, of which only the nodes of a set are kept.
fn mask_row(edges: &[u64], set: &[u64; Graph::ROW_WORDS], p: usize, masked: &mut [u64])
    requires { (p < max_nodes) × (row_words * p + row_words ≤ length edges.now) × (row_words * p + row_words ≤ length masked.old) }
    ensures { RowPut p row_words (cut_word edges.now set.now p) masked.old masked.new }
{
    let a = Graph::ROW_WORDS * p;
    for w in 0..Graph::ROW_WORDS {
        masked[a + w] = edges[a + w] & set[w];
    }
}

// A visible node keeps its edges to visible nodes, a hidden one none.
fn mask_node(
    edges: &[u64],
    hidden: &[u16],
    set: &[u64; Graph::ROW_WORDS],
    p: usize,
    masked: &mut [u64],
)
    requires { (p < max_nodes) × (p < length hidden.now) × (row_words * p + row_words ≤ length edges.now) × (row_words * p + row_words ≤ length masked.old) }
    ensures { RowPut p row_words (masked_word edges.now set.now hidden.now p) masked.old masked.new }
{
    if is_visible(hidden, p) {
        mask_row(edges, set, p, masked);
        return;
    }
    mask_row(edges, &[0u64; Graph::ROW_WORDS], p, masked);
}

// The edges between visible nodes.
pub fn mask_edges(edges: &[u64], hidden: &[u16], n: usize, masked: &mut [u64])
    requires { (n ≤ max_nodes) × (n ≤ length hidden.now) × (row_words * n ≤ length edges.now) × (length masked.old ≡ row_words * n) }
    ensures { (classes : List ℕ) → masked.new ≡ edges_of (visible_part (drawn n edges.now hidden.now classes)) }
{
    let set = visible_set(hidden, n);
    for p in 0..n {
        mask_node(edges, hidden, &set, p, masked);
    }
}
