// A graph held by its groups, unfolded: the row of one node, or the edges of all.
#![tactic(auto)]

ghost use Rattle.std.specs.Prelude.{◌≡◌, true, ◌||◌, eqb, ◌≤◌, ◌<◌, length};
ghost use Rattle.model.specs.Graph.{max_nodes, row_words};
ghost use Rattle.model.specs.Tables.{edge_bit};
ghost use Rattle.rows.specs.Rows.{no_node};
ghost use Rattle.compressed.specs.Compressed.{Compressed, placed};
ghost use Rattle.unfolding.specs.Unfolding.{FirstsFit, NeighbourRow, Spread, SpreadBut, SpreadWord, join_bit};

use compressed::CLIQUE;
use rows::Graph;

mod filling;

pub use filling::fill_edges;

// Whether a row of first members has that of a node; a node of no group has none.
fn has_first(row: &[u64], first: u16) -> bool
    requires { (length row.now ≡ row_words) × ((first ≡ no_node → ⊥) → first < max_nodes) }
    ensures { result ≡ join_bit row.now first }
{
    first != Graph::NONE && rows::edge(row, 0, rows::wide(first))
}

// The nodes of word w whose first members are in a row.
fn spread_word(least: &[u16], n: usize, row: &[u64], w: usize) -> u64
    requires { (w < row_words) × (n ≤ length least.now) × FirstsFit n least.now × (length row.now ≡ row_words) }
    ensures { SpreadWord w n least.now (edge_bit row.now 0) result }
{
    let mut bits = 0u64;
    for q in 64 * w..n.min(64 * w + 64) {
        bits |= (has_first(row, least[q]) as u64) << rows::bit_of(q);
    }
    bits
}

// The nodes whose first members are in a row.
fn spread(least: &[u16], n: usize, row: &[u64]) -> [u64; Graph::ROW_WORDS]
    requires { (n ≤ max_nodes) × (n ≤ length least.now) × FirstsFit n least.now × (length row.now ≡ row_words) }
    ensures { Spread n least.now (edge_bit row.now 0) result }
{
    let mut all = [0u64; Graph::ROW_WORDS];
    for (w, word) in all.iter_mut().enumerate() {
        *word = spread_word(least, n, row, w);
    }
    all
}

// The neighbours of p, of a clique that l leads: l's own bit brings in all members, of which p is taken out.
fn clique_row(least: &[u16], n: usize, row: &[u64], l: usize, p: usize) -> [u64; Graph::ROW_WORDS]
    requires { (n ≤ max_nodes) × (n ≤ length least.now) × FirstsFit n least.now × (length row.now ≡ row_words) × (l < max_nodes) × (p < max_nodes) }
    ensures { SpreadBut p n least.now (λ x. edge_bit row.now 0 x || eqb l x) result }
{
    let mut own = [0u64; Graph::ROW_WORDS];
    own.copy_from_slice(row);
    drawing::set_bit(&mut own, 0, l);
    let mut all = spread(least, n, &own);
    rows::flip_edge(&mut all, 0, p);
    all
}

// The neighbours of p as a row.
pub fn neighbour_row(
    least: &[u16],
    kinds: &[u16],
    joined: &[u64],
    n: usize,
    p: usize,
) -> [u64; Graph::ROW_WORDS]
    requires { Compressed n least.now kinds.now joined.now × (placed n least.now p ≡ true) }
    ensures { NeighbourRow n least.now kinds.now joined.now p result }
{
    let l = rows::wide(least[p]);
    let a = Graph::ROW_WORDS * l;
    let row = &joined[a..a + Graph::ROW_WORDS];
    if kinds[l] == CLIQUE {
        return clique_row(least, n, row, l, p);
    }
    spread(least, n, row)
}
