// Rows with many bits: symmetry by strips, keys by those of twins or by sums over eight bits at a time.
ghost use Rattle.std.specs.Prelude.{◌≡◌, ◌*◌, ◌<◌, ◌≤◌, true, length};
ghost use Rattle.model.specs.Graph.{node_numbers};
ghost use Rattle.keys.specs.KeySums.{LeadersSummed, row_key, words_for};
ghost use Rattle.symmetry.specs.Symmetry.{symmetric};
ghost use Rattle.edges.specs.Edges.{loopless};
ghost use Rattle.checks.specs.Checks.{KeysBelow, rows_hold, twins_hold};

use groups::{LEAST, number};
use lent::Edges;
use rows::Graph;

// The open key of p: by the keys of its leader, which are right, or by the sums of those who lead.
fn open_key(edges: Edges, nodes: &[u16], keys: &[u32], sums: &[u32; Graph::NODES], p: usize) -> u32
    requires lens { (length nodes.now ≡ node_numbers * edges.n) × (length keys.now ≡ 2 * edges.n) × (p < edges.n) × LeadersSummed edges.n node_numbers nodes.now edges.words.now (words_for edges.n) sums.now }
    requires edges_value { (symmetric edges.words.now ≡ true) × (loopless edges.n edges.words.now ≡ true) × (twins_hold edges.n edges.words.now nodes.now ≡ true) × KeysBelow edges.n edges.words.now keys.now p }
    ensures { result ≡ row_key edges.entry.n edges.entry.words.now p }
{
    let l = number(nodes, p, LEAST);
    if l != p {
        return keys::twin_key(keys, edges.tied(l, p), l, p);
    }
    sums[p]
}

// Whether the keys of symmetric rows without loops are right.
fn keys_hold(edges: Edges, nodes: &[u16], keys: &[u32]) -> bool
    requires lens { (length nodes.now ≡ node_numbers * edges.n) × (length keys.now ≡ 2 * edges.n) }
    requires edges_value { (symmetric edges.words.now ≡ true) × (loopless edges.n edges.words.now ≡ true) × (twins_hold edges.n edges.words.now nodes.now ≡ true) }
    ensures { result ≡ rows_hold edges.entry.n edges.entry.words.now keys.now }
{
    let mut sums = [0u32; Graph::NODES];
    keys::sum_leaders(edges, nodes, Graph::NODE_NUMBERS, &mut sums);
    for p in 0..edges.n {
        if !super::keys_agree(keys, p, open_key(edges, nodes, keys, &sums, p)) {
            return false;
        }
    }
    true
}

// Whether edges and keys are those of a graph, where every node is a twin of its leader.
pub fn rows_hold(edges: Edges, nodes: &[u16], keys: &[u32]) -> bool
    requires { (length nodes.now ≡ node_numbers * edges.n) × (length keys.now ≡ 2 * edges.n) × (twins_hold edges.n edges.words.now nodes.now ≡ true) }
    ensures { result ≡ rows_hold edges.entry.n edges.entry.words.now keys.now }
{
    if !edges::hold_by_strips(edges) {
        return false;
    }
    keys_hold(edges, nodes, keys)
}
