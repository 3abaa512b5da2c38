// The tables of a graph without edges.
#![tactic(auto)]

ghost use Rattle.std.specs.Prelude.{◌≡◌, ◌+◌, ◌*◌, ◌≤◌, ◌<◌, length};
ghost use Rattle.model.specs.Graph.{empty_graph, max_nodes, node_numbers};
ghost use Rattle.model.specs.Tables.{tables_of};
ghost use Rattle.rows.specs.Rows.{lent};
ghost use Rattle.tables.specs.Lent.{Sized};
ghost use Rattle.opening.specs.Open.{KeysFilled, NodePut, NodesFilled, ring_next, ring_prev};

use rows::Graph;

// The node after p in the ring of all nodes, and the one before it.
#[tactic(auto, unfolding(crate::specs::Open::ring_next))]
fn ring_next(n: usize, p: usize) -> u16
    requires { (n ≤ max_nodes) × (p < n) }
    ensures { result ≡ ring_next n p }
{
    if p + 1 < n {
        return (p + 1) as u16;
    }
    0
}

#[tactic(auto, unfolding(crate::specs::Open::ring_prev))]
fn ring_prev(n: usize, p: usize) -> u16
    requires { (n ≤ max_nodes) × (p < n) }
    ensures { result ≡ ring_prev n p }
{
    if p == 0 {
        return (n - 1) as u16;
    }
    (p - 1) as u16
}

// Node p's numbers: in the group of node 0, with its ring, visible, of class 0.
fn put_node(nodes: &mut [u16], p: usize, next: u16, prev: u16)
    requires { (p < max_nodes) × (node_numbers * p + node_numbers ≤ length nodes.old) }
    ensures { NodePut p next prev nodes.old nodes.new }
{
    let a = Graph::NODE_NUMBERS * p;
    // One by one: copied from an array, they take five times as long.
    nodes[a] = 0;
    nodes[a + 1] = next;
    nodes[a + 2] = prev;
    nodes[a + 3] = 0;
    nodes[a + 4] = 0;
}

// All nodes in one group, none hidden, every class 0.
fn fill_nodes(nodes: &mut [u16], n: usize)
    requires { (n ≤ max_nodes) × (length nodes.old ≡ node_numbers * n) }
    ensures { NodesFilled n n nodes.old nodes.new }
{
    for p in 0..n {
        put_node(nodes, p, ring_next(n, p), ring_prev(n, p));
    }
}

// The keys of empty neighbourhoods, and of closed ones that hold their own node alone.
fn fill_keys(keys: &mut [u32], n: usize)
    requires { (n ≤ max_nodes) × (length keys.old ≡ 2 * n) }
    ensures { KeysFilled n keys.old keys.new }
{
    for p in 0..n {
        let a = 2 * p;
        keys[a] = 0;
        keys[a + 1] = rows::cube_of(p);
    }
}

// The tables of a graph without edges.
pub fn fill(graph: Graph, edges: &mut [u64], nodes: &mut [u16], keys: &mut [u32])
    requires { Sized graph.n (lent edges.old nodes.old keys.old) }
    ensures { lent edges.new nodes.new keys.new ≡ tables_of (empty_graph graph.n) }
{
    let n = graph.n;
    edges.fill(0);
    fill_nodes(nodes, n);
    fill_keys(keys, n);
}
