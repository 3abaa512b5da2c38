// The edges, marks and classes of a graph copied into words, and tables made from such words.
#![tactic(auto)]

ghost use Rattle.std.specs.Prelude.{◌≡◌, List, ◌++◌, ℕ, ◌*◌, ◌/◌, ◌%◌, ◌≤◌, ◌<◌, get_or, length};
ghost use Rattle.model.specs.Graph.{max_nodes, node_numbers, row_words};
ghost use Rattle.model.specs.Tables.{edges_of, graph_of, tables_of};
ghost use Rattle.model.specs.Store.{node_words, state_graph};
ghost use Rattle.buffers.specs.Filled.{Filled};
ghost use Rattle.rows.specs.Rows.{lent};
ghost use Rattle.rings.specs.Steps.{LabelsPut};
ghost use Rattle.tables.specs.Lent.{Held, Sized};
ghost use Rattle.states.specs.States.{State, WordsFit, word_in};

use rows::Graph;

// The word of a node is below this: a mark and twice a class.
pub const WORD_LIMIT: u64 = 512;

// The mark and twice the class of each node, in one word.
fn save_words(nodes: &[u16], to: &mut [u64])
    requires { (length to.old ≤ max_nodes) × (length nodes.now ≡ node_numbers * length to.old) }
    ensures { Filled (word_in nodes.now) (length to.old) to.old to.new }
{
    for (p, word) in to.iter_mut().enumerate() {
        let a = Graph::NODE_NUMBERS * p;
        *word = nodes[a + groups::MARK] as u64 + 2 * nodes[a + groups::CLASS] as u64;
    }
}

// The edges and then the words of the nodes of the graph that tables hold: the keys are not asked for, since these determine them.
pub fn save(n: usize, edges: &[u64], nodes: &[u16], to: &mut [u64])
    requires { (n ≤ max_nodes) × (length edges.now ≡ row_words * n) × (length nodes.now ≡ node_numbers * n) × (length to.old ≡ 9 * n) }
    ensures { (keys : List ℕ) → Held n (lent edges.now nodes.now keys) → to.new ≡ edges_of (graph_of n (lent edges.now nodes.now keys)) ++ node_words (graph_of n (lent edges.now nodes.now keys)) }
{
    let end = Graph::ROW_WORDS * n;
    buffers::copy_words(edges, &mut to[..end]);
    save_words(nodes, &mut to[end..]);
}

// Marks and classes put into a node table.
fn put_labels(words: &[u64], nodes: &mut [u16])
    requires { (length words.now ≤ max_nodes) × (length nodes.old ≡ node_numbers * length words.now) × WordsFit words.now }
    ensures { LabelsPut (λ p. get_or words.now p 0 % 2) (λ p. get_or words.now p 0 / 2) (length words.now) nodes.old nodes.new }
{
    for (p, word) in words.iter().enumerate() {
        let a = Graph::NODE_NUMBERS * p;
        nodes[a + groups::MARK] = (*word % 2) as u16;
        nodes[a + groups::CLASS] = (*word / 2) as u16;
    }
}

// And the classes put into a list of their own.
fn list_classes(words: &[u64], classes: &mut [u16])
    requires { (length words.now ≤ length classes.old) × WordsFit words.now }
    ensures { Filled (λ p. get_or words.now p 0 / 2) (length words.now) classes.old classes.new }
{
    for (p, word) in words.iter().enumerate() {
        classes[p] = (*word / 2) as u16;
    }
}

// The tables of the graph whose edges and words are given.
pub fn restore(
    n: usize,
    from: &[u64],
    words: &[u64],
    edges: &mut [u64],
    nodes: &mut [u16],
    keys: &mut [u32],
)
    requires { Sized n (lent edges.old nodes.old keys.old) × State n from.now words.now }
    ensures { lent edges.new nodes.new keys.new ≡ tables_of (state_graph n from.now words.now) }
{
    // A graph of nobody has empty tables, and no list is cleared for it.
    if n == 0 {
        return;
    }
    buffers::copy_words(from, edges);
    put_labels(words, nodes);
    keys::sum_rows(edges, keys, n);
    let mut classes = [0u16; Graph::NODES];
    list_classes(words, &mut classes);
    let mut least = [0u16; Graph::NODES];
    grouping::keyed::find_groups(edges, keys, &classes, n, &mut least);
    groups::build(nodes, &least, n);
}
