// Leaves over the edge table and the keys: one bit, one key, one row.
#![tactic(auto)]

ghost use Rattle.std.specs.Prelude.{◌≡◌, ◌+◌, ◌*◌, ◌/◌, ◌%◌, ◌^◌, ◌<◌, ◌≤◌, not, length, ◌≢◌};
ghost use Rattle.std.specs.Int.Count.{count_trailing_zeros};
ghost use Rattle.model.specs.Graph.{max_nodes, row_words};
ghost use Rattle.model.specs.Grouping.{cube};
ghost use Rattle.model.specs.Tables.{bit_at, edge_bit};
ghost use Rattle.model.specs.Refusals.{lengths, wrong_size};
ghost use Rattle.rows.specs.Rows.{Flipped, Changed, moved_key, KeysMoved, KeysChanged, lent};

// A graph by value: how many nodes it has. Its tables are lent.
#[derive(Clone, Copy)]
pub struct Graph {
    pub n: usize,
}

impl Graph {
    pub const NODES: usize = 512;

    pub const UPDATES: usize = 4096;

    pub const ROW_WORDS: usize = 8;

    pub const NODE_NUMBERS: usize = 5;

    // Where a node's class is among its numbers.
    pub const CLASS: usize = 4;

    pub const CLASSES: usize = 256;

    // Stands for no node.
    pub const NONE: u16 = 65535;

    // The numbers of an update, as a batch lends it.
    pub const UPDATE_NUMBERS: usize = 4;

    // A graph of n nodes without edges. Its tables are filled by whoever opens it.
    pub fn empty(n: usize) -> Self
        ensures { result.n ≡ n }
    {
        Self { n }
    }

    // Whether the lent tables have the lengths that this graph asks.
    pub fn fits(self, edges: &[u64], nodes: &[u16], keys: &[u32]) -> bool
        ensures { result ≡ not (wrong_size self.n (lengths (lent edges.now nodes.now keys.now))) }
    {
        let n = self.n;
        if n > Self::NODES {
            return false;
        }
        if edges.len() != Self::ROW_WORDS * n {
            return false;
        }
        if nodes.len() != Self::NODE_NUMBERS * n {
            return false;
        }
        keys.len() == 2 * n
    }
}

// The word of a row that holds node q's bit. With bit_of, the only place where word and bit are found.
pub fn word_of(q: usize) -> usize
    ensures { result ≡ q / 64 }
{
    q >> 6
}

// The place of node q's bit in that word.
pub fn bit_of(q: usize) -> usize
    ensures { result ≡ q % 64 }
{
    q & 63
}

// The word with node q's bit alone.
pub fn mask(q: usize) -> u64
    ensures { result ≡ 2 ^ (q % 64) }
{
    1u64 << bit_of(q)
}

// Whether a word has node q's bit.
pub fn has_bit(x: u64, q: usize) -> bool
    ensures { result ≡ bit_at x (q % 64) }
{
    (x >> bit_of(q)) & 1 == 1
}

// The place in the edge table of the word that holds node q's bit in node p's row.
pub fn place(p: usize, q: usize) -> usize
    requires { (p < max_nodes) × (q < max_nodes) }
    ensures { result ≡ row_words * p + q / 64 }
{
    Graph::ROW_WORDS * p + word_of(q)
}

// Whether there is an edge between p and q.
pub fn edge(edges: &[u64], p: usize, q: usize) -> bool
    requires { (p < max_nodes) × (q < max_nodes) × (row_words * p + row_words ≤ length edges.now) }
    ensures { result ≡ edge_bit edges.now p q }
{
    has_bit(edges[place(p, q)], q)
}

// Node q's bit in node p's row, the other way.
pub fn flip_edge(edges: &mut [u64], p: usize, q: usize)
    requires { (p < max_nodes) × (q < max_nodes) × (row_words * p + row_words ≤ length edges.old) }
    ensures { Flipped p q edges.old edges.new }
{
    let i = place(p, q);
    edges[i] ^= mask(q);
}

// The edge between u and v put in or taken out, in both rows.
pub fn change_edge(edges: &mut [u64], u: usize, v: usize)
    requires { (u < max_nodes) × (v < max_nodes) × (u ≢ v) × (row_words * u + row_words ≤ length edges.old) × (row_words * v + row_words ≤ length edges.old) }
    ensures { Changed u v edges.old edges.new }
{
    flip_edge(edges, u, v);
    flip_edge(edges, v, u);
}

// The cube of node q, counted from 1.
pub fn cube_of(q: usize) -> u32
    requires { q < max_nodes }
    ensures { result ≡ cube q }
{
    let x = (q + 1) as u32;
    x * x * x
}

// A key with a cube put in or taken out.
#[tactic(auto, unfolding(crate::specs::Rows::moved_key))]
fn moved_key(key: u32, x: u32, insert: bool) -> u32
    ensures { result ≡ moved_key insert key x }
{
    if insert {
        return key.wrapping_add(x);
    }
    key.wrapping_sub(x)
}

// The open and the closed key of p, moved by the cube of q.
fn move_keys(keys: &mut [u32], p: usize, q: usize, insert: bool)
    requires { (p < max_nodes) × (q < max_nodes) × (2 * p + 2 ≤ length keys.old) }
    ensures { KeysMoved insert p q keys.old keys.new }
{
    let x = cube_of(q);
    let i = 2 * p;
    keys[i] = moved_key(keys[i], x, insert);
    keys[i + 1] = moved_key(keys[i + 1], x, insert);
}

// The keys of u and v after the edge between them is put in or taken out.
pub fn change_keys(keys: &mut [u32], u: usize, v: usize, insert: bool)
    requires { (u < max_nodes) × (v < max_nodes) × (u ≢ v) × (2 * u + 2 ≤ length keys.old) × (2 * v + 2 ≤ length keys.old) }
    ensures { KeysChanged insert u v keys.old keys.new }
{
    move_keys(keys, u, v, insert);
    move_keys(keys, v, u, insert);
}

// A node number as an index.
pub fn wide(x: u16) -> usize
    ensures { result ≡ x }
{
    x as usize
}

// The place of the lowest bit of a word.
pub fn lowest(x: u64) -> usize
    ensures { result ≡ count_trailing_zeros 64 x }
{
    u64::trailing_zeros(x) as usize
}
