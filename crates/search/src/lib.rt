// The search for the group that a node joins: by keys, then by rows.
#![tactic(auto)]

ghost use Rattle.std.specs.Prelude.{◌≡◌, false, ◌+◌, ◌*◌, ◌≤◌, ◌<◌, length};
ghost use Rattle.model.specs.Graph.{max_nodes, row_words, node_numbers};
ghost use Rattle.search.specs.Search.{NextFrom, Passed, Ready, Skipped, block, first_from, found, joins, key_agrees, keys_agree, may_join, meets, own_bit, own_bits, same_class, tried};

use rows::Graph;

// The keys of a node.
const OPEN: usize = 0;

const CLOSED: usize = 1;

// How many nodes are passed over at once.
const BLOCK: usize = 16;

// Whether u and q are of one class.
#[tactic(auto, unfolding(crate::specs::Search::same_class, model::specs::Tables::node_number))]
pub fn same_class(nodes: &[u16], u: usize, q: usize) -> bool
    requires { (u < max_nodes) × (q < max_nodes) × (node_numbers * u + node_numbers ≤ length nodes.now) × (node_numbers * q + node_numbers ≤ length nodes.now) }
    ensures { result ≡ same_class nodes.now u q }
{
    nodes[Graph::NODE_NUMBERS * u + Graph::CLASS] == nodes[Graph::NODE_NUMBERS * q + Graph::CLASS]
}

// Node q's own bit in word i of a row.
#[tactic(auto, unfolding(crate::specs::Search::own_bit))]
pub fn own_bit(q: usize, i: usize) -> u64
    ensures { result ≡ own_bit q i }
{
    if rows::word_of(q) == i {
        return rows::mask(q);
    }
    0
}

// Where word i of the rows of u and q has to differ: nowhere for open rows, in their own bits for closed ones.
#[tactic(auto, unfolding(crate::specs::Search::own_bits))]
pub fn own_bits(closed: bool, u: usize, q: usize, i: usize) -> u64
    ensures { result ≡ own_bits closed u q i }
{
    if closed {
        return own_bit(u, i) ^ own_bit(q, i);
    }
    0
}

// Whether the rows of u and q agree, as open or as closed ones.
pub fn same_row(row: &[u64], other: &[u64], closed: bool, u: usize, q: usize) -> bool
    requires { (length row.now ≡ row_words) × (length other.now ≡ row_words) }
    ensures { result ≡ meets closed u q row.now other.now row_words }
{
    row.iter()
        .zip(other)
        .enumerate()
        .all(|(i, (x, y))| *x ^ *y == own_bits(closed, u, q, i))
}

// The search for the group that u joins among the nodes below m, w left out. The row is u's.
#[derive(Clone, Copy)]
struct Search<'a> {
    edges: &'a [u64],
    nodes: &'a [u16],
    keys: &'a [u32],
    row: &'a [u64],
    m: usize,
    u: usize,
    w: usize,
    ghost small: { (m ≤ max_nodes) × (u < max_nodes) },
    ghost sized: { (row_words * m ≤ length edges.now) × (node_numbers * m ≤ length nodes.now) × (node_numbers * u + node_numbers ≤ length nodes.now) × (2 * m ≤ length keys.now) × (2 * u + 2 ≤ length keys.now) × (length row.now ≡ row_words) },
}

impl Search<'_> {
    // Whether key k of u and of q agree.
    #[tactic(auto, unfolding(crate::specs::Search::key_agrees))]
    fn key_agrees(&self, k: usize, q: usize) -> bool
        requires { (k < 2) × (q < self.now.m) }
        ensures { result ≡ key_agrees self.now.keys.now k self.now.u q }
    {
        self.keys[2 * self.u + k] == self.keys[2 * q + k]
    }

    // Whether the open or the closed keys of u and q agree.
    #[tactic(auto, unfolding(crate::specs::Search::keys_agree))]
    fn keys_agree(&self, q: usize) -> bool
        requires { q < self.now.m }
        ensures { result ≡ keys_agree self.now.keys.now self.now.u q }
    {
        if self.key_agrees(OPEN, q) {
            return true;
        }
        self.key_agrees(CLOSED, q)
    }

    // Whether q, neither u nor w, is the least of a group that u may join by the keys and the class.
    #[tactic(auto, unfolding(crate::specs::Search::may_join, model::specs::Tables::node_number))]
    fn may_join(&self, q: usize) -> bool
        requires { q < self.now.m }
        ensures { result ≡ may_join self.now.nodes.now self.now.keys.now self.now.u self.now.w q }
    {
        if !self.keys_agree(q) {
            return false;
        }
        if q == self.u {
            return false;
        }
        if q == self.w {
            return false;
        }
        if !same_class(self.nodes, self.u, q) {
            return false;
        }
        rows::wide(self.nodes[Graph::NODE_NUMBERS * q]) == q
    }

    // Whether keys in the block from `from` on agree with u's. The loop is not left early, so that it compares many at a time.
    #[tactic(auto, unfolding(crate::specs::Search::keys_agree))]
    fn block_agrees(&self, from: usize) -> bool
        requires { from + block ≤ self.now.m }
        ensures { result ≡ false → Passed (keys_agree self.now.keys.now self.now.u) from (from + block) }
    {
        let mut agree = false;
        for q in from..from + BLOCK {
            agree = agree | self.key_agrees(OPEN, q) | self.key_agrees(CLOSED, q);
        }
        agree
    }

    // The first block from `from` on in which keys agree with u's, or the place where less than a block is left before m.
    fn skip_blocks(&self, from: usize) -> usize
        requires { from ≤ self.now.m }
        ensures { Skipped (keys_agree self.now.keys.now self.now.u) from self.now.m result }
    {
        // By hand: with `step_by` a search takes a tenth more time.
        let mut q = from;
        while q + BLOCK <= self.m {
            if self.block_agrees(q) {
                return q;
            }
            q += BLOCK;
        }
        q
    }

    // The next node from `from` on, below m, whose keys agree with u's.
    fn next_agreeing(&self, from: usize) -> Option<usize>
        requires { from ≤ self.now.m }
        ensures { NextFrom (keys_agree self.now.keys.now self.now.u) from self.now.m result }
    {
        for q in self.skip_blocks(from)..self.m {
            if self.keys_agree(q) {
                return Some(q);
            }
        }
        None
    }

    // The least q below m that may join and whose row agrees with u's, as an open or as a closed one.
    fn find_twin(&self) -> Option<usize>
        ensures { result ≡ found self.now.m (first_from (tried self.now.edges.now self.now.nodes.now self.now.keys.now self.now.u self.now.w self.now.row.now) 0 self.now.m) }
    {
        let row = self.row;
        let mut from = 0;
        'groups: while let Some(q) = self.next_agreeing(from) {
            from = q + 1;
            if self.may_join(q) {
                let closed = !self.key_agrees(OPEN, q);
                let a = Graph::ROW_WORDS * q;
                let other = &self.edges[a..a + Graph::ROW_WORDS];
                for i in 0..Graph::ROW_WORDS {
                    if row[i] ^ other[i] != own_bits(closed, self.u, q, i) {
                        continue 'groups;
                    }
                }
                return Some(q);
            }
        }
        None
    }
}

// The least member, below m, of the group that u joins, w left out.
pub fn find_group(
    edges: &[u64],
    nodes: &[u16],
    keys: &[u32],
    n: usize,
    m: usize,
    u: usize,
    w: usize,
) -> Option<usize>
    requires ready { Ready n edges.now keys.now }
    requires nodes_len { (length nodes.now ≡ node_numbers * n) × (m ≤ n) × (u < n) × (w < n) }
    ensures { result ≡ found m (first_from (joins n edges.now nodes.now u w) 0 m) }
{
    let a = Graph::ROW_WORDS * u;
    let search = Search {
        edges,
        nodes,
        keys,
        row: &edges[a..a + Graph::ROW_WORDS],
        m,
        u,
        w,
    };
    search.find_twin()
}
