// The test that lent tables hold a graph: the numbers of the node table are taken as a certificate, nothing is built anew.
#![tactic(auto)]

ghost use Rattle.std.specs.Prelude.{◌≡◌, ◌+◌, ◌*◌, ◌<◌, ◌≤◌, true, ◌&&◌, length};
ghost use Rattle.model.specs.Graph.{max_nodes, row_words, node_numbers};
ghost use Rattle.model.specs.Tables.{holds};
ghost use Rattle.rows.specs.Rows.{lent};
ghost use Rattle.search.specs.Search.{Ready};
ghost use Rattle.edges.specs.Edges.{row_holds};
ghost use Rattle.checks.specs.Slots.{Seen, SlotTaken, key_slot};
ghost use Rattle.checks.specs.Checks.{
  agrees,
  alone,
  link_holds,
  keys_hold,
  leaders_apart,
  node_holds,
  nodes_hold,
  rows_hold,
  twin_of,
  twins_hold,
};

mod dense;

use bits::{Bits, WORD_BITS};
use groups::{CLASS, LEAST, MARK, NEXT, PREVIOUS, number};
use lent::Edges;
use rows::Graph;

// The words of a set of key slots.
const SLOT_WORDS: usize = 1024;

// Whether the keys of p are those of a row whose cubes add up to sum.
fn keys_agree(keys: &[u32], p: usize, sum: u32) -> bool
    requires { (p < max_nodes) × (2 * p + 2 ≤ length keys.now) }
    ensures { result ≡ agrees keys.now p sum }
{
    if keys[2 * p] != sum {
        return false;
    }
    keys[2 * p + 1] == sum.wrapping_add(rows::cube_of(p))
}

// Whether the bits of p's row are mirrored and its keys are right: one walk over the bits.
fn row_holds(edges: Edges, keys: &[u32], p: usize) -> bool
    requires { (length keys.now ≡ 2 * edges.n) × (p < edges.n) }
    ensures { result ≡ (row_holds edges.entry.n edges.entry.words.now p && keys_hold edges.entry.n edges.entry.words.now keys.now p) }
{
    let mut sum = 0u32;
    for w in 0..Graph::ROW_WORDS {
        for k in Bits::of(edges.word(p, w)) {
            let q = WORD_BITS * w + k;
            if !edges::is_mirrored(edges, p, q) {
                return false;
            }
            sum = sum.wrapping_add(rows::cube_of(q));
        }
    }
    keys_agree(keys, p, sum)
}

// Whether edges and keys are those of a graph, bit by bit.
fn sparse_rows_hold(edges: Edges, keys: &[u32]) -> bool
    requires { length keys.now ≡ 2 * edges.n }
    ensures { result ≡ rows_hold edges.entry.n edges.entry.words.now keys.now }
{
    for p in 0..edges.n {
        if !row_holds(edges, keys, p) {
            return false;
        }
    }
    true
}

// Whether edges and keys are those of a graph, where every node is a twin of its leader.
fn rows_hold(edges: Edges, nodes: &[u16], keys: &[u32]) -> bool
    requires { (length nodes.now ≡ node_numbers * edges.n) × (length keys.now ≡ 2 * edges.n) × (twins_hold edges.n edges.words.now nodes.now ≡ true) }
    ensures { result ≡ rows_hold edges.entry.n edges.entry.words.now keys.now }
{
    if keys::is_dense(edges.words, edges.n) {
        return dense::rows_hold(edges, nodes, keys);
    }
    sparse_rows_hold(edges, keys)
}

// Whether l leads the group of p, of p's class, and p's row is that of a twin of l.
fn is_twin(edges: Edges, nodes: &[u16], p: usize, l: usize) -> bool
    requires { (length nodes.now ≡ node_numbers * edges.n) × (p < edges.n) }
    ensures { result ≡ twin_of edges.entry.words.now nodes.now p l }
{
    if l > p {
        return false;
    }
    if number(nodes, l, LEAST) != l {
        return false;
    }
    if l == p {
        return true;
    }
    if !search::same_class(nodes, p, l) {
        return false;
    }
    let closed = edges.tied(l, p);
    let a = Graph::ROW_WORDS * p;
    let b = Graph::ROW_WORDS * l;
    search::same_row(
        &edges.words[a..a + Graph::ROW_WORDS],
        &edges.words[b..b + Graph::ROW_WORDS],
        closed,
        p,
        l,
    )
}

// Whether every node is a twin of its leader.
fn twins_hold(edges: Edges, nodes: &[u16]) -> bool
    requires { length nodes.now ≡ node_numbers * edges.n }
    ensures { result ≡ twins_hold edges.entry.n edges.entry.words.now nodes.now }
{
    for p in 0..edges.n {
        let l = number(nodes, p, LEAST);
        if !is_twin(edges, nodes, p, l) {
            return false;
        }
    }
    true
}

// The slot of a key in a class among the keys seen.
fn slot(key: u32, class: u16) -> usize
    ensures { result ≡ key_slot key class }
{
    (key as usize + 257 * rows::wide(class)) % 65521
}

// Whether the slot of a key in a class was taken; now it is. Each slot is a bit.
fn take_slot(slots: &mut [u64; SLOT_WORDS], key: u32, class: u16) -> bool
    ensures { SlotTaken key class slots.old slots.new result }
{
    let s = slot(key, class);
    let i = rows::word_of(s);
    let x = slots[i];
    slots[i] = x | rows::mask(s);
    rows::has_bit(x, s)
}

// Whether u leads no group, or no leader below it is similar to it: none can be where none of its class has an equal key.
fn is_alone(
    edges: Edges,
    nodes: &[u16],
    keys: &[u32],
    u: usize,
    opens: &mut [u64; SLOT_WORDS],
    closeds: &mut [u64; SLOT_WORDS],
) -> bool
    requires ready { Ready edges.n edges.words.now keys.now }
    requires nodes_len { (length nodes.now ≡ node_numbers * edges.n) × (u < edges.n) × Seen nodes.now keys.now 0 u opens.old × Seen nodes.now keys.now 1 u closeds.old }
    ensures { (result ≡ alone edges.entry.n edges.entry.words.now nodes.now u) × Seen nodes.now keys.now 0 (u + 1) opens.new × Seen nodes.now keys.now 1 (u + 1) closeds.new }
{
    if number(nodes, u, LEAST) != u {
        return true;
    }
    let class = nodes[Graph::NODE_NUMBERS * u + CLASS];
    let open = take_slot(opens, keys[2 * u], class);
    let closed = take_slot(closeds, keys[2 * u + 1], class);
    if !(open | closed) {
        return true;
    }
    search::find_group(edges.words, nodes, keys, edges.n, u, u, u).is_none()
}

// Whether no two leaders are similar.
fn leaders_apart(edges: Edges, nodes: &[u16], keys: &[u32]) -> bool
    requires ready { Ready edges.n edges.words.now keys.now }
    requires nodes_len { length nodes.now ≡ node_numbers * edges.n }
    ensures { result ≡ leaders_apart edges.entry.n edges.entry.words.now nodes.now }
{
    let mut opens = [0u64; SLOT_WORDS];
    let mut closeds = [0u64; SLOT_WORDS];
    for u in 0..edges.n {
        if !is_alone(edges, nodes, keys, u, &mut opens, &mut closeds) {
            return false;
        }
    }
    true
}

// Whether p follows a in its group.
fn is_followed(nodes: &[u16], n: usize, p: usize, a: usize) -> bool
    requires { (n ≤ max_nodes) × (length nodes.now ≡ node_numbers * n) × (p < n) }
    ensures { result ≡ link_holds n nodes.now p a }
{
    if a >= n {
        return false;
    }
    let l = number(nodes, p, LEAST);
    if number(nodes, a, LEAST) != l {
        return false;
    }
    if number(nodes, a, NEXT) != p {
        return false;
    }
    if l == p {
        return true;
    }
    a < p
}

// Whether p follows the previous member, its mark is 0 or 1, and its class below 256.
fn node_holds(nodes: &[u16], n: usize, p: usize) -> bool
    requires { (n ≤ max_nodes) × (length nodes.now ≡ node_numbers * n) × (p < n) }
    ensures { result ≡ node_holds n nodes.now p }
{
    if !is_followed(nodes, n, p, number(nodes, p, PREVIOUS)) {
        return false;
    }
    if number(nodes, p, MARK) >= 2 {
        return false;
    }
    number(nodes, p, CLASS) < Graph::CLASSES
}

// Whether the groups are rings, marks are 0 or 1, and classes below 256.
fn nodes_hold(nodes: &[u16], n: usize) -> bool
    requires { (n ≤ max_nodes) × (length nodes.now ≡ node_numbers * n) }
    ensures { result ≡ nodes_hold n nodes.now }
{
    for p in 0..n {
        if !node_holds(nodes, n, p) {
            return false;
        }
    }
    true
}

// Whether the tables hold a graph of n nodes. Not inlined, so that `tables::check` can be.
#[inline(never)]
pub fn hold(edges: &[u64], nodes: &[u16], keys: &[u32], n: usize) -> bool
    requires { (n ≤ max_nodes) × (length edges.now ≡ row_words * n) × (length nodes.now ≡ node_numbers * n) × (length keys.now ≡ 2 * n) }
    ensures { result ≡ holds n (lent edges.now nodes.now keys.now) }
{
    let table = Edges { n, words: edges };
    if !nodes_hold(nodes, n) {
        return false;
    }
    if !twins_hold(table, nodes) {
        return false;
    }
    if !rows_hold(table, nodes, keys) {
        return false;
    }
    leaders_apart(table, nodes, keys)
}
