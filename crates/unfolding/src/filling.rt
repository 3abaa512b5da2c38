// The edge table of a graph held by its groups.
ghost use Rattle.std.specs.Prelude.{◌≡◌, ◌+◌, ◌*◌, ◌≤◌, ◌<◌, get_or, length, replicate};
ghost use Rattle.model.specs.Graph.{max_nodes, row_words};
ghost use Rattle.model.specs.Tables.{edges_of};
ghost use Rattle.compressed.specs.Compressed.{Compressed, unfolded};
ghost use Rattle.drawing.specs.Drawing.{Added};
ghost use Rattle.unfolding.specs.Filling.{
  Followed,
  Following,
  FirstsLead,
  Room,
  RowCopied,
  RowRoom,
  drawn_bit,
  each_to,
  group_to,
  joined_to,
  other_at,
  other_bit,
  own_to,
};

use compressed::{CLIQUE, SINGLE, SMALL};
use rows::Graph;

// The words of the rows of a small graph, and of any.
const SMALL_WORDS: usize = SMALL * Graph::ROW_WORDS;

const ALL_WORDS: usize = Graph::NODES * Graph::ROW_WORDS;

// Node p put into the row of its first member, if that is another node.
fn put_other(least: &[u16], p: usize, members: &mut [u64])
    requires { (p < max_nodes) × (p < length least.now) × (row_words * p + row_words ≤ length members.old) }
    ensures { Added (other_at least.now p) members.old members.new }
{
    let l = rows::wide(least[p]);
    if l < p {
        drawing::set_bit(members, l, p);
    }
}

// The members of each group but its first, as a row of that one.
fn other_members(least: &[u16], n: usize, members: &mut [u64])
    requires { (n ≤ max_nodes) × (n ≤ length least.now) × (row_words * n ≤ length members.old) }
    ensures { Added (other_bit n least.now) members.old members.new }
{
    for p in 0..n {
        put_other(least, p, members);
    }
}

// A set put into the rows of the nodes that word w of a row tells.
fn draw_each(edges: &mut [u64], word: u64, w: usize, set: &[u64])
    requires { (w < row_words) × Room (length edges.old) w word × (row_words ≤ length set.now) }
    ensures { Added (each_to word w set.now) edges.old edges.new }
{
    let mut x = word;
    while x != 0 {
        drawing::draw_row(edges, 64 * w + rows::lowest(x), set);
        x = x & (x - 1);
    }
}

// A set put into the rows of the nodes of l's row.
fn draw_joined(edges: &mut [u64], joined: &[u64], l: usize, set: &[u64])
    requires { (l < max_nodes) × (row_words * l + row_words ≤ length joined.now) × RowRoom (length edges.old) joined.now l × (row_words ≤ length set.now) }
    ensures { Added (joined_to joined.now l set.now) edges.old edges.new }
{
    let a = Graph::ROW_WORDS * l;
    for (w, word) in joined[a..a + Graph::ROW_WORDS].iter().enumerate() {
        draw_each(edges, *word, w, set);
    }
}

// A clique's other members put into the row of its first one.
fn draw_own(edges: &mut [u64], l: usize, set: &[u64], kind: u16)
    requires { (l < max_nodes) × (row_words * l + row_words ≤ length edges.old) × (row_words ≤ length set.now) }
    ensures { Added (own_to kind l set.now) edges.old edges.new }
{
    if kind == CLIQUE {
        drawing::draw_row(edges, l, set);
    }
}

// The other members of l's group put into the rows of first members that are to have them.
fn draw_group(kinds: &[u16], joined: &[u64], members: &[u64], l: usize, edges: &mut [u64])
    requires l_lt_max_nodes { (l < max_nodes) × (l < length kinds.now) × (row_words * l + row_words ≤ length joined.now) × (row_words * l + row_words ≤ length members.now) }
    requires row_words_in_bounds { (row_words * l + row_words ≤ length edges.old) × RowRoom (length edges.old) joined.now l }
    ensures { Added (group_to kinds.now joined.now members.now l) edges.old edges.new }
{
    if kinds[l] != SINGLE {
        let a = Graph::ROW_WORDS * l;
        let set = &members[a..a + Graph::ROW_WORDS];
        draw_joined(edges, joined, l, set);
        draw_own(edges, l, set, kinds[l]);
    }
}

// The same for all groups, whose members are put into rows of their own, of so many words. The bits of first members are there already.
fn draw_members<const WORDS: usize>(
    least: &[u16],
    kinds: &[u16],
    joined: &[u64],
    n: usize,
    edges: &mut [u64],
)
    requires { Compressed n least.now kinds.now joined.now × (length edges.old ≡ row_words * n) × (row_words * n ≤ WORDS) × (WORDS ≤ row_words * max_nodes) }
    ensures { Added (drawn_bit n least.now kinds.now joined.now) edges.old edges.new }
{
    let mut members = [0u64; WORDS];
    other_members(least, n, &mut members);
    for l in 0..n {
        draw_group(kinds, joined, &members, l, edges);
    }
}

// The same, with rows for as many nodes as a small graph has, or for all.
fn draw_groups(least: &[u16], kinds: &[u16], joined: &[u64], n: usize, edges: &mut [u64])
    requires { Compressed n least.now kinds.now joined.now × (length edges.old ≡ row_words * n) }
    ensures { Added (drawn_bit n least.now kinds.now joined.now) edges.old edges.new }
{
    if n <= SMALL {
        draw_members::<SMALL_WORDS>(least, kinds, joined, n, edges);
    } else {
        draw_members::<ALL_WORDS>(least, kinds, joined, n, edges);
    }
}

// Row l copied to p.
fn copy_row(edges: &mut [u64], l: usize, p: usize)
    requires { (l < p) × (p < max_nodes) × (row_words * p + row_words ≤ length edges.old) }
    ensures { RowCopied l p edges.old edges.new }
{
    let a = Graph::ROW_WORDS * l;
    let b = Graph::ROW_WORDS * p;
    // Word by word: `copy_within` asks the linker for one function more.
    for w in 0..Graph::ROW_WORDS {
        edges[b + w] = edges[a + w];
    }
}

// The row of p by that of its first member l: in a clique their own bits differ.
fn follow(edges: &mut [u64], l: usize, p: usize, kind: u16)
    requires { (l < p) × (p < max_nodes) × (row_words * p + row_words ≤ length edges.old) }
    ensures { Followed kind l p edges.old edges.new }
{
    copy_row(edges, l, p);
    if kind == CLIQUE {
        rows::flip_edge(edges, p, l);
        rows::flip_edge(edges, p, p);
    }
}

// The same for a node whose first member is to be found, and may be itself or none.
fn follow_first(least: &[u16], kinds: &[u16], p: usize, edges: &mut [u64])
    requires { (p < max_nodes) × (p < length least.now) × (p < length kinds.now) × (row_words * p + row_words ≤ length edges.old) }
    ensures { Followed (get_or kinds.now (get_or least.now p 0) 0) (get_or least.now p 0) p edges.old edges.new }
{
    let l = rows::wide(least[p]);
    if l < p {
        follow(edges, l, p, kinds[l]);
    }
}

// The rows of all other members by those of first members.
fn follow_all(least: &[u16], kinds: &[u16], n: usize, edges: &mut [u64])
    requires { FirstsLead n least.now × (n ≤ max_nodes) × (n ≤ length least.now) × (n ≤ length kinds.now) × (row_words * n ≤ length edges.old) }
    ensures { Following least.now kinds.now n edges.old edges.new }
{
    for p in 0..n {
        follow_first(least, kinds, p, edges);
    }
}

// The edge table of the graph that arrays hold by its groups.
pub fn fill_edges(least: &[u16], kinds: &[u16], joined: &[u64], n: usize, edges: &mut [u64])
    requires { Compressed n least.now kinds.now joined.now × (length edges.old ≡ row_words * n) }
    ensures { edges.new ≡ edges_of (unfolded n least.now kinds.now joined.now) }
{
    buffers::copy_words(joined, edges);
    draw_groups(least, kinds, joined, n, edges);
    follow_all(least, kinds, n, edges);
}
