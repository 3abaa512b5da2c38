// The distance of two nodes of a graph held by its groups: a search over superedges.
#![tactic(auto)]

ghost use Rattle.std.specs.Prelude.{◌≡◌, true, not, ◌&&◌, ◌<◌, length, unwrap_or};
ghost use Rattle.model.specs.Graph.{row_words};
ghost use Rattle.model.specs.Tables.{edge_bit};
ghost use Rattle.model.specs.Release.{visible};
ghost use Rattle.model.specs.Distance.{Shortest, distance, unreachable};
ghost use Rattle.compressed.specs.Compressed.{Compressed, placed, unfolded};
ghost use Rattle.drawing.specs.Drawing.{Added};
ghost use Rattle.unfolding.specs.Filling.{Room, RowRoom};
ghost use Rattle.distances.specs.Distances.{SetOf, SuperedgeRows, from_any, have_common, in_set, in_word, rows_view};

use compressed::CLIQUE;
use rows::Graph;

// Stands for the length of a walk where there is none.
const UNREACHABLE: u16 = 65535;

// The rows of the nodes of word w of a set, put into a row.
fn reach_word(joined: &[u64], word: u64, w: usize, next: &mut [u64])
    requires { (w < row_words) × Room (length joined.now) w word × (length next.old ≡ row_words) }
    ensures { Added (from_any (in_word word w) joined.now) next.old next.new }
{
    let mut x = word;
    while x != 0 {
        let a = Graph::ROW_WORDS * (64 * w + rows::lowest(x));
        drawing::draw_row(next, 0, &joined[a..a + Graph::ROW_WORDS]);
        x = x & (x - 1);
    }
}

// The nodes joined to one in a set.
fn reach(joined: &[u64], set: &[u64]) -> [u64; Graph::ROW_WORDS]
    requires { (length set.now ≡ row_words) × RowRoom (length joined.now) set.now 0 }
    ensures { SetOf (from_any (in_set set.now) joined.now 0) result }
{
    let mut next = [0u64; Graph::ROW_WORDS];
    for (w, word) in set.iter().enumerate() {
        reach_word(joined, *word, w, &mut next);
    }
    next
}

// A set without the nodes of another.
// The words are counted: `zip` over slices of unknown length is slower.
fn without(set: &[u64], other: &[u64]) -> [u64; Graph::ROW_WORDS]
    requires { (length set.now ≡ row_words) × (length other.now ≡ row_words) }
    ensures { SetOf (λ q. edge_bit set.now 0 q && not (edge_bit other.now 0 q)) result }
{
    let mut left = [0u64; Graph::ROW_WORDS];
    for w in 0..Graph::ROW_WORDS {
        left[w] = (set[w] | other[w]) ^ other[w];
    }
    left
}

// Whether two sets have a node in common. A set meets itself unless it is empty.
// The words are counted: `zip` over slices of unknown length is slower.
fn meet(set: &[u64], other: &[u64]) -> bool
    requires { (length set.now ≡ row_words) × (length other.now ≡ row_words) }
    ensures { result ≡ have_common set.now other.now }
{
    let mut common = 0u64;
    for w in 0..Graph::ROW_WORDS {
        common = common | (set[w] & other[w]);
    }
    common != 0
}

// The length of the shortest walk over superedges from the group of i to another, that of j, if there is one. Each group is entered once.
fn search(joined: &[u64], n: usize, i: usize, j: usize) -> Option<u16>
    requires { SuperedgeRows n joined.now × (i < n) × (j < n) × (i ≡ j → ⊥) }
    ensures { Shortest (rows_view n joined.now) i j (unwrap_or result unreachable) }
{
    let a = Graph::ROW_WORDS * j;
    let target = &joined[a..a + Graph::ROW_WORDS];
    let mut seen = [0u64; Graph::ROW_WORDS];
    drawing::set_bit(&mut seen, 0, i);
    let mut frontier = seen;
    for d in 1..=n {
        if meet(target, &frontier) {
            return Some(d as u16);
        }
        let next = reach(joined, &frontier);
        frontier = without(&next, &seen);
        if !meet(&frontier, &frontier) {
            return None;
        }
        drawing::draw_row(&mut seen, 0, &frontier);
    }
    None
}

// The distance of two nodes: that of their groups, or by the kind and the superedges of the one that they share.
// Not inlined, so that its caller keeps the groups of a file where they are made and copies none of them.
#[inline(never)]
pub fn distance(least: &[u16], kinds: &[u16], joined: &[u64], n: usize, p: usize, q: usize) -> u16
    requires { Compressed n least.now kinds.now joined.now × (placed n least.now p ≡ true) × (placed n least.now q ≡ true) }
    ensures { result ≡ distance (visible (unfolded n least.now kinds.now joined.now)) p q }
{
    if p == q {
        return 0;
    }
    let i = rows::wide(least[p]);
    let j = rows::wide(least[q]);
    if i != j {
        return search(joined, n, i, j).unwrap_or(UNREACHABLE);
    }
    if kinds[i] == CLIQUE {
        return 1;
    }
    let a = Graph::ROW_WORDS * i;
    let row = &joined[a..a + Graph::ROW_WORDS];
    if meet(row, row) {
        return 2;
    }
    UNREACHABLE
}
