// Keys: the cubes of neighbours added up, by a walk over the bits of a row, by a table of sums over eight bits, or told by a twin's.
#![tactic(auto)]

ghost use Rattle.std.specs.Prelude.{◌≡◌, ℕ, ◌+◌, ◌*◌, ◌/◌, ◌%◌, ◌^◌, ◌<◌, ◌≤◌, length, replicate, slice_index};
ghost use Rattle.model.specs.Graph.{max_nodes, row_words};
ghost use Rattle.model.specs.Tables.{keys_of, graph_in};
ghost use Rattle.search.specs.Search.{Within};
ghost use Rattle.keys.specs.KeySums.{
  AllLead,
  FoursFilled,
  KeysPut,
  LeadersSummed,
  RowInside,
  Widened,
  WordAdded,
  eight_cubes,
  row_key,
  twin_key,
  word_cubes,
  words_for,
};

use bits::{Bits, WORD_BITS};
use lent::Edges;
use rows::Graph;

// The sums for a word's sixteen fours of nodes, and those for its eights.
const FOURS: usize = 256;

const EIGHTS: usize = 2048;

// x if v is odd, else 0.
fn if_odd(v: usize, x: u32) -> u32
    ensures { (result ≡ v % 2 * x) × (result ≤ x) }
{
    if v & 1 == 1 { x } else { 0 }
}

// The sum of those of four cubes that the digits of v choose.
fn chosen_of(v: usize, cubes: [u32; 4]) -> u32
    requires { (k : ℕ) → k < 4 → slice_index cubes k ≤ 134217728 }
    ensures { result ≡ v % 2 * slice_index cubes 0 + v / 2 % 2 * slice_index cubes 1 + v / 4 % 2 * slice_index cubes 2 + v / 8 % 2 * slice_index cubes 3 }
{
    if_odd(v, cubes[0])
        + if_odd(v >> 1, cubes[1])
        + if_odd(v >> 2, cubes[2])
        + if_odd(v >> 3, cubes[3])
}

// The cubes of four nodes of word w, the b-th four of them, for each choice among these.
fn fill_four(sums: &mut [u32; FOURS], w: usize, b: usize)
    requires { (w < 8) × (b < 16) × FoursFilled w (16 * b) sums.old }
    ensures { FoursFilled w (16 * (b + 1)) sums.new }
{
    let p = 4 * (16 * w + b);
    let cubes = [
        rows::cube_of(p),
        rows::cube_of(p + 1),
        rows::cube_of(p + 2),
        rows::cube_of(p + 3),
    ];
    for v in 0..16 {
        sums[16 * b + v] = chosen_of(v, cubes);
    }
}

// The sums of the cubes of any of four nodes, for the nodes of word w.
fn fill_fours(sums: &mut [u32; FOURS], w: usize)
    requires { w < 8 }
    ensures { FoursFilled w 256 sums.new }
{
    for b in 0..16 {
        fill_four(sums, w, b);
    }
}

// Sixteen sums for eight nodes of a word: choice h among the last four of them, and each choice among the first four.
fn widen_row(fours: &[u32; FOURS], sums: &mut [u32; EIGHTS], w: usize, i: usize, h: usize)
    requires { (w < 8) × (i < 8) × (h < 16) × FoursFilled w 256 fours.now × Widened w (256 * i + 16 * h) sums.old }
    ensures { Widened w (256 * i + 16 * (h + 1)) sums.new }
{
    let x = fours[32 * i + 16 + h];
    for l in 0..16 {
        sums[256 * i + 16 * h + l] = fours[32 * i + l] + x;
    }
}

// All sums for those nodes, in a loop of its own: the sums of the first four are read once.
fn widen_rows(fours: &[u32; FOURS], sums: &mut [u32; EIGHTS], w: usize, i: usize)
    requires { (w < 8) × (i < 8) × FoursFilled w 256 fours.now × Widened w (256 * i) sums.old }
    ensures { Widened w (256 * (i + 1)) sums.new }
{
    for h in 0..16 {
        widen_row(fours, sums, w, i, h);
    }
}

// The sums of the cubes of any of eight nodes, for the nodes of word w.
fn widen(fours: &[u32; FOURS], sums: &mut [u32; EIGHTS], w: usize)
    requires { (w < 8) × FoursFilled w 256 fours.now }
    ensures { Widened w 2048 sums.new }
{
    for i in 0..8 {
        widen_rows(fours, sums, w, i);
    }
}

// The sum for the eight bits of x from bit 8 * i on.
fn eight_sum(sums: &[u32; EIGHTS], x: u64, i: usize) -> u32
    requires { i < 8 }
    ensures { (w : ℕ) → Widened w 2048 sums.now → result ≡ eight_cubes (8 * w + i) (x / 2 ^ (8 * i) % 256) }
{
    let v = ((x >> (8 * i)) & 255) as usize;
    sums[256 * i + v]
}

// The cubes of the nodes whose bits stand in a word.
fn word_sum(sums: &[u32; EIGHTS], x: u64) -> u32
    ensures { (w : ℕ) → Widened w 2048 sums.now → result ≡ word_cubes w x 64 % 2 ^ 32 }
{
    let mut total = 0u32;
    for i in 0..8 {
        total = total.wrapping_add(eight_sum(sums, x, i));
    }
    total
}

// Word w of p's row is added to p's total, if p leads.
fn add_row_word(
    edges: Edges,
    least: &[u16],
    stride: usize,
    sums: &[u32; EIGHTS],
    totals: &mut [u32; Graph::NODES],
    p: usize,
    w: usize,
)
    requires p_lt_n { (p < edges.n) × (stride * p < length least.now) }
    requires w_bound { (w < 8) × Widened w 2048 sums.now }
    ensures { WordAdded stride least.now edges.entry.words.now w p totals.old totals.new }
{
    if rows::wide(least[stride * p]) != p {
        return;
    }
    totals[p] = totals[p].wrapping_add(word_sum(sums, edges.word(p, w)));
}

// Word w of all rows is added to the totals of those who lead.
fn add_word(
    edges: Edges,
    least: &[u16],
    stride: usize,
    sums: &[u32; EIGHTS],
    totals: &mut [u32; Graph::NODES],
    w: usize,
)
    requires least_len { (0 < stride) × (stride * edges.n ≤ length least.now) }
    requires w_bound { (w < 8) × Widened w 2048 sums.now × LeadersSummed edges.n stride least.now edges.words.now w totals.old }
    ensures { LeadersSummed edges.entry.n stride least.now edges.entry.words.now (w + 1) totals.new }
{
    for p in 0..edges.n {
        add_row_word(edges, least, stride, sums, totals, p, w);
    }
}

// The cubes of the neighbours of each node that leads: word by word, so that one small table of sums serves all rows. The totals are
// lent: handed back by value they are copied once more.
pub fn sum_leaders(edges: Edges, least: &[u16], stride: usize, totals: &mut [u32; Graph::NODES])
    requires { (0 < stride) × (stride * edges.n ≤ length least.now) × (totals.old ≡ replicate max_nodes 0) }
    ensures { LeadersSummed edges.entry.n stride least.now edges.entry.words.now (words_for edges.entry.n) totals.new }
{
    let mut fours = [0u32; FOURS];
    let mut sums = [0u32; EIGHTS];
    for w in 0..rows::word_of(edges.n + 63) {
        fill_fours(&mut fours, w);
        widen(&fours, &mut sums, w);
        add_word(edges, least, stride, &sums, totals, w);
    }
}

// The open key of a twin p of l, by the keys of l. `closed` stays a bool: it is what `Edges::tied` answers and what the definition `twin_key` takes.
pub fn twin_key(keys: &[u32], closed: bool, l: usize, p: usize) -> u32
    requires { (l < max_nodes) × (p < max_nodes) × (2 * l + 2 ≤ length keys.now) }
    ensures { result ≡ twin_key keys.now closed l p }
{
    if closed {
        return keys[2 * l + 1].wrapping_sub(rows::cube_of(p));
    }
    keys[2 * l]
}

// The cubes of p's neighbours added up: one walk over the bits of its row.
fn sum_row(edges: Edges, p: usize) -> u32
    requires { (p < edges.n) × RowInside edges.n edges.words.now p }
    ensures { result ≡ row_key edges.entry.n edges.entry.words.now p }
{
    let mut sum = 0u32;
    for w in 0..Graph::ROW_WORDS {
        for k in Bits::of(edges.word(p, w)) {
            sum = sum.wrapping_add(rows::cube_of(WORD_BITS * w + k));
        }
    }
    sum
}

// How many bits of a word are set.
fn ones_of(x: u64) -> usize
    ensures { result ≤ 64 }
{
    x.count_ones() as usize
}

// How many bits every so many words of the edges have.
fn bits_among(edges: &[u64], step: usize) -> usize
    requires { (length edges.now ≤ row_words * max_nodes) × (0 < step) × (step ≤ 64) }
{
    let mut bits = 0;
    for x in edges.iter().step_by(step) {
        bits += ones_of(*x);
    }
    bits
}

// Whether a walk over all bits would take longer than the ways by words: some ten bits a row, six of few nodes. It is told by a sample, of
// few nodes every third; either answer is right.
pub fn is_dense(edges: &[u64], n: usize) -> bool
    requires { length edges.now ≤ row_words * max_nodes }
{
    if n <= 64 {
        return bits_among(edges, 24) > 2 * n;
    }
    bits_among(edges, 37) > n / 4
}

// The open key of p, and with p's own cube the closed one.
pub fn put_keys(keys: &mut [u32], p: usize, sum: u32)
    requires { (p < max_nodes) × (2 * p + 2 ≤ length keys.old) }
    ensures { KeysPut p sum keys.old keys.new }
{
    let a = 2 * p;
    keys[a] = sum;
    keys[a + 1] = sum.wrapping_add(rows::cube_of(p));
}

// Every node leads: its own number stands at its place.
fn lead_all(least: &mut [u16; Graph::NODES], n: usize)
    requires { n ≤ max_nodes }
    ensures { AllLead n least.new }
{
    for p in 0..n {
        least[p] = p as u16;
    }
}

// The keys that an edge table demands, eight bits at a time.
fn sum_dense(edges: Edges, keys: &mut [u32])
    requires { Within edges.n edges.words.now × (length keys.old ≡ 2 * edges.n) }
    ensures { keys.new ≡ keys_of (graph_in edges.entry.n edges.entry.words.now) }
{
    let mut least = [0u16; Graph::NODES];
    lead_all(&mut least, edges.n);
    let mut totals = [0u32; Graph::NODES];
    sum_leaders(edges, &least, 1, &mut totals);
    for p in 0..edges.n {
        put_keys(keys, p, totals[p]);
    }
}

// The keys that an edge table demands, bit by bit.
fn sum_each(edges: Edges, keys: &mut [u32])
    requires { Within edges.n edges.words.now × (length keys.old ≡ 2 * edges.n) }
    ensures { keys.new ≡ keys_of (graph_in edges.entry.n edges.entry.words.now) }
{
    for p in 0..edges.n {
        put_keys(keys, p, sum_row(edges, p));
    }
}

// The keys that an edge table demands.
pub fn sum_rows(edges: &[u64], keys: &mut [u32], n: usize)
    requires { Within n edges.now × (length keys.old ≡ 2 * n) }
    ensures { keys.new ≡ keys_of (graph_in n edges.now) }
{
    let table = Edges { n, words: edges };
    if is_dense(edges, n) {
        sum_dense(table, keys);
        return;
    }
    sum_each(table, keys);
}
