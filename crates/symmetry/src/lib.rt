// Whether an edge table is symmetric: by strips of 64 rows, each transposed and held against the words across the diagonal.
#![tactic(auto)]

ghost use Rattle.std.specs.Prelude.{◌≡◌, false, List, ℕ, ◌+◌, ◌*◌, ◌/◌, ◌≤◌, ◌<◌, length, replicate};
ghost use Rattle.model.specs.Graph.{max_nodes, row_words};
ghost use Rattle.model.specs.Tables.{edge_bit};
ghost use Rattle.symmetry.specs.Symmetry.{
  Across,
  Crossed,
  EightPut,
  EightTaken,
  Even,
  Exchanged,
  Exchanging,
  Gathered,
  HalvesCrossed,
  Inside,
  StripAt,
  Tells,
  Turned,
  Zeros,
  symmetric,
};

use lent::Edges;
use rows::Graph;

// The words of a strip.
pub const STRIP: usize = 512;

// Rows x and y with their number, 0 or 1, and digit k of the columns exchanged. The mask has the columns where that digit is 0.
fn cross(x: u64, y: u64, k: usize, mask: u64) -> (u64, u64)
    requires { (k < 6) × Zeros k mask }
    ensures { Crossed k x y 0 result.0 × Crossed k x y 1 result.1 }
{
    let j = 1usize << k;
    let t = ((x >> j) ^ y) & mask;
    (x ^ (t << j), y ^ t)
}

// The upper digit of the numbers of eight rows and digit k of the columns exchanged; it comes to be the lower one.
fn cross_halves(x: [u64; 8], k: usize, mask: u64) -> [u64; 8]
    requires { (k < 6) × Zeros k mask }
    ensures { HalvesCrossed k x result }
{
    let a = cross(x[0], x[4], k, mask);
    let b = cross(x[1], x[5], k, mask);
    let c = cross(x[2], x[6], k, mask);
    let d = cross(x[3], x[7], k, mask);
    [a.0, a.1, b.0, b.1, c.0, c.1, d.0, d.1]
}

// Byte d of row e is byte e of row d.
fn exchange_bytes(x: [u64; 8]) -> [u64; 8]
    ensures { Exchanged 3 x result }
{
    let y = cross_halves(x, 5, 0x00000000FFFFFFFF);
    let z = cross_halves(y, 4, 0x0000FFFF0000FFFF);
    cross_halves(z, 3, 0x00FF00FF00FF00FF)
}

// In each byte: bit d of row e is bit e of row d.
fn exchange_bits(x: [u64; 8]) -> [u64; 8]
    ensures { Exchanged 0 x result }
{
    let y = cross_halves(x, 2, 0x0F0F0F0F0F0F0F0F);
    let z = cross_halves(y, 1, 0x3333333333333333);
    cross_halves(z, 0, 0x5555555555555555)
}

fn eight_at(a: &[u64], at: usize, step: usize) -> [u64; 8]
    requires { (step ≤ 64) × (at + step * 7 < length a.now) × (length a.now ≡ 512) }
    ensures { EightTaken a.now at step 8 result }
{
    std::array::from_fn(|d| a[at + step * d])
}

fn put_eight(b: &mut [u64; STRIP], at: usize, step: usize, x: [u64; 8])
    requires { (0 < step) × (step ≤ 64) × (at + step * 7 < length b.old) }
    ensures { EightPut at step 8 x b.old b.new }
{
    for (d, y) in x.iter().enumerate() {
        b[at + step * d] = *y;
    }
}

// The rows k, k + 8, .. of a strip, words from..to.
fn turn_bytes_at(a: &[u64], b: &mut [u64; STRIP], k: usize, from: usize, to: usize)
    requires { (length a.now ≡ 512) × (k < 8) × (from ≤ to) × (to ≤ 8) }
    ensures { (prior : List ℕ) → Exchanging 8 64 3 from to a.now prior (8 * k + from) b.old → Exchanging 8 64 3 from to a.now prior (8 * k + to) b.new }
{
    for t in 8 * k + from..8 * k + to {
        put_eight(b, t, 64, exchange_bytes(eight_at(a, t, 64)));
    }
}

fn turn_bytes(a: &[u64], b: &mut [u64; STRIP], from: usize, to: usize)
    requires { (length a.now ≡ 512) × (from ≤ to) × (to ≤ 8) }
    ensures { Exchanging 8 64 3 from to a.now b.old 64 b.new }
{
    for k in 0..8 {
        turn_bytes_at(a, b, k, from, to);
    }
}

// The rows 8 * k, 8 * k + 1, .. of a strip, words from..to.
// It reads the words that it writes, so one body for it and `turn_bytes_at` takes a trait with two impls, which is no plainer.
fn turn_bits_at(b: &mut [u64; STRIP], k: usize, from: usize, to: usize)
    requires { (k < 8) × (from ≤ to) × (to ≤ 8) }
    ensures { (prior : List ℕ) → Exchanging 64 8 0 from to prior prior (64 * k + from) b.old → Exchanging 64 8 0 from to prior prior (64 * k + to) b.new }
{
    for t in 64 * k + from..64 * k + to {
        let x = exchange_bits(eight_at(b, t, 8));
        put_eight(b, t, 8, x);
    }
}

fn turn_bits(b: &mut [u64; STRIP], from: usize, to: usize)
    requires { (from ≤ to) × (to ≤ 8) }
    ensures { Exchanging 64 8 0 from to b.old b.old 512 b.new }
{
    for k in 0..8 {
        turn_bits_at(b, k, from, to);
    }
}

// Words from..to of a strip of 64 rows, rows and columns exchanged; two words side by side are one step.
pub fn turn(strip: &[u64], b: &mut [u64; STRIP], from: usize, to: usize)
    requires { (length strip.now ≡ 512) × (from ≤ to) × (to ≤ 8) }
    ensures { Turned strip.now from to b.new }
{
    let u = 2 * (from >> 1);
    let v = 2 * ((to + 1) >> 1);
    turn_bytes(strip, b, u, v);
    turn_bits(b, u, v);
}

// The words from `at` on, before zeros. The strip is lent: handed back by value it is copied once more.
fn load(edges: &[u64], at: usize, strip: &mut [u64; STRIP])
    requires { (at ≤ length edges.now) × (length edges.now ≤ at + 512) × (strip.old ≡ replicate 512 0) }
    ensures { StripAt edges.now at strip.new }
{
    let rest = &edges[at..];
    strip[..rest.len()].copy_from_slice(rest);
}

// The columns of words from i on in the rows of strip i, of which the last may be missing.
fn turn_strip(edges: Edges, i: usize, to: usize, b: &mut [u64; STRIP])
    requires { (64 * i < edges.n) × (i ≤ to) × (to ≤ 8) }
    ensures { Across edges.entry.words.now i i to b.new }
{
    let words = edges.words;
    let a = STRIP * i;
    if a + STRIP <= words.len() {
        turn(&words[a..a + STRIP], b, i, to);
        return;
    }
    let mut strip = [0u64; STRIP];
    load(words, a, &mut strip);
    turn(&strip, b, i, to);
}

// How many rows strip i has.
fn rows_of(n: usize, i: usize) -> usize
    requires { (n ≤ max_nodes) × (64 * i < n) }
    ensures { (result ≤ 64) × (64 * i + result ≤ n) × ((q : ℕ) → q < n → 64 * i ≤ q → q < 64 * i + 64 → q < 64 * i + result) }
{
    (n - 64 * i).min(64)
}

// The bits that stand in any of m words. The loop is not left early.
#[inline]
fn united<F: Fn(usize) -> u64>(m: usize, word: F) -> u64
    requires { (r : ℕ) → r < m → F.pre word r }
    ensures { (f : ℕ → ℕ) → ((r y : ℕ) → r < m → F.post word r y → y ≡ f r) → (k : ℕ) → Gathered f k m result }
{
    let mut x = 0u64;
    for r in 0..m {
        x |= word(r);
    }
    x
}

// Whether the columns of word w in the rows of strip i are word i of the rows that they stand for.
fn is_across(edges: Edges, i: usize, w: usize, b: &[u64; STRIP]) -> bool
    requires { (64 * w < edges.n) × (i ≤ w) × Across edges.words.now i w (w + 1) b.now }
    ensures { Tells (Even edges.entry.n edges.entry.words.now i w (w + 1)) edges.entry.words.now result }
{
    let m = rows_of(edges.n, w);
    united(
        m,
        |c| b[Graph::ROW_WORDS * c + w] ^ edges.word(64 * w + c, i),
    ) == 0
}

fn are_across(edges: Edges, i: usize, to: usize, b: &[u64; STRIP]) -> bool
    requires { (64 * to < edges.n + 64) × (i ≤ to) × Across edges.words.now i i to b.now }
    ensures { Tells (Even edges.entry.n edges.entry.words.now i i to) edges.entry.words.now result }
{
    for w in i..to {
        if !is_across(edges, i, w, b) {
            return false;
        }
    }
    true
}

// Whether the bits from the diagonal on have their mirrors.
fn are_strips_even(edges: Edges) -> bool
    ensures { Tells ((i : ℕ) → 64 * i < edges.entry.n → Even edges.entry.n edges.entry.words.now i i ((edges.entry.n + 63) / 64)) edges.entry.words.now result }
{
    let mut b = [0u64; STRIP];
    let to = rows::word_of(edges.n + 63);
    for i in 0..to {
        turn_strip(edges, i, to, &mut b);
        if !are_across(edges, i, to, &b) {
            return false;
        }
    }
    true
}

// Whether word w of no row has a bit from bit k on.
fn is_word_below(edges: Edges, w: usize, k: usize) -> bool
    requires { (w < 8) × (k < 64) × (edges.n ≤ 64 * w + k) }
    ensures { Tells ((p c : ℕ) → p < edges.entry.n → k ≤ c → c < 64 → edge_bit edges.entry.words.now p (64 * w + c) ≡ false) edges.entry.words.now result }
{
    united(edges.n, |p| edges.word(p, w)) >> k == 0
}

// The first bit of word w that stands for no node: n's own in its word, the lowest after that.
fn first_beyond(n: usize, w: usize) -> usize
    requires { n / 64 ≤ w }
    ensures { (result < 64) × (n ≤ 64 * w + result) × ((q : ℕ) → n ≤ q → 64 * w ≤ q → 64 * w + result ≤ q) }
{
    if w == rows::word_of(n) {
        return rows::bit_of(n);
    }
    0
}

// Whether no bit stands for a number n or above.
fn is_inside(edges: Edges) -> bool
    ensures { Tells (Inside edges.entry.n edges.entry.words.now) edges.entry.words.now result }
{
    for w in rows::word_of(edges.n)..Graph::ROW_WORDS {
        if !is_word_below(edges, w, first_beyond(edges.n, w)) {
            return false;
        }
    }
    true
}

// Whether every bit has its mirror.
pub fn is_symmetric(edges: Edges) -> bool
    ensures { result ≡ symmetric edges.entry.words.now }
{
    if !is_inside(edges) {
        return false;
    }
    are_strips_even(edges)
}
