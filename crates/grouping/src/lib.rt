// The groups of the visible nodes, where hidden ones have no edges, and whether groups are apart: by chains of leaders whose rows have one hash.
#![tactic(auto)]

ghost use Rattle.std.specs.Prelude.{◌≡◌, ℕ, ◌+◌, ◌*◌, ◌<◌, ◌≤◌, Bool, true, false, List, length};
ghost use Rattle.model.specs.Graph.{max_nodes, row_words};
ghost use Rattle.rows.specs.Rows.{Words};
ghost use Rattle.layout.specs.Truth.{Truth};
ghost use Rattle.masking.specs.Masking.{Apart, drawn, shown};
ghost use Rattle.search.specs.Search.{row_in};
ghost use Rattle.compressed.specs.Compressed.{apart};
ghost use Rattle.grouping.specs.Least.{least_visible};
ghost use Rattle.grouping.specs.Chains.{Chains, Entered, Links, Met, SlotsTell, Sought, class_alike, classed_slot, hash_of, own_rotated, rotated, row_slot, slot_for, slot_in, slot_in_class, slots, unrotated};
ghost use Rattle.grouping.specs.Parted.{New, Parted, apart_at};
ghost use Rattle.grouping.specs.Slots.{SumsTold, group_slot, row_sum};

use compressed::{CLIQUE, INDEPENDENT};
use rows::Graph;

pub mod keyed;

// Rows are hashed into so many slots.
const SLOTS: usize = 1024;

// The words of p's row added up bit by bit, what is there rotated before each.
fn sum_rotated(edges: &[u64], p: usize) -> u64
    requires { (p < max_nodes) × (row_words * p + row_words ≤ length edges.now) }
    ensures { result ≡ hash_of rotated edges.now false p row_words }
{
    let a = Graph::ROW_WORDS * p;
    edges[a..a + Graph::ROW_WORDS]
        .iter()
        .fold(0, |h, word| ((h << 9) ^ (h >> 55)) ^ *word)
}

// The same without rotation.
fn sum_plain(edges: &[u64], p: usize) -> u64
    requires { (p < max_nodes) × (row_words * p + row_words ≤ length edges.now) }
    ensures { result ≡ hash_of unrotated edges.now false p row_words }
{
    let a = Graph::ROW_WORDS * p;
    edges[a..a + Graph::ROW_WORDS]
        .iter()
        .fold(0, |h, word| h ^ *word)
}

// Node p's own bit where the rotations of the hash leave it: no look at an edge.
fn own_rotated(p: usize) -> u64
    requires { p < max_nodes }
    ensures { result ≡ own_rotated p }
{
    rows::mask(p + 63 - 9 * rows::word_of(p))
}

// A slot for a word, by its halves.
fn slot_in(y: u64) -> usize
    ensures { result ≡ slot_in y }
{
    let z = ((y % 4294967296) * 2654435769) ^ ((y >> 32) * 2246822519);
    ((z >> 20) as usize) % SLOTS
}

// A slot for the two sums of a row.
fn slot_for(h: u64, k: u64) -> usize
    ensures { result ≡ slot_for h k }
{
    slot_in((h ^ (k >> 5)) ^ (k >> 23))
}

// The slot of p's row, of the open or of the closed one, which has p's own bit too.
fn slot_of(edges: &[u64], closed: bool, p: usize) -> usize
    requires { (p < max_nodes) × (row_words * p + row_words ≤ length edges.now) }
    ensures { result ≡ row_slot edges.now closed p }
{
    let h = sum_rotated(edges, p);
    let k = sum_plain(edges, p);
    if closed {
        return slot_for(h ^ own_rotated(p), k ^ rows::mask(p));
    }
    slot_for(h, k)
}

// A slot moved by a class, so that equal rows of many classes do not make one chain.
fn slot_in_class(s: usize, class: u16) -> usize
    requires { s < slots }
    ensures { result ≡ slot_in_class s class }
{
    (s + 167 * rows::wide(class)) % SLOTS
}

// The slot of u's row, of the open or of the closed one, by its sum of cubes.
fn slot_by_sum(sums: &[u32], closed: bool, u: usize) -> usize
    requires { (u < max_nodes) × (length sums.now ≡ 2 * max_nodes) }
    ensures { result ≡ slot_in (row_sum sums.now closed u) }
{
    if closed {
        return slot_in(sums[u].wrapping_add(sums[Graph::NODES + u]) as u64);
    }
    slot_in(sums[u] as u64)
}

// Leaders chained by slots, all counted from 1: the last in each slot, and before each leader the one before it in its slot.
// A 0 is none: an Option beside each number would double the tables.
#[derive(Drop)]
struct Leaders {
    last: [u16; SLOTS],
    earlier: [u16; Graph::NODES],
}

impl Leaders {
    // The leader below u of u's class, in the chain of slot s, whose row agrees with u's.
    fn find(
        &self,
        edges: &[u64],
        classes: &[u16],
        closed: bool,
        u: usize,
        s: usize,
        row: &[u64],
    ) -> Option<usize>
        requires { (u < max_nodes) × (row_words * u + row_words ≤ length edges.now) × (u < length classes.now) × (s < slots) × Links u self.now × (row.now ≡ row_in edges.now u) }
        ensures { (slot : ℕ → ℕ) (leads : ℕ → Bool) → slot u ≡ s → Chains slot leads u self.now → Met slot leads (class_alike edges.now classes.now closed u) u result }
    {
        let class = classes[u];
        let mut c = rows::wide(self.last[s]);
        'groups: while c != 0 {
            let q = c - 1;
            c = rows::wide(self.earlier[q]);
            if classes[q] != class {
                continue 'groups;
            }
            let a = Graph::ROW_WORDS * q;
            let other = &edges[a..a + Graph::ROW_WORDS];
            for i in 0..Graph::ROW_WORDS {
                if row[i] ^ other[i] != search::own_bits(closed, u, q, i) {
                    continue 'groups;
                }
            }
            return Some(q);
        }
        None
    }

    // What `find` finds; most slots are empty, and then nothing is called.
    fn find_in_slot(
        &self,
        edges: &[u64],
        classes: &[u16],
        closed: bool,
        u: usize,
        s: usize,
        row: &[u64],
    ) -> Option<usize>
        requires { (u < max_nodes) × (row_words * u + row_words ≤ length edges.now) × (u < length classes.now) × (s < slots) × Links u self.now × (row.now ≡ row_in edges.now u) }
        ensures { (slot : ℕ → ℕ) (leads : ℕ → Bool) → slot u ≡ s → Chains slot leads u self.now → Met slot leads (class_alike edges.now classes.now closed u) u result }
    {
        if self.last[s] == 0 {
            return None;
        }
        self.find(edges, classes, closed, u, s, row)
    }

    // u put into the chain of slot s if it leads, that is if l is u.
    fn enter(&mut self, s: usize, u: usize, l: usize)
        requires { (u < max_nodes) × (s < slots) × Links u self.old }
        ensures { Entered u s l self.old self.new }
    {
        if l == u {
            self.earlier[u] = self.last[s];
            self.last[s] = (u + 1) as u16;
        }
    }
}

// The slots that a node is sought in, and who is visible.
trait Slots {
    ghost marks: { Self → List ℕ };

    ghost told: { Self → Bool → ℕ → ℕ };

    ghost reaches: { Self → ℕ → Type 0 };

    fn is_visible(&self, u: usize) -> bool
        requires { reaches self.now u }
        ensures { result ≡ shown (marks self.now) u };

    // The slot of u's row, of the open or of the closed one.
    fn slot(&self, closed: bool, u: usize) -> usize
        requires { reaches self.now u }
        ensures told { result ≡ told self.now closed u }
        ensures small { result < slots };
}

// Slots by the words of rows, where nodes may be hidden.
#[derive(Clone, Copy)]
struct Rows<'a> {
    edges: &'a [u64],
    hidden: &'a [u16],
}

impl<'a> Slots for Rows<'a> {
    ghost marks = { λ s. s.hidden.now };

    ghost told = { λ s. row_slot s.edges.now };

    ghost reaches = { λ s u. (u < max_nodes) × (row_words * u + row_words ≤ length s.edges.now) × (u < length s.hidden.now) };

    fn is_visible(&self, u: usize) -> bool {
        masking::is_visible(self.hidden, u)
    }

    fn slot(&self, closed: bool, u: usize) -> usize {
        slot_of(self.edges, closed, u)
    }
}

// The least member of u's group; for a hidden node a number that no node has.
fn least_of<S: Slots>(
    by: &S,
    edges: &[u64],
    classes: &[u16],
    n: usize,
    opens: &Leaders,
    closeds: &Leaders,
    u: usize,
    a: usize,
    b: usize,
) -> usize
    requires apart { Apart n edges.now (S.marks by.now) classes.now × Sought (classed_slot classes.now (S.told by.now)) n edges.now (S.marks by.now) classes.now u opens.now closeds.now × (u < n) }
    requires reached { S.reaches by.now u × SlotsTell edges.now classes.now (classed_slot classes.now (S.told by.now)) u }
    requires a_value { (a ≡ classed_slot classes.now (S.told by.now) false u) × (b ≡ classed_slot classes.now (S.told by.now) true u) }
    ensures { result ≡ least_visible (drawn n edges.now (S.marks by.now) classes.now) u }
{
    if !by.is_visible(u) {
        return rows::wide(Graph::NONE);
    }
    let r = Graph::ROW_WORDS * u;
    let row = &edges[r..r + Graph::ROW_WORDS];
    if let Some(l) = opens.find_in_slot(edges, classes, false, u, a, row) {
        return l;
    }
    closeds
        .find_in_slot(edges, classes, true, u, b, row)
        .unwrap_or(u)
}

// The least members of the groups of the visible nodes, which alone have edges. Chains of leaders are kept on the way.
fn group<S: Slots>(by: &S, edges: &[u64], classes: &[u16], n: usize, least: &mut [u16])
    requires { Apart n edges.now (S.marks by.now) classes.now × (n ≤ length least.old) × ((u : ℕ) → u < n → S.reaches by.now u × SlotsTell edges.now classes.now (classed_slot classes.now (S.told by.now)) u) }
    ensures { Truth (drawn n edges.now (S.marks by.now) classes.now) least.new classes.now edges.now }
{
    let mut opens = Leaders {
        last: [0u16; SLOTS],
        earlier: [0u16; Graph::NODES],
    };
    let mut closeds = Leaders {
        last: [0u16; SLOTS],
        earlier: [0u16; Graph::NODES],
    };
    for u in 0..n {
        let a = slot_in_class(by.slot(false, u), classes[u]);
        let b = slot_in_class(by.slot(true, u), classes[u]);
        let l = least_of(by, edges, classes, n, &opens, &closeds, u, a, b);
        opens.enter(a, u, l);
        closeds.enter(b, u, l);
        least[u] = l as u16;
    }
}

// The least members of the groups of the visible nodes, where hidden nodes have no edges.
pub fn find_groups(edges: &[u64], hidden: &[u16], classes: &[u16], n: usize, least: &mut [u16])
    requires { Apart n edges.now hidden.now classes.now × (n ≤ length least.old) }
    ensures { Truth (drawn n edges.now hidden.now classes.now) least.new classes.now edges.now }
{
    group(&Rows { edges, hidden }, edges, classes, n, least);
}

// Whether a candidate u agrees with none in the chain of slot s, which it then enters. Who is no candidate is passed over.
fn is_new(
    joined: &[u64],
    classes: &[u16],
    chains: &mut Leaders,
    closed: bool,
    candidate: bool,
    u: usize,
    s: usize,
) -> bool
    requires { (u < max_nodes) × (row_words * u + row_words ≤ length joined.now) × (u < length classes.now) × (s < slots) × Links u chains.old }
    ensures { New (class_alike joined.now classes.now closed u) candidate u s chains.old chains.new result }
{
    if !candidate {
        return true;
    }
    let a = Graph::ROW_WORDS * u;
    let row = &joined[a..a + Graph::ROW_WORDS];
    if chains.find(joined, classes, closed, u, s, row).is_some() {
        return false;
    }
    chains.enter(s, u, u);
    true
}

// The groups of a compressed graph. The sums of cubes tell slots where they were kept (few superedges), else the rows do.
#[derive(Clone, Copy)]
struct Groups<'a> {
    joined: &'a [u64],
    least: &'a [u16],
    kinds: &'a [u16],
    classes: &'a [u16],
    few: bool,
    sums: &'a [u32],
}

impl<'a> Groups<'a> {
    // The slot of u's row: by its sum where superedges are few, else by its words.
    fn slot(&self, closed: bool, u: usize) -> usize
        requires { (u < max_nodes) × (row_words * u + row_words ≤ length self.now.joined.now) × (length self.now.sums.now ≡ 2 * max_nodes) }
        ensures { result ≡ group_slot self.now.joined.now self.now.few self.now.sums.now closed u }
    {
        if self.few {
            return slot_by_sum(self.sums, closed, u);
        }
        slot_of(self.joined, closed, u)
    }

    // Whether the group that u leads, if it leads one, could be one with none before it.
    // A clique is no candidate by open rows, an independent group none by closed ones.
    fn is_apart(&self, opens: &mut Leaders, closeds: &mut Leaders, u: usize) -> bool
        requires u_lt_max_nodes { (u < max_nodes) × (row_words * u + row_words ≤ length self.now.joined.now) × (u < length self.now.least.now) × (u < length self.now.kinds.now) × (u < length self.now.classes.now) × (length self.now.sums.now ≡ 2 * max_nodes) × (self.now.few ≡ true → SumsTold self.now.joined.now self.now.sums.now) }
        requires words { Words self.now.joined.now }
        requires parted { Parted (classed_slot self.now.classes.now (group_slot self.now.joined.now self.now.few self.now.sums.now)) self.now.least.now self.now.kinds.now u opens.old closeds.old }
        ensures value { result ≡ apart_at self.now.least.now self.now.kinds.now self.now.classes.now self.now.joined.now u }
        ensures parted_2 { result ≡ true → Parted (classed_slot self.now.classes.now (group_slot self.now.joined.now self.now.few self.now.sums.now)) self.now.least.now self.now.kinds.now (u + 1) opens.new closeds.new }
    {
        if rows::wide(self.least[u]) != u {
            return true;
        }
        let kind = self.kinds[u];
        let a = slot_in_class(self.slot(false, u), self.classes[u]);
        let b = slot_in_class(self.slot(true, u), self.classes[u]);
        if !is_new(
            self.joined,
            self.classes,
            opens,
            false,
            kind != CLIQUE,
            u,
            a,
        ) {
            return false;
        }
        is_new(
            self.joined,
            self.classes,
            closeds,
            true,
            kind != INDEPENDENT,
            u,
            b,
        )
    }
}

// Whether no two groups of a compressed graph could be one. Chains of leaders are kept on the way.
pub fn are_apart(
    joined: &[u64],
    least: &[u16],
    kinds: &[u16],
    classes: &[u16],
    n: usize,
    few: bool,
    sums: &[u32],
) -> bool
    requires { (n ≤ max_nodes) × (row_words * n ≤ length joined.now) × (n ≤ length least.now) × (n ≤ length kinds.now) × (n ≤ length classes.now) × (length sums.now ≡ 2 * max_nodes) × (few ≡ true → SumsTold joined.now sums.now) }
    ensures { result ≡ apart n least.now kinds.now classes.now joined.now }
{
    let groups = Groups {
        joined,
        least,
        kinds,
        classes,
        few,
        sums,
    };
    let mut opens = Leaders {
        last: [0u16; SLOTS],
        earlier: [0u16; Graph::NODES],
    };
    let mut closeds = Leaders {
        last: [0u16; SLOTS],
        earlier: [0u16; Graph::NODES],
    };
    for u in 0..n {
        if !groups.is_apart(&mut opens, &mut closeds, u) {
            return false;
        }
    }
    true
}
