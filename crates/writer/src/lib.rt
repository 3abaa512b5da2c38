// The release file, written from the least members of the groups, the classes and the edges into a lent buffer.
#![tactic(auto)]

ghost use Rattle.std.specs.Prelude.{◌≡◌, [], ◌∷◌, ◌+◌, ◌*◌, ◌-◌, ◌≤◌, ◌<◌, count_by, length, nat_lt, take};
ghost use Rattle.std.specs.Int.Count.{ones};
ghost use Rattle.model.specs.Graph.{max_nodes, row_words};
ghost use Rattle.model.specs.Tables.{edge_bit};
ghost use Rattle.model.specs.Release.{head_record, superedge_record, u16, u16_limit};
ghost use Rattle.rows.specs.Rows.{Words, leads};
ghost use Rattle.buffers.specs.Wrote.{Wrote};
ghost use Rattle.buffers.specs.Scan.{scan};
ghost use Rattle.layout.specs.File.{Ahead, NextLinked, Partition, Rows, chain, file_nodes, file_of, first_two, group_bytes, group_mark, groups_bytes, in_group, later, leaders_of, superedge_bytes, superedge_total, superedges_to, u16_bytes, written_file};
ghost use Rattle.layout.specs.Words.{AscendingLeaders, LeaderPlaces, LeaderSet, Rowed, later_word, marked_edge, positions_of};
ghost use Rattle.writer.specs.Written.{SizesTold, released_by};

use answers::Refusal;
use rows::Graph;

// The mark, the count and the class before the members of a group.
const GROUP_HEAD: usize = 6;

// The greatest node that there can be.
const LAST: usize = Graph::NODES - 1;

// Two bytes, as those of a mark; the place after them.
fn put_two(out: &mut [u8], at: usize, bytes: &[u8; 2]) -> usize
    requires { at + 2 ≤ length out.old }
    ensures { Wrote out.old at bytes.now out.new result }
{
    // One by one: `copy_from_slice` compares addresses for each superedge, and a release takes a tenth more time.
    out[at] = bytes[0];
    out[at + 1] = bytes[1];
    at + 2
}

// A number of 16 bits, low byte first; the place after it.
fn put_u16(out: &mut [u8], at: usize, v: usize) -> usize
    requires { (v < u16_limit) × (at + 2 ≤ length out.old) }
    ensures { Wrote out.old at (u16 v) out.new result }
{
    put_two(out, at, &(v as u16).to_le_bytes())
}

// The head: nodes n, visible nodes m, groups g.
fn write_head(out: &mut [u8], at: usize, n: usize, m: usize, g: usize) -> usize
    requires { (n < u16_limit) × (m < u16_limit) × (g < u16_limit) × (at + 8 ≤ length out.old) }
    ensures { Wrote out.old at (head_record n m g) out.new result }
{
    let a = put_two(out, at, b"HD");
    let b = put_u16(out, a, n);
    let c = put_u16(out, b, m);
    put_u16(out, c, g)
}

fn put_group_mark(out: &mut [u8], at: usize, clique: bool) -> usize
    requires { at + 2 ≤ length out.old }
    ensures { Wrote out.old at (group_mark clique) out.new result }
{
    if clique {
        return put_two(out, at, b"GC");
    }
    put_two(out, at, b"GI")
}

fn put_superedge(out: &mut [u8], at: usize, i: usize, j: usize) -> usize
    requires { (i < u16_limit) × (j < u16_limit) × (at + 6 ≤ length out.old) }
    ensures { Wrote out.old at (superedge_record (i, j)) out.new result }
{
    let a = put_two(out, at, b"SE");
    let b = put_u16(out, a, i);
    put_u16(out, b, j)
}

// The groups as they are written: each node's next member, the classes, and the rows of n nodes.
#[derive(Clone, Copy)]
struct Groups<'a> {
    n: usize,
    next: &'a [u16],
    classes: &'a [u16],
    edges: &'a [u64],
    ghost ahead: { Ahead n next.now },
    ghost rows: { row_words * n ≤ length edges.now },
    ghost classed: { n ≤ length classes.now },
}

impl<'a> Groups<'a> {
    // The members of a group from `first` on.
    fn write_members(self, out: &mut [u8], at: usize, first: usize) -> usize
        requires { at + length (u16_bytes (chain self.n self.next.now self.n first)) ≤ length out.old }
        ensures { Wrote out.old at (u16_bytes (chain self.entry.n self.entry.next.now self.entry.n first)) out.new result }
    {
        let mut to = at;
        let mut q = first;
        while q < self.n {
            to = put_u16(out, to, q);
            q = rows::wide(self.next[q]);
        }
        to
    }

    // The first two members of a group tell whether it is a clique.
    fn is_clique(self, l: usize) -> bool
        requires { l < self.n }
        ensures { result ≡ first_two (edge_bit self.entry.edges.now) (chain self.entry.n self.entry.next.now self.entry.n l) }
    {
        let second = rows::wide(self.next[l]);
        if second < self.n {
            return rows::edge(self.edges, l, second);
        }
        false
    }

    // The group whose least member is l. Its count is known once the members stand.
    fn write_group(self, out: &mut [u8], at: usize, l: usize) -> usize
        requires l_lt_n { l < self.n }
        requires l_in_bounds { at + length (group_bytes (edge_bit self.edges.now) self.classes.now (chain self.n self.next.now self.n l)) ≤ length out.old }
        ensures { Wrote out.old at (group_bytes (edge_bit self.entry.edges.now) self.entry.classes.now (chain self.entry.n self.entry.next.now self.entry.n l)) out.new result }
    {
        let to = self.write_members(out, at + GROUP_HEAD, l);
        let clique = self.is_clique(l);
        let a = put_group_mark(out, at, clique);
        let b = put_u16(out, a, (to - at - GROUP_HEAD) / 2);
        let classes = self.classes;
        put_u16(out, b, rows::wide(classes[l]));
        to
    }

    // The groups, by least member.
    fn write(self, out: &mut [u8], at: usize, leaders: &[u16]) -> usize
        requires rows { Rows self.n self.edges.now leaders.now }
        requires leaders_in_bounds { at + length (groups_bytes (edge_bit self.edges.now) self.classes.now (chain self.n self.next.now self.n) leaders.now) ≤ length out.old }
        ensures { Wrote out.old at (groups_bytes (edge_bit self.entry.edges.now) self.entry.classes.now (chain self.entry.n self.entry.next.now self.entry.n) leaders.now) out.new result }
    {
        let mut to = at;
        for l in leaders {
            to = self.write_group(out, to, rows::wide(*l));
        }
        to
    }
}

// Of the word that holds node q's bit, the nodes from q on that are in the set and have an edge to p.
fn later_word(edges: &[u64], set: &[u64; Graph::ROW_WORDS], p: usize, q: usize) -> u64
    requires { (p < max_nodes) × (q < max_nodes) × (row_words * p + row_words ≤ length edges.now) }
    ensures { result ≡ later_word edges.now set.now p q }
{
    let t = rows::bit_of(q);
    ((set[rows::word_of(q)] & edges[rows::place(p, q)]) >> t) << t
}

// The superedges of the i-th group to the groups of the nodes b + k, for the bits k of a word, lowest first.
fn write_word(out: &mut [u8], at: usize, position: &[u16], i: usize, b: usize, x: u64) -> usize
    requires i_lt_u16limit { (i < u16_limit) × (b + 64 ≤ length position.now) }
    requires x_in_bounds { at + length (superedges_to i (positions_of position.now b x)) ≤ length out.old }
    ensures { Wrote out.old at (superedges_to i (positions_of position.now b x)) out.new result }
{
    let mut to = at;
    let mut rest = x;
    while rest != 0 {
        let z = u64::trailing_zeros(rest) as usize;
        to = put_superedge(out, to, i, rows::wide(position[b + z]));
        rest = rest & (rest - 1);
    }
    to
}

// A count and the bits of a word, of which most have none.
fn add_ones(count: usize, x: u64) -> usize
    requires { count ≤ max_nodes }
    ensures { result ≡ count + ones x }
{
    if x == 0 {
        return count;
    }
    count + u64::count_ones(x) as usize
}

// The nodes of a set, from word `from` on, that have an edge to p.
fn count_words(edges: &[u64], set: &[u64; Graph::ROW_WORDS], p: usize, from: usize) -> usize
    requires { (p < max_nodes) × (from ≤ row_words) × (row_words * p + row_words ≤ length edges.now) × Words set.now }
    ensures { result ≡ length (scan (marked_edge edges.now set.now p) max_nodes (64 * from)) }
{
    let a = Graph::ROW_WORDS * p;
    let mut count: usize = 0;
    for w in from..Graph::ROW_WORDS {
        count = add_ones(count, set[w] & edges[a + w]);
    }
    count
}

// The leaders of the groups, ascending, in a list and as a set of bits, and the rows that tell the superedges between them.
#[derive(Clone, Copy)]
struct Leaders<'a> {
    list: &'a [u16],
    set: &'a [u64; Graph::ROW_WORDS],
    edges: &'a [u64],
    ghost rowed: { Rowed edges.now list.now },
    ghost marked: { LeaderSet list.now set.now },
}

impl<'a> Leaders<'a> {
    // The superedges of the i-th group to later groups.
    fn count_later(self, i: usize) -> usize
        requires { i < length self.list.now }
        ensures { result ≡ length (later (edge_bit self.entry.edges.now) self.entry.list.now i) }
    {
        let p = rows::wide(self.list[i]);
        if p == LAST {
            return 0;
        }
        let first = add_ones(0, later_word(self.edges, self.set, p, p + 1));
        first + count_words(self.edges, self.set, p, rows::word_of(p + 1) + 1)
    }

    // All superedges.
    fn count_superedges(self) -> usize
        ensures { (result ≡ superedge_total (edge_bit self.entry.edges.now) self.entry.list.now) × (result ≤ max_nodes * max_nodes) }
    {
        let mut count: usize = 0;
        for i in 0..self.list.len() {
            count += self.count_later(i);
        }
        count
    }

    // The superedges of the i-th group to later groups, word by word of its leader's row.
    fn write_later(self, out: &mut [u8], at: usize, position: &[u16], i: usize) -> usize
        requires places { LeaderPlaces self.list.now position.now }
        requires i_in_bounds { i < length self.list.now }
        requires i_in_bounds_2 { at + length (superedges_to i (later (edge_bit self.edges.now) self.list.now i)) ≤ length out.old }
        ensures { Wrote out.old at (superedges_to i (later (edge_bit self.entry.edges.now) self.entry.list.now i)) out.new result }
    {
        let p = rows::wide(self.list[i]);
        let mut to = at;
        // q goes from p + 1 to the first node of each later word, and no range counts that.
        let mut q = p + 1;
        while q < Graph::NODES {
            let w = rows::word_of(q);
            let x = later_word(self.edges, self.set, p, q);
            to = write_word(out, to, position, i, 64 * w, x);
            q = 64 * w + 64;
        }
        to
    }

    // All superedges, by first, then second position.
    fn write_superedges(self, out: &mut [u8], at: usize, position: &[u16]) -> usize
        requires places { LeaderPlaces self.list.now position.now }
        requires leaders_in_bounds { at + length (superedge_bytes (edge_bit self.edges.now) self.list.now) ≤ length out.old }
        ensures { Wrote out.old at (superedge_bytes (edge_bit self.entry.edges.now) self.entry.list.now) out.new result }
    {
        let mut to = at;
        for i in 0..self.list.len() {
            to = self.write_later(out, to, position, i);
        }
        to
    }
}

// The visible nodes.
fn count_visible(least: &[u16], n: usize) -> usize
    requires { n ≤ length least.now }
    ensures { result ≡ count_by (λ l. nat_lt l n) (take n least.now) }
{
    least[..n].iter().filter(|l| rows::wide(**l) < n).count()
}

// The least members of the groups, ascending; how many.
fn collect_leaders(least: &[u16], n: usize, leaders: &mut [u16]) -> usize
    requires { (n ≤ max_nodes) × (n ≤ length least.now) × (n ≤ length leaders.old) }
    ensures { Wrote leaders.old 0 (scan (leads least.now) n 0) leaders.new result }
{
    let mut g: usize = 0;
    for p in 0..n {
        if rows::wide(least[p]) == p {
            leaders[g] = p as u16;
            g += 1;
        }
    }
    g
}

// The least members as a set of bits.
fn leader_set(least: &[u16], n: usize) -> [u64; Graph::ROW_WORDS]
    requires { (n ≤ max_nodes) × (n ≤ length least.now) }
    ensures { LeaderSet (leaders_of n least.now) result }
{
    layout::set_of(n, |p| rows::wide(least[p]) == p)
}

// The position of each leader.
fn positions_of(leaders: &[u16]) -> [u16; Graph::NODES]
    requires { AscendingLeaders leaders.now }
    ensures { LeaderPlaces leaders.now result }
{
    let mut position = [0u16; Graph::NODES];
    for (i, l) in leaders.iter().enumerate() {
        position[rows::wide(*l)] = i as u16;
    }
    position
}

// The next greater member of each node's group, NONE after the last and at nodes of no group.
fn link(least: &[u16], n: usize, next: &mut [u16])
    requires { (n ≤ max_nodes) × (n ≤ length least.now) × (n ≤ length next.old) }
    ensures { NextLinked n least.now next.new }
{
    let mut head = [Graph::NONE; Graph::NODES];
    for p in (0..n).rev() {
        let l = rows::wide(least[p]);
        if l < n {
            next[p] = head[l];
            head[l] = p as u16;
        } else {
            next[p] = Graph::NONE;
        }
    }
}

// The whole file into a buffer that is long enough; the place after it.
fn write_file(
    n: usize,
    m: usize,
    least: &[u16],
    classes: &[u16],
    leaders: Leaders<'_>,
    out: &mut [u8],
) -> usize
    requires partition { Partition n least.now leaders.edges.now × (n ≤ length classes.now) }
    requires leaders_value { leaders.list.now ≡ leaders_of n least.now }
    requires m_value { m ≡ file_nodes n least.now }
    requires edges_in_bounds { length (file_of n least.now classes.now leaders.edges.now) ≤ length out.old }
    ensures { Wrote out.old 0 (file_of n least.now classes.now leaders.entry.edges.now) out.new result }
{
    let mut next = [Graph::NONE; Graph::NODES];
    link(least, n, &mut next);
    let position = positions_of(leaders.list);
    let groups = Groups {
        n,
        next: &next,
        classes,
        edges: leaders.edges,
    };
    let a = write_head(out, 0, n, m, leaders.list.len());
    let b = groups.write(out, a, leaders.list);
    let c = leaders.write_superedges(out, b, &position);
    put_two(out, c, b"EN")
}

// What is known of a file before its first byte: document 01's m, g and s, the length, and the least members as a set of bits.
#[derive(Clone, Copy)]
pub struct Sizes {
    pub nodes: usize,
    pub groups: usize,
    pub superedges: usize,
    pub bytes: usize,
    pub set: [u64; Graph::ROW_WORDS],
}

// A file measured, and the least members in a list.
fn measure(n: usize, least: &[u16], edges: &[u64], leaders: &mut [u16]) -> Sizes
    requires { Partition n least.now edges.now × (length leaders.old ≡ max_nodes) }
    ensures { SizesTold n least.now edges.now leaders.new result }
{
    let g = collect_leaders(least, n, leaders);
    let set = leader_set(least, n);
    let m = count_visible(least, n);
    let told = Leaders {
        list: &leaders[..g],
        set: &set,
        edges,
    };
    let s = told.count_superedges();
    Sizes {
        nodes: m,
        groups: g,
        superedges: s,
        bytes: 10 + GROUP_HEAD * g + 2 * m + 6 * s,
        set,
    }
}

// What a release returns: document 01's m, g and s, and the length.
#[derive(Clone, Copy, Debug, Default, PartialEq, Eq)]
pub struct Written {
    pub nodes: u16,
    pub groups: u16,
    pub superedges: u32,
    pub bytes: u32,
}

// The release file into a lent buffer; nothing is written if the buffer is too short.
pub fn write(
    n: usize,
    least: &[u16],
    classes: &[u16],
    edges: &[u64],
    out: &mut [u8],
) -> Result<Written, Refusal>
    requires { Partition n least.now edges.now × (n ≤ length classes.now) }
    ensures { released_by result out.new ≡ written_file n least.now classes.now edges.now out.old }
{
    let mut leaders = [0u16; Graph::NODES];
    let measured = measure(n, least, edges, &mut leaders);
    if out.len() < measured.bytes {
        return Err(Refusal::ShortBuffer);
    }
    let told = Leaders {
        list: &leaders[..measured.groups],
        set: &measured.set,
        edges,
    };
    write_file(n, measured.nodes, least, classes, told, out);
    Ok(Written {
        nodes: measured.nodes as u16,
        groups: measured.groups as u16,
        superedges: measured.superedges as u32,
        bytes: measured.bytes as u32,
    })
}
