// A release file read record by record into the groups and superedges that it tells.
#![tactic(auto)]

ghost use Rattle.std.specs.Prelude.{◌≡◌, ◌+◌, ◌*◌, ◌≤◌, ◌<◌, IfSome, length, replicate};
ghost use Rattle.model.specs.Graph.{max_nodes, row_words};
ghost use Rattle.rows.specs.Rows.{no_node};
ghost use Rattle.compressed.specs.Compressed.{kind_marked, single};
ghost use Rattle.drawing.specs.Drawing.{Added, pair_bits};
ghost use Rattle.mirroring.specs.Mirroring.{StripsFor};
ghost use Rattle.records.specs.Records.{record_at};
ghost use Rattle.sums.specs.Joined.{SumsAdded};
ghost use Rattle.sums.specs.Sums.{FirstsAreNodes};
ghost use Rattle.reader.specs.Decoding.{AfterHead, BlankGroups, BodyRead, Decodes, FirstsAscend, FirstsPlaced, GroupTaken, GroupsRead, JoinedRead, MembersRead, RunRead, SumsKept, SuperedgesRead, counts_fit, ends_at, is_few, least_count, nodes_in, numbers_at, pair_adds};

use compressed::{CLIQUE, Groups, INDEPENDENT, SINGLE};
use records::{Counts, Read, Record};
use rows::Graph;

// The kind of a group by its mark and count.
#[tactic(auto, unfolding(compressed::specs::Compressed::kind_marked))]
fn kind_of(clique: bool, count: usize) -> u16
    ensures { result ≡ kind_marked clique count }
{
    if clique {
        CLIQUE
    } else if count == 1 {
        SINGLE
    } else {
        INDEPENDENT
    }
}

// A group has a member, a clique two.
#[tactic(auto, unfolding(crate::specs::Decoding::least_count))]
fn least_count(clique: bool) -> usize
    ensures { result ≡ least_count clique }
{
    if clique { 2 } else { 1 }
}

// The members of a group, led by the first: nodes of no group, ascending from `low` on. Each uses up one of the head's members.
fn read_members(
    file: &[u8],
    at: usize,
    count: usize,
    n: usize,
    low: usize,
    counts: Counts,
    least: &mut [u16],
) -> Option<Counts>
    requires { (n ≤ max_nodes) × (0 < count) × (at + 2 * count ≤ length file.now) × (n ≤ length least.old) }
    ensures { MembersRead n low counts (numbers_at file.now at count) least.old least.new result }
{
    let first = records::u16_at(file, at);
    let mut left = counts;
    let mut from = low;
    for k in 0..count {
        let p = records::node_at(file, at + 2 * k);
        if p < from {
            return None;
        }
        if p >= n {
            return None;
        }
        if least[p] != Graph::NONE {
            return None;
        }
        left = left.member()?;
        least[p] = first;
        from = p + 1;
    }
    Some(left)
}

// A group just taken: its kind, its class and first member, the place after it, and what is left of the counts.
#[derive(Clone, Copy)]
struct Taken {
    kind: u16,
    class: u16,
    first: usize,
    next: usize,
    left: Counts,
}

// The group at a place, with its members.
#[tactic(auto, using(crate::specs::GroupLaws::no_record, crate::specs::GroupLaws::other_record, crate::specs::GroupLaws::large_class, crate::specs::GroupLaws::few_members, crate::specs::GroupLaws::no_room, crate::specs::GroupLaws::no_group, crate::specs::GroupLaws::numbers_room, crate::specs::GroupLaws::no_members, crate::specs::GroupLaws::all_members))]
fn take_group(
    file: &[u8],
    at: usize,
    n: usize,
    low: usize,
    counts: Counts,
    least: &mut [u16],
) -> Option<Taken>
    requires { (n ≤ max_nodes) × (n ≤ length least.old) }
    ensures taken { GroupTaken n low counts file.now at least.old least.new result }
    ensures first { IfSome result (λ group. group.first < n) }
{
    let read = records::record_at(file, at)?;
    let Record::Group {
        clique,
        count,
        class,
    } = read.item
    else {
        return None;
    };
    if usize::from(class) >= Graph::CLASSES {
        return None;
    }
    let members = usize::from(count);
    if members < least_count(clique) {
        return None;
    }
    let from = read.next;
    if file.len() - from < 2 * members {
        return None;
    }
    let others = counts.group()?;
    let left = read_members(file, from, members, n, low, others, least)?;
    Some(Taken {
        kind: kind_of(clique, members),
        class,
        first: records::node_at(file, from),
        next: from + 2 * members,
        left,
    })
}

// The place after all groups, and what is left of the counts.
#[derive(Clone, Copy)]
struct Rest {
    next: usize,
    left: Counts,
}

// The groups of a file, as many as there is room for their first members, which ascend.
fn read_groups(
    file: &[u8],
    from: usize,
    n: usize,
    counts: Counts,
    groups: &mut Groups,
    firsts: &mut [u16],
) -> Option<Rest>
    requires { (n ≤ max_nodes) × (length firsts.old ≤ max_nodes) × (groups.old.least ≡ replicate max_nodes no_node) × (groups.old.kinds ≡ replicate max_nodes single) × (groups.old.classes ≡ replicate max_nodes 0) }
    ensures read { GroupsRead n (length firsts.new) counts file.now from groups.new.least firsts.old firsts.new groups.new.kinds groups.new.classes result }
    ensures sums { groups.new.sums ≡ groups.old.sums }
{
    let mut at = from;
    let mut low = 0;
    let mut left = counts;
    for first in firsts {
        let group = take_group(file, at, n, low, left, &mut groups.least)?;
        groups.kinds[group.first] = group.kind;
        groups.classes[group.first] = group.class;
        *first = group.first as u16;
        low = group.first + 1;
        at = group.next;
        left = group.left;
    }
    Some(Rest { next: at, left })
}

// The superedge between p and q: one bit, or both and the cubes of each added to the other's sum.
// A flag and no closure: `drawing::join` and the clause `added` take the flag too.
#[tactic(auto, using(crate::specs::AddedLaws::few_adds, crate::specs::AddedLaws::many_add))]
fn join(joined: &mut [u64], sums: &mut [u32], p: usize, q: usize, few: bool)
    requires { (p < max_nodes) × (q < max_nodes) × (row_words * p + row_words ≤ length joined.old) × (row_words * q + row_words ≤ length joined.old) × (length sums.old ≡ 2 * max_nodes) }
    ensures added { Added (pair_bits few p q) joined.old joined.new }
    ensures sums_added { SumsAdded (pair_adds few sums.old p q) sums.old sums.new }
{
    drawing::join(joined, p, q, few);
    if few {
        sums::add_pair(sums, p, q);
    }
}

// The superedges from a place on that go from group i to groups after it, ascending. The place after them.
#[tactic(auto, using(crate::specs::SuperedgeLaws::run_start))]
fn read_run(
    file: &[u8],
    from: usize,
    i: usize,
    few: bool,
    firsts: &[u16],
    joined: &mut [u64],
    sums: &mut [u32],
) -> usize
    requires { FirstsPlaced (length firsts.now) (length joined.old) firsts.now × (i < length firsts.now) × (length sums.old ≡ 2 * max_nodes) }
    ensures { RunRead (length firsts.now) i few file.now from firsts.now joined.old joined.new sums.old sums.new result }
{
    let p = rows::wide(firsts[i]);
    let mut at = from;
    let mut last = i;
    while let Some(read) = records::superedge_from(file, at, i) {
        let Record::Superedge { second, .. } = read.item else {
            return at;
        };
        let j = usize::from(second);
        if j <= last {
            return at;
        }
        if j >= firsts.len() {
            return at;
        }
        join(joined, sums, p, rows::wide(firsts[j]), few);
        last = j;
        at = read.next;
    }
    at
}

// The superedges of a file, run by run. The first place without one in order.
#[tactic(auto, using(crate::specs::SuperedgeLaws::runs_start, crate::specs::SuperedgeLaws::runs_step))]
fn read_superedges(
    file: &[u8],
    from: usize,
    few: bool,
    firsts: &[u16],
    joined: &mut [u64],
    sums: &mut [u32],
) -> usize
    requires { FirstsPlaced (length firsts.now) (length joined.old) firsts.now × (length sums.old ≡ 2 * max_nodes) }
    ensures { SuperedgesRead (length firsts.now) few file.now from firsts.now joined.old joined.new sums.old sums.new result }
{
    let mut at = from;
    for i in 0..firsts.len() {
        at = read_run(file, at, i, few, firsts, joined, sums);
    }
    at
}

// Whether a file of so many bytes with n nodes has few superedges: at most about four for each word of each row.
#[tactic(auto, unfolding(crate::specs::Decoding::is_few))]
pub fn are_few(bytes: usize, n: usize) -> bool
    requires { n ≤ max_nodes }
    ensures { result ≡ is_few bytes n }
{
    bytes <= 384 + (8 + 24 * rows::word_of(n + 63)) * n
}

// The superedges of a file, both ways; the sums of groups if they are few. The first place without one in order.
fn read_joined(
    file: &[u8],
    from: usize,
    n: usize,
    least: &[u16],
    firsts: &[u16],
    joined: &mut [u64],
    sums: &mut [u32],
) -> usize
    requires firsts_are_nodes { FirstsAreNodes n least.now × FirstsPlaced (length firsts.now) (length joined.old) firsts.now × FirstsAscend n (length firsts.now) firsts.now }
    requires joined_value { (joined.old ≡ replicate (length joined.old) 0) × StripsFor n (length joined.old) × (sums.old ≡ replicate (2 * max_nodes) 0) }
    ensures { JoinedRead n (length firsts.now) file.now from least.now firsts.now joined.old joined.new sums.new result }
{
    if are_few(file.len(), n) {
        sums::sum_groups(least, n, sums);
        return read_superedges(file, from, true, firsts, joined, sums);
    }
    let at = read_superedges(file, from, false, firsts, joined, sums);
    mirroring::mirror(joined, n);
    at
}

// Whether the end record stands at a place, where the counts and the bytes end too.
#[tactic(auto, using(crate::specs::SuperedgeLaws::ends_none, crate::specs::SuperedgeLaws::ends_other, crate::specs::SuperedgeLaws::ends_spent, crate::specs::SuperedgeLaws::ends_unspent))]
fn is_end(file: &[u8], at: usize, counts: Counts) -> bool
    ensures { result ≡ ends_at counts file.now at }
{
    let Some(
        Read {
            next,
            item: Record::End,
        },
    ) = records::record_at(file, at)
    else {
        return false;
    };
    counts.is_spent() && next == file.len()
}

// Whether a graph can have the head's numbers.
#[tactic(auto, unfolding(crate::specs::Decoding::counts_fit))]
fn head_fits(n: usize, m: usize, g: usize) -> bool
    ensures { result ≡ counts_fit n m g }
{
    n <= Graph::NODES && m <= n && g <= m
}

// What follows the head: all groups, then all superedges, then the end.
fn read_body(
    file: &[u8],
    from: usize,
    n: usize,
    m: usize,
    g: usize,
    groups: &mut Groups,
    joined: &mut [u64],
) -> bool
    requires { (from ≡ 8) × (n ≤ max_nodes) × (g ≤ max_nodes) × BlankGroups file.now groups.old joined.old × StripsFor n (length joined.old) }
    ensures { BodyRead file.now n m g groups.new.least groups.new.kinds groups.new.classes joined.new groups.new.sums result }
{
    let mut room = [0u16; Graph::NODES];
    let firsts = &mut room[..g];
    let counts = Counts {
        members: m,
        groups: g,
    };
    let Some(rest) = read_groups(file, from, n, counts, groups, firsts) else {
        return false;
    };
    let at = read_joined(
        file,
        rest.next,
        n,
        &groups.least,
        firsts,
        joined,
        &mut groups.sums,
    );
    is_end(file, at, rest.left)
}

// The graph of a file whose head was just read, from what follows the head: how many nodes it has, or none if the bytes are no release.
fn graph_at(
    file: &[u8],
    at: usize,
    head: Record,
    groups: &mut Groups,
    joined: &mut [u64],
) -> Option<usize>
    requires { AfterHead file.now at head × BlankGroups file.now groups.old joined.old }
    ensures decodes { Decodes file.now groups.new.least groups.new.kinds groups.new.classes joined.new result }
    ensures sums_kept { SumsKept file.now groups.new.least joined.new groups.new.sums }
{
    let Record::Head { n, m, g } = head else {
        return None;
    };
    let nodes = usize::from(n);
    let visible = usize::from(m);
    let count = usize::from(g);
    if !head_fits(nodes, visible, count) {
        return None;
    }
    if !read_body(file, at, nodes, visible, count, groups, joined) {
        return None;
    }
    Some(nodes)
}

// The lent file beside the next unread place.
#[derive(Clone, Copy)]
pub struct Reader<'a> {
    pub file: &'a [u8],
    pub at: usize,
}

// A reader at a place.
fn start<'a>(file: &'a [u8], at: usize) -> Reader<'a>
    ensures { (result.file ≡ file.entry) × (result.at ≡ at) }
{
    Reader { file, at }
}

impl<'a> Reader<'a> {
    // The record at the reader's place.
    fn record(self) -> Option<Read>
        ensures { result ≡ record_at self.entry.file.now self.entry.at }
    {
        records::record_at(self.file, self.at)
    }

    // The same file at another place.
    fn moved(self, at: usize) -> Reader<'a>
        ensures { (result.file ≡ self.entry.file) × (result.at ≡ at) }
    {
        Reader {
            file: self.file,
            at,
        }
    }

    // How many nodes the graph of the file has whose head was just read; none if the bytes are no release.
    fn graph(self, head: Record, groups: &mut Groups, joined: &mut [u64]) -> Option<usize>
        requires { AfterHead self.file.now self.at head × BlankGroups self.file.now groups.old joined.old }
        ensures decodes { Decodes self.entry.file.now groups.new.least groups.new.kinds groups.new.classes joined.new result }
        ensures sums_kept { SumsKept self.entry.file.now groups.new.least joined.new groups.new.sums }
    {
        graph_at(self.file, self.at, head, groups, joined)
    }
}

// How many nodes the head of a file tells; 0 if the bytes are too few for a head.
// A number and no option: `BlankRows` asks for rows for so many nodes, and for no bytes there need be none.
#[tactic(auto, unfolding(crate::specs::Decoding::nodes_in))]
pub fn nodes_in(file: &[u8]) -> usize
    ensures { result ≡ nodes_in file.now }
{
    if file.len() < 8 {
        return 0;
    }
    records::node_at(file, 2)
}

// A release file read into blank groups and rows without a bit: how many nodes its graph has, or none if the bytes are no release.
pub fn decode(file: &[u8], groups: &mut Groups, joined: &mut [u64]) -> Option<usize>
    requires { BlankGroups file.now groups.old joined.old }
    ensures decodes { Decodes file.now groups.new.least groups.new.kinds groups.new.classes joined.new result }
    ensures sums_kept { SumsKept file.now groups.new.least joined.new groups.new.sums }
{
    let reader = start(file, 0);
    let read = reader.record()?;
    reader.moved(read.next).graph(read.item, groups, joined)
}
