// The records of a release file, each with the place after it, and the head's counts used up one by one.
#![tactic(auto)]

ghost use Rattle.std.specs.Prelude.{◌≡◌, ◌+◌, ◌*◌, ◌≤◌, ◌<◌, length};
ghost use Rattle.model.specs.Reading.{u16_at};
ghost use Rattle.model.specs.Release.{u16_limit};
ghost use Rattle.records.specs.Records.{group_at, head_at, lead_of, less_group, less_member, mark_at, record_at, spent, superedge_at, superedge_from, u32_at};

// What the head still promises: members and groups not yet read.
#[derive(Clone, Copy)]
pub struct Counts {
    pub members: usize,
    pub groups: usize,
}

impl Counts {
    // One member less, if the head promised one.
    #[tactic(auto, unfolding(crate::specs::Records::less_member))]
    pub fn member(mut self) -> Option<Counts>
        ensures { result ≡ less_member self }
    {
        self.members = self.members.checked_sub(1)?;
        Some(self)
    }

    // One group less, if the head promised one.
    #[tactic(auto, unfolding(crate::specs::Records::less_group))]
    pub fn group(mut self) -> Option<Counts>
        ensures { result ≡ less_group self }
    {
        self.groups = self.groups.checked_sub(1)?;
        Some(self)
    }

    // Whether both counts are used up.
    #[tactic(auto, unfolding(crate::specs::Records::spent))]
    pub fn is_spent(self) -> bool
        ensures { result ≡ spent self }
    {
        self.members == 0 && self.groups == 0
    }
}

// A record of a release file, with its numbers.
#[derive(Clone, Copy)]
pub enum Record {
    Head {
        n: u16,
        m: u16,
        g: u16,
    },
    Group {
        clique: bool,
        count: u16,
        class: u16,
    },
    Superedge {
        first: u16,
        second: u16,
    },
    End,
}

// A record just read, and the place after it.
#[derive(Clone, Copy)]
pub struct Read {
    pub next: usize,
    pub item: Record,
}

// The number at a place, low byte first.
#[tactic(auto, unfolding(model::specs::Reading::u16_at))]
pub fn u16_at(file: &[u8], at: usize) -> u16
    requires { at + 2 ≤ length file.now }
    ensures { result ≡ u16_at file.now at }
{
    u16::from_le_bytes([file[at], file[at + 1]])
}

// Whether a mark stands at a place: both bytes as one number.
#[tactic(auto, using(crate::specs::RecordLaws::mark_is))]
fn is_mark(file: &[u8], at: usize, mark: &[u8; 2]) -> bool
    requires { at + 2 ≤ length file.now }
    ensures { result ≡ mark_at file.now at mark.now }
{
    u16_at(file, at) == u16::from_le_bytes(*mark)
}

// The number of 32 bits at a place, low byte first.
#[tactic(auto, unfolding(crate::specs::Records::u32_at, model::specs::Reading::u16_at))]
fn u32_at(file: &[u8], at: usize) -> u32
    requires { at + 4 ≤ length file.now }
    ensures { result ≡ u32_at file.now at }
{
    u32::from_le_bytes([file[at], file[at + 1], file[at + 2], file[at + 3]])
}

// The four bytes that a superedge from group i begins with, as one number.
#[tactic(auto, unfolding(crate::specs::Records::lead_of, model::specs::Reading::u16_at))]
fn lead_of(i: usize) -> u32
    requires { i < u16_limit }
    ensures { result ≡ lead_of i }
{
    u32::from(u16::from_le_bytes(*b"SE")) + 65536 * (i as u32)
}

// A head, if its eight bytes are there.
#[tactic(auto, using(crate::specs::RecordLaws::head_full, crate::specs::RecordLaws::head_short))]
fn head_at(file: &[u8], at: usize) -> Option<Read>
    requires { at + 2 ≤ length file.now }
    ensures { result ≡ head_at file.now at }
{
    if file.len() - at < 8 {
        return None;
    }
    let n = u16_at(file, at + 2);
    let m = u16_at(file, at + 4);
    let g = u16_at(file, at + 6);
    Some(Read {
        next: at + 8,
        item: Record::Head { n, m, g },
    })
}

// The start of a group, if its six bytes are there. The members follow.
#[tactic(auto, using(crate::specs::RecordLaws::group_full, crate::specs::RecordLaws::group_short))]
fn group_at(file: &[u8], at: usize, clique: bool) -> Option<Read>
    requires { at + 2 ≤ length file.now }
    ensures { result ≡ group_at clique file.now at }
{
    if file.len() - at < 6 {
        return None;
    }
    let count = u16_at(file, at + 2);
    let class = u16_at(file, at + 4);
    Some(Read {
        next: at + 6,
        item: Record::Group {
            clique,
            count,
            class,
        },
    })
}

// A superedge, if its six bytes are there.
#[tactic(auto, using(crate::specs::RecordLaws::superedge_full, crate::specs::RecordLaws::superedge_short))]
fn superedge_at(file: &[u8], at: usize) -> Option<Read>
    requires { at + 2 ≤ length file.now }
    ensures { result ≡ superedge_at file.now at }
{
    if file.len() - at < 6 {
        return None;
    }
    let first = u16_at(file, at + 2);
    let second = u16_at(file, at + 4);
    Some(Read {
        next: at + 6,
        item: Record::Superedge { first, second },
    })
}

// The record at a place, if one is there. Its mark tells which.
#[tactic(auto, using(crate::specs::RecordLaws::by_clique, crate::specs::RecordLaws::by_end, crate::specs::RecordLaws::by_group, crate::specs::RecordLaws::by_head, crate::specs::RecordLaws::by_none, crate::specs::RecordLaws::by_superedge, crate::specs::RecordLaws::no_mark))]
pub fn record_at(file: &[u8], at: usize) -> Option<Read>
    ensures { result ≡ record_at file.now at }
{
    if file.get(at..)?.len() < 2 {
        return None;
    }
    if is_mark(file, at, b"SE") {
        return superedge_at(file, at);
    }
    if is_mark(file, at, b"GI") {
        return group_at(file, at, false);
    }
    if is_mark(file, at, b"GC") {
        return group_at(file, at, true);
    }
    if is_mark(file, at, b"HD") {
        return head_at(file, at);
    }
    if is_mark(file, at, b"EN") {
        return Some(Read {
            next: at + 2,
            item: Record::End,
        });
    }
    None
}

// The superedge at a place that goes from group i, if one is there. Mark and group are compared as one number.
#[tactic(auto, using(crate::specs::RecordLaws::from_here, crate::specs::RecordLaws::from_other, crate::specs::RecordLaws::from_short))]
pub fn superedge_from(file: &[u8], at: usize, i: usize) -> Option<Read>
    requires { i < u16_limit }
    ensures { result ≡ superedge_from i file.now at }
{
    // A test by `file.get(at..)` is slower: the loop over superedges then compares twice for each.
    if file.len() < 6 || file.len() - 6 < at {
        return None;
    }
    if u32_at(file, at) != lead_of(i) {
        return None;
    }
    record_at(file, at)
}

// The number at a place, as an index.
pub fn node_at(file: &[u8], at: usize) -> usize
    requires { at + 2 ≤ length file.now }
    ensures { result ≡ u16_at file.now at }
{
    usize::from(u16_at(file, at))
}
