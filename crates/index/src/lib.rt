// What a caller uses on lent tables: open, apply, neighbours, tied, group. Each is the model's call (Calls) on every input.
#![tactic(auto)]

ghost use Rattle.std.specs.Prelude.{◌≡◌, false, ◌≤◌, ◌<◌, IfErr, OnOk};
ghost use Rattle.model.specs.Refusals.{first_of};
ghost use Rattle.model.specs.Calls.{apply_call, apply_reasons, group_call, neighbours_call, open_call, tied_call};
ghost use Rattle.answers.specs.Numbers.{code, value_or};
ghost use Rattle.rows.specs.Rows.{lent};
ghost use Rattle.queries.specs.Query.{listed};
ghost use Rattle.index.specs.Index.{applied, group_told, opened, tied_of};

use answers::{Kind, Refusal};
use rows::Graph;

// A graph of n nodes without edges, none hidden, and a store without states. Refused with 11.
pub fn open(
    n: usize,
    edges: &mut [u64],
    nodes: &mut [u16],
    keys: &mut [u32],
    store: &mut [u64],
) -> Result<(), Refusal>
    ensures { opened (code result) (lent edges.new nodes.new keys.new) store.new ≡ open_call n (lent edges.old nodes.old keys.old) store.old }
{
    if !tables::right_size(n, edges, nodes, keys) {
        return Err(Refusal::WrongSize);
    }
    if !places::right_size(n, store) {
        return Err(Refusal::WrongSize);
    }
    opening::fill(Graph::empty(n), edges, nodes, keys);
    places::empty(n, store);
    Ok(())
}

// Whether a batch as a whole is refused (11, 12, 18).
fn check_batch(
    n: usize,
    edges: &[u64],
    nodes: &[u16],
    keys: &[u32],
    batch: &[u16],
    answers: &[i16],
) -> Result<(), Refusal>
    ensures { code result ≡ first_of (apply_reasons n (lent edges.now nodes.now keys.now) batch.now answers.now) }
{
    if !updates::is_whole(batch) {
        return Err(Refusal::WrongSize);
    }
    tables::check(n, edges, nodes, keys)?;
    if answers.len() < updates::count(batch) {
        return Err(Refusal::ShortBuffer);
    }
    Ok(())
}

// The updates of a batch, four numbers each, in order; each writes its answer. Refused with 11, 12, 18.
pub fn apply(
    n: usize,
    edges: &mut [u64],
    nodes: &mut [u16],
    keys: &mut [u32],
    batch: &[u16],
    answers: &mut [i16],
) -> Result<(), Refusal>
    ensures { applied (code result) (lent edges.new nodes.new keys.new) answers.new ≡ apply_call n (lent edges.old nodes.old keys.old) batch.now answers.old }
{
    check_batch(n, edges, nodes, keys, batch, answers)?;
    updates::run(n, edges, nodes, keys, batch, answers);
    Ok(())
}

// A node's group, by its least member.
#[derive(Clone, Copy, Debug, Default, PartialEq, Eq)]
pub struct Grouped {
    pub least: u16,
    pub kind: Kind,
    pub size: u16,
}

// Whether p is one of n nodes (else 14).
fn check_node(n: usize, p: usize) -> Result<(), Refusal>
    ensures refused { IfErr result (λ refusal. (refusal ≡ Refusal.NoNode) × (n ≤ p)) }
    ensures found { OnOk result (p < n) }
{
    if p >= n {
        return Err(Refusal::NoNode);
    }
    Ok(())
}

// The neighbours of p, ascending, each followed by the least member of its group, and their count. Refused with 11, 12, 14, 18.
pub fn neighbours(
    n: usize,
    edges: &[u64],
    nodes: &[u16],
    keys: &[u32],
    p: u16,
    out: &mut [u16],
) -> Result<u16, Refusal>
    ensures { listed (code result) (value_or 0 result) out.new ≡ neighbours_call n (lent edges.now nodes.now keys.now) p out.old }
{
    tables::check(n, edges, nodes, keys)?;
    let node = p as usize;
    check_node(n, node)?;
    let a = Graph::ROW_WORDS * node;
    let row = &edges[a..a + Graph::ROW_WORDS];
    queries::list_row(row, nodes, Graph::NODE_NUMBERS, out)
}

// Whether there is an edge between p and q. Refused with 11, 12, 14, 15.
pub fn tied(
    n: usize,
    edges: &[u64],
    nodes: &[u16],
    keys: &[u32],
    p: u16,
    q: u16,
) -> Result<bool, Refusal>
    ensures { tied_of (code result) (value_or false result) ≡ tied_call n (lent edges.now nodes.now keys.now) p q }
{
    tables::check(n, edges, nodes, keys)?;
    let u = p as usize;
    let v = q as usize;
    answers::check_pair(n, u, v)?;
    Ok(rows::edge(edges, u, v))
}

// The group of p: least member, kind, size. Refused with 11, 12, 14.
pub fn group(
    n: usize,
    edges: &[u64],
    nodes: &[u16],
    keys: &[u32],
    p: u16,
) -> Result<Grouped, Refusal>
    ensures { group_told result ≡ group_call n (lent edges.now nodes.now keys.now) p }
{
    let tables = tables::check(n, edges, nodes, keys)?;
    let node = p as usize;
    check_node(n, node)?;
    let least = groups::number(nodes, node, groups::LEAST);
    let kind = queries::kind_of(tables, least);
    let size = queries::group_size(tables, least);
    Ok(Grouped {
        least: least as u16,
        kind,
        size: size as u16,
    })
}
