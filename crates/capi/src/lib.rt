// The calls for C and Rust: each does what the library's call does, and equals the model's call on every input.
#![tactic(auto)]

ghost use Rattle.std.specs.Prelude.{◌≡◌, cond};
ghost use Rattle.model.specs.Calls.{apply_call, drop_call, file_distance_call, file_neighbours_call, group_call, keep_call, neighbours_call, open_call, read_call, release_call, restore_call, tied_call};
ghost use Rattle.rows.specs.Rows.{lent};
ghost use Rattle.tables.specs.Lent.{filled};
ghost use Rattle.queries.specs.Query.{listed};
ghost use Rattle.store.specs.Stored.{stored};
ghost use Rattle.index.specs.Index.{applied, grouped, opened};
ghost use Rattle.release.specs.Release.{measured};
ghost use Rattle.capi.specs.Exported.{released_with};

use answers::code;

// A graph of n nodes without edges, none hidden, and a store without states.
#[unsafe(no_mangle)]
pub extern "C" fn tegmulos_open(
    n: usize,
    edges: &mut [u64],
    nodes: &mut [u16],
    keys: &mut [u32],
    store: &mut [u64],
) -> u16
    ensures { opened result (lent edges.new nodes.new keys.new) store.new ≡ open_call n (lent edges.old nodes.old keys.old) store.old }
{
    code(&index::open(n, edges, nodes, keys, store))
}

// The graph kept under a name of sixteen bytes.
#[unsafe(no_mangle)]
pub extern "C" fn tegmulos_keep(
    n: usize,
    edges: &[u64],
    nodes: &[u16],
    keys: &[u32],
    store: &mut [u64],
    name: &[u8],
) -> u16
    ensures { stored result store.new ≡ keep_call n (lent edges.now nodes.now keys.now) store.old name.now }
{
    code(&store::keep(n, edges, nodes, keys, store, name))
}

// The tables of the graph kept under a name.
#[unsafe(no_mangle)]
pub extern "C" fn tegmulos_restore(
    n: usize,
    edges: &mut [u64],
    nodes: &mut [u16],
    keys: &mut [u32],
    store: &[u64],
    name: &[u8],
) -> u16
    ensures { filled result (lent edges.new nodes.new keys.new) ≡ restore_call n (lent edges.old nodes.old keys.old) store.now name.now }
{
    code(&store::restore(n, edges, nodes, keys, store, name))
}

// A name dropped, and its place cleared.
#[unsafe(no_mangle)]
pub extern "C" fn tegmulos_drop(n: usize, store: &mut [u64], name: &[u8]) -> u16
    ensures { stored result store.new ≡ drop_call n store.old name.now }
{
    code(&store::drop(n, store, name))
}

// A batch of updates, each with its answer.
#[unsafe(no_mangle)]
pub extern "C" fn tegmulos_apply(
    n: usize,
    edges: &mut [u64],
    nodes: &mut [u16],
    keys: &mut [u32],
    batch: &[u16],
    answers: &mut [i16],
) -> u16
    ensures { applied result (lent edges.new nodes.new keys.new) answers.new ≡ apply_call n (lent edges.old nodes.old keys.old) batch.now answers.old }
{
    code(&index::apply(n, edges, nodes, keys, batch, answers))
}

// The neighbours of p, ascending, each followed by the least member of its group, and their count.
#[unsafe(no_mangle)]
pub extern "C" fn tegmulos_neighbours(
    n: usize,
    edges: &[u64],
    nodes: &[u16],
    keys: &[u32],
    p: u16,
    out: &mut [u16],
    count: &mut u16,
) -> u16
    ensures { listed result count.new out.new ≡ neighbours_call n (lent edges.now nodes.now keys.now) p out.old }
{
    let found = index::neighbours(n, edges, nodes, keys, p, out);
    *count = found.unwrap_or(0);
    code(&found)
}

// Whether there is an edge between p and q: 1 or 0.
#[unsafe(no_mangle)]
pub extern "C" fn tegmulos_tied(
    n: usize,
    edges: &[u64],
    nodes: &[u16],
    keys: &[u32],
    p: u16,
    q: u16,
    yes: &mut u16,
) -> u16
    ensures number { result ≡ (tied_call n (lent edges.now nodes.now keys.now) p q).result }
    ensures said { yes.new ≡ cond (tied_call n (lent edges.now nodes.now keys.now) p q).yes 1 0 }
{
    let found = index::tied(n, edges, nodes, keys, p, q);
    *yes = u16::from(found.unwrap_or(false));
    code(&found)
}

// The group of p: least member, kind (0 singleton, 1 independent, 2 clique), size.
#[tactic(auto, unfolding(model::specs::Queries::kind_number))]
#[unsafe(no_mangle)]
pub extern "C" fn tegmulos_group(
    n: usize,
    edges: &[u64],
    nodes: &[u16],
    keys: &[u32],
    p: u16,
    least: &mut u16,
    kind: &mut u16,
    size: &mut u16,
) -> u16
    ensures { grouped result least.new kind.new size.new ≡ group_call n (lent edges.now nodes.now keys.now) p }
{
    let found = index::group(n, edges, nodes, keys, p);
    let group = found.unwrap_or_default();
    *least = group.least;
    *kind = u16::from(group.kind);
    *size = group.size;
    code(&found)
}

// The release file of the visible part: its nodes, groups, superedges and bytes.
#[unsafe(no_mangle)]
pub extern "C" fn tegmulos_release(
    n: usize,
    edges: &[u64],
    nodes: &[u16],
    keys: &[u32],
    out: &mut [u8],
    m: &mut u16,
    g: &mut u16,
    s: &mut u32,
    bytes: &mut u32,
) -> u16
    ensures { released_with result m.new g.new s.new bytes.new out.new ≡ release_call n (lent edges.now nodes.now keys.now) out.old }
{
    let written = release::release(n, edges, nodes, keys, out);
    let sizes = written.unwrap_or_default();
    *m = sizes.nodes;
    *g = sizes.groups;
    *s = sizes.superedges;
    *bytes = sizes.bytes;
    code(&written)
}

// The tables of the graph that a release file holds.
#[unsafe(no_mangle)]
pub extern "C" fn tegmulos_read(
    n: usize,
    edges: &mut [u64],
    nodes: &mut [u16],
    keys: &mut [u32],
    file: &[u8],
) -> u16
    ensures { filled result (lent edges.new nodes.new keys.new) ≡ read_call n (lent edges.old nodes.old keys.old) file.now }
{
    code(&release::read(n, edges, nodes, keys, file))
}

// The neighbours of p in a release file, ascending, each followed by the least member of its group there, and their count.
#[unsafe(no_mangle)]
pub extern "C" fn tegmulos_file_neighbours(
    file: &[u8],
    p: u16,
    out: &mut [u16],
    count: &mut u16,
) -> u16
    ensures { listed result count.new out.new ≡ file_neighbours_call file.now p out.old }
{
    let found = release::file_neighbours(file, p, out);
    *count = found.unwrap_or(0);
    code(&found)
}

// How many edges separate p and q in a release file; 65,535 if no chain of edges does.
#[unsafe(no_mangle)]
pub extern "C" fn tegmulos_file_distance(file: &[u8], p: u16, q: u16, distance: &mut u16) -> u16
    ensures { measured result distance.new ≡ file_distance_call file.now p q }
{
    let found = release::file_distance(file, p, q);
    *distance = found.unwrap_or(0);
    code(&found)
}
