// Releases: written, read back, asked. Each call is the model's (Calls) on every input.
#![tactic(auto)]

ghost use Rattle.std.specs.Prelude.{◌≡◌, true, false, length, ◌*◌, ◌≤◌, IfErr, IfOk};
ghost use Rattle.model.specs.Graph.{row_words};
ghost use Rattle.model.specs.Tables.{graph_of};
ghost use Rattle.model.specs.Calls.{file_distance_call, file_neighbours_call, read_call, release_call};
ghost use Rattle.answers.specs.Numbers.{code, value_or};
ghost use Rattle.rows.specs.Rows.{lent};
ghost use Rattle.masking.specs.Masking.{Drawn, drawn};
ghost use Rattle.layout.specs.Truth.{Truth};
ghost use Rattle.writer.specs.Written.{released_by};
ghost use Rattle.compressed.specs.Compressed.{placed};
ghost use Rattle.reader.specs.Decoding.{BlankRows};
ghost use Rattle.queries.specs.Query.{listed};
ghost use Rattle.tables.specs.Lent.{filled};
ghost use Rattle.release.specs.Release.{measured, told};

use answers::Refusal;
use compressed::{Groups, SMALL};
use rows::Graph;
use tables::Tables;
use writer::Written;

mod copies;
mod reading;

// The edges between visible nodes, and the least members of their groups: what the release writer needs.
fn summarise(
    edges: &[u64],
    hidden: &[u16],
    classes: &[u16],
    n: usize,
    masked: &mut [u64],
    least: &mut [u16],
)
    requires { Drawn n edges.now hidden.now classes.now × (length masked.old ≡ row_words * n) × (n ≤ length least.old) }
    ensures { Truth (drawn n edges.now hidden.now classes.now) least.new classes.now masked.new }
{
    masking::mask_edges(edges, hidden, n, masked);
    grouping::find_groups(masked, hidden, classes, n, least);
}

// The least members of the groups of the visible nodes.
#[tactic(auto, using(crate::specs::ReleaseLaws::prefix_length, crate::specs::ReleaseLaws::truth_whole, std::proofs::lemmas::Grind::common_steps))]
fn least_members(edges: &[u64], hidden: &[u16], classes: &[u16], n: usize) -> [u16; Graph::NODES]
    requires { Drawn n edges.now hidden.now classes.now }
    ensures { Truth (drawn n edges.now hidden.now classes.now) result classes.now edges.now }
{
    let mut masked = [0u64; Graph::NODES * Graph::ROW_WORDS];
    let mut least = [0u16; Graph::NODES];
    let end = Graph::ROW_WORDS * n;
    summarise(edges, hidden, classes, n, &mut masked[..end], &mut least);
    least
}

// The release of the graph that tables hold, if the buffer is long enough.
fn write_visible(tables: Tables<'_>, out: &mut [u8]) -> Result<Written, Refusal>
    ensures { released_by result out.new ≡ told (graph_of tables.entry.n (lent tables.entry.edges.now tables.entry.nodes.now tables.entry.keys.now)) out.old }
{
    let hidden = copies::take_numbers(tables, groups::MARK);
    let classes = copies::take_numbers(tables, groups::CLASS);
    let least = least_members(tables.edges, &hidden, &classes, tables.n);
    writer::write(tables.n, &least, &classes, tables.edges, out)
}

// The release file of the visible part, and its m, g, s and length. Refused as WrongSize, NoGraph or ShortBuffer.
pub fn release(
    n: usize,
    edges: &[u64],
    nodes: &[u16],
    keys: &[u32],
    out: &mut [u8],
) -> Result<Written, Refusal>
    ensures { released_by result out.new ≡ release_call n (lent edges.now nodes.now keys.now) out.old }
{
    let tables = tables::check(n, edges, nodes, keys)?;
    write_visible(tables, out)
}

// What a call answers that is lent rows without a bit for the superedges between the groups of a file, few if its head tells few nodes.
// The call is an FnMut, whose step says what it leaves in the buffers that it captures.
#[tactic(auto, using(reader::specs::DecodingLaws::blank_rows))]
fn with_rows<R, F: FnMut(&mut [u64]) -> R>(file: &[u8], call: &mut F) -> R
    requires { (rows : _) → BlankRows file.now rows.now → F.pre call.old rows }
    ensures { (rows : _) × (after : _) × BlankRows file.now rows.now × F.step call.old rows result after call.new }
{
    if reader::nodes_in(file) <= SMALL {
        let mut rows = [0u64; SMALL * Graph::ROW_WORDS];
        return call(&mut rows);
    }
    let mut rows = [0u64; Graph::NODES * Graph::ROW_WORDS];
    call(&mut rows)
}

// A release read back into tables, with rows for the superedges between its groups.
#[tactic(auto, using(tables::specs::LentLaws::sized, crate::specs::ReadLaws::judged_sums, crate::specs::ReadLaws::read_none, crate::specs::ReadLaws::read_size))]
fn read_with(
    n: usize,
    edges: &mut [u64],
    nodes: &mut [u16],
    keys: &mut [u32],
    file: &[u8],
    joined: &mut [u64],
) -> Result<(), Refusal>
    requires { BlankRows file.now joined.old }
    ensures { filled (code result) (lent edges.new nodes.new keys.new) ≡ read_call n (lent edges.old nodes.old keys.old) file.now }
{
    if !tables::right_size(n, edges, nodes, keys) {
        return Err(Refusal::WrongSize);
    }
    let mut groups = Groups::blank();
    let told = judging::judge(file, &mut groups, joined).ok_or(Refusal::NoRelease)?;
    if told != n {
        return Err(Refusal::OtherSize);
    }
    let few = reader::are_few(file.len(), n);
    reading::fill(n, few, &mut groups, joined, edges, nodes, keys);
    Ok(())
}

// A release read back into tables: hidden nodes are those missing, without edges and of class 0.
// Refused as WrongSize, NoRelease or OtherSize.
pub fn read(
    n: usize,
    edges: &mut [u64],
    nodes: &mut [u16],
    keys: &mut [u32],
    file: &[u8],
) -> Result<(), Refusal>
    ensures { filled (code result) (lent edges.new nodes.new keys.new) ≡ read_call n (lent edges.old nodes.old keys.old) file.now }
{
    let mut fill = |rows: &mut [u64]| read_with(n, edges, nodes, keys, file, rows);
    with_rows(file, &mut fill)
}

// A node that is asked for, if it is one of n and in a group.
#[tactic(auto, using(std::proofs::lemmas::Bool::Decides::nat_tests), unfolding(compressed::specs::Compressed::placed))]
fn find_node(least: &[u16], n: usize, p: u16) -> Result<usize, Refusal>
    requires { n ≤ length least.now }
    ensures found { IfOk result (λ node. (node ≡ p) × (placed n least.now p ≡ true)) }
    ensures hidden { IfErr result (λ refusal. (refusal ≡ Refusal.NoNode) × (placed n least.now p ≡ false)) }
{
    let node = usize::from(p);
    if node >= n || least[node] == Graph::NONE {
        return Err(Refusal::NoNode);
    }
    Ok(node)
}

// The neighbours of p with the least members of their groups, asked of a release, with rows for the superedges between its groups.
fn ask_with(file: &[u8], p: u16, out: &mut [u16], joined: &mut [u64]) -> Result<u16, Refusal>
    requires { BlankRows file.now joined.old }
    ensures { listed (code result) (value_or 0 result) out.new ≡ file_neighbours_call file.now p out.old }
{
    let mut groups = Groups::blank();
    let n = judging::judge(file, &mut groups, joined).ok_or(Refusal::NoRelease)?;
    let node = find_node(&groups.least, n, p)?;
    let row = unfolding::neighbour_row(&groups.least, &groups.kinds, joined, n, node);
    queries::list_row(&row, &groups.least, 1, out)
}

// The neighbours of p, asked of a release, ascending, each followed by the least member of its group there, and their count.
// Refused as NoRelease, NoNode (out of range or hidden) or ShortBuffer.
pub fn file_neighbours(file: &[u8], p: u16, out: &mut [u16]) -> Result<u16, Refusal>
    ensures { listed (code result) (value_or 0 result) out.new ≡ file_neighbours_call file.now p out.old }
{
    let mut ask = |rows: &mut [u64]| ask_with(file, p, out, rows);
    with_rows(file, &mut ask)
}

// The distance of p and q, asked of a release, with rows for the superedges between its groups.
fn measure_with(file: &[u8], p: u16, q: u16, joined: &mut [u64]) -> Result<u16, Refusal>
    requires { BlankRows file.now joined.old }
    ensures { measured (code result) (value_or 0 result) ≡ file_distance_call file.now p q }
{
    let mut groups = Groups::blank();
    let n = judging::judge(file, &mut groups, joined).ok_or(Refusal::NoRelease)?;
    let from = find_node(&groups.least, n, p)?;
    let to = find_node(&groups.least, n, q)?;
    let distance = distances::distance(&groups.least, &groups.kinds, joined, n, from, to);
    Ok(distance)
}

// How many edges separate p and q, asked of a release; 65,535 if no chain of edges does.
// Refused as NoRelease or NoNode (out of range or hidden).
pub fn file_distance(file: &[u8], p: u16, q: u16) -> Result<u16, Refusal>
    ensures { measured (code result) (value_or 0 result) ≡ file_distance_call file.now p q }
{
    let mut measure = |rows: &mut [u64]| measure_with(file, p, q, rows);
    with_rows(file, &mut measure)
}
