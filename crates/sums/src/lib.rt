// The keys of a graph held by its groups, from sums of cubes: at a first member those of the groups joined to its own, and in the
// second half those of its own group.
#![tactic(auto)]

ghost use Rattle.std.specs.Prelude.{◌≡◌, ℕ, ◌+◌, ◌*◌, ◌<◌, List, length, replicate, ◌≢◌, slice_index};
ghost use Rattle.model.specs.Graph.{max_nodes};
ghost use Rattle.model.specs.Tables.{keys_of};
ghost use Rattle.rows.specs.Rows.{no_node};
ghost use Rattle.compressed.specs.Compressed.{Compressed, unfolded};
ghost use Rattle.sums.specs.Joined.{JoinedSummed, PairAdded};
ghost use Rattle.sums.specs.Sums.{Cubed, FirstsAreNodes, NoneJoined, member_key, node_key};

use compressed::CLIQUE;
use rows::Graph;

// The cubes of the members of each group, in the second half of the sums.
pub fn sum_groups(least: &[u16], n: usize, sums: &mut [u32])
    requires { FirstsAreNodes n least.now × (sums.old ≡ replicate (2 * max_nodes) 0) }
    ensures { Cubed n least.now sums.new × NoneJoined sums.new }
{
    for (p, first) in least[..n].iter().enumerate() {
        if *first != Graph::NONE {
            let own = Graph::NODES + rows::wide(*first);
            sums[own] = sums[own].wrapping_add(rows::cube_of(p));
        }
    }
}

// The cubes of each of two groups added to the sum of the other.
pub fn add_pair(sums: &mut [u32], p: usize, q: usize)
    requires { (p < max_nodes) × (q < max_nodes) × (length sums.old ≡ 2 * max_nodes) }
    ensures { PairAdded p q sums.old sums.new }
{
    sums[p] = sums[p].wrapping_add(sums[Graph::NODES + q]);
    sums[q] = sums[q].wrapping_add(sums[Graph::NODES + p]);
}

// The open key that p has as a member of the group that l leads: a clique's members have each other too.
fn member_key(sums: &[u32], kind: u16, l: usize, p: usize) -> u32
    requires { (l < max_nodes) × (p < max_nodes) × (length sums.now ≡ 2 * max_nodes) }
    ensures { result ≡ member_key sums.now kind l p }
{
    if kind == CLIQUE {
        let all = sums[l].wrapping_add(sums[Graph::NODES + l]);
        return all.wrapping_sub(rows::cube_of(p));
    }
    sums[l]
}

// The open key of p; 0 for a node of no group.
fn open_key(least: &[u16], kinds: &[u16], sums: &[u32], p: usize) -> u32
    requires p_lt_max_nodes { (p < max_nodes) × (length least.now ≡ max_nodes) × (length kinds.now ≡ max_nodes) × (length sums.now ≡ 2 * max_nodes) }
    requires p_bound { (slice_index least.now p ≢ no_node) → slice_index least.now p < max_nodes }
    ensures { result ≡ node_key least.now kinds.now sums.now p }
{
    if least[p] == Graph::NONE {
        return 0;
    }
    let l = rows::wide(least[p]);
    member_key(sums, kinds[l], l, p)
}

// The keys of a graph held by its groups, by the sums of its groups.
pub fn key_groups(least: &[u16], kinds: &[u16], sums: &[u32], keys: &mut [u32], n: usize)
    requires { FirstsAreNodes n least.now × (length kinds.now ≡ max_nodes) × Cubed n least.now sums.now × (length keys.old ≡ 2 * n) }
    ensures { (joined : List ℕ) → Compressed n least.now kinds.now joined → JoinedSummed joined sums.now → keys.new ≡ keys_of (unfolded n least.now kinds.now joined) }
{
    for p in 0..n {
        keys::put_keys(keys, p, open_key(least, kinds, sums, p));
    }
}
