// The node table kept in place: for each node the least member of its group, the next greater member, the previous one, the mark, the class.
#![tactic(auto)]

ghost use Rattle.std.specs.Prelude.{◌≡◌, ◌≢◌, ◌+◌, ◌*◌, ◌≤◌, ◌<◌, length};
ghost use Rattle.std.specs.Int.{from_bool};
ghost use Rattle.std.proofs.Math.IntN.{sub_ℕ};
ghost use Rattle.model.specs.Graph.{max_nodes, node_numbers};
ghost use Rattle.model.specs.Tables.{graph_of, node_number, tables_of};
ghost use Rattle.model.specs.Release.{u16_limit};
ghost use Rattle.model.specs.Updates.{answer, updated};
ghost use Rattle.rows.specs.Rows.{lent};
ghost use Rattle.search.specs.Search.{Ready};
ghost use Rattle.rings.specs.Steps.{
  Back,
  Before,
  Built,
  NewLeast,
  LabelsKept,
  Leading,
  Linked,
  OthersLeft,
  Placed,
  Renamed,
  Rings,
  Sound,
  Stored,
  Taken,
};
ghost use Rattle.groups.specs.Groups.{Asked, NextGreater, change, similar_in};

use rows::Graph;

// The numbers of a node.
pub const LEAST: usize = 0;

pub const NEXT: usize = 1;

pub const PREVIOUS: usize = 2;

pub const MARK: usize = 3;

pub const CLASS: usize = Graph::CLASS;

// Number k of node p.
#[tactic(auto, unfolding(model::specs::Tables::node_number))]
pub fn number(nodes: &[u16], p: usize, k: usize) -> usize
    requires { node_numbers * p + k < length nodes.now }
    ensures { result ≡ node_number nodes.now p k }
{
    rows::wide(nodes[Graph::NODE_NUMBERS * p + k])
}

fn store(nodes: &mut [u16], p: usize, k: usize, v: usize)
    requires { (node_numbers * p + k < length nodes.old) × (v < u16_limit) }
    ensures { Stored p k v nodes.old nodes.new }
{
    nodes[Graph::NODE_NUMBERS * p + k] = v as u16;
}

// b follows a.
// The table and n stay apart: the calls lend both, so a struct of the two would be made anew in each.
fn link(nodes: &mut [u16], n: usize, a: usize, b: usize)
    requires { (n ≤ max_nodes) × (length nodes.old ≡ node_numbers * n) × (a < n) × (b < n) }
    ensures { Linked a b nodes.old nodes.new }
{
    store(nodes, a, NEXT, b);
    store(nodes, b, PREVIOUS, a);
}

// The next greater member of p's group.
fn next_greater(nodes: &[u16], n: usize, p: usize) -> Option<usize>
    requires { (length nodes.now ≡ node_numbers * n) × (p < n) }
    ensures { NextGreater nodes.now p result }
{
    let b = number(nodes, p, NEXT);
    if p < b { Some(b) } else { None }
}

// Who had x for its least member has y: x leads its group, which is walked upwards.
fn rename(nodes: &mut [u16], n: usize, x: usize, y: usize)
    requires { Sound n nodes.old × (x < n) × (y < n) × (x ≢ y → node_number nodes.old x 0 ≡ x) }
    ensures { Renamed n x y nodes.old nodes.new }
{
    if x == y {
        return;
    }
    let mut member = Some(x);
    while let Some(p) = member {
        store(nodes, p, LEAST, y);
        member = next_greater(nodes, n, p);
    }
}

// The last member before u of the group that g leads: the greatest below u, else the greatest of all.
fn last_before(nodes: &[u16], n: usize, u: usize, g: usize) -> usize
    requires { Sound n nodes.now × (u < n) × (g < n) × (g ≢ u) × (node_number nodes.now g 0 ≡ g) }
    ensures { Before u g result nodes.now }
{
    let last = number(nodes, g, PREVIOUS);
    if u < g {
        return last;
    }
    if last < u {
        return last;
    }
    let mut a = g;
    while let Some(b) = next_greater(nodes, n, a)
        && b < u
    {
        a = b;
    }
    a
}

fn new_least(l: usize, u: usize, b: usize) -> usize
    ensures { NewLeast l u b result }
{
    if l == u { b } else { u }
}

// u leaves its group and is alone. Whether it leaves others behind.
pub fn take_out(nodes: &mut [u16], n: usize, u: usize) -> bool
    requires { Sound n nodes.old × (u < n) }
    ensures { Taken n u nodes.old nodes.new × OthersLeft (node_number nodes.old u 1) u (from_bool result) }
{
    let a = number(nodes, u, PREVIOUS);
    let b = number(nodes, u, NEXT);
    let l = number(nodes, u, LEAST);
    let y = new_least(l, u, b);
    rename(nodes, n, u, y);
    link(nodes, n, a, b);
    link(nodes, n, u, u);
    store(nodes, u, LEAST, u);
    b != u
}

// u, which is alone, joins the group that g leads.
fn put_in(nodes: &mut [u16], n: usize, u: usize, g: usize)
    requires { Sound n nodes.old × (u < n) × (g < n) × (g ≢ u) × (node_number nodes.old g 0 ≡ g) }
    ensures { Placed n u g nodes.old nodes.new }
{
    let a = last_before(nodes, n, u, g);
    let b = number(nodes, a, NEXT);
    let h = u.min(g);
    rename(nodes, n, g, h);
    store(nodes, u, LEAST, h);
    link(nodes, n, a, u);
    link(nodes, n, u, b);
}

// u, which is alone, joins its group, if one is led by a node other than w. Whether it does.
pub fn put_back(
    edges: &[u64],
    nodes: &mut [u16],
    keys: &[u32],
    n: usize,
    u: usize,
    w: usize,
) -> bool
    requires { Sound n nodes.old × Ready n edges.now keys.now × (u < n) × (w < n) }
    ensures { Back n u w (from_bool result) (similar_in n edges.now nodes.old u) nodes.old nodes.new }
{
    let Some(g) = search::find_group(edges, nodes, keys, n, n, u, w) else {
        return false;
    };
    put_in(nodes, n, u, g);
    true
}

// p joins the group of its least member: it is the last of the ring, or leads one of its own.
fn append(nodes: &mut [u16], least: &[u16], n: usize, p: usize)
    requires { (n ≤ max_nodes) × (length nodes.old ≡ node_numbers * n) × Leading n least.now × Rings p least.now nodes.old × (p < n) }
    ensures { Rings (p + 1) least.now nodes.new × LabelsKept nodes.old nodes.new }
{
    let l = rows::wide(least[p]);
    store(nodes, p, LEAST, l);
    if l == p {
        link(nodes, n, p, p);
        return;
    }
    let a = number(nodes, l, PREVIOUS);
    link(nodes, n, a, p);
    link(nodes, n, p, l);
}

// The node table of a graph, from the least members of its groups: whatever stood there, and marks and classes kept.
pub fn build(nodes: &mut [u16], least: &[u16], n: usize)
    requires { (n ≤ max_nodes) × (length nodes.old ≡ node_numbers * n) × Leading n least.now }
    ensures { Built n least.now nodes.old nodes.new }
{
    for p in 0..n {
        append(nodes, least, n, p);
    }
}

fn difference(x: usize, y: usize) -> i16
    requires { (x ≤ 2) × (y ≤ 2) }
    ensures { result ≡ sub_ℕ x y }
{
    x as i16 - y as i16
}

// The edge between u and v as it is wanted, in the three tables: both nodes are taken out, edges and keys changed, and the
// lesser is put back before the greater. How many groups more there are.
// `wanted` is a number, as it is in the model's update `change 1 u v wanted`.
pub fn update_edge(
    edges: &mut [u64],
    nodes: &mut [u16],
    keys: &mut [u32],
    n: usize,
    u: usize,
    v: usize,
    wanted: u16,
) -> i16
    requires { Asked n (change 1 u v wanted) (lent edges.old nodes.old keys.old) }
    ensures { (lent edges.new nodes.new keys.new ≡ tables_of (updated (graph_of n (lent edges.old nodes.old keys.old)) (change 1 u v wanted))) × (result ≡ answer (graph_of n (lent edges.old nodes.old keys.old)) (change 1 u v wanted)) }
{
    let a = u.min(v);
    let b = u.max(v);
    let a_left = take_out(nodes, n, a);
    let b_left = take_out(nodes, n, b);
    rows::change_edge(edges, u, v);
    rows::change_keys(keys, u, v, wanted == 1);
    let a_joined = put_back(edges, nodes, keys, n, a, b);
    let b_joined = put_back(edges, nodes, keys, n, b, b);
    let left = usize::from(a_left) + usize::from(b_left);
    let joined = usize::from(a_joined) + usize::from(b_joined);
    difference(left, joined)
}

// The class of u, in the node table: u is taken out, its class stored, and u put back. How many groups more there are.
pub fn update_class(
    edges: &[u64],
    nodes: &mut [u16],
    keys: &[u32],
    n: usize,
    u: usize,
    class: usize,
) -> i16
    requires { Asked n (change 3 u class 0) (lent edges.now nodes.old keys.now) × (class < u16_limit) }
    ensures { (lent edges.now nodes.new keys.now ≡ tables_of (updated (graph_of n (lent edges.now nodes.old keys.now)) (change 3 u class 0))) × (result ≡ answer (graph_of n (lent edges.now nodes.old keys.now)) (change 3 u class 0)) }
{
    let others = take_out(nodes, n, u);
    store(nodes, u, CLASS, class);
    let joined = put_back(edges, nodes, keys, n, u, u);
    difference(usize::from(others), usize::from(joined))
}
