// Hidden nodes, which have no edges and class 0, put into the group of the nodes of class 0 without edges.
#![tactic(auto)]

ghost use Rattle.std.specs.Prelude.{◌≡◌, ◌+◌, ◌*◌, ◌≤◌, ◌<◌, length};
ghost use Rattle.model.specs.Graph.{max_nodes, row_words};
ghost use Rattle.compressed.specs.Compressed.{class_in};
ghost use Rattle.keys.specs.KeySums.{LeastTold};
ghost use Rattle.adopting.specs.Adopting.{First, NumbersRenamed, VisibleTold, empty_row, is_bare, is_hidden, is_isolated};

use rows::Graph;

// Whether p's row is empty.
fn is_empty(edges: &[u64], p: usize) -> bool
    requires { (p < max_nodes) × (row_words * p + row_words ≤ length edges.now) }
    ensures { result ≡ empty_row edges.now p }
{
    let a = Graph::ROW_WORDS * p;
    buffers::union_of(&edges[a..a + Graph::ROW_WORDS]) == 0
}

// Whether p is told to be of class 0 and its row is empty.
fn is_bare(edges: &[u64], classes: &[u16], p: usize) -> bool
    requires { (p < max_nodes) × (p < length classes.now) × (row_words * p + row_words ≤ length edges.now) }
    ensures { result ≡ is_bare edges.now classes.now p }
{
    classes[p] == 0 && is_empty(edges, p)
}

// Whether p is a first member of class 0 without edges. Classes are told at first members.
fn is_isolated(edges: &[u64], classes: &[u16], least: &[u16], p: usize) -> bool
    requires { (p < max_nodes) × (p < length least.now) × (p < length classes.now) × (row_words * p + row_words ≤ length edges.now) }
    ensures { result ≡ is_isolated edges.now classes.now least.now p }
{
    rows::wide(least[p]) == p && is_bare(edges, classes, p)
}

// The first member of the group of class 0 without edges.
fn find_isolated(edges: &[u64], classes: &[u16], least: &[u16], n: usize) -> Option<usize>
    requires { (n ≤ max_nodes) × (n ≤ length least.now) × (n ≤ length classes.now) × (row_words * n ≤ length edges.now) }
    ensures { First (is_isolated edges.now classes.now least.now) n result }
{
    for p in 0..n {
        if is_isolated(edges, classes, least, p) {
            return Some(p);
        }
    }
    None
}

// The first hidden node.
fn find_hidden(least: &[u16], n: usize) -> Option<usize>
    requires { (n ≤ max_nodes) × (n ≤ length least.now) }
    ensures { First (is_hidden least.now) n result }
{
    least[..n].iter().position(|first| *first == Graph::NONE)
}

// Whoever has x for its first member has y.
fn rename(least: &mut [u16], n: usize, x: u16, y: u16)
    requires { n ≤ length least.old }
    ensures { NumbersRenamed n x y least.old least.new }
{
    for first in &mut least[..n] {
        if *first == x {
            *first = y;
        }
    }
}

// The least members of the groups of all nodes, from those of the visible ones: hidden nodes join the group of class 0 without
// edges.
pub fn adopt_hidden(edges: &[u64], classes: &[u16], n: usize, least: &mut [u16])
    requires { VisibleTold n edges.now least.old classes.now }
    ensures { LeastTold n edges.now (class_in n least.old classes.now) least.new }
{
    let Some(hidden) = find_hidden(least, n) else {
        return;
    };
    match find_isolated(edges, classes, least, n) {
        Some(isolated) if isolated < hidden => {
            rename(least, n, Graph::NONE, isolated as u16);
        }
        Some(isolated) => {
            rename(least, n, Graph::NONE, hidden as u16);
            rename(least, n, isolated as u16, hidden as u16);
        }
        None => {
            rename(least, n, Graph::NONE, hidden as u16);
        }
    }
}
