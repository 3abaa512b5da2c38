// Marks and classes taken from a node table, and put into one.
ghost use Rattle.std.specs.Prelude.{◌≡◌, ℕ, ◌+◌, ◌*◌, ◌≤◌, ◌<◌, get_or, length, replicate};
ghost use Rattle.model.specs.Graph.{max_nodes, node_numbers};
ghost use Rattle.model.specs.Tables.{node_number};
ghost use Rattle.buffers.specs.Filled.{Filled};
ghost use Rattle.rows.specs.Rows.{no_node};
ghost use Rattle.rings.specs.Steps.{LabelsPut};
ghost use Rattle.release.specs.Fill.{class_for, mark_for};

use rows::Graph;
use tables::Tables;

// Number k of each node, in a list of their own.
#[tactic(auto, using(tables::specs::LentLaws::held_sized))]
pub fn take_numbers(tables: Tables<'_>, k: usize) -> [u16; Graph::NODES]
    requires { k < node_numbers }
    ensures { Filled (λ p. node_number tables.entry.nodes.now p k) tables.entry.n (replicate max_nodes 0) result }
{
    let mut numbers = [0u16; Graph::NODES];
    for p in 0..tables.n {
        numbers[p] = tables.nodes[Graph::NODE_NUMBERS * p + k];
    }
    numbers
}

// The mark of a node by its first member: 1 for none.
#[tactic(auto, unfolding(crate::specs::Fill::mark_for))]
fn mark_for(first: u16) -> u16
    ensures { result ≡ mark_for first }
{
    u16::from(first == Graph::NONE)
}

// The class of a node by its first member, where the group's is told: 0 for none.
#[tactic(auto, unfolding(crate::specs::Fill::class_for))]
fn class_for(classes: &[u16], first: u16) -> u16
    requires { (first ≡ no_node → ⊥) → first < length classes.now }
    ensures { result ≡ class_for classes.now first }
{
    if first == Graph::NONE {
        return 0;
    }
    classes[rows::wide(first)]
}

// Nodes of no group are marked as hidden, the others have their group's class.
#[tactic(auto, using(rings::specs::LabelLaws::put_none, rings::specs::LabelLaws::put_all))]
pub fn put_labels(least: &[u16], classes: &[u16], n: usize, nodes: &mut [u16])
    requires { (n ≤ max_nodes) × (length nodes.old ≡ node_numbers * n) × (n ≤ length least.now) × ((p : ℕ) → p < n → (get_or least.now p 0 ≡ no_node → ⊥) → get_or least.now p 0 < length classes.now) }
    ensures { LabelsPut (λ p. mark_for (get_or least.now p 0)) (λ p. class_for classes.now (get_or least.now p 0)) n nodes.old nodes.new }
{
    for p in 0..n {
        let a = Graph::NODE_NUMBERS * p;
        nodes[a + groups::MARK] = mark_for(least[p]);
        nodes[a + groups::CLASS] = class_for(classes, least[p]);
    }
}
