// A graph held by its groups: definitions and laws in specs/, the kinds that stand in its arrays, and which graphs are small.
#![tactic(auto)]

ghost use Rattle.std.specs.Prelude.{◌≡◌, ◌*◌, replicate};
ghost use Rattle.model.specs.Graph.{max_nodes};
ghost use Rattle.rows.specs.Rows.{no_node};
ghost use Rattle.compressed.specs.Compressed.{single};

use rows::Graph;

// The kinds of a group: of one node, independent, a clique.
pub const SINGLE: u16 = 0;

pub const INDEPENDENT: u16 = 1;

pub const CLIQUE: u16 = 2;

// A graph of at most so many nodes is small: its rows are one block of 64.
pub const SMALL: usize = 64;

// The groups of a graph: the least member of each node's group, the kind and class of each group at its least member, and sums by which groups are told apart.
#[derive(Drop)]
pub struct Groups {
    pub least: [u16; Graph::NODES],
    pub kinds: [u16; Graph::NODES],
    pub classes: [u16; Graph::NODES],
    pub sums: [u32; 2 * Graph::NODES],
}

impl Groups {
    // No node has a group, a class or a sum, and every kind is that of a single node.
    pub fn blank() -> Groups
        ensures least { result.least ≡ replicate max_nodes no_node }
        ensures kinds { result.kinds ≡ replicate max_nodes single }
        ensures classes { result.classes ≡ replicate max_nodes 0 }
        ensures sums { result.sums ≡ replicate (2 * max_nodes) 0 }
    {
        Groups {
            least: [Graph::NONE; Graph::NODES],
            kinds: [SINGLE; Graph::NODES],
            classes: [0; Graph::NODES],
            sums: [0; 2 * Graph::NODES],
        }
    }
}
