// The groups of all nodes, where their keys are known: leaders are chained by these.
ghost use Rattle.std.specs.Prelude.{◌≡◌, ◌+◌, ◌*◌, ◌<◌, ◌≤◌, length, slice_index};
ghost use Rattle.model.specs.Graph.{max_nodes};
ghost use Rattle.keys.specs.KeySums.{LeastTold};
ghost use Rattle.grouping.specs.Keyed.{KeysTold, key_slot, nobody};

use super::Slots;

// Slots by the keys of nodes, where nobody is hidden.
#[derive(Clone, Copy)]
struct Keys<'a> {
    keys: &'a [u32],
}

impl<'a> Slots for Keys<'a> {
    ghost marks = { λ s. nobody };

    ghost told = { λ s. key_slot s.keys.now };

    ghost reaches = { λ s u. (u < max_nodes) × (2 * u + 2 ≤ length s.keys.now) };

    fn is_visible(&self, u: usize) -> bool {
        true
    }

    fn slot(&self, closed: bool, u: usize) -> usize {
        super::slot_in(self.keys[2 * u + closed as usize] as u64)
    }
}

// The least members of the groups of all nodes, by their keys.
pub fn find_groups(edges: &[u64], keys: &[u32], classes: &[u16], n: usize, least: &mut [u16])
    requires { KeysTold n edges.now keys.now classes.now × (n ≤ length least.old) }
    ensures { LeastTold n edges.now (λ p. slice_index classes.now p) least.new }
{
    super::group(&Keys { keys }, edges, classes, n, least);
}
