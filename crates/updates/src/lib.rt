// A batch on tables that hold a graph.
#![tactic(auto)]

ghost use Rattle.std.specs.Prelude.{◌≡◌, not, ◌%◌, ◌≤◌, length};
ghost use Rattle.model.specs.Updates.{update_count, update_numbers, wrong_batch};
ghost use Rattle.rows.specs.Rows.{lent};
ghost use Rattle.tables.specs.Lent.{Held};
ghost use Rattle.updates.specs.Batch.{BatchApplied};

use rows::Graph;
use updating::{answer, apply};

mod updating;

// How many updates a batch has.
#[tactic(auto, unfolding(model::specs::Updates::update_count))]
pub fn count(batch: &[u16]) -> usize
    ensures { result ≡ update_count batch.now }
{
    batch.len() / Graph::UPDATE_NUMBERS
}

// Whether a batch is of whole updates and not too long (else 11).
pub fn is_whole(batch: &[u16]) -> bool
    ensures { result ≡ not (wrong_batch batch.now) }
{
    if batch.len() % Graph::UPDATE_NUMBERS != 0 {
        return false;
    }
    count(batch) <= Graph::UPDATES
}

// The updates in order, each with its answer.
pub fn run(
    n: usize,
    edges: &mut [u64],
    nodes: &mut [u16],
    keys: &mut [u32],
    batch: &[u16],
    answers: &mut [i16],
)
    requires held { Held n (lent edges.old nodes.old keys.old) }
    requires update_numbers_len { (length batch.now % update_numbers ≡ 0) × (update_count batch.now ≤ length answers.old) }
    ensures { BatchApplied n batch.now (lent edges.old nodes.old keys.old) answers.old (lent edges.new nodes.new keys.new) answers.new }
{
    let (updates, _) = batch.as_chunks();
    for (i, numbers) in updates.iter().enumerate() {
        answers[i] = answer(apply(n, edges, nodes, keys, *numbers));
    }
}
