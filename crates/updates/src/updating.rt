// One update of a batch, on tables that hold a graph.
ghost use Rattle.std.specs.Prelude.{◌≡◌, ◌||◌, ◌+◌, ◌*◌, ◌≤◌, ◌<◌, MatchResult, length, set};
ghost use Rattle.model.specs.Graph.{max_nodes, node_numbers};
ghost use Rattle.model.specs.Tables.{graph_of};
ghost use Rattle.model.specs.Refusals.{first_of};
ghost use Rattle.model.specs.Updates.{refusal};
ghost use Rattle.answers.specs.Numbers.{code};
ghost use Rattle.rows.specs.Rows.{lent};
ghost use Rattle.groups.specs.Groups.{change};
ghost use Rattle.tables.specs.Lent.{Held};
ghost use Rattle.updates.specs.Asked.{Refused, Told, Within, answered, asked_by, change_of};
ghost use Rattle.updates.specs.Batch.{Updated, held_reasons, is_marked};

use answers::{Refusal, check_pair};
use rows::Graph;
use tables::Tables;

// What an update asks for.
#[derive(Clone, Copy)]
enum Update {
    Edge { u: usize, v: usize, wanted: u16 },
    Mark { u: usize, wanted: u16 },
    Class { u: usize, class: usize },
}

// The edge between u and v, or 14, 15.
fn edge(n: usize, u: usize, v: usize, wanted: u16) -> Result<Update, Refusal>
    ensures { MatchResult result (Told n (change 1 u v wanted)) (Refused n (change 1 u v wanted)) }
{
    check_pair(n, u, v)?;
    if wanted > 1 {
        return Err(Refusal::WrongValue);
    }
    Ok(Update::Edge { u, v, wanted })
}

// The mark of u, where v says nothing, or 14, 15.
fn mark(n: usize, u: usize, v: usize, wanted: u16) -> Result<Update, Refusal>
    ensures { MatchResult result (Told n (change 2 u v wanted)) (Refused n (change 2 u v wanted)) }
{
    if u >= n {
        return Err(Refusal::NoNode);
    }
    if v != 0 || wanted > 1 {
        return Err(Refusal::WrongValue);
    }
    Ok(Update::Mark { u, wanted })
}

// The class of u, where wanted says nothing, or 14, 15.
fn class(n: usize, u: usize, class: usize, wanted: u16) -> Result<Update, Refusal>
    ensures { MatchResult result (Told n (change 3 u class wanted)) (Refused n (change 3 u class wanted)) }
{
    if u >= n {
        return Err(Refusal::NoNode);
    }
    if class >= Graph::CLASSES || wanted != 0 {
        return Err(Refusal::WrongValue);
    }
    Ok(Update::Class { u, class })
}

// Refused where what is wanted holds already.
fn check_new(wanted: u16, there: bool) -> Result<(), Refusal>
    ensures { code result ≡ first_of (held_reasons wanted there) }
{
    if there as u16 == wanted {
        return Err(Refusal::AlreadyHolds);
    }
    Ok(())
}

// Whether u is hidden.
#[tactic(auto, using(tables::specs::LentLaws::held_sized))]
fn is_hidden(tables: &Tables<'_>, u: usize) -> bool
    requires { u < tables.now.n }
    ensures { result ≡ is_marked tables.now.nodes.now u }
{
    groups::number(tables.nodes, u, groups::MARK) == 1
}

// Whether the edge between u and v is frozen: one of them is hidden. Both marks are read, for one branch in place of two.
fn is_frozen(tables: &Tables<'_>, u: usize, v: usize) -> bool
    requires { (u < tables.now.n) × (v < tables.now.n) }
    ensures { result ≡ (is_marked tables.now.nodes.now u || is_marked tables.now.nodes.now v) }
{
    is_hidden(tables, u) | is_hidden(tables, v)
}

impl Update {
    // What four numbers ask for, or 13, 14, 15.
    #[tactic(auto, using(crate::specs::UpdateLaws::other_kind))]
    fn new(n: usize, numbers: [u16; Graph::UPDATE_NUMBERS]) -> Result<Update, Refusal>
        ensures { MatchResult result (Told n (asked_by numbers)) (Refused n (asked_by numbers)) }
    {
        let [kind, u, v, wanted] = numbers;
        let u = rows::wide(u);
        let v = rows::wide(v);
        match kind {
            1 => edge(n, u, v, wanted),
            2 => mark(n, u, v, wanted),
            3 => class(n, u, v, wanted),
            _ => Err(Refusal::NoKind),
        }
    }

    // Refused by the tables: 24, 16. Whether the edge is there is looked at last.
    #[tactic(auto, using(tables::specs::LentLaws::held_sized))]
    fn check(self, tables: &Tables<'_>) -> Result<(), Refusal>
        requires { Within tables.now.n self }
        ensures { code result ≡ refusal (graph_of tables.now.n (lent tables.now.edges.now tables.now.nodes.now tables.now.keys.now)) (change_of self) }
    {
        match self {
            Update::Edge { u, v, wanted } => {
                if is_frozen(tables, u, v) {
                    return Err(Refusal::Frozen);
                }
                check_new(wanted, rows::edge(tables.edges, u, v))
            }
            Update::Mark { u, wanted } => check_new(wanted, is_hidden(tables, u)),
            Update::Class { u, class } => {
                if groups::number(tables.nodes, u, groups::CLASS) == class {
                    return Err(Refusal::AlreadyHolds);
                }
                Ok(())
            }
        }
    }
}

// The mark of u.
fn set_mark(nodes: &mut [u16], u: usize, mark: u16)
    requires { (u < max_nodes) × (node_numbers * u + node_numbers ≤ length nodes.old) }
    ensures { nodes.new ≡ set nodes.old (node_numbers * u + 3) mark }
{
    nodes[Graph::NODE_NUMBERS * u + groups::MARK] = mark;
}

// One update: how many groups it adds, and the tables after it.
pub fn apply(
    n: usize,
    edges: &mut [u64],
    nodes: &mut [u16],
    keys: &mut [u32],
    numbers: [u16; Graph::UPDATE_NUMBERS],
) -> Result<i16, Refusal>
    requires { Held n (lent edges.old nodes.old keys.old) }
    ensures { Updated n (asked_by numbers) (lent edges.old nodes.old keys.old) (lent edges.new nodes.new keys.new) (answered result) }
{
    let update = Update::new(n, numbers)?;
    update.check(&Tables {
        n,
        edges,
        nodes,
        keys,
    })?;
    match update {
        Update::Edge { u, v, wanted } => {
            Ok(groups::update_edge(edges, nodes, keys, n, u, v, wanted))
        }
        Update::Mark { u, wanted } => {
            set_mark(nodes, u, wanted);
            Ok(0)
        }
        Update::Class { u, class } => Ok(groups::update_class(edges, nodes, keys, n, u, class)),
    }
}

// The answer of a batch: a refusal's number in the place of a difference.
pub fn answer(outcome: Result<i16, Refusal>) -> i16
    ensures { result ≡ answered outcome }
{
    match outcome {
        Ok(difference) => difference,
        Err(refusal) => u16::from(refusal) as i16,
    }
}
