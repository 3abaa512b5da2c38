// What every call asks of the tables that it is lent: that their lengths are right, and that they hold a graph.
#![tactic(auto)]

ghost use Rattle.std.specs.Prelude.{◌≡◌, not, [], IfOk};
ghost use Rattle.model.specs.Refusals.{first_of, lengths, wrong_size};
ghost use Rattle.answers.specs.Numbers.{code};
ghost use Rattle.rows.specs.Rows.{lent};
ghost use Rattle.tables.specs.Lent.{Held, table_reasons};

use answers::Refusal;
use rows::Graph;

// Lent tables that hold a graph.
#[derive(Clone, Copy)]
pub struct Tables<'a> {
    pub n: usize,
    pub edges: &'a [u64],
    pub nodes: &'a [u16],
    pub keys: &'a [u32],
    pub ghost held: { Held n (lent edges.now nodes.now keys.now) },
}

// Whether n and the lengths of the tables are right (else 11).
pub fn right_size(n: usize, edges: &[u64], nodes: &[u16], keys: &[u32]) -> bool
    ensures { result ≡ not (wrong_size n (lengths (lent edges.now nodes.now keys.now))) }
{
    Graph::empty(n).fits(edges, nodes, keys)
}

// The tables, if they hold a graph of n nodes. Inlined, so that they are handed back without being stored.
#[inline(always)]
pub fn check<'a>(
    n: usize,
    edges: &'a [u64],
    nodes: &'a [u16],
    keys: &'a [u32],
) -> Result<Tables<'a>, Refusal>
    ensures number { code result ≡ first_of (table_reasons n (lent edges.now nodes.now keys.now) []) }
    ensures same { IfOk result (λ t. (t.n ≡ n) × (t.edges ≡ edges.entry) × (t.nodes ≡ nodes.entry) × (t.keys ≡ keys.entry)) }
{
    if !right_size(n, edges, nodes, keys) {
        return Err(Refusal::WrongSize);
    }
    if !checks::hold(edges, nodes, keys, n) {
        return Err(Refusal::NoGraph);
    }
    Ok(Tables {
        n,
        edges,
        nodes,
        keys,
    })
}
