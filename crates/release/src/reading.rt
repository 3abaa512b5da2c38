// A release read back into tables.
ghost use Rattle.std.specs.Prelude.{◌≡◌, true, ◌*◌, length};
ghost use Rattle.model.specs.Tables.{tables_of};
ghost use Rattle.rows.specs.Rows.{lent};
ghost use Rattle.compressed.specs.Compressed.{class_in};
ghost use Rattle.sums.specs.Sums.{Cubed};
ghost use Rattle.sums.specs.Joined.{JoinedSummed};
ghost use Rattle.judging.specs.Judging.{Exact, held};
ghost use Rattle.adopting.specs.Adopting.{VisibleTold};
ghost use Rattle.tables.specs.Lent.{Sized};
ghost use Rattle.release.specs.Fill.{Keyed, SumsFilled};

use crate::copies;
use compressed::Groups;

// The first members of all nodes, and the keys by rows: for rows with many bits.
fn key_rows(n: usize, groups: &mut Groups, edges: &[u64], keys: &mut [u32])
    requires { VisibleTold n edges.now groups.old.least groups.old.classes × (length keys.old ≡ 2 * n) }
    ensures { Keyed n edges.now (class_in n groups.old.least groups.old.classes) groups.new.least keys.new }
{
    adopting::adopt_hidden(edges, &groups.classes, n, &mut groups.least);
    keys::sum_rows(edges, keys, n);
}

// The keys by the sums of groups, and the first members of all nodes.
fn key_groups(n: usize, groups: &mut Groups, edges: &[u64], keys: &mut [u32])
    requires { SumsFilled n groups.old.least groups.old.kinds groups.old.classes groups.old.sums edges.now × (length keys.old ≡ 2 * n) }
    ensures { Keyed n edges.now (class_in n groups.old.least groups.old.classes) groups.new.least keys.new }
{
    sums::key_groups(&groups.least, &groups.kinds, &groups.sums, keys, n);
    adopting::adopt_hidden(edges, &groups.classes, n, &mut groups.least);
}

// The keys, by sums where they were kept, and the first members of all nodes, hidden ones among those without edges.
fn fill_keys(n: usize, few: bool, groups: &mut Groups, edges: &[u64], keys: &mut [u32])
    requires { VisibleTold n edges.now groups.old.least groups.old.classes × (few ≡ true → SumsFilled n groups.old.least groups.old.kinds groups.old.classes groups.old.sums edges.now) × (length keys.old ≡ 2 * n) }
    ensures { Keyed n edges.now (class_in n groups.old.least groups.old.classes) groups.new.least keys.new }
{
    if few {
        key_groups(n, groups, edges, keys);
        return;
    }
    key_rows(n, groups, edges, keys);
}

// The tables of a graph held by its groups, whose sums were kept if superedges are few. Their first members become those of all nodes.
// Not inlined, so that its caller keeps the groups of a file where they are made and copies none of them.
#[inline(never)]
pub fn fill(
    n: usize,
    few: bool,
    groups: &mut Groups,
    joined: &[u64],
    edges: &mut [u64],
    nodes: &mut [u16],
    keys: &mut [u32],
)
    requires exact { Exact n groups.old.least groups.old.kinds groups.old.classes joined.now × Sized n (lent edges.old nodes.old keys.old) }
    requires cubed { few ≡ true → Cubed n groups.old.least groups.old.sums × JoinedSummed joined.now groups.old.sums }
    ensures { lent edges.new nodes.new keys.new ≡ tables_of (held n groups.old.least groups.old.kinds groups.old.classes joined.now) }
{
    unfolding::fill_edges(&groups.least, &groups.kinds, joined, n, edges);
    copies::put_labels(&groups.least, &groups.classes, n, nodes);
    fill_keys(n, few, groups, edges, keys);
    groups::build(nodes, &groups.least, n);
}
