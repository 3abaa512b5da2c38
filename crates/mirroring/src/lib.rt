// The bits below the diagonal of an edge table set above it too: by strips of 64 rows, each transposed.
#![tactic(auto)]

ghost use Rattle.std.specs.Prelude.{◌≡◌, ◌+◌, ◌*◌, ◌≤◌, ◌<◌, length};
ghost use Rattle.model.specs.Graph.{max_nodes, row_words};
ghost use Rattle.drawing.specs.Drawing.{Added};
ghost use Rattle.mirroring.specs.Mirroring.{InRow, Lower, Mirrored, MirroredAt, StripsFor, columns_to};

use rows::Graph;
use symmetry::STRIP;

// Word j of a transposed strip put into word i of the 64 rows from row 64 * j on.
fn lay(table: &mut [u64], i: usize, j: usize, strip: &[u64; STRIP])
    requires { (row_words * (64 * j + 64) ≤ length table.old) × (i < 8) × (j < 8) }
    ensures { Added (columns_to i j strip.now 64) table.old table.new }
{
    for k in 0..64 {
        table[Graph::ROW_WORDS * (64 * j + k) + i] |= strip[Graph::ROW_WORDS * k + j];
    }
}

// The bits of strip i up to the diagonal, set across it; b is room to work in.
fn mirror_strip(table: &mut [u64], i: usize, b: &mut [u64; STRIP])
    requires { StripsFor (64 * i + 64) (length table.old) × (i < 8) }
    ensures { MirroredAt (InRow i (i + 1)) table.old table.new }
{
    let a = STRIP * i;
    symmetry::turn(&table[a..a + STRIP], b, 0, i + 1);
    for j in 0..i + 1 {
        lay(table, i, j, b);
    }
}

// Every bit below the diagonal set above it too.
pub fn mirror(table: &mut [u64], n: usize)
    requires { (n ≤ max_nodes) × Lower n table.old }
    ensures { Mirrored table.old table.new }
{
    let mut b = [0u64; STRIP];
    for i in 0..rows::word_of(n + 63) {
        mirror_strip(table, i, &mut b);
    }
}
