// The program: the bytes of its input to the bytes of its output.
#![tactic(auto)]

ghost use Rattle.std.specs.Prelude.{◌≡◌, List, ℕ, ◌+◌, ◌≤◌, length, take};
ghost use Rattle.model.specs.Calls.{onto};
ghost use Rattle.model.specs.Program.{accepted, max_bytes, printed, program};
ghost use Rattle.model.specs.Updates.{updates_in};
ghost use Rattle.buffers.specs.Wrote.{Wrote};
ghost use Rattle.rows.specs.Rows.{lent};
ghost use Rattle.program.specs.Accepted.{Done, Lent, WithinLimits};

use rows::Graph;

// What the program reads of its input: a byte more than is accepted.
pub const INPUT_BYTES: usize = text::INPUT_BYTES + 1;

// The release buffer, which holds every release that 4,096 changes can lead to.
const FILE_BYTES: usize = 65536;

// No output is longer.
pub const OUTPUT_BYTES: usize = 131072;

// A buffer for the input: what follows the bytes that it holds changes nothing in the output.
pub fn input_buffer() -> [u8; INPUT_BYTES]
    ensures size { length result ≡ max_bytes + 1 }
    ensures enough { (input : List ℕ) → program (take (length result) input) ≡ program input }
{
    [0; INPUT_BYTES]
}

// A batch applied to a new graph of n nodes, and the graph's release: how many bytes the file has. None of the three calls is refused.
fn release_after(
    n: usize,
    edges: &mut [u64],
    nodes: &mut [u16],
    keys: &mut [u32],
    store: &mut [u64],
    batch: &[u16],
    answers: &mut [i16],
    file: &mut [u8],
) -> usize
    requires { Lent n (lent edges.old nodes.old keys.old) store.old batch.now answers.old file.old }
    ensures { Done n batch.now answers.old answers.new file.old file.new result }
{
    let _ = index::open(n, edges, nodes, keys, store);
    let _ = index::apply(n, edges, nodes, keys, batch, answers);
    match release::release(n, edges, nodes, keys, file) {
        Ok(written) => written.bytes as usize,
        Err(_) => 0,
    }
}

// What is printed for n and a batch of changes.
fn print_accepted(n: usize, batch: &[u16], out: &mut [u8]) -> usize
    requires within_limits { WithinLimits n batch.now }
    requires batch_in_bounds { length (printed (accepted n (updates_in batch.now))) ≤ length out.old }
    ensures { Wrote out.old 0 (printed (accepted n (updates_in batch.now))) out.new result }
{
    let mut edges = [0u64; Graph::NODES * Graph::ROW_WORDS];
    let mut nodes = [0u16; Graph::NODES * Graph::NODE_NUMBERS];
    let mut keys = [0u32; Graph::NODES * 2];
    let mut store = [0u64; places::MOST_WORDS];
    let mut answers = [0i16; Graph::UPDATES];
    let mut file = [0u8; FILE_BYTES];
    let words = Graph::ROW_WORDS * n;
    let numbers = Graph::NODE_NUMBERS * n;
    let sums = 2 * n;
    let kept = places::words(n);
    let bytes = release_after(
        n,
        &mut edges[..words],
        &mut nodes[..numbers],
        &mut keys[..sums],
        &mut store[..kept],
        batch,
        &mut answers,
        &mut file,
    );
    let count = batch.len() / Graph::UPDATE_NUMBERS;
    print::output(out, &answers[..count], &file[..bytes])
}

// The program's output for an input: how many bytes it has at the start of the buffer, which keeps its others.
pub fn run(input: &[u8], out: &mut [u8; OUTPUT_BYTES]) -> usize
    ensures bytes { out.new ≡ onto (program input.now) out.old }
    ensures count { result ≡ length (program input.now) }
{
    let mut batch = [0u16; Graph::UPDATE_NUMBERS * Graph::UPDATES];
    match text::parse(input, &mut batch) {
        Err(refused) => print::refused_line(out, 0, refused.line),
        Ok(accepted) => {
            let end = Graph::UPDATE_NUMBERS * accepted.count;
            print_accepted(accepted.n, &batch[..end], out)
        }
    }
}
