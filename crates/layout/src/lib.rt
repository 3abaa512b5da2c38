// Definitions and laws in specs/, and the set of bits that a test makes.
#![tactic(auto)]

ghost use Rattle.std.specs.Prelude.{◌≡◌, Bool, ℕ, ◌≤◌, ◌<◌};
ghost use Rattle.model.specs.Graph.{max_nodes};
ghost use Rattle.layout.specs.Words.{Marking};

use rows::Graph;

// The nodes below n that pass a test, as a set of bits.
pub fn set_of<F: Fn(usize) -> bool>(n: usize, passes: F) -> [u64; Graph::ROW_WORDS]
    requires small { n ≤ max_nodes }
    requires callable { (p : ℕ) → p < n → F.pre passes p }
    ensures { (P : ℕ → Bool) → ((p : ℕ) (b : Bool) → p < n → F.post passes p b → b ≡ P p) → Marking P result n }
{
    let mut set = [0u64; Graph::ROW_WORDS];
    for p in 0..n {
        if passes(p) {
            let w = rows::word_of(p);
            set[w] = set[w] ^ rows::mask(p);
        }
    }
    set
}
