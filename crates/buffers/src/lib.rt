// Words copied, cleared and united. The rest are definitions and laws, in specs/.
#![tactic(auto)]

ghost use Rattle.std.specs.Prelude.{◌≡◌, ℕ, ◌+◌, ◌^◌, ◌≤◌, ltb, length, replicate, take};
ghost use Rattle.model.specs.Lists.{all};

// The first words of a list, as many as there is room for.
pub fn copy_words(from: &[u64], to: &mut [u64])
    requires { length to.old ≤ length from.now }
    ensures { to.new ≡ take (length to.old) from.now }
{
    // Word by word: `copy_from_slice` asks the linker for one function more.
    for (i, word) in to.iter_mut().enumerate() {
        *word = from[i];
    }
}

pub fn clear_words(words: &mut [u64])
    ensures { words.new ≡ replicate (length words.old) 0 }
{
    words.fill(0);
}

// The bits that stand in any of the words: they are below a power of two exactly if all words are.
// Eight words are one turn, since the time of a short loop depends on where its code lies.
pub fn union_of(words: &[u64]) -> u64
    ensures { (k : ℕ) → ltb result (2 ^ k) ≡ all words.now (λ x. ltb x (2 ^ k)) }
{
    let (eights, rest) = words.as_chunks::<8>();
    let bits = eights.iter().fold(
        0,
        |bits, eight| eight.iter().fold(bits, |bits, word| bits | *word),
    );
    rest.iter().fold(bits, |bits, word| bits | *word)
}
