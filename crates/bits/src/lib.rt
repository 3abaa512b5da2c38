// The bits of a word, one by one: the lowest is taken and cleared, until none is left.
#![tactic(auto)]

ghost use Rattle.std.specs.Prelude.{◌≡◌, ◌^◌, ◌<◌};
ghost use Rattle.std.specs.Iterator.{YieldsFirst, item_count};
ghost use Rattle.buffers.specs.WordBits.{bits_of};

// How many bits a word has.
pub const WORD_BITS: usize = 64;

// The places of the bits of a word, ascending.
#[derive(Drop)]
pub struct Bits {
    word: u64,
    ghost small: { word < 2 ^ 64 },
}

impl Bits {
    #[inline]
    pub fn of(word: u64) -> Self
        ensures { result.word ≡ word }
    {
        Self { word }
    }
}

impl Iterator for Bits {
    type Item = usize;

    ghost next_gives = { YieldsFirst (λ s. bits_of s.word) };

    ghost remaining = { item_count (λ s. bits_of s.word) };

    #[inline]
    fn next(&mut self) -> Option<usize> {
        let x = self.word;
        if x == 0 {
            return None;
        }
        self.word = x & (x - 1);
        Some(x.trailing_zeros() as usize)
    }
}
