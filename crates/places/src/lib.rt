// The places of a lent store: names, searches, clearing.
#![tactic(auto)]

ghost use Rattle.std.specs.Prelude.{◌≡◌, ◌≢◌, Bool, true, not, ℕ, ◌+◌, ◌*◌, ◌-◌, ◌≤◌, ◌<◌, MatchOption, length, replicate};
ghost use Rattle.model.specs.Lists.{all, nodes};
ghost use Rattle.model.specs.Graph.{max_nodes};
ghost use Rattle.model.specs.Store.{max_states, name_bytes, no_states, place_words, store_of, store_words, words_at, wrong_store};
ghost use Rattle.rows.specs.Rows.{Words};
ghost use Rattle.search.specs.Search.{first_from};
ghost use Rattle.places.specs.Places.{Found, Named, SizedStore, free_at, new_at, place_word, put_at, under_at};

use rows::Graph;

pub const PLACES: usize = 8;

// Where the state begins in a place: after the word that tells whether it is used, and the name.
pub const STATE: usize = 3;

// The words of a node in a state: its row, and its mark and class in one.
const NODE_WORDS: usize = Graph::ROW_WORDS + 1;

// The words of a store for the most nodes.
pub const MOST_WORDS: usize = 1 + PLACES * (STATE + NODE_WORDS * Graph::NODES);

// A name as the two words that a place keeps.
#[derive(Clone, Copy, PartialEq, Eq)]
pub struct Name {
    pub first: u64,
    pub second: u64,
}

impl Name {
    // The two words of a name, if it has sixteen bytes.
    pub fn new(bytes: &[u8]) -> Option<Name>
        ensures { MatchOption result (length bytes.now ≢ name_bytes) (Named bytes.now) }
    {
        let (first, rest) = bytes.split_first_chunk()?;
        let second: [u8; 8] = rest.try_into().ok()?;
        Some(Name {
            first: u64::from_le_bytes(*first),
            second: u64::from_le_bytes(second),
        })
    }
}

// A store with as many words as one for n nodes has.
#[derive(Clone, Copy)]
pub struct Store<'a> {
    pub n: usize,
    pub words: &'a [u64],
    pub ghost sized: { SizedStore n words.now },
    pub ghost fits: { Words words.now },
}

// How many words a place and a store for n nodes have.
fn place_words(n: usize) -> usize
    requires { n ≤ max_nodes }
    ensures { result ≡ place_words n }
{
    STATE + NODE_WORDS * n
}

pub fn words(n: usize) -> usize
    requires { n ≤ max_nodes }
    ensures { result ≡ store_words n }
{
    1 + PLACES * place_words(n)
}

// Whether n and the length of a store are right (else 11).
#[tactic(auto, using(crate::specs::StepLaws::many_nodes, crate::specs::StepLaws::right_length))]
pub fn right_size(n: usize, store: &[u64]) -> bool
    ensures { result ≡ not (wrong_store n (length store.now)) }
{
    if n > Graph::NODES {
        return false;
    }
    store.len() == words(n)
}

// Where place i starts.
pub fn start(n: usize, i: usize) -> usize
    requires { (n ≤ max_nodes) × (i ≤ max_states) }
    ensures { result ≡ 1 + place_words n * i }
{
    1 + place_words(n) * i
}

// The first place from `from` on that passes.
fn first_place<F: Fn(usize) -> bool>(from: usize, passes: F) -> Option<usize>
    requires at_places { (i : ℕ) → i < max_states → F.pre passes i }
    requires from { from ≤ max_states }
    ensures { (P : ℕ → Bool) → ((i : ℕ) (b : Bool) → i < max_states → F.post passes i b → b ≡ P i) → Found result (first_from P from (max_states - from)) }
{
    for i in from..PLACES {
        if passes(i) {
            return Some(i);
        }
    }
    None
}

impl<'a> Store<'a> {
    // The words as a store for n nodes, if they are as many.
    #[tactic(auto, using(crate::specs::StepLaws::store_sized))]
    pub fn new(n: usize, words: &'a [u64]) -> Option<Store<'a>>
        ensures { MatchOption result (wrong_store n (length words.now) ≡ true) (λ s. (s.n ≡ n) × (s.words ≡ words.entry)) }
    {
        if !right_size(n, words) {
            return None;
        }
        Some(Store { n, words })
    }

    // The words of place i.
    #[tactic(auto, using(crate::specs::StepLaws::part_words))]
    pub fn place(&self, i: usize) -> &'a [u64]
        requires { i < max_states }
        ensures { result.now ≡ words_at self.now.n self.now.words.now i }
    {
        let a = start(self.n, i);
        let b = start(self.n, i + 1);
        &self.words[a..b]
    }

    // Word k of place i: 0 tells whether it is used, 1 and 2 are its name.
    #[tactic(auto, using(crate::specs::StepLaws::word_is))]
    fn word(&self, i: usize, k: usize) -> u64
        requires { (i < max_states) × (k < 3) }
        ensures { result ≡ place_word self.now.n self.now.words.now i k }
    {
        self.words[start(self.n, i) + k]
    }

    // The two words of the name of place i.
    fn name(&self, i: usize) -> Name
        requires { i < max_states }
        ensures { (result.first ≡ place_word self.now.n self.now.words.now i 1) × (result.second ≡ place_word self.now.n self.now.words.now i 2) }
    {
        Name {
            first: self.word(i, 1),
            second: self.word(i, 2),
        }
    }

    // Whether a state is kept in place i, under this name.
    #[tactic(auto, using(crate::specs::StepLaws::under_free, crate::specs::StepLaws::under_used))]
    fn is_under(&self, i: usize, name: Name) -> bool
        requires { i < max_states }
        ensures { result ≡ under_at self.now.n self.now.words.now name.first name.second i }
    {
        self.word(i, 0) == 1 && self.name(i) == name
    }

    // Whether place i is free.
    #[tactic(auto, using(crate::specs::StepLaws::free_is))]
    fn is_free(&self, i: usize) -> bool
        requires { i < max_states }
        ensures { result ≡ free_at self.now.n self.now.words.now i }
    {
        self.word(i, 0) == 0
    }

    // The first place from `from` on that is under the name.
    pub fn find(&self, name: Name, from: usize) -> Option<usize>
        requires { from ≤ max_states }
        ensures { Found result (first_from (under_at self.now.n self.now.words.now name.first name.second) from (max_states - from)) }
    {
        first_place(from, |i| self.is_under(i, name))
    }

    // The lowest free place.
    pub fn find_free(&self) -> Option<usize>
        ensures { Found result (first_from (free_at self.now.n self.now.words.now) 0 max_states) }
    {
        first_place(0, |i| self.is_free(i))
    }

    // Whether no later place has the name of place i.
    #[tactic(auto, using(crate::specs::StepLaws::new_free))]
    fn is_new(&self, i: usize) -> bool
        requires { i < max_states }
        ensures { result ≡ new_at self.now.n self.now.words.now i }
    {
        self.word(i, 0) != 1 || self.find(self.name(i), i + 1).is_none()
    }

    // Whether no name is kept twice.
    #[tactic(auto, using(buffers::specs::AllLaws::all_pass_lem))]
    pub fn are_apart(&self) -> bool
        ensures { result ≡ all (nodes max_states) (new_at self.now.n self.now.words.now) }
    {
        for i in 0..PLACES {
            if !self.is_new(i) {
                return false;
            }
        }
        true
    }
}

// A store without states.
#[tactic(auto, using(crate::specs::StepLaws::empty_is))]
pub fn empty(n: usize, store: &mut [u64])
    requires { (n ≤ max_nodes) × (length store.old ≡ store_words n) }
    ensures { store.new ≡ store_of n no_states }
{
    buffers::clear_words(store);
    store[0] = (n + 1) as u64;
}

// Place i is free again.
#[tactic(auto, using(crate::specs::StepLaws::part_ends, crate::specs::StepLaws::part_size))]
pub fn clear(n: usize, store: &mut [u64], i: usize)
    requires sized { SizedStore n store.old }
    requires place { i < max_states }
    ensures { store.new ≡ put_at n store.old i (replicate (place_words n) 0) }
{
    let a = start(n, i);
    let b = start(n, i + 1);
    buffers::clear_words(&mut store[a..b]);
}
