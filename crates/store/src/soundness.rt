// The test that words are a store opened for n nodes: every place is judged, whatever name is asked.
ghost use Rattle.std.specs.Prelude.{◌≡◌, ◌&&◌, ◌*◌, ◌≤◌, ltb, length};
ghost use Rattle.model.specs.Lists.{all, nodes};
ghost use Rattle.model.specs.Graph.{max_nodes, row_words};
ghost use Rattle.model.specs.Store.{is_store, max_states, place_words, words_at};
ghost use Rattle.edges.specs.Edges.{edges_hold};
ghost use Rattle.states.specs.States.{word_limit};
ghost use Rattle.store.specs.Judging.{place_holds};

use places::{PLACES, STATE, Store};
use rows::Graph;

// Whether the edges are those of a graph, and each word is a mark and twice a class.
fn state_holds(n: usize, edges: &[u64], words: &[u64]) -> bool
    requires { (n ≤ max_nodes) × (length edges.now ≡ row_words * n) }
    ensures { result ≡ (edges_hold n edges.now && all words.now (λ x. ltb x word_limit)) }
{
    edges::hold(edges, n) && buffers::union_of(words) < states::WORD_LIMIT
}

// Whether a place is free and all zeros, or used and its state a graph. Any two words are a name.
#[tactic(auto, using(crate::proofs::JudgeLaws::other_fails))]
fn place_holds(n: usize, place: &[u64]) -> bool
    requires { (n ≤ max_nodes) × (length place.now ≡ place_words n) }
    ensures { result ≡ place_holds n place.now }
{
    match place[0] {
        0 => buffers::union_of(place) == 0,
        1 => {
            let (edges, words) = place[STATE..].split_at(Graph::ROW_WORDS * n);
            state_holds(n, edges, words)
        }
        _ => false,
    }
}

#[tactic(auto, using(buffers::specs::AllLaws::all_pass_lem, crate::proofs::JudgeLaws::place_size))]
fn places_hold(store: &Store<'_>) -> bool
    ensures { result ≡ all (nodes max_states) (λ i. place_holds store.now.n (words_at store.now.n store.now.words.now i)) }
{
    for i in 0..PLACES {
        if !place_holds(store.n, store.place(i)) {
            return false;
        }
    }
    true
}

// Whether the words are a store for n nodes.
#[tactic(auto, using(crate::proofs::JudgeLaws::count_wrong, crate::proofs::JudgeLaws::place_fails, crate::proofs::JudgeLaws::names_tell))]
pub fn is_store(store: &Store<'_>) -> bool
    ensures { result ≡ is_store store.now.n store.now.words.now }
{
    if store.words[0] != (store.n + 1) as u64 {
        return false;
    }
    places_hold(store) && store.are_apart()
}
