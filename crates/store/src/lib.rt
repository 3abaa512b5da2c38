// Graphs kept under names in a lent store, to come back to. Each call is the model's (Calls) on every input.
#![tactic(auto)]

ghost use Rattle.std.specs.Prelude.{◌≡◌, true, [], ◌≤◌, ◌<◌, IfOk, length, get_or, set};
ghost use Rattle.model.specs.Tables.{tables_of};
ghost use Rattle.model.specs.Store.{graph_at, max_states, place_in, place_words};
ghost use Rattle.model.specs.Refusals.{first_of};
ghost use Rattle.model.specs.Calls.{drop_call, keep_call, restore_call};
ghost use Rattle.rows.specs.Rows.{lent};
ghost use Rattle.tables.specs.Lent.{Sized, filled};
ghost use Rattle.answers.specs.Numbers.{code};
ghost use Rattle.places.specs.Places.{SizedStore};
ghost use Rattle.store.specs.Judging.{place_holds};
ghost use Rattle.store.specs.Stored.{Put, Read, Written, fill_reasons, kept_reasons, name_reasons, store_reasons, stored};

use answers::Refusal;
use places::{Name, STATE, Store};
use rows::Graph;
use tables::Tables;

mod soundness;

// The store and the name, if n and their lengths are right.
fn named<'a>(n: usize, store: &'a [u64], name: &[u8]) -> Result<(Store<'a>, Name), Refusal>
    ensures number { code result ≡ first_of (name_reasons n store.now name.now) }
    ensures same { IfOk result (λ (s, m). Read n store.now name.now s m) }
{
    let kept = Store::new(n, store).ok_or(Refusal::WrongSize)?;
    let name = Name::new(name).ok_or(Refusal::WrongSize)?;
    Ok((kept, name))
}

// And if the words are a store.
#[tactic(auto, using(crate::proofs::StoredLaws::store_none, crate::proofs::StoredLaws::store_held))]
fn check<'a>(n: usize, store: &'a [u64], name: &[u8]) -> Result<(Store<'a>, Name), Refusal>
    ensures number { code result ≡ first_of (store_reasons n store.now name.now []) }
    ensures same { IfOk result (λ (s, m). Read n store.now name.now s m) }
{
    let (kept, name) = named(n, store, name)?;
    if !soundness::is_store(&kept) {
        return Err(Refusal::NoGraph);
    }
    Ok((kept, name))
}

// The same, where tables are lent too, whatever they hold.
fn restorable<'a>(
    n: usize,
    edges: &[u64],
    nodes: &[u16],
    keys: &[u32],
    store: &'a [u64],
    name: &[u8],
) -> Result<(Store<'a>, Name), Refusal>
    ensures number { code result ≡ first_of (fill_reasons n (lent edges.now nodes.now keys.now) store.now name.now []) }
    ensures same { IfOk result (λ (s, m). Read n store.now name.now s m) }
{
    if !tables::right_size(n, edges, nodes, keys) {
        return Err(Refusal::WrongSize);
    }
    check(n, store, name)
}

// And where they must hold a graph.
fn keepable<'a, 'b>(
    n: usize,
    edges: &'a [u64],
    nodes: &'a [u16],
    keys: &'a [u32],
    store: &'b [u64],
    name: &[u8],
) -> Result<(Tables<'a>, Store<'b>, Name), Refusal>
    ensures number { code result ≡ first_of (kept_reasons n (lent edges.now nodes.now keys.now) store.now name.now []) }
    ensures tables { IfOk result (λ (t, s, m). (t.n ≡ n) × (t.edges ≡ edges.entry) × (t.nodes ≡ nodes.entry) × (t.keys ≡ keys.entry)) }
    ensures same { IfOk result (λ (t, s, m). Read n store.now name.now s m) }
{
    let (kept, name) = named(n, store, name)?;
    let tables = tables::check(n, edges, nodes, keys)?;
    if !soundness::is_store(&kept) {
        return Err(Refusal::NoGraph);
    }
    Ok((tables, kept, name))
}

// The first words of a used place.
fn put_name(place: &mut [u64], name: Name)
    requires { 3 ≤ length place.old }
    ensures { place.new ≡ set (set (set place.old 0 1) 1 name.first) 2 name.second }
{
    place[0] = 1;
    place[1] = name.first;
    place[2] = name.second;
}

// A used place: the name, the edges, the words of the nodes.
#[tactic(auto, using(tables::specs::LentLaws::held_sized))]
fn write_place(tables: &Tables<'_>, name: Name, place: &mut [u64])
    requires { length place.old ≡ place_words tables.now.n }
    ensures { Written tables.now.n tables.now.edges.now tables.now.nodes.now name.first name.second place.new }
{
    states::save(tables.n, tables.edges, tables.nodes, &mut place[STATE..]);
    put_name(place, name);
}

// Place i of a store.
#[tactic(auto, using(places::specs::StepLaws::put_part))]
fn write(tables: &Tables<'_>, name: Name, store: &mut [u64], i: usize)
    requires sized { SizedStore tables.now.n store.old }
    requires place { i < max_states }
    ensures { Put tables.now.n tables.now.edges.now tables.now.nodes.now name.first name.second i store.old store.new }
{
    let a = places::start(tables.n, i);
    let b = places::start(tables.n, i + 1);
    write_place(tables, name, &mut store[a..b]);
}

// The graph of the tables kept under a name, in the lowest free place, or 11, 12, 22, 23.
pub fn keep(
    n: usize,
    edges: &[u64],
    nodes: &[u16],
    keys: &[u32],
    store: &mut [u64],
    name: &[u8],
) -> Result<(), Refusal>
    ensures { stored (code result) store.new ≡ keep_call n (lent edges.now nodes.now keys.now) store.old name.now }
{
    let (tables, kept, name) = keepable(n, edges, nodes, keys, store, name)?;
    if kept.find(name, 0).is_some() {
        return Err(Refusal::AlreadyKept);
    }
    let i = kept.find_free().ok_or(Refusal::StoreFull)?;
    write(&tables, name, store, i);
    Ok(())
}

// The tables of the graph that a used place keeps.
fn fill(n: usize, place: &[u64], edges: &mut [u64], nodes: &mut [u16], keys: &mut [u32])
    requires { Sized n (lent edges.old nodes.old keys.old) × (length place.now ≡ place_words n) × (place_holds n place.now ≡ true) × (get_or place.now 0 0 ≡ 1) }
    ensures { lent edges.new nodes.new keys.new ≡ tables_of (graph_at (place_in n place.now)) }
{
    let (rows, words) = place[STATE..].split_at(Graph::ROW_WORDS * n);
    states::restore(n, rows, words, edges, nodes, keys);
}

// The tables of the graph kept under a name, all worked out from its edges, marks and classes, or 11, 12, 21.
pub fn restore(
    n: usize,
    edges: &mut [u64],
    nodes: &mut [u16],
    keys: &mut [u32],
    store: &[u64],
    name: &[u8],
) -> Result<(), Refusal>
    ensures { filled (code result) (lent edges.new nodes.new keys.new) ≡ restore_call n (lent edges.old nodes.old keys.old) store.now name.now }
{
    let (kept, name) = restorable(n, edges, nodes, keys, store, name)?;
    let i = kept.find(name, 0).ok_or(Refusal::NotKept)?;
    fill(n, kept.place(i), edges, nodes, keys);
    Ok(())
}

// The place of a name made free, all zeros, or 11, 12, 21.
pub fn drop(n: usize, store: &mut [u64], name: &[u8]) -> Result<(), Refusal>
    ensures { stored (code result) store.new ≡ drop_call n store.old name.now }
{
    let (kept, name) = check(n, store, name)?;
    let i = kept.find(name, 0).ok_or(Refusal::NotKept)?;
    places::clear(n, store, i);
    Ok(())
}
