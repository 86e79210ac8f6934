// Texts of one hash, and crowds of one vertex.
use crate::test_rows::text;
use bl_graph::{Graph, Seeded};
use bl_outside::Text;
use bl_value::{Change, Side, Value};
use std::alloc::Global;
use std::collections::BTreeSet;
use std::hash::{BuildHasher, Hash, Hasher};
use std::process::Abort;

const SEED: u128 = 0x2545_f491_4f6c_dd1d_9e6c_63d0_676a_9a99;

// A text of 16 bytes that is aimed at seed 0: its first word is what the hash subtracts, so the
// product of the two words is nothing, whatever the second is.
fn aimed<R: Abort>(rt: &R, alloc: Global, number: u64) -> Text {
    let begun = Seeded::new(0).build_hasher().finish();
    let first = begun.wrapping_add(16).to_le_bytes();
    let mut aimed = Text::copy_of(alloc, &first).expect(rt, "memory");
    aimed.extend(&number.to_le_bytes()).expect(rt, "memory");
    aimed
}

fn hash_of(seeded: Seeded, text: &Text) -> u64 {
    let mut hasher = seeded.build_hasher();
    text.hash(&mut hasher);
    hasher.finish()
}

// How many hashes the first so many texts have.
fn hashes<R: Abort>(rt: &R, alloc: Global, seed: u128, texts: u64) -> usize {
    let seeded = Seeded::new(seed);
    let mut hashes = BTreeSet::new(alloc);
    for number in 0..texts {
        let hash = hash_of(seeded, &aimed(rt, alloc, number));
        hashes.insert(hash).expect(rt, "memory");
    }
    hashes.len()
}

// Applies a change, and lets go of it.
fn apply<R: Abort>(rt: &R, graph: &mut Graph, change: Change) {
    graph.apply(&change).expect(rt, "memory");
}

// How many vertices there are once the first so many texts are.
fn vertices<R: Abort>(rt: &R, alloc: Global, seed: u128, texts: u64) -> u64 {
    let mut graph = Graph::empty(alloc, seed);
    for number in 0..texts {
        let id = aimed(rt, alloc, number);
        let label = text(rt, alloc, "aimed");
        apply(rt, &mut graph, Change::AddLabel { id, label });
    }
    graph.sizes().0
}

#[test]
fn texts_that_are_aimed_at_one_seed_miss_another(rt: HostRuntime) {
    let alloc = rt.alloc();
    assert!(rt; hashes(&rt, alloc, 0, 20_000) == 1);
    assert!(rt; hashes(&rt, alloc, SEED, 20_000) == 20_000);
    assert!(rt; vertices(&rt, alloc, 0, 500) == 500);
    assert!(rt; vertices(&rt, alloc, SEED, 20_000) == 20_000);
}

fn numbered<R: Abort>(rt: &R, alloc: Global, letter: u8, number: u32) -> Text {
    let mut text = Text::copy_of(alloc, &[letter]).expect(rt, "memory");
    text.extend(&number.to_le_bytes()).expect(rt, "memory");
    text
}

// A truth at a key of the first vertex.
fn at_key<R: Abort>(rt: &R, alloc: Global, number: u32) -> (Text, Text, Value) {
    let key = numbered(rt, alloc, b'k', number);
    (text(rt, alloc, "v1"), key, Value::Bool(true))
}

// A text of a set of the second vertex.
fn in_set<R: Abort>(rt: &R, alloc: Global, number: u32) -> (Text, Text, Value) {
    let value = Value::Str(numbered(rt, alloc, b't', number));
    (text(rt, alloc, "v2"), text(rt, alloc, "tags"), value)
}

fn add<R: Abort>(rt: &R, graph: &mut Graph, (id, key, value): (Text, Text, Value)) {
    let side = Side::Vertex;
    apply(
        rt,
        graph,
        Change::AddValue {
            side,
            id,
            key,
            value,
        },
    );
}

fn remove<R: Abort>(rt: &R, graph: &mut Graph, (id, key, value): (Text, Text, Value)) {
    let side = Side::Vertex;
    apply(
        rt,
        graph,
        Change::RemoveValue {
            side,
            id,
            key,
            value,
        },
    );
}

// A label, a key with a value, and a value of one key, each a new one.
fn crowd<R: Abort>(rt: &R, alloc: Global, graph: &mut Graph, number: u32) {
    let id = text(rt, alloc, "v1");
    let label = numbered(rt, alloc, b'l', number);
    apply(rt, graph, Change::AddLabel { id, label });
    add(rt, graph, at_key(rt, alloc, number));
    add(rt, graph, in_set(rt, alloc, number));
}

fn leave<R: Abort>(rt: &R, alloc: Global, graph: &mut Graph, number: u32) {
    remove(rt, graph, at_key(rt, alloc, number));
    remove(rt, graph, in_set(rt, alloc, number));
}

#[test]
fn one_vertex_takes_a_crowd_of_labels_keys_and_values(rt: HostRuntime) {
    let alloc = rt.alloc();
    let mut graph = Graph::empty(alloc, SEED);
    for number in 0..20_000 {
        crowd(&rt, alloc, &mut graph, number);
    }
    assert!(rt; graph.sizes() == (1, 0, 40_000));
    for number in 0..20_000 {
        leave(&rt, alloc, &mut graph, number);
    }
    assert!(rt; graph.sizes() == (1, 0, 0));
}
