// Whether the mapped vertices of the old graph hang together by edges among themselves, by sets of vertices as words.

#![tactic(auto)]

ghost use Rattle.std.specs.Prelude.{◌≡◌, Bool, ℕ, ◌<◌, get_or};
ghost use Rattle.bitset.specs.Members.{set_of};
ghost use Rattle.connected.specs.Spreading.{adjacent as adjacent_in, neighbours as neighbours_in, Neighbours, is_mapped, mapped_set};
ghost use Rattle.connected.specs.Spreading.{connected_set, is_connected};

use graph::MAX_ORDER;
use mapping::{OldVertex, UNMAPPED};

// Whether two different vertices have an edge; null past the end of the table.
fn adjacent(edges: &[u8], from: OldVertex, to: OldVertex) -> bool
    requires { (from.0 < 64) × (to.0 < 64) }
    ensures { result ≡ adjacent_in edges.now from.0 to.0 }
{
    let u = from.0;
    let v = to.0;
    let at = MAX_ORDER * u + v;
    u != v && at < edges.len() && edges[at] != 0
}

// The set of the numbers below 64 that pass a test.
fn set_where<F: Fn(usize) -> bool>(test: F) -> u64
    requires { (i : ℕ) → i < 64 → F.pre test i }
    ensures { (passes : ℕ → Bool) → ((i : ℕ) → i < 64 → (b : Bool) → F.post test i b → b ≡ passes i) → result ≡ set_of 64 passes }
{
    let mut set = 0;
    for i in 0..MAX_ORDER {
        if test(i) {
            set = bitset::with(set, i);
        }
    }
    set
}

fn neighbours_of(edges: &[u8], vertex: OldVertex) -> u64
    requires { vertex.0 < 64 }
    ensures { result ≡ neighbours_in edges.now vertex.0 }
{
    set_where(
        |u| -> bool
            requires { (u < 64) × (vertex.0 < 64) }
            ensures { result ≡ adjacent_in edges.entry.now vertex.0 u }
        { adjacent(edges, vertex, OldVertex(u)) },
    )
}

// The set of its neighbours for each vertex: those that an edge joins with it.
pub fn neighbours(edges: &[u8]) -> [u64; MAX_ORDER]
    ensures { Neighbours edges.now result }
{
    let mut words = [0u64; MAX_ORDER];
    for v in 0..MAX_ORDER {
        words[v] = neighbours_of(edges, OldVertex(v));
    }
    words
}

fn is_mapped(mapping: &[u8], vertex: OldVertex) -> bool
    ensures { result ≡ is_mapped mapping.now vertex.0 }
{
    let v = vertex.0;
    v < mapping.len() && mapping[v] != UNMAPPED
}

fn mapped_set(mapping: &[u8]) -> u64
    ensures { result ≡ mapped_set mapping.now }
{
    set_where(
        |v| -> bool
            ensures { result ≡ is_mapped mapping.entry.now v }
        { is_mapped(mapping, OldVertex(v)) },
    )
}

// Whether a set of vertices hangs together: its least vertex spreads to its neighbours within the set, and these to theirs, each vertex once.
pub fn is_connected_set(neighbours: &[u64; MAX_ORDER], set: u64) -> bool
    ensures { result ≡ connected_set (λ v. get_or neighbours.now v 0) set }
{
    let mut rest = bitset::without_least(set);
    let mut front = bitset::difference(set, rest);
    while !bitset::is_empty(rest) {
        let Some(v) = bitset::least_member(front) else {
            return false;
        };
        let met = bitset::meet(rest, neighbours[v]);
        front = bitset::union(bitset::without_least(front), met);
        rest = bitset::difference(rest, met);
    }
    true
}

// Whether the mapped vertices of a mapping hang together.
pub fn is_connected(edges: &[u8], mapping: &[u8]) -> bool
    ensures { result ≡ is_connected edges.now mapping.now }
{
    let words = neighbours(edges);
    is_connected_set(&words, mapped_set(mapping))
}
