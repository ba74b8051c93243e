// The edges of a vertex with those before it, a row beside a column, eight bytes of each by one test.

ghost use Rattle.std.specs.Prelude.{◌≡◌, ◌↔◌, true, ◌+◌, ◌%◌, ◌≤◌, ◌<◌, length};
ghost use Rattle.graph.specs.EdgeRows.{Between, Same};

use super::joined::WORD;
use super::{EDGE_BYTES, MAX_ORDER, joined};

// Eight bytes are those of eight others exactly where their numbers are the same (`from_little_injective`).
fn eight_same(edges: &[u8; EDGE_BYTES], a: usize, b: usize) -> bool
    requires { (a < 64) × (b + 8 ≤ 64) }
    ensures { (result ≡ true) ↔ Between (Same edges.now a) b (b + 8) }
{
    let row = joined::eight(edges, MAX_ORDER * a + b, 1);
    let column = joined::eight(edges, MAX_ORDER * b + a, MAX_ORDER);
    row == column
}

fn words_same(edges: &[u8; EDGE_BYTES], a: usize, to: usize) -> bool
    requires { (a < 64) × (to ≤ 64) × (to % 8 ≡ 0) }
    ensures { (result ≡ true) ↔ Between (Same edges.now a) 0 to }
{
    for word in 0..to / WORD {
        if !eight_same(edges, a, WORD * word) {
            return false;
        }
    }
    true
}

fn bytes_same(edges: &[u8; EDGE_BYTES], a: usize, from: usize) -> bool
    requires { a < 64 }
    ensures { (result ≡ true) ↔ Between (Same edges.now a) from a }
{
    for b in from..a {
        if edges[MAX_ORDER * a + b] != edges[MAX_ORDER * b + a] {
            return false;
        }
    }
    true
}

// By the word up to the last multiple of eight, from there singly.
pub fn same_before(edges: &[u8; EDGE_BYTES], a: usize) -> bool
    requires { a < 64 }
    ensures { (result ≡ true) ↔ Between (Same edges.now a) 0 a }
{
    let aligned = a / WORD * WORD;
    if !words_same(edges, a, aligned) {
        return false;
    }
    bytes_same(edges, a, aligned)
}
