// Runs of the edge table that must be null, eight bytes by one test (02, U3).

ghost use Rattle.std.specs.Prelude.{◌≡◌, ◌↔◌, true, ◌+◌, ◌%◌, ◌≤◌, ◌<◌, length};
ghost use Rattle.graph.specs.Graph.{place};
ghost use Rattle.graph.specs.EdgeRows.{Between, Null};

use super::joined::WORD;
use super::{EDGE_BYTES, MAX_ORDER, joined};

// Eight bytes are 0 exactly where the number that they say is (`from_little_zero`).
fn eight_null(edges: &[u8; EDGE_BYTES], from: usize) -> bool
    requires { from + 8 ≤ 4096 }
    ensures { (result ≡ true) ↔ Between (Null edges.now) from (from + 8) }
{
    joined::eight(edges, from, 1) == 0
}

pub fn words_null(edges: &[u8; EDGE_BYTES], from: usize, to: usize) -> bool
    requires { (to ≤ 4096) × (from % 8 ≡ 0) × (to % 8 ≡ 0) }
    ensures { (result ≡ true) ↔ Between (Null edges.now) from to }
{
    for word in from / WORD..to / WORD {
        if !eight_null(edges, WORD * word) {
            return false;
        }
    }
    true
}

fn bytes_null(edges: &[u8; EDGE_BYTES], from: usize, to: usize) -> bool
    requires { to ≤ 4096 }
    ensures { (result ≡ true) ↔ Between (Null edges.now) from to }
{
    for place in from..to {
        if edges[place] != 0 {
            return false;
        }
    }
    true
}

// Row a from the order on: singly before the next multiple of eight, from there by the word.
pub fn columns_null(order: usize, edges: &[u8; EDGE_BYTES], a: usize) -> bool
    requires { (order ≤ 64) × (a < 64) }
    ensures { (result ≡ true) ↔ Between (Null edges.now) (place a order) (place a 64) }
{
    let row = MAX_ORDER * a;
    let aligned = (order + 7) / WORD * WORD;
    if !bytes_null(edges, row + order, row + aligned) {
        return false;
    }
    words_null(edges, row + aligned, row + MAX_ORDER)
}
