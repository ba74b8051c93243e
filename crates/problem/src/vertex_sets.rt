// What the sets of vertices that an old vertex may lie on are made of.

ghost use Rattle.problem.specs.VertexSets.{Diagonal, MetAll};

use graph::{Label, MAX_ORDER};

// The edge of each number with itself; null past the end of the table.
pub fn diagonal(edges: &[u8]) -> [Label; MAX_ORDER]
    ensures { Diagonal edges.now result }
{
    let mut own: [Label; MAX_ORDER] = [0; MAX_ORDER];
    for v in 0..MAX_ORDER {
        let at = MAX_ORDER * v + v;
        if at < edges.len() {
            own[v] = edges[at] as Label;
        }
    }
    own
}

pub fn meet_all(first: [u64; MAX_ORDER], second: [u64; MAX_ORDER]) -> [u64; MAX_ORDER]
    ensures { MetAll first second result }
{
    let mut words = [0u64; MAX_ORDER];
    for v in 0..MAX_ORDER {
        words[v] = bitset::meet(first[v], second[v]);
    }
    words
}
