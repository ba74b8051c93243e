// What is lent to all visits of a call: what stays the same, and the trail.

ghost use Rattle.std.specs.Prelude.{◌≡◌, true, ◌≤◌, ◌<◌, length};
ghost use Rattle.connected.specs.Spreading.{Neighbours};
ghost use Rattle.search.specs.Rows.{First, Numbers};

use graph::MAX_ORDER;
use mapping::{NewVertex, OldVertex};

// Which search it is, the old graph's order and edges, the masks of the new graph, the rows that are met first for each row, the neighbours of each old
// vertex, which only the connected search reads, and the rows' numbers.
#[derive(Clone, Copy)]
pub struct Tables<'a> {
    pub connected: bool,
    pub order: usize,
    pub edges: &'a [u8],
    pub masks: &'a [u64],
    pub first: &'a [u64; MAX_ORDER],
    pub neighbours: &'a [u64; MAX_ORDER],
    pub numbers: &'a [u8; MAX_ORDER],
    pub ghost sizes: { (length edges.now ≡ 4096) × (length masks.now ≡ 16384) × (order ≤ 64) },
    pub ghost first_are: { First edges.now first.now },
    pub ghost neighbours_are: { connected ≡ true → Neighbours edges.now neighbours.now },
    pub ghost numbers_are: { Numbers numbers.now },
}

// A pair on the path: its row, its value, and how many later rows had a candidate before it was met.
#[derive(Clone, Copy)]
pub struct Pair {
    pub row: OldVertex,
    pub value: NewVertex,
    pub later: usize,
    pub ghost inside: { row.0 < 64 },
}

// The pairs on the path, each at the number of pairs before it, so that no visit reads the path; what stands after them is of no meaning.
pub type Trail = [Pair; MAX_ORDER];

// A trail of no pair.
pub fn no_pairs() -> Trail
    ensures { length result ≡ 64 }
{
    let pair = Pair {
        row: OldVertex(0),
        value: NewVertex(0),
        later: 0,
    };
    [pair; MAX_ORDER]
}
