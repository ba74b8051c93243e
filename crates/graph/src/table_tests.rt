// The two tests of a graph's tables, 01's numbers 11 and 12.

ghost use Rattle.std.specs.Prelude.{◌≡◌, ◌↔◌, true, ◌≤◌, ◌<◌, length};
ghost use Rattle.graph.specs.EdgeRows.{VertexRow};
ghost use Rattle.graph.specs.Soundness.{label_sound, labels_sound, edges_sound};

use super::{EDGE_BYTES, Label, MAX_ORDER, null_edges, same_edges};

// The label of v is not 0 exactly where v is a vertex of the graph.
pub fn label_sound(order: usize, labels: &[Label; MAX_ORDER], v: usize) -> bool
    requires { v < 64 }
    ensures { result ≡ label_sound order labels.now v }
{
    if v < order {
        return labels[v] != 0;
    }
    labels[v] == 0
}

pub fn labels_sound(order: usize, labels: &[Label; MAX_ORDER]) -> bool
    ensures { result ≡ labels_sound order labels.now }
{
    for v in 0..MAX_ORDER {
        if !label_sound(order, labels, v) {
            return false;
        }
    }
    true
}

// The row of a vertex a. Its other half is looked at with the later vertices.
fn row_sound(order: usize, edges: &[u8; EDGE_BYTES], a: usize) -> bool
    requires { (order ≤ 64) × (a < order) }
    ensures { (result ≡ true) ↔ VertexRow order edges.now a }
{
    if !same_edges::same_before(edges, a) {
        return false;
    }
    null_edges::columns_null(order, edges, a)
}

pub fn edges_sound(order: usize, edges: &[u8; EDGE_BYTES]) -> bool
    requires { (order ≤ 64) }
    ensures { result ≡ edges_sound order edges.now }
{
    for a in 0..order {
        if !row_sound(order, edges, a) {
            return false;
        }
    }
    null_edges::words_null(edges, MAX_ORDER * order, EDGE_BYTES)
}
