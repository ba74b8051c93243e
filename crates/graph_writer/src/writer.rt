// The bytes of a graph in either edition, counted and then written.

ghost use Rattle.std.specs.Prelude.{◌≡◌, [], ◌∷◌, ◌+◌, ◌*◌, ◌≤◌, ◌<◌, length};
ghost use Rattle.std.proofs.lemmas.List.Edits.{sets};
ghost use Rattle.bounded.specs.Below.{run_below};
ghost use Rattle.answers.specs.Output.{fill};
ghost use Rattle.graph.specs.Lent.{lent_graph};
ghost use Rattle.graph_reader.specs.Editions.{opening, opening_width, vertex_width, greatest_label, LabelsFit};
ghost use Rattle.graph_writer.specs.Writing.{vertex_command, vertex_bytes, front_length, row_bytes, edition_bytes, listed, row_edge_count, edge_count, filled_of};

use graph::{Graph, Label, MAX_ORDER};
use graph_reader::Edition;

// Whether the writer gives the edge of a and b: where it is not null, and b is not before a.
pub fn is_listed(graph: Graph<'_>, a: usize, b: usize) -> bool
    requires { (length graph.edges.now ≡ 4096) × (a < 64) × (b < 64) }
    ensures { result ≡ listed (lent_graph graph.entry) a b }
{
    a <= b && graph.edges[MAX_ORDER * a + b] != 0
}

// How many edges of row a the writer gives.
pub fn count_row(graph: Graph<'_>, a: usize) -> usize
    requires { (length graph.edges.now ≡ 4096) × (graph.order ≤ 64) × (a < 64) }
    ensures { result ≡ row_edge_count (lent_graph graph.entry) a }
{
    (0..graph.order).filter(|b| is_listed(graph, a, *b)).count()
}

pub fn count_edges(graph: Graph<'_>) -> usize
    requires { (length graph.edges.now ≡ 4096) × (graph.order ≤ 64) }
    ensures { result ≡ edge_count (lent_graph graph.entry) }
{
    (0..graph.order).map(|a| count_row(graph, a)).sum()
}

// The place of each command is passed along: a `Writer` writes as far as there is room, and a graph is written whole or not at all.
// The command of one edge.
pub fn put_edge(out: &mut [u8], at: usize, a: u8, b: u8, label: u8)
    requires { at + 4 ≤ length out.old }
    ensures { out.new ≡ sets out.old at (2 ∷ a ∷ b ∷ label ∷ []) }
{
    out[at..at + 4].copy_from_slice(&[2, a, b, label]);
}

// The command of one vertex. Returns the place after it.
pub fn put_vertex(edition: Edition, label: Label, out: &mut [u8], at: usize) -> usize
    requires { (label ≤ greatest_label edition) × (at + vertex_width edition ≤ length out.old) }
    ensures place { result ≡ at + vertex_width edition }
    ensures bytes { out.new ≡ sets out.old at (vertex_command edition label) }
{
    match edition {
        Edition::One => {
            out[at..at + 2].copy_from_slice(&[1, label as u8]);
            at + 2
        }
        Edition::Two => {
            out[at..at + 3].copy_from_slice(&[3, (label % 256) as u8, (label / 256) as u8]);
            at + 3
        }
    }
}

// How the edition begins. Returns the place after it.
pub fn put_opening(edition: Edition, out: &mut [u8]) -> usize
    requires { opening_width edition ≤ length out.old }
    ensures place { result ≡ opening_width edition }
    ensures bytes { out.new ≡ sets out.old 0 (opening edition) }
{
    match edition {
        Edition::One => 0,
        Edition::Two => {
            out[..2].copy_from_slice(&[4, 2]);
            2
        }
    }
}

pub fn write_vertices(edition: Edition, graph: Graph<'_>, out: &mut [u8], start: usize)
    requires { (length graph.labels.now ≡ 64) × (graph.order ≤ 64) × LabelsFit edition (lent_graph graph)
        × (start + length (run_below graph.order (vertex_bytes edition (lent_graph graph))) ≤ length out.old) }
    ensures { out.new ≡ sets out.old start (run_below graph.entry.order (vertex_bytes edition (lent_graph graph.entry))) }
{
    let mut at = start;
    for label in &graph.labels[..graph.order] {
        at = put_vertex(edition, *label, out, at);
    }
}

// The edges of row a, from the place `start` on. Returns the place after them.
pub fn write_row(graph: Graph<'_>, a: usize, out: &mut [u8], start: usize) -> usize
    requires { (length graph.edges.now ≡ 4096) × (graph.order ≤ 64) × (a < 64) × (start + length (row_bytes (lent_graph graph) a) ≤ length out.old) }
    ensures place { result ≡ start + length (row_bytes (lent_graph graph.entry) a) }
    ensures bytes { out.new ≡ sets out.old start (row_bytes (lent_graph graph.entry) a) }
{
    let mut at = start;
    for b in 0..graph.order {
        if is_listed(graph, a, b) {
            put_edge(out, at, a as u8, b as u8, graph.edges[MAX_ORDER * a + b]);
            at += 4;
        }
    }
    at
}

pub fn write_rows(graph: Graph<'_>, out: &mut [u8], start: usize) -> usize
    requires { (length graph.edges.now ≡ 4096) × (graph.order ≤ 64) × (start + length (run_below graph.order (row_bytes (lent_graph graph))) ≤ length out.old) }
    ensures place { result ≡ start + length (run_below graph.entry.order (row_bytes (lent_graph graph.entry))) }
    ensures bytes { out.new ≡ sets out.old start (run_below graph.entry.order (row_bytes (lent_graph graph.entry))) }
{
    let mut at = start;
    for a in 0..graph.order {
        at = write_row(graph, a, out, at);
    }
    at
}

// How many bytes the opening and all vertices take.
pub fn front_length(edition: Edition, order: usize) -> usize
    requires { order ≤ 64 }
    ensures { result ≡ front_length edition order }
{
    match edition {
        Edition::One => 2 * order,
        Edition::Two => 2 + 3 * order,
    }
}

// The bytes of a graph that is known to be sound, with labels that the edition holds: how many were written, or none where `out` has no room for them.
pub fn write_sound(edition: Edition, graph: Graph<'_>, out: &mut [u8]) -> Option<usize>
    requires { (length graph.labels.now ≡ 64) × (length graph.edges.now ≡ 4096) × (graph.order ≤ 64) × LabelsFit edition (lent_graph graph) }
    ensures { filled_of result out.new ≡ fill (edition_bytes edition (lent_graph graph.entry)) out.old }
{
    let front = front_length(edition, graph.order);
    let total = front + 4 * count_edges(graph) + 1;
    if out.len() < total {
        return None;
    }
    let first = put_opening(edition, out);
    write_vertices(edition, graph, out, first);
    let end = write_rows(graph, out, front);
    out[end] = 0;
    Some(total)
}
