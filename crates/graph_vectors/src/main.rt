// Runs the reader, the writer, the mover and the soundness test on vectors derived by hand from documents 01 and 02, and prints what they answer.
// Files are of edition 2, except those that are moved to it.

#![tactic(auto)]

mod lines;
mod moves;
mod tables;

ghost use Rattle.std.specs.Prelude.{◌≡◌, ◌<◌, ◌≤◌, length};

use answers::Refusal;
use graph::{Graph, Label};
use graph_reader::{Edition, ReadError};
use lines::{Row, other_than};
use std::io;
use tables::Tables;

// Prints the order, the entries that are not 0, and the bytes that the writer gives back; or the number, the place, and how many entries of each table are
// left that are not 0.
fn print_read(
    rt: &impl Print,
    read: Result<usize, ReadError>,
    labels: &[Label],
    edges: &[u8],
) -> io::Result<()> {
    let labels_used = other_than(0, labels);
    let edges_used = other_than(0, edges);
    match read {
        Ok(order) => {
            print!(rt; ": order {order}, labels {labels_used}, edge entries {edges_used}")?;
            let graph = Graph {
                order,
                labels,
                edges,
            };
            write_into(rt, ", back", graph, &mut [0; 8515])
        }
        Err(error) => {
            print!(rt; ": {}", error.number())?;
            if let ReadError::Faulty(_, place) = error {
                print!(rt; " at {place}")?;
            }
            println!(rt; ", left {labels_used} {edges_used}")
        }
    }
}

fn read_into(
    rt: &impl Print,
    name: &str,
    bytes: &[u8],
    labels: &mut [Label],
    edges: &mut [u8],
) -> io::Result<()> {
    print!(rt; "{name}")?;
    let read = graph_reader::read_graph(bytes, labels, edges);
    print_read(rt, read, labels, edges)
}

// Into that many labels and edges, which hold 9 everywhere.
fn read_sized(
    rt: &impl Print,
    name: &str,
    bytes: &[u8],
    label_count: usize,
    edge_count: usize,
) -> io::Result<()>
    requires { (label_count ≤ 65) × (edge_count ≤ 4097) }
{
    let mut labels = [9u16; 65];
    let mut edges = [9u8; 4097];
    read_into(
        rt,
        name,
        bytes,
        &mut labels[..label_count],
        &mut edges[..edge_count],
    )
}

fn read(rt: &impl Print, name: &str, bytes: &[u8]) -> io::Result<()> {
    read_sized(rt, name, bytes, 64, 4096)
}

// Writes, and prints the count or the number, and how many bytes of the buffer are not 0 then.
fn write_into(rt: &impl Print, name: &str, graph: Graph<'_>, out: &mut [u8]) -> io::Result<()> {
    match graph_writer::write_graph(graph, out) {
        Ok(count) => print!(rt; "{name}: bytes {count}")?,
        Err(error) => print!(rt; "{name}: {}", error.number())?,
    }
    println!(rt; ", used {}", other_than(0, out))
}

fn check(rt: &impl Print, name: &str, graph: Graph<'_>) -> io::Result<()> {
    match graph.check() {
        Ok(()) => println!(rt; "{name}: sound"),
        Err(flaw) => println!(rt; "{name}: {}", flaw.number()),
    }
}

// The opening, n vertices with label 7, and 0 after them.
fn vertices(n: usize) -> [u8; 198]
    requires { n ≤ 65 }
    ensures { 198 ≡ length result }
{
    let mut out = [0u8; 198];
    out[..2].copy_from_slice(b"\x04\x02");
    for vertex in out[2..].chunks_exact_mut(3).take(n) {
        vertex.copy_from_slice(b"\x03\x07\x00");
    }
    out
}

fn small_vectors(rt: &impl Print) -> io::Result<()> {
    read(rt, "empty graph", b"\x04\x02\x00")?;
    read(rt, "no bytes", b"")?;
    read(rt, "one vertex", b"\x04\x02\x03\x07\x00\x00")?;
    read(
        rt,
        "three vertices, two edges",
        b"\x04\x02\x03\x07\x00\x03\x09\x00\x03\x07\x00\x02\x00\x01\x01\x02\x01\x02\x01\x00",
    )?;
    read(
        rt,
        "edge given higher number first",
        b"\x04\x02\x03\x09\x00\x03\x07\x00\x02\x01\x00\x01\x00",
    )?;
    read(
        rt,
        "edge of a vertex with itself",
        b"\x04\x02\x03\x07\x00\x02\x00\x00\x01\x00",
    )?;
    read(
        rt,
        "every edge of two vertices, the last first",
        b"\x04\x02\x03\x07\x00\x03\x09\x00\x02\x01\x01\x05\x02\x01\x00\x04\x02\x00\x00\x03\x00",
    )
}

fn cut_vectors(rt: &impl Print) -> io::Result<()> {
    read(rt, "vertex without label", b"\x04\x02\x03")?;
    read(
        rt,
        "second vertex without label",
        b"\x04\x02\x03\x07\x00\x03",
    )?;
    read(
        rt,
        "edge without operands",
        b"\x04\x02\x03\x07\x00\x03\x07\x00\x02",
    )?;
    read(
        rt,
        "edge without label",
        b"\x04\x02\x03\x07\x00\x03\x07\x00\x02\x00\x01",
    )?;
    read(rt, "no end after a vertex", b"\x04\x02\x03\x07\x00")?;
    read(
        rt,
        "no end after an edge",
        b"\x04\x02\x03\x07\x00\x03\x07\x00\x02\x00\x01\x01",
    )?;
    read(rt, "opening cut", b"\x04")?;
    read(rt, "opening alone", b"\x04\x02")
}

fn stray_vectors(rt: &impl Print) -> io::Result<()> {
    read(rt, "unknown command", b"\x04\x02\x05")?;
    read(
        rt,
        "unknown command as the last byte",
        b"\x04\x02\x03\x07\x00\x09",
    )?;
    read(rt, "unknown command 255", b"\x04\x02\x03\x07\x00\xff\x00")?;
    read(rt, "a second opening", b"\x04\x02\x04\x02\x00")?;
    read(rt, "vertex command of edition 1", b"\x04\x02\x01\x07\x00")?;
    read(rt, "a byte after the end", b"\x04\x02\x00\x00")?;
    read(
        rt,
        "bytes after the end",
        b"\x04\x02\x03\x07\x00\x00\x05\x06",
    )?;
    read(
        rt,
        "two faults, the first counts",
        b"\x04\x02\x03\x00\x00\x05",
    )
}

fn vertex_vectors(rt: &impl Print) -> io::Result<()> {
    read(rt, "label 0", b"\x04\x02\x03\x00\x00\x00")?;
    read(
        rt,
        "label 0 of the second vertex",
        b"\x04\x02\x03\x07\x00\x03\x00\x00\x00",
    )?;
    read(
        rt,
        "edge to a vertex not given",
        b"\x04\x02\x03\x07\x00\x02\x00\x01\x01\x00",
    )?;
    read(
        rt,
        "edge from a vertex not given",
        b"\x04\x02\x03\x07\x00\x02\x01\x00\x01\x00",
    )?;
    read(
        rt,
        "edge of a missing vertex with itself",
        b"\x04\x02\x03\x07\x00\x02\x01\x01\x01\x00",
    )?;
    read(
        rt,
        "null edge of a missing vertex with itself",
        b"\x04\x02\x03\x07\x00\x02\x01\x01\x00\x00",
    )
}

fn edge_vectors(rt: &impl Print) -> io::Result<()> {
    read(
        rt,
        "null edge of a vertex with itself",
        b"\x04\x02\x03\x07\x00\x02\x00\x00\x00\x00",
    )?;
    read(
        rt,
        "edge label 0",
        b"\x04\x02\x03\x07\x00\x03\x07\x00\x02\x00\x01\x00\x00",
    )?;
    read(
        rt,
        "edge repeated",
        b"\x04\x02\x03\x07\x00\x03\x07\x00\x02\x00\x01\x01\x02\x00\x01\x01\x00",
    )?;
    read(
        rt,
        "edge repeated the other way round",
        b"\x04\x02\x03\x07\x00\x03\x07\x00\x02\x00\x01\x01\x02\x01\x00\x02\x00",
    )?;
    read(
        rt,
        "edge repeated with label 0",
        b"\x04\x02\x03\x07\x00\x03\x07\x00\x02\x00\x01\x01\x02\x01\x00\x00\x00",
    )?;
    read(
        rt,
        "edge of a vertex with itself repeated",
        b"\x04\x02\x03\x07\x00\x02\x00\x00\x01\x02\x00\x00\x01\x00",
    )?;
    read(
        rt,
        "edge of a vertex with itself repeated with label 0",
        b"\x04\x02\x03\x07\x00\x02\x00\x00\x01\x02\x00\x00\x00\x00",
    )
}

// A beginning other than 4 2 is told before any command is looked at.
fn openings(rt: &impl Print) -> io::Result<()> {
    read(rt, "empty graph of edition 1", b"\x00")?;
    read(rt, "byte 1 alone", b"\x01")?;
    read(rt, "vertex of edition 1", b"\x01\x07\x00")?;
    read(rt, "edition 1 named", b"\x04\x01\x00")?;
    read(rt, "edition 0 named", b"\x04\x00")?;
    read(rt, "edition 3 named", b"\x04\x03\x00")?;
    read(rt, "no opening, and label 0", b"\x03\x00\x00\x00")
}

fn labels_read(rt: &impl Print) -> io::Result<()> {
    let mut tables = Tables {
        labels: [9; 64],
        edges: [9; 4096],
    };
    read_into(
        rt,
        "labels 256, 263, 65535, 7 and 255",
        b"\x04\x02\x03\x00\x01\x03\x07\x01\x03\xff\xff\x03\x07\x00\x03\xff\x00\x00",
        &mut tables.labels,
        &mut tables.edges,
    )?;
    println!(rt; "labels read:{}", Row(&tables.labels[..5]))?;
    let mut out = [9u8; 18];
    write_into(rt, "written", tables.graph(5), &mut out)?;
    println!(rt; "their bytes:{}", Row(&out))
}

// Reads a file of one edition for the other, into tables that hold 9 everywhere.
fn read_for(
    rt: &impl Print,
    name: &str,
    from: Edition,
    to: Edition,
    bytes: &[u8],
) -> io::Result<()> {
    let mut labels = [9u16; 64];
    let mut edges = [9u8; 4096];
    print!(rt; "{name}")?;
    let read = graph_reader::read_edition(from, to, bytes, &mut labels, &mut edges);
    print_read(rt, read, &labels, &edges)
}

// Labels of two bytes, the low byte first.
fn wide_labels(rt: &impl Print) -> io::Result<()> {
    read(rt, "vertex with half a label", b"\x04\x02\x03\x07")?;
    read(
        rt,
        "second vertex with half a label",
        b"\x04\x02\x03\x07\x00\x03\x00",
    )?;
    read(rt, "label 256", b"\x04\x02\x03\x00\x01\x00")?;
    read(rt, "label 263", b"\x04\x02\x03\x07\x01\x00")?;
    read(rt, "label 65535", b"\x04\x02\x03\xff\xff\x00")?;
    read_for(
        rt,
        "edition 1 for edition 2",
        Edition::One,
        Edition::Two,
        b"\x01\x07\x01\xff\x00",
    )?;
    read_for(
        rt,
        "edition 2 for edition 1, label 255",
        Edition::Two,
        Edition::One,
        b"\x04\x02\x03\xff\x00\x00",
    )?;
    read_for(
        rt,
        "edition 2 for edition 1, label 256",
        Edition::Two,
        Edition::One,
        b"\x04\x02\x03\x07\x00\x03\x00\x01\x00",
    )
}

fn many_vertices(rt: &impl Print) -> io::Result<()> {
    let full = vertices(64);
    read(rt, "64 vertices", &full[..195])?;
    let mut more = vertices(65);
    read(rt, "a 65th vertex", &more)?;
    more[195] = 0;
    read(rt, "a 65th vertex with label 0", &more)?;
    moves::back(rt, "a 65th vertex with label 0 moved back", &more)?;
    read(rt, "a 65th vertex without label", &more[..195])?;
    read(rt, "a 65th vertex with half a label", &more[..196])?;
    more[196] = 1;
    read(rt, "a 65th vertex with label 256", &more)?;
    moves::back(rt, "a 65th vertex with label 256 moved back", &more)
}

// Into a buffer of its length, from there into tables, and into one that is a byte shorter and holds 3 everywhere.
fn write_and_read(rt: &impl Print, name: &str, graph: Graph<'_>, out: &mut [u8]) -> io::Result<()>
    requires { 1 ≤ length out.old }
{
    write_into(rt, name, graph, out)?;
    read(rt, name, out)?;
    out.fill(3);
    print!(rt; "{name}")?;
    write_into(rt, ", one byte short", graph, &mut out[1..])
}

// Every edge between two of 64 vertices, with label 5, and then those of a vertex with itself.
fn complete_graphs(rt: &impl Print) -> io::Result<()> {
    let mut tables = Tables {
        labels: [65535; 64],
        edges: [5; 4096],
    };
    for vertex in 0..64 {
        tables.edges[65 * vertex] = 0;
    }
    write_and_read(rt, "complete graph", tables.graph(64), &mut [0; 8259])?;
    tables.edges.fill(5);
    write_and_read(
        rt,
        "complete graph with own edges",
        tables.graph(64),
        &mut [0; 8515],
    )
}

// The edges 0-0, 0-1 and 1-1 have the labels 3, 4 and 5.
fn written_order(rt: &impl Print) -> io::Result<()> {
    let mut tables = Tables::empty();
    tables.labels[0] = 7;
    tables.labels[1] = 9;
    tables.edges[0] = 3;
    tables.edges[1] = 4;
    tables.edges[64] = 4;
    tables.edges[65] = 5;
    let mut out = [9u8; 21];
    write_into(rt, "every edge of two vertices", tables.graph(2), &mut out)?;
    println!(rt; "their bytes:{}", Row(&out))
}

fn read_into_ill_sized(rt: &impl Print) -> io::Result<()> {
    read_sized(rt, "63 labels", b"\x04\x02\x00", 63, 4096)?;
    read_sized(rt, "65 labels and no opening", b"\x00", 65, 4096)?;
    read_sized(rt, "4095 edges", b"\x04\x02\x00", 64, 4095)?;
    read_sized(rt, "4097 edges and a fault", b"\x04\x02\x05", 64, 4097)
}

fn ill_sized_tables(rt: &impl Print) -> io::Result<()> {
    let labels = &[0u16; 65];
    let edges = &[0u8; 4097];
    check(
        rt,
        "order 65",
        Graph {
            order: 65,
            labels: &labels[..64],
            edges: &edges[..4096],
        },
    )?;
    check(
        rt,
        "63 labels",
        Graph {
            order: 0,
            labels: &labels[..63],
            edges: &edges[..4096],
        },
    )?;
    check(
        rt,
        "4097 edges",
        Graph {
            order: 0,
            labels: &labels[..64],
            edges,
        },
    )
}

fn unsound_labels(rt: &impl Print) -> io::Result<()> {
    let mut tables = Tables::empty();
    check(rt, "empty graph", tables.graph(0))?;
    check(rt, "vertex without label", tables.graph(1))?;
    tables.labels[0] = 7;
    tables.labels[1] = 9;
    check(rt, "label past the order", tables.graph(1))?;
    check(rt, "two vertices", tables.graph(2))?;
    tables.labels[1] = 256;
    check(rt, "label 256 past the order", tables.graph(1))?;
    check(rt, "two vertices, one with label 256", tables.graph(2))
}

// Two vertices and the edge between them: both its bytes are 5 where the graph is sound.
fn joined(second: Label, back: u8) -> Tables {
    let mut tables = Tables::empty();
    tables.labels[0] = 7;
    tables.labels[1] = second;
    tables.edges[1] = 5;
    tables.edges[64] = back;
    tables
}

fn unsound_edges(rt: &impl Print) -> io::Result<()> {
    let mut tables = joined(9, 0);
    check(rt, "edge one way only", tables.graph(2))?;
    tables.edges[64] = 6;
    check(rt, "edge with two labels", tables.graph(2))?;
    tables.edges[64] = 5;
    check(rt, "edge both ways", tables.graph(2))?;
    tables.edges[65] = 1;
    check(rt, "edge of a vertex with itself", tables.graph(2))?;
    tables.edges[65] = 0;
    tables.edges[2] = 1;
    tables.edges[128] = 1;
    check(rt, "edge past the order", tables.graph(2))?;
    tables.labels[63] = 1;
    check(rt, "labels and edges unsound", tables.graph(2))
}

fn own_edge_tables(rt: &impl Print) -> io::Result<()> {
    let mut tables = Tables::empty();
    tables.edges[0] = 5;
    check(rt, "own edge in the empty graph", tables.graph(0))?;
    tables.labels[0] = 7;
    check(rt, "own edge below the order", tables.graph(1))?;
    tables.edges[65] = 5;
    check(
        rt,
        "own edge of the number that is the order",
        tables.graph(1),
    )?;
    tables.labels[1] = 7;
    check(rt, "own edges below the order", tables.graph(2))?;
    tables.edges[4095] = 5;
    check(rt, "own edge of the last number", tables.graph(2))
}

// Whether the tables are sound whose labels are 7 below the order and whose edges are 5 at two places, and which are 0 else.
fn is_sound_with(order: usize, place: usize, other: usize) -> bool
    requires { (order ≤ 64) × (place < 4096) × (other < 4096) }
{
    let mut tables = Tables::empty();
    tables.labels[..order].fill(7);
    tables.edges[place] = 5;
    tables.edges[other] = 5;
    tables.graph(order).check().is_ok()
}

// How many edge tables are sound, at that order, that have one byte other than 0, or two, those of an edge both ways.
fn sound_tables(order: usize, both_ways: bool) -> usize
    requires { order ≤ 64 }
    ensures { result ≤ 4096 }
{
    (0..4096)
        .filter(|place| {
            let back = 64 * (*place % 64) + *place / 64;
            is_sound_with(order, *place, if both_ways { back } else { *place })
        })
        .count()
}

// One byte is the edge of a vertex with itself, at n places; of all places n * n are those of an edge of n vertices.
fn count_tables(rt: &impl Print, order: usize) -> io::Result<()>
    requires { order ≤ 64 }
{
    let one = sound_tables(order, false);
    let two = sound_tables(order, true);
    println!(rt; "order {order}: sound with one edge byte {one}, with two {two}")
}

// Into a buffer of 12 bytes.
fn write_short(rt: &impl Print, name: &str, graph: Graph<'_>) -> io::Result<()> {
    write_into(rt, name, graph, &mut [9; 12])
}

fn room_for_output(rt: &impl Print) -> io::Result<()> {
    let sound = joined(9, 5);
    write_into(rt, "just room", sound.graph(2), &mut [9; 13])?;
    write_into(rt, "more room", sound.graph(2), &mut [9; 16])?;
    write_short(rt, "no room", sound.graph(2))?;
    write_short(rt, "unsound and no room", joined(9, 0).graph(2))?;
    let unsound = joined(0, 0);
    write_short(rt, "labels before edges", unsound.graph(2))?;
    write_short(rt, "order before labels", unsound.graph(65))
}

fn main(rt: HostRuntime) -> io::Result<()> {
    small_vectors(&rt)?;
    cut_vectors(&rt)?;
    stray_vectors(&rt)?;
    vertex_vectors(&rt)?;
    edge_vectors(&rt)?;
    openings(&rt)?;
    wide_labels(&rt)?;
    labels_read(&rt)?;
    many_vertices(&rt)?;
    complete_graphs(&rt)?;
    written_order(&rt)?;
    read_into_ill_sized(&rt)?;
    ill_sized_tables(&rt)?;
    unsound_labels(&rt)?;
    unsound_edges(&rt)?;
    own_edge_tables(&rt)?;
    count_tables(&rt, 0)?;
    count_tables(&rt, 1)?;
    count_tables(&rt, 7)?;
    count_tables(&rt, 8)?;
    count_tables(&rt, 57)?;
    count_tables(&rt, 64)?;
    room_for_output(&rt)?;
    moves::moved_up(&rt)?;
    moves::kept_out(&rt)?;
    moves::moved_back(&rt)?;
    moves::wide_labels(&rt)?;
    moves::there_and_back(&rt)?;
    moves::room(&rt)?;
    moves::greatest(&rt)
}
