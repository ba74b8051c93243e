// Saves and loads checkpoints and writes what each call says. The bytes and the expected output were worked out by hand from document 01,
// "Bookmark and calls" and "Refusals by place of checking", those with a list of substitutes from document 02, U1 and U6, and those of both searches from U7.

#![tactic(auto)]

mod tables;

use answers::Refusal;
use checkpoint::Checkpoint;
use checkpoint_loader::LoadError;
use graph::Label;
use problem::Problem;
use std::{array, io};
use tables::Tables;

fn print_checkpoint(rt: &impl Print, checkpoint: Checkpoint) -> io::Result<()> {
    print!(rt;
        ", minimum {}, steps {}, depth {}, state {}",
        checkpoint.minimum,
        checkpoint.steps,
        checkpoint.depth,
        checkpoint_saver::state_byte(checkpoint.finished, checkpoint.holds)
    )
}

// Prints whether the buffer has the bytes at its front and 170 after them, as it had before.
fn print_compared(rt: &impl Print, bytes: &[u8], buffer: &[u8]) -> io::Result<()> {
    match buffer.strip_prefix(bytes) {
        Some(rest) if rest.iter().all(|byte| *byte == 170) => print!(rt; ", the same bytes"),
        _ => print!(rt; ", other bytes"),
    }
}

// Saves, and prints the count or the refusal's number.
fn save(
    rt: &impl Print,
    problem: Problem<'_>,
    connected: bool,
    checkpoint: Checkpoint,
    out: &mut [u8],
) -> io::Result<()> {
    match checkpoint_saver::save_checkpoint(problem, connected, checkpoint, out) {
        Ok(count) => print!(rt; ": saved {count}"),
        Err(error) => print!(rt; ": refused {}", error.number()),
    }
}

// Loads the bytes, and saves what was loaded. Of a refusal the number is printed, and its place in the bytes, and a checkpoint of zeros.
fn load(
    rt: &impl Print,
    name: &str,
    problem: Problem<'_>,
    connected: bool,
    bytes: &[u8],
) -> io::Result<()> {
    let loaded = checkpoint_loader::load_checkpoint(problem, connected, bytes);
    let checkpoint = loaded.checkpoint;
    match loaded.answer {
        Ok(()) => {
            print!(rt; "{name}: loaded")?;
            print_checkpoint(rt, checkpoint)?;
            let mut buffer = [170u8; 300];
            save(rt, problem, connected, checkpoint, &mut buffer)?;
            print_compared(rt, bytes, &buffer)?;
        }
        Err(error) => {
            print!(rt; "{name}: refused {}", error.number())?;
            if let LoadError::Malformed(place) = error {
                print!(rt; " {place}")?;
            }
            print_checkpoint(rt, checkpoint)?;
        }
    }
    println!(rt;)
}

fn case_of(
    rt: &impl Print,
    name: &str,
    old: &[u8],
    new: &[u8],
    substitutes: &[u8],
    connected: bool,
    bytes: &[u8],
) -> io::Result<()> {
    let old = Tables::read(rt, old)?;
    let new = Tables::read(rt, new)?;
    let problem = tables::lend(&old, &new, substitutes);
    load(rt, name, problem, connected, bytes)
}

// For the first search.
fn case(
    rt: &impl Print,
    name: &str,
    old: &[u8],
    new: &[u8],
    substitutes: &[u8],
    bytes: &[u8],
) -> io::Result<()> {
    case_of(rt, name, old, new, substitutes, false, bytes)
}

// 01's pair P, with no substitutes. Old kinds 7, 9, 7, links 0-1 and 1-2 of kind 1; new kinds 9, 7, link 0-1 of kind 1.
fn on_p(rt: &impl Print, name: &str, bytes: &[u8]) -> io::Result<()> {
    case(
        rt,
        name,
        b"\x04\x02\x03\x07\x00\x03\x09\x00\x03\x07\x00\x02\x00\x01\x01\x02\x01\x02\x01\x00",
        b"\x04\x02\x03\x09\x00\x03\x07\x00\x02\x00\x01\x01\x00",
        b"",
        bytes,
    )
}

fn accepted_on_the_way(rt: &impl Print) -> io::Result<()> {
    on_p(
        rt,
        "fresh",
        b"\x10\x01\x11\x00\x00\x00\x00\x00\x00\x00\x00\x12\x00\x00",
    )?;
    on_p(
        rt,
        "midway",
        b"\x10\x01\x11\x03\x00\x00\x00\x00\x00\x00\x00\x12\x00\x13\x01\x13\x00\x13\xff\x00",
    )?;
    on_p(
        rt,
        "held",
        b"\x10\x01\x11\x04\x00\x00\x00\x00\x00\x00\x00\x12\x01\x13\x01\x13\xff\x14\x01\x14\x00\x14\xff\x00",
    )?;
    on_p(
        rt,
        "finished with a mapping",
        b"\x10\x01\x11\x06\x00\x00\x00\x00\x00\x00\x00\x12\x03\x14\x01\x14\x00\x14\xff\x00",
    )
}

fn accepted_extremes(rt: &impl Print) -> io::Result<()> {
    on_p(
        rt,
        "finished with none",
        b"\x10\xff\x11\x01\x00\x00\x00\x00\x00\x00\x00\x12\x02\x00",
    )?;
    on_p(
        rt,
        "steps of two bytes",
        b"\x10\x01\x11\x02\x01\x00\x00\x00\x00\x00\x00\x12\x00\x13\x01\x00",
    )?;
    on_p(
        rt,
        "greatest number of steps",
        b"\x10\x00\x11\xff\xff\xff\xff\xff\xff\xff\xff\x12\x02\x00",
    )
}

fn accepted(rt: &impl Print) -> io::Result<()> {
    accepted_on_the_way(rt)?;
    accepted_extremes(rt)
}

fn malformed_front(rt: &impl Print) -> io::Result<()> {
    on_p(rt, "no bytes", b"")?;
    on_p(
        rt,
        "first mark",
        b"\x11\x01\x11\x00\x00\x00\x00\x00\x00\x00\x00\x12\x00\x00",
    )?;
    on_p(
        rt,
        "second mark",
        b"\x10\x01\x10\x00\x00\x00\x00\x00\x00\x00\x00\x12\x00\x00",
    )?;
    on_p(rt, "cut in the steps", b"\x10\x01\x11\x00\x00")
}

fn malformed_state(rt: &impl Print) -> io::Result<()> {
    on_p(
        rt,
        "third mark",
        b"\x10\x01\x11\x00\x00\x00\x00\x00\x00\x00\x00\x13\x00\x00",
    )?;
    on_p(
        rt,
        "state 4",
        b"\x10\x01\x11\x00\x00\x00\x00\x00\x00\x00\x00\x12\x04\x00",
    )?;
    on_p(
        rt,
        "no end",
        b"\x10\x01\x11\x00\x00\x00\x00\x00\x00\x00\x00\x12\x00",
    )?;
    on_p(
        rt,
        "unknown mark",
        b"\x10\x01\x11\x00\x00\x00\x00\x00\x00\x00\x00\x12\x00\x15\x00",
    )
}

fn malformed_entries(rt: &impl Print) -> io::Result<()> {
    on_p(
        rt,
        "entry 4 of 3",
        b"\x10\x01\x11\x03\x00\x00\x00\x00\x00\x00\x00\x12\x00\x13\x01\x13\x00\x13\xff\x13\xff\x00",
    )?;
    on_p(
        rt,
        "entry cut off",
        b"\x10\x01\x11\x03\x00\x00\x00\x00\x00\x00\x00\x12\x00\x13",
    )?;
    on_p(
        rt,
        "mapping where none is held",
        b"\x10\x01\x11\x03\x00\x00\x00\x00\x00\x00\x00\x12\x00\x14\x01\x14\x00\x14\xff\x00",
    )?;
    on_p(
        rt,
        "no mapping where one is held",
        b"\x10\x01\x11\x06\x00\x00\x00\x00\x00\x00\x00\x12\x03\x00",
    )
}

fn malformed_mapping(rt: &impl Print) -> io::Result<()> {
    on_p(
        rt,
        "mapping one entry short",
        b"\x10\x01\x11\x06\x00\x00\x00\x00\x00\x00\x00\x12\x03\x14\x01\x14\x00\x00",
    )?;
    on_p(
        rt,
        "mapping one entry long",
        b"\x10\x01\x11\x06\x00\x00\x00\x00\x00\x00\x00\x12\x03\x14\x01\x14\x00\x14\xff\x14\xff\x00",
    )?;
    on_p(
        rt,
        "path after the mapping began",
        b"\x10\x01\x11\x04\x00\x00\x00\x00\x00\x00\x00\x12\x01\x14\x01\x13\x01\x00",
    )?;
    on_p(
        rt,
        "bytes after the end",
        b"\x10\x01\x11\x00\x00\x00\x00\x00\x00\x00\x00\x12\x00\x00\x00",
    )
}

fn malformed(rt: &impl Print) -> io::Result<()> {
    malformed_front(rt)?;
    malformed_state(rt)?;
    malformed_entries(rt)?;
    malformed_mapping(rt)
}

fn shapeless_path(rt: &impl Print) -> io::Result<()> {
    on_p(
        rt,
        "no candidate",
        b"\x10\x01\x11\x01\x00\x00\x00\x00\x00\x00\x00\x12\x00\x13\x00\x00",
    )?;
    on_p(
        rt,
        "number above every vertex",
        b"\x10\x01\x11\x01\x00\x00\x00\x00\x00\x00\x00\x12\x00\x13\x07\x00",
    )?;
    on_p(
        rt,
        "path after finished",
        b"\x10\x01\x11\x06\x00\x00\x00\x00\x00\x00\x00\x12\x02\x13\x01\x00",
    )?;
    on_p(
        rt,
        "no steps at depth 1",
        b"\x10\x01\x11\x00\x00\x00\x00\x00\x00\x00\x00\x12\x00\x13\x01\x00",
    )
}

fn shapeless_held(rt: &impl Print) -> io::Result<()> {
    on_p(
        rt,
        "steps at the root, unfinished",
        b"\x10\x01\x11\x05\x00\x00\x00\x00\x00\x00\x00\x12\x00\x00",
    )?;
    on_p(
        rt,
        "mapping below the minimum",
        b"\x10\x03\x11\x06\x00\x00\x00\x00\x00\x00\x00\x12\x03\x14\x01\x14\x00\x14\xff\x00",
    )?;
    on_p(
        rt,
        "mapping that is no common subgraph",
        b"\x10\x00\x11\x06\x00\x00\x00\x00\x00\x00\x00\x12\x03\x14\x00\x14\xff\x14\xff\x00",
    )?;
    on_p(
        rt,
        "mapping before the first step",
        b"\x10\x00\x11\x00\x00\x00\x00\x00\x00\x00\x00\x12\x01\x14\x01\x14\x00\x14\xff\x00",
    )
}

fn shapeless(rt: &impl Print) -> io::Result<()> {
    shapeless_path(rt)?;
    shapeless_held(rt)
}

// The entries 0 to 63, each after the mark.
fn identity(mark: u8) -> [u8; 128] {
    array::from_fn(|place| if place % 2 == 0 {
        mark
    } else {
        (place / 2) as u8
    })
}

// At full depth, where each vertex is mapped to its own number, on the path and in what is held.
fn all_mapped() -> [u8; 270] {
    let mut bytes = [0u8; 270];
    bytes[..13].copy_from_slice(b"\x10\x00\x11\x41\x00\x00\x00\x00\x00\x00\x00\x12\x01");
    bytes[13..141].copy_from_slice(&identity(0x13));
    bytes[141..269].copy_from_slice(&identity(0x14));
    bytes
}

// 64 vertices of label 1 on each side, no edges, moved from a file of edition 1.
fn full(rt: &impl Print) -> io::Result<()> {
    let mut earlier = [1u8; 129];
    earlier[128] = 0;
    let mut graph = [0u8; 195];
    if graph_writer::to_edition_2(&earlier, &mut graph).is_err() {
        println!(rt; "not moved")?;
    }
    case(
        rt,
        "64 vertices at full depth",
        &graph,
        &graph,
        b"",
        &all_mapped(),
    )
}

// Loads no bytes at all for two graphs without edges, the old one of this order, which both have this label at 63 and no other.
fn load_nothing(
    rt: &impl Print,
    name: &str,
    old_order: usize,
    label: Label,
    substitutes: &[u8],
) -> io::Result<()> {
    let mut new = Tables::empty();
    new.labels[63] = label;
    let mut old = Tables::empty();
    old.order = old_order;
    old.labels[63] = label;
    let problem = tables::lend(&old, &new, substitutes);
    load(rt, name, problem, false, b"")
}

// Graphs that are not sound are refused before bytes that are malformed.
fn unsound(rt: &impl Print) -> io::Result<()> {
    load_nothing(rt, "order 65", 65, 0, b"")?;
    load_nothing(rt, "old labels unsound, and malformed", 0, 9, b"")
}

// Saves a checkpoint that was never loaded, of three vertices of label 7, and this edge one way only.
fn save_three(
    rt: &impl Print,
    name: &str,
    depth: usize,
    edge: u8,
    substitutes: &[u8],
    out: &mut [u8],
) -> io::Result<()> {
    let mut three = Tables::loose(3);
    three.edges[1] = edge;
    let problem = tables::lend(&three, &three, substitutes);
    let mut checkpoint = Checkpoint {
        steps: 9,
        depth,
        ..Checkpoint::fresh(0)
    };
    checkpoint.path[..3].fill(255);
    print!(rt; "{name}")?;
    save(rt, problem, false, checkpoint, out)?;
    println!(rt;)
}

// An old vertex of label 7, a new vertex of label 9, and a list of substitutes.
fn on_seven_nine(rt: &impl Print, name: &str, substitutes: &[u8], bytes: &[u8]) -> io::Result<()> {
    case(
        rt,
        name,
        b"\x04\x02\x03\x07\x00\x00",
        b"\x04\x02\x03\x09\x00\x00",
        substitutes,
        bytes,
    )
}

// After one visit the old vertex lies on the new one: in shape only where the list has the pair 7, 9.
fn one_visit(rt: &impl Print, name: &str, substitutes: &[u8]) -> io::Result<()> {
    on_seven_nine(
        rt,
        name,
        substitutes,
        b"\x10\x00\x11\x01\x00\x00\x00\x00\x00\x00\x00\x12\x00\x13\x00\x00",
    )
}

// The search is finished, and holds the one pair.
fn held(rt: &impl Print, name: &str, substitutes: &[u8]) -> io::Result<()> {
    on_seven_nine(
        rt,
        name,
        substitutes,
        b"\x10\x01\x11\x03\x00\x00\x00\x00\x00\x00\x00\x12\x03\x14\x00\x00",
    )
}

fn pairs(rt: &impl Print) -> io::Result<()> {
    one_visit(rt, "one visit, pair 7 9", b"\x07\x00\x09\x00")?;
    one_visit(rt, "one visit, no list", b"")?;
    one_visit(rt, "one visit, pair 9 7", b"\x09\x00\x07\x00")?;
    one_visit(
        rt,
        "one visit, 7 9 the second pair",
        b"\x01\x00\x02\x00\x07\x00\x09\x00",
    )?;
    one_visit(
        rt,
        "one visit, 7 9 a byte off",
        b"\x01\x07\x00\x09\x00\x01\x01\x01",
    )?;
    one_visit(rt, "one visit, low bytes 7 9", b"\x07\x01\x09\x01")?;
    one_visit(
        rt,
        "one visit, 7 9 across two pairs",
        b"\x01\x00\x07\x00\x09\x00\x02\x00",
    )?;
    one_visit(
        rt,
        "one visit, chain 7 8 and 8 9",
        b"\x07\x00\x08\x00\x08\x00\x09\x00",
    )?;
    held(rt, "held, pair 7 9", b"\x07\x00\x09\x00")?;
    held(rt, "held, no list", b"")
}

// After one visit an old vertex of label 263 lies on a new one of label 7: in shape only where the list has that pair.
fn low_bytes(rt: &impl Print, name: &str, substitutes: &[u8]) -> io::Result<()> {
    case(
        rt,
        name,
        b"\x04\x02\x03\x07\x01\x00",
        b"\x04\x02\x03\x07\x00\x00",
        substitutes,
        b"\x10\x00\x11\x01\x00\x00\x00\x00\x00\x00\x00\x12\x00\x13\x00\x00",
    )
}

fn wide_labels(rt: &impl Print) -> io::Result<()> {
    low_bytes(rt, "263 on 7, no list", b"")?;
    low_bytes(rt, "263 on 7, pair 263 7", b"\x07\x01\x07\x00")?;
    low_bytes(rt, "263 on 7, pair 7 263", b"\x07\x00\x07\x01")
}

// 1,024 bytes whose last pair is 7, 9, and a pair more.
fn longest(rt: &impl Print) -> io::Result<()> {
    let mut list = [1u8; 1028];
    list[1020..1024].copy_from_slice(b"\x07\x00\x09\x00");
    one_visit(rt, "one visit, list of 1024 bytes", &list[..1024])?;
    one_visit(rt, "one visit, list of 1028 bytes", &list)
}

// A list that is not sound is refused after graphs that are not, and before bytes that are malformed.
fn unsound_lists(rt: &impl Print) -> io::Result<()> {
    on_seven_nine(rt, "half a pair, and malformed", b"\x07\x09", b"")?;
    on_seven_nine(
        rt,
        "a pair and a half with a label 0",
        b"\x07\x00\x00\x00\x07\x00",
        b"",
    )?;
    on_seven_nine(
        rt,
        "new label 0 in the list, and malformed",
        b"\x07\x00\x00\x00",
        b"",
    )?;
    on_seven_nine(
        rt,
        "old label 0 in the list",
        b"\x07\x00\x09\x00\x00\x00\x09\x00",
        b"",
    )?;
    load_nothing(rt, "old labels unsound, and half a pair", 0, 9, b"\x07\x09")
}

// Saves the checkpoint after one visit, and compares the buffer with the bytes that are due.
fn save_one_visit(rt: &impl Print, name: &str, substitutes: &[u8], due: &[u8]) -> io::Result<()> {
    let old = Tables::loose(1);
    let mut new = Tables::loose(1);
    new.labels[0] = 9;
    let problem = tables::lend(&old, &new, substitutes);
    let checkpoint = Checkpoint {
        steps: 1,
        depth: 1,
        ..Checkpoint::fresh(0)
    };
    let mut out = [170u8; 300];
    print!(rt; "{name}")?;
    save(rt, problem, false, checkpoint, &mut out)?;
    print_compared(rt, due, &out)?;
    println!(rt;)
}

fn saved_with_lists(rt: &impl Print) -> io::Result<()> {
    save_one_visit(
        rt,
        "one visit saved, pair 7 9",
        b"\x07\x00\x09\x00",
        b"\x10\x00\x11\x01\x00\x00\x00\x00\x00\x00\x00\x12\x00\x13\x00\x00",
    )?;
    save_one_visit(rt, "one visit saved, no list", b"", b"")?;
    let mut shorter = [170u8; 17];
    save_three(
        rt,
        "half a pair, out of shape, and one byte short",
        2,
        0,
        b"\x07\x09",
        &mut shorter,
    )?;
    save_three(
        rt,
        "label 0 in the list, and out of shape",
        2,
        0,
        b"\x07\x00\x00\x00",
        &mut shorter,
    )
}

// A graph and itself, for the first search and then for the connected one.
fn both(rt: &impl Print, name: &str, graph: &[u8], bytes: &[u8]) -> io::Result<()> {
    case_of(rt, name, graph, graph, b"", false, bytes)?;
    case_of(rt, "the same, connected", graph, graph, b"", true, bytes)
}

// Three vertices of label 7, the first two joined by an edge.
fn on_loose(rt: &impl Print, name: &str, bytes: &[u8]) -> io::Result<()> {
    both(
        rt,
        name,
        b"\x04\x02\x03\x07\x00\x03\x07\x00\x03\x07\x00\x02\x00\x01\x01\x00",
        bytes,
    )
}

// The same with an edge of the last two.
fn on_chain(rt: &impl Print, name: &str, bytes: &[u8]) -> io::Result<()> {
    both(
        rt,
        name,
        b"\x04\x02\x03\x07\x00\x03\x07\x00\x03\x07\x00\x02\x00\x01\x01\x02\x01\x02\x09\x00",
        bytes,
    )
}

// What is held must hang together in the connected search.
fn connected_ones(rt: &impl Print) -> io::Result<()> {
    on_loose(
        rt,
        "all held, one loose",
        b"\x10\x00\x11\x04\x00\x00\x00\x00\x00\x00\x00\x12\x01\x13\x00\x13\x01\x13\xff\x14\x00\x14\x01\x14\x02\x00",
    )?;
    on_loose(
        rt,
        "the joined two held",
        b"\x10\x00\x11\x05\x00\x00\x00\x00\x00\x00\x00\x12\x01\x13\x00\x13\xff\x14\x00\x14\x01\x14\xff\x00",
    )?;
    on_loose(
        rt,
        "one held",
        b"\x10\x00\x11\x09\x00\x00\x00\x00\x00\x00\x00\x12\x03\x14\xff\x14\xff\x14\x02\x00",
    )?;
    on_loose(
        rt,
        "none of them held",
        b"\x10\x00\x11\x09\x00\x00\x00\x00\x00\x00\x00\x12\x03\x14\xff\x14\xff\x14\xff\x00",
    )?;
    on_loose(
        rt,
        "all held, and a byte after the end",
        b"\x10\x00\x11\x04\x00\x00\x00\x00\x00\x00\x00\x12\x01\x13\x00\x13\x01\x13\xff\x14\x00\x14\x01\x14\x02\x00\x00",
    )
}

fn connected_chains(rt: &impl Print) -> io::Result<()> {
    on_chain(
        rt,
        "a chain held, its edges of two labels",
        b"\x10\x00\x11\x04\x00\x00\x00\x00\x00\x00\x00\x12\x03\x14\x00\x14\x01\x14\x02\x00",
    )?;
    on_chain(
        rt,
        "its ends held",
        b"\x10\x00\x11\x09\x00\x00\x00\x00\x00\x00\x00\x12\x03\x14\x00\x14\xff\x14\x02\x00",
    )?;
    both(
        rt,
        "two with own edges held",
        b"\x04\x02\x03\x07\x00\x03\x07\x00\x02\x00\x00\x01\x02\x01\x01\x01\x00",
        b"\x10\x00\x11\x09\x00\x00\x00\x00\x00\x00\x00\x12\x03\x14\x00\x14\x01\x00",
    )
}

// Saves a finished checkpoint that holds three vertices without an edge.
fn save_loose(rt: &impl Print, name: &str, connected: bool, out: &mut [u8]) -> io::Result<()> {
    let three = Tables::loose(3);
    let problem = tables::lend(&three, &three, b"");
    let mut checkpoint = Checkpoint {
        steps: 9,
        finished: true,
        holds: true,
        ..Checkpoint::fresh(0)
    };
    checkpoint.incumbent[..3].copy_from_slice(b"\x00\x01\x02");
    print!(rt; "{name}")?;
    save(rt, problem, connected, checkpoint, out)?;
    println!(rt;)
}

fn saved_for_both(rt: &impl Print) -> io::Result<()> {
    let mut room = [170u8; 20];
    let mut short = [170u8; 19];
    save_loose(rt, "three loose ones saved", false, &mut room)?;
    save_loose(rt, "three loose ones, one byte short", false, &mut short)?;
    save_loose(rt, "three loose ones saved, connected", true, &mut room)?;
    save_loose(rt, "and one byte short", true, &mut short)
}

fn main(rt: HostRuntime) -> io::Result<()> {
    accepted(&rt)?;
    malformed(&rt)?;
    shapeless(&rt)?;
    case(
        &rt,
        "both empty, finished",
        b"\x04\x02\x00",
        b"\x04\x02\x00",
        b"",
        b"\x10\x00\x11\x01\x00\x00\x00\x00\x00\x00\x00\x12\x03\x00",
    )?;
    full(&rt)?;
    unsound(&rt)?;
    let mut room = [170u8; 20];
    let mut short = [170u8; 19];
    let mut shorter = [170u8; 17];
    save_three(&rt, "just room", 3, 0, b"", &mut room)?;
    save_three(&rt, "one byte short", 3, 0, b"", &mut short)?;
    save_three(
        &rt,
        "out of shape, and one byte short",
        2,
        0,
        b"",
        &mut shorter,
    )?;
    save_three(&rt, "old edges unsound", 3, 1, b"", &mut room)?;
    pairs(&rt)?;
    wide_labels(&rt)?;
    longest(&rt)?;
    unsound_lists(&rt)?;
    saved_with_lists(&rt)?;
    connected_ones(&rt)?;
    connected_chains(&rt)?;
    saved_for_both(&rt)
}
