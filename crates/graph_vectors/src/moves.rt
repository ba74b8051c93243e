// Files moved from one edition to the other (02, U6).

use super::lines::{Row, other_than};
use super::tables::Tables;
use answers::Refusal;
use graph_reader::Edition;
use graph_writer::MoveError;
use std::io;

fn move_to(to: Edition, bytes: &[u8], out: &mut [u8]) -> Result<usize, MoveError> {
    match to {
        Edition::One => graph_writer::to_edition_1(bytes, out),
        Edition::Two => graph_writer::to_edition_2(bytes, out),
    }
}

// Moves into a buffer that holds 170 everywhere. Prints the bytes that come, or the number and the place, and how many bytes of the buffer have changed.
fn move_into(
    rt: &impl Print,
    name: &str,
    to: Edition,
    bytes: &[u8],
    out: &mut [u8],
) -> io::Result<()> {
    match move_to(to, bytes, out) {
        Ok(count) => {
            let moved = Row(&out[..count.min(out.len())]);
            print!(rt; "{name}:{moved}")?;
        }
        Err(error) => {
            print!(rt; "{name}: {}", error.number())?;
            if let MoveError::Unreadable(_, place) = error {
                print!(rt; " at {place}")?;
            }
        }
    }
    println!(rt; ", changed {}", other_than(170, out))
}

fn up(rt: &impl Print, name: &str, bytes: &[u8]) -> io::Result<()> {
    move_into(rt, name, Edition::Two, bytes, &mut [170; 64])
}

pub fn back(rt: &impl Print, name: &str, bytes: &[u8]) -> io::Result<()> {
    move_into(rt, name, Edition::One, bytes, &mut [170; 64])
}

// 01's byte examples, as they stand there, and its pair P.
pub fn moved_up(rt: &impl Print) -> io::Result<()> {
    up(rt, "bytes 0 moved up", b"\x00")?;
    up(rt, "no bytes moved up", b"")?;
    up(
        rt,
        "edge to a vertex not given moved up",
        b"\x01\x07\x02\x00\x01\x01\x00",
    )?;
    up(
        rt,
        "edge of a vertex with itself moved up",
        b"\x01\x07\x02\x00\x00\x01\x00",
    )?;
    up(
        rt,
        "old graph of P moved up",
        b"\x01\x07\x01\x09\x01\x07\x02\x00\x01\x01\x02\x01\x02\x01\x00",
    )?;
    up(
        rt,
        "new graph of P moved up",
        b"\x01\x09\x01\x07\x02\x00\x01\x01\x00",
    )?;
    up(
        rt,
        "edge given higher number first moved up",
        b"\x01\x09\x01\x07\x02\x01\x00\x01\x00",
    )?;
    up(
        rt,
        "an edge before the second vertex moved up",
        b"\x01\x07\x02\x00\x00\x01\x01\xff\x00",
    )
}

// Edition 1 knows neither 3 nor 4.
pub fn kept_out(rt: &impl Print) -> io::Result<()> {
    up(rt, "a file of edition 2 moved up", b"\x04\x02\x00")?;
    up(
        rt,
        "a vertex of edition 2 moved up",
        b"\x01\x07\x03\x07\x00\x00",
    )?;
    up(rt, "label 0 moved up", b"\x01\x00\x00")?;
    up(rt, "a vertex without label moved up", b"\x01\x07\x01")?;
    up(
        rt,
        "null edge of a vertex with itself moved up",
        b"\x01\x07\x02\x00\x00\x00\x00",
    )?;
    up(
        rt,
        "edge of a vertex with itself repeated moved up",
        b"\x01\x07\x02\x00\x00\x01\x02\x00\x00\x01\x00",
    )?;
    up(rt, "a byte after the end moved up", b"\x00\x00")
}

pub fn moved_back(rt: &impl Print) -> io::Result<()> {
    back(rt, "empty graph moved back", b"\x04\x02\x00")?;
    back(
        rt,
        "edge given higher number first moved back",
        b"\x04\x02\x03\x07\x00\x03\x07\x00\x02\x01\x00\x01\x00",
    )?;
    back(rt, "label 255 moved back", b"\x04\x02\x03\xff\x00\x00")?;
    back(rt, "label 0 moved back", b"\x04\x02\x03\x00\x00\x00")?;
    back(rt, "half a label moved back", b"\x04\x02\x03\x00")?;
    back(rt, "no bytes moved back", b"")?;
    back(rt, "opening cut moved back", b"\x04")?;
    back(rt, "a file of edition 1 moved back", b"\x01\x07\x00")?;
    back(
        rt,
        "a byte after the end moved back",
        b"\x04\x02\x03\x07\x00\x00\x00",
    )
}

// A label above 255 is told at its vertex, before what comes after it and after what comes before it.
pub fn wide_labels(rt: &impl Print) -> io::Result<()> {
    back(rt, "label 256 moved back", b"\x04\x02\x03\x00\x01\x00")?;
    back(rt, "label 263 moved back", b"\x04\x02\x03\x07\x01\x00")?;
    back(rt, "label 65535 moved back", b"\x04\x02\x03\xff\xff\x00")?;
    back(
        rt,
        "label 256 before an unknown command",
        b"\x04\x02\x03\x00\x01\x09",
    )?;
    back(rt, "label 256 before no end", b"\x04\x02\x03\x00\x01")?;
    back(
        rt,
        "label 256 before a byte after the end",
        b"\x04\x02\x03\x00\x01\x00\x00",
    )?;
    back(
        rt,
        "label 256 of the second vertex",
        b"\x04\x02\x03\x07\x00\x03\x00\x01\x00",
    )?;
    back(
        rt,
        "label 256 after an edge to a vertex not given",
        b"\x04\x02\x03\x07\x00\x02\x00\x01\x01\x03\x00\x01\x00",
    )
}

// Moves a file of edition 1 up, and what comes of it back.
fn there_and_back_of(rt: &impl Print, name: &str, bytes: &[u8]) -> io::Result<()> {
    let mut out = [170u8; 64];
    match graph_writer::to_edition_2(bytes, &mut out) {
        Ok(count) => back(rt, name, &out[..count.min(64)]),
        Err(_) => println!(rt; "not moved"),
    }
}

pub fn there_and_back(rt: &impl Print) -> io::Result<()> {
    there_and_back_of(rt, "bytes 0 there and back", b"\x00")?;
    there_and_back_of(
        rt,
        "old graph of P there and back",
        b"\x01\x07\x01\x09\x01\x07\x02\x00\x01\x01\x02\x01\x02\x01\x00",
    )?;
    there_and_back_of(
        rt,
        "an edge before the second vertex there and back",
        b"\x01\x07\x02\x00\x00\x01\x01\xff\x00",
    )
}

// A buffer that is too short is told last.
pub fn room(rt: &impl Print) -> io::Result<()> {
    move_into(
        rt,
        "one byte short up",
        Edition::Two,
        b"\x01\x07\x00",
        &mut [170; 5],
    )?;
    move_into(
        rt,
        "just room up",
        Edition::Two,
        b"\x01\x07\x00",
        &mut [170; 6],
    )?;
    move_into(
        rt,
        "no room and a label above 255 back",
        Edition::One,
        b"\x04\x02\x03\x00\x01\x00",
        &mut [170; 2],
    )?;
    move_into(
        rt,
        "no room and a byte after the end back",
        Edition::One,
        b"\x04\x02\x03\x07\x00\x00\x00",
        &mut [170; 2],
    )?;
    move_into(
        rt,
        "one byte short back",
        Edition::One,
        b"\x04\x02\x03\x07\x00\x00",
        &mut [170; 2],
    )?;
    move_into(
        rt,
        "just room back",
        Edition::One,
        b"\x04\x02\x03\x07\x00\x00",
        &mut [170; 3],
    )
}

// How many places two files of the greatest length differ at.
fn differing(a: &[u8; 8515], b: &[u8; 8515]) -> usize {
    a.iter().zip(b).filter(|(x, y)| *x != *y).count()
}

fn print_count(rt: &impl Print, name: &str, moved: Result<usize, MoveError>) -> io::Result<()> {
    match moved {
        Ok(count) => println!(rt; "{name}: bytes {count}"),
        Err(_) => println!(rt; "{name}"),
    }
}

// The longest file whose labels fit a byte: 64 vertices of label 255 and every edge of two or of one, back to edition 1 and up again.
pub fn greatest(rt: &impl Print) -> io::Result<()> {
    let tables = Tables {
        labels: [255; 64],
        edges: [5; 4096],
    };
    let mut file = [0u8; 8515];
    let mut old = [0u8; 8449];
    let mut again = [0u8; 8515];
    if graph_writer::write_graph(tables.graph(64), &mut file).is_err() {
        println!(rt; "not written")?;
    }
    print_count(
        rt,
        "greatest file moved back",
        graph_writer::to_edition_1(&file, &mut old),
    )?;
    print_count(
        rt,
        "and up again",
        graph_writer::to_edition_2(&old, &mut again),
    )?;
    println!(rt; "differing bytes {}", differing(&file, &again))
}
