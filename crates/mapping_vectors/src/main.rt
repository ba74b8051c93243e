// Runs `mapping::check_mapping` on small cases and writes what each says. The expected output was worked out by hand from document 01,
// "Good partner lists" and "Refusals by place of checking", and from document 02: U1, where a list of substitutes is lent, U4, where a part
// has a link with itself, and U6, where kinds have two bytes.

#![tactic(auto)]

mod tables;

use answers::Refusal;
use mapping::{Checked, MappingError};
use std::{array, io};
use tables::{Harm, Source, Tables, sound};

// A line of the output: the case's name, and the size or the refusal's number with its rows.
fn print_line(rt: &impl Print, name: &str, checked: Checked) -> io::Result<()> {
    match checked {
        Ok(size) => println!(rt; "{name}: size {size}"),
        Err(error) => {
            print!(rt; "{name}: refused {}", error.number())?;
            match error {
                MappingError::Flawed(_) | MappingError::Length => println!(rt;),
                MappingError::NoVertex(row) | MappingError::LabelsDisagree(row) => {
                    println!(rt; " {}", row.0)
                }
                MappingError::SameImage(row, earlier) | MappingError::EdgesDiffer(row, earlier) => {
                    println!(rt; " {} {}", row.0, earlier.0)
                }
            }
        }
    }
}

// `list` is checked on the two graphs, under the lent pairs of `substitutes`.
fn case(
    rt: &impl Print,
    name: &str,
    old: Source<'_>,
    new: Source<'_>,
    substitutes: &[u8],
    list: &[u8],
) -> io::Result<()> {
    let old = Tables::read(rt, old)?;
    let new = Tables::read(rt, new)?;
    let problem = tables::lend(&old, &new, substitutes);
    print_line(rt, name, mapping::check_mapping(problem, list))
}

// Two sound graphs, and no substitutes.
fn on_sound(rt: &impl Print, name: &str, old: &[u8], new: &[u8], list: &[u8]) -> io::Result<()> {
    case(rt, name, sound(old), sound(new), b"", list)
}

// 01's pair P. Old kinds 7, 9, 7, links 0-1 and 1-2 of kind 1; new kinds 9, 7, link 0-1 of kind 1.
fn on_harmed_p(
    rt: &impl Print,
    name: &str,
    old_harm: Harm,
    new_harm: Harm,
    list: &[u8],
) -> io::Result<()> {
    let old = Source {
        bytes: b"\x04\x02\x03\x07\x00\x03\x09\x00\x03\x07\x00\x02\x00\x01\x01\x02\x01\x02\x01\x00",
        harm: old_harm,
    };
    let new = Source {
        bytes: b"\x04\x02\x03\x09\x00\x03\x07\x00\x02\x00\x01\x01\x00",
        harm: new_harm,
    };
    case(rt, name, old, new, b"", list)
}

fn on_p(rt: &impl Print, name: &str, list: &[u8]) -> io::Result<()> {
    on_harmed_p(rt, name, Harm::Sound, Harm::Sound, list)
}

// Four parts of kind 7 on each side. Old links 0-1 of kind 1, 1-2 of kind 1; new links 0-1 of kind 1, 1-2 of kind 2.
fn on_q(rt: &impl Print, name: &str, list: &[u8]) -> io::Result<()> {
    on_sound(
        rt,
        name,
        b"\x04\x02\x03\x07\x00\x03\x07\x00\x03\x07\x00\x03\x07\x00\x02\x00\x01\x01\x02\x01\x02\x01\x00",
        b"\x04\x02\x03\x07\x00\x03\x07\x00\x03\x07\x00\x03\x07\x00\x02\x00\x01\x01\x02\x01\x02\x02\x00",
        list,
    )
}

// 64 parts of kind 1 on each side, and no links, moved from a file of edition 1.
fn on_full(rt: &impl Print, name: &str, list: &[u8]) -> io::Result<()> {
    let mut earlier = [1u8; 129];
    earlier[128] = 0;
    let mut bytes = [0u8; 195];
    if graph_writer::to_edition_2(&earlier, &mut bytes).is_err() {
        println!(rt; "not moved")?;
    }
    on_sound(rt, name, &bytes, &bytes, list)
}

// One part of kind 7, and one of kind 9.
fn on_seven_and_nine(
    rt: &impl Print,
    name: &str,
    substitutes: &[u8],
    list: &[u8],
) -> io::Result<()> {
    case(
        rt,
        name,
        sound(b"\x04\x02\x03\x07\x00\x00"),
        sound(b"\x04\x02\x03\x09\x00\x00"),
        substitutes,
        list,
    )
}

fn harmed(rt: &impl Print) -> io::Result<()> {
    for (name, old_harm, new_harm) in [
        ("old order 65", Harm::Order, Harm::Sound),
        ("old labels short", Harm::ShortLabels, Harm::Sound),
        ("old edges short", Harm::ShortEdges, Harm::Sound),
        ("old label", Harm::Label, Harm::Sound),
        ("old edge", Harm::Edge, Harm::Sound),
        ("new order 65", Harm::Sound, Harm::Order),
        ("new labels short", Harm::Sound, Harm::ShortLabels),
        ("new edges short", Harm::Sound, Harm::ShortEdges),
        ("new label", Harm::Sound, Harm::Label),
        ("new edge", Harm::Sound, Harm::Edge),
        ("old label, new order", Harm::Label, Harm::Order),
        ("old edge, new labels short", Harm::Edge, Harm::ShortLabels),
        ("old label, new edge", Harm::Label, Harm::Edge),
        ("old edge, new label", Harm::Edge, Harm::Label),
    ] {
        on_harmed_p(rt, name, old_harm, new_harm, b"\x01\x00\xff")?;
    }
    on_harmed_p(
        rt,
        "new edge, list too short",
        Harm::Sound,
        Harm::Edge,
        b"\x01",
    )
}

fn lengths(rt: &impl Print) -> io::Result<()> {
    on_p(rt, "list empty", b"")?;
    on_p(rt, "list too short, and no vertices", b"\x02\x02")?;
    on_p(rt, "list too long", b"\x01\x00\xff\xff")
}

fn one_row(rt: &impl Print) -> io::Result<()> {
    on_p(rt, "first number that is no vertex", b"\x01\x00\x02")?;
    on_p(rt, "254", b"\xff\xfe\xff")?;
    on_p(rt, "labels differ", b"\x00\xff\xff")?;
    on_p(rt, "one partner", b"\x01\x00\x01")
}

fn first_of_two(rt: &impl Print) -> io::Result<()> {
    on_p(rt, "labels differ before one partner", b"\x01\x01\xff")?;
    on_p(rt, "no vertex, then labels differ", b"\x02\x01\xff")?;
    on_p(rt, "labels differ, then no vertex", b"\x00\x02\xff")?;
    on_q(rt, "edges differ, then no vertex", b"\x00\x02\x04\xff")?;
    on_q(rt, "rows 2 and 3 at fault", b"\x00\xff\x00\x00")
}

fn edges(rt: &impl Print) -> io::Result<()> {
    on_q(rt, "linked on linked by another kind", b"\x00\x01\x02\xff")?;
    on_q(rt, "linked on unlinked", b"\x00\x02\xff\xff")?;
    on_q(rt, "unlinked on linked", b"\x00\xff\x01\xff")?;
    on_q(
        rt,
        "unlinked on linked after two left out",
        b"\xff\xff\x00\x01",
    )
}

fn earlier_rows(rt: &impl Print) -> io::Result<()> {
    on_q(rt, "one partner before edges differ", b"\x00\x00\xff\xff")?;
    on_q(
        rt,
        "edges differ with row 0, one partner with row 1",
        b"\x00\x01\xff\x01",
    )?;
    on_q(
        rt,
        "one partner with row 0, edges differ with row 1",
        b"\x00\x01\xff\x00",
    )?;
    on_q(rt, "edges differ with rows 0 and 2", b"\x00\xff\x02\x01")
}

fn own_edges(rt: &impl Print) -> io::Result<()> {
    on_sound(
        rt,
        "own edge in the old graph only",
        b"\x04\x02\x03\x07\x00\x02\x00\x00\x01\x00",
        b"\x04\x02\x03\x07\x00\x00",
        b"\x00",
    )?;
    on_sound(
        rt,
        "own edge in the new graph only",
        b"\x04\x02\x03\x07\x00\x00",
        b"\x04\x02\x03\x07\x00\x02\x00\x00\x01\x00",
        b"\x00",
    )?;
    on_sound(
        rt,
        "own edges of two kinds",
        b"\x04\x02\x03\x07\x00\x02\x00\x00\x01\x00",
        b"\x04\x02\x03\x07\x00\x02\x00\x00\x02\x00",
        b"\x00",
    )?;
    on_sound(
        rt,
        "equal own edges",
        b"\x04\x02\x03\x07\x00\x02\x00\x00\x01\x00",
        b"\x04\x02\x03\x07\x00\x02\x00\x00\x01\x00",
        b"\x00",
    )?;
    on_sound(
        rt,
        "own edge of a row left out",
        b"\x04\x02\x03\x07\x00\x03\x07\x00\x02\x00\x00\x01\x00",
        b"\x04\x02\x03\x07\x00\x00",
        b"\xff\x00",
    )
}

// A row's own edge is tested after its label, and before the earlier rows.
fn own_edges_in_turn(rt: &impl Print) -> io::Result<()> {
    on_sound(
        rt,
        "labels differ before own edges differ",
        b"\x04\x02\x03\x07\x00\x02\x00\x00\x01\x00",
        b"\x04\x02\x03\x09\x00\x00",
        b"\x00",
    )?;
    on_sound(
        rt,
        "own edges differ before one partner",
        b"\x04\x02\x03\x07\x00\x03\x07\x00\x02\x01\x01\x01\x00",
        b"\x04\x02\x03\x07\x00\x00",
        b"\x00\x00",
    )?;
    on_sound(
        rt,
        "equal own edges, one partner",
        b"\x04\x02\x03\x07\x00\x03\x07\x00\x02\x00\x00\x01\x02\x01\x01\x01\x00",
        b"\x04\x02\x03\x07\x00\x02\x00\x00\x01\x00",
        b"\x00\x00",
    )?;
    on_sound(
        rt,
        "own edges differ before edges differ with row 0",
        b"\x04\x02\x03\x07\x00\x03\x07\x00\x02\x00\x01\x01\x02\x01\x01\x01\x00",
        b"\x04\x02\x03\x07\x00\x03\x07\x00\x00",
        b"\x00\x01",
    )
}

fn good(rt: &impl Print) -> io::Result<()> {
    on_p(rt, "01's matching", b"\x01\x00\xff")?;
    on_p(rt, "the other matching of its size", b"\xff\x00\x01")?;
    on_p(rt, "all left out", b"\xff\xff\xff")?;
    on_q(
        rt,
        "linked on linked, unlinked on unlinked",
        b"\x00\x01\xff\x03",
    )
}

fn empty_graphs(rt: &impl Print) -> io::Result<()> {
    on_sound(rt, "both empty", b"\x04\x02\x00", b"\x04\x02\x00", b"")?;
    on_sound(
        rt,
        "both empty, one row",
        b"\x04\x02\x00",
        b"\x04\x02\x00",
        b"\xff",
    )?;
    on_sound(
        rt,
        "old empty",
        b"\x04\x02\x00",
        b"\x04\x02\x03\x07\x00\x00",
        b"",
    )?;
    on_sound(
        rt,
        "new empty",
        b"\x04\x02\x03\x07\x00\x00",
        b"\x04\x02\x00",
        b"\xff",
    )?;
    on_sound(
        rt,
        "new empty, row mapped",
        b"\x04\x02\x03\x07\x00\x00",
        b"\x04\x02\x00",
        b"\x00",
    )
}

fn full_graphs(rt: &impl Print) -> io::Result<()> {
    let mut list = [255u8; 64];
    on_full(rt, "64 left out", &list)?;
    list[63] = 63;
    on_full(rt, "the last on the last", &list)?;
    list[0] = 63;
    on_full(rt, "the first and the last on one", &list)?;
    list[0] = 64;
    on_full(rt, "64 is no vertex", &list)?;
    let each_on_itself: [u8; 64] = array::from_fn(|vertex| vertex as u8);
    on_full(rt, "each on itself", &each_on_itself)
}

fn pairs_read(rt: &impl Print) -> io::Result<()> {
    on_seven_and_nine(rt, "substitutes 7 9", b"\x07\x00\x09\x00", b"\x00")?;
    on_seven_and_nine(
        rt,
        "substitutes 9 7, directed",
        b"\x09\x00\x07\x00",
        b"\x00",
    )?;
    on_seven_and_nine(
        rt,
        "substitutes 7 8 8 9, no chain",
        b"\x07\x00\x08\x00\x08\x00\x09\x00",
        b"\x00",
    )?;
    on_seven_and_nine(rt, "no substitutes", b"", b"\x00")?;
    on_seven_and_nine(
        rt,
        "the last pair of several",
        b"\x07\x00\x08\x00\x09\x00\x07\x00\x08\x00\x09\x00\x07\x00\x09\x00",
        b"\x00",
    )?;
    case(
        rt,
        "equal kinds, substitutes of others",
        sound(b"\x04\x02\x03\x07\x00\x00"),
        sound(b"\x04\x02\x03\x07\x00\x00"),
        b"\x08\x00\x09\x00",
        b"\x00",
    )?;
    case(
        rt,
        "links have no substitutes",
        sound(b"\x04\x02\x03\x07\x00\x03\x07\x00\x02\x00\x01\x07\x00"),
        sound(b"\x04\x02\x03\x09\x00\x03\x09\x00\x02\x00\x01\x09\x00"),
        b"\x07\x00\x09\x00",
        b"\x00\x01",
    )
}

// One part of kind 263, and one of kind 7, whose low bytes are the same.
fn on_low_bytes(rt: &impl Print, name: &str, substitutes: &[u8]) -> io::Result<()> {
    case(
        rt,
        name,
        sound(b"\x04\x02\x03\x07\x01\x00"),
        sound(b"\x04\x02\x03\x07\x00\x00"),
        substitutes,
        b"\x00",
    )
}

fn wide_kinds(rt: &impl Print) -> io::Result<()> {
    on_low_bytes(rt, "263 and 7, no substitutes", b"")?;
    on_low_bytes(rt, "263 and 7, substitutes 263 7", b"\x07\x01\x07\x00")?;
    on_low_bytes(
        rt,
        "263 and 7, substitutes 7 263, directed",
        b"\x07\x00\x07\x01",
    )?;
    on_low_bytes(rt, "263 and 7, substitutes 7 7", b"\x07\x00\x07\x00")?;
    on_sound(
        rt,
        "263 and 263",
        b"\x04\x02\x03\x07\x01\x00",
        b"\x04\x02\x03\x07\x01\x00",
        b"\x00",
    )?;
    on_seven_and_nine(
        rt,
        "substitutes 256 9, no kind 0",
        b"\x00\x01\x09\x00",
        b"\x00",
    )
}

fn pairs_refused(rt: &impl Print) -> io::Result<()> {
    on_seven_and_nine(rt, "one byte of substitutes", b"\x07", b"\x00")?;
    on_seven_and_nine(rt, "substitutes 7 9 of a byte each", b"\x07\x09", b"\x00")?;
    on_seven_and_nine(
        rt,
        "six bytes of substitutes with a kind 0",
        b"\x07\x00\x00\x00\x07\x00",
        b"\x00",
    )?;
    on_seven_and_nine(rt, "substitutes 7 0", b"\x07\x00\x00\x00", b"\x00")?;
    on_seven_and_nine(rt, "substitutes 0 7", b"\x00\x00\x07\x00", b"\x00")?;
    on_seven_and_nine(
        rt,
        "one byte of substitutes, list too long",
        b"\x07",
        b"\x00\x00",
    )?;
    case(
        rt,
        "old kind 0, one byte of substitutes",
        Source {
            bytes: b"\x04\x02\x03\x07\x00\x00",
            harm: Harm::NoLabel,
        },
        sound(b"\x04\x02\x03\x09\x00\x00"),
        b"\x07",
        b"\x00",
    )
}

fn many_pairs(rt: &impl Print) -> io::Result<()> {
    // 257 times the pair of 7 and 9
    let mut bytes: [u8; 1028] = array::from_fn(|place| match place % 4 {
        0 => 7,
        2 => 9,
        _ => 0,
    });
    on_seven_and_nine(rt, "1024 bytes of substitutes", &bytes[..1024], b"\x00")?;
    bytes[1026] = 0;
    on_seven_and_nine(
        rt,
        "1028 bytes of substitutes with a kind 0",
        &bytes,
        b"\x00",
    )
}

fn main(rt: HostRuntime) -> io::Result<()> {
    harmed(&rt)?;
    lengths(&rt)?;
    one_row(&rt)?;
    first_of_two(&rt)?;
    edges(&rt)?;
    earlier_rows(&rt)?;
    own_edges(&rt)?;
    own_edges_in_turn(&rt)?;
    good(&rt)?;
    empty_graphs(&rt)?;
    full_graphs(&rt)?;
    pairs_read(&rt)?;
    wide_kinds(&rt)?;
    pairs_refused(&rt)?;
    many_pairs(&rt)
}
