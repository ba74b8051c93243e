// Runs `clique::branch` on small cases and writes what each says. The expected output was worked out by hand from document 02, U2, U4 and U6, and
// from document 01, "Good partner lists", "The walk" and "Refusals by place of checking".

#![tactic(auto)]

mod tables;

use answers::Refusal;
use std::io;
use tables::Tables;

// Prints the case's name, and the mapping that is held, a byte for each old vertex and then the bytes left over, or none, or the refusal's number.
fn branch(
    rt: &impl Print,
    name: &str,
    old: &Tables,
    new: &Tables,
    substitutes: &[u8],
    minimum: u8,
) -> io::Result<()> {
    let problem = tables::lend(old, new, substitutes);
    match clique::branch(problem, minimum) {
        Ok(Some(mapping)) => {
            print!(rt; "{name}: mapping")?;
            for (vertex, image) in mapping.iter().enumerate() {
                if vertex == old.order {
                    print!(rt; ", rest")?;
                }
                print!(rt; " {image}")?;
            }
            println!(rt;)
        }
        Ok(None) => println!(rt; "{name}: none"),
        Err(error) => println!(rt; "{name}: refused {}", error.number()),
    }
}

fn case(
    rt: &impl Print,
    name: &str,
    old: &[u8],
    new: &[u8],
    substitutes: &[u8],
    minimum: u8,
) -> io::Result<()> {
    let old = Tables::read(rt, old)?;
    let new = Tables::read(rt, new)?;
    branch(rt, name, &old, &new, substitutes, minimum)
}

// 01's pair P. Old kinds 7, 9, 7, links 0-1 and 1-2 of kind 1; new kinds 9, 7, link 0-1 of kind 1.
fn on_p(rt: &impl Print, name: &str, minimum: u8) -> io::Result<()> {
    case(
        rt,
        name,
        b"\x04\x02\x03\x07\x00\x03\x09\x00\x03\x07\x00\x02\x00\x01\x01\x02\x01\x02\x01\x00",
        b"\x04\x02\x03\x09\x00\x03\x07\x00\x02\x00\x01\x01\x00",
        b"",
        minimum,
    )
}

fn minimums(rt: &impl Print) -> io::Result<()> {
    on_p(rt, "01's pair, floor 0", 0)?;
    on_p(rt, "01's pair, floor 1", 1)?;
    on_p(rt, "01's pair, floor 2", 2)?;
    on_p(rt, "01's pair, floor 3", 3)?;
    on_p(rt, "01's pair, floor 255", 255)?;
    case(
        rt,
        "both empty, floor 0",
        b"\x04\x02\x00",
        b"\x04\x02\x00",
        b"",
        0,
    )?;
    case(
        rt,
        "both empty, floor 1",
        b"\x04\x02\x00",
        b"\x04\x02\x00",
        b"",
        1,
    )
}

// Of equally large lists the first is held: it is never replaced at equal size, and left out is tried last.
fn first_held(rt: &impl Print) -> io::Result<()> {
    case(
        rt,
        "one against two",
        b"\x04\x02\x03\x07\x00\x00",
        b"\x04\x02\x03\x07\x00\x03\x07\x00\x00",
        b"",
        0,
    )?;
    case(
        rt,
        "two against one",
        b"\x04\x02\x03\x07\x00\x03\x07\x00\x00",
        b"\x04\x02\x03\x07\x00\x00",
        b"",
        0,
    )?;
    // C is 7 7 7 with link 0-1, which leaves part 2 loose
    case(
        rt,
        "C on itself",
        b"\x04\x02\x03\x07\x00\x03\x07\x00\x03\x07\x00\x02\x00\x01\x01\x00",
        b"\x04\x02\x03\x07\x00\x03\x07\x00\x03\x07\x00\x02\x00\x01\x01\x00",
        b"",
        0,
    )
}

// Row 0 has a partner that leaves nothing to rows 1 and 2; a larger list comes later.
fn larger_later(rt: &impl Print) -> io::Result<()> {
    case(
        rt,
        "the second partner leaves more",
        b"\x04\x02\x03\x07\x00\x03\x08\x00\x03\x09\x00\x00",
        b"\x04\x02\x03\x07\x00\x03\x07\x00\x03\x08\x00\x03\x09\x00\x02\x00\x02\x01\x02\x00\x03\x01\x00",
        b"",
        0,
    )?;
    case(
        rt,
        "left out leaves more",
        b"\x04\x02\x03\x07\x00\x03\x08\x00\x03\x09\x00\x00",
        b"\x04\x02\x03\x07\x00\x03\x08\x00\x03\x09\x00\x02\x00\x01\x01\x02\x00\x02\x01\x00",
        b"",
        0,
    )
}

// A pair fits those taken where its links are theirs.
fn links(rt: &impl Print) -> io::Result<()> {
    case(
        rt,
        "linked against unlinked",
        b"\x04\x02\x03\x07\x00\x03\x09\x00\x02\x00\x01\x01\x00",
        b"\x04\x02\x03\x07\x00\x03\x09\x00\x00",
        b"",
        0,
    )?;
    case(
        rt,
        "unlinked against linked",
        b"\x04\x02\x03\x07\x00\x03\x07\x00\x00",
        b"\x04\x02\x03\x07\x00\x03\x07\x00\x02\x00\x01\x01\x00",
        b"",
        0,
    )?;
    case(
        rt,
        "row 2 fits row 1 and not row 0",
        b"\x04\x02\x03\x07\x00\x03\x08\x00\x03\x09\x00\x02\x00\x02\x01\x00",
        b"\x04\x02\x03\x07\x00\x03\x08\x00\x03\x09\x00\x00",
        b"",
        0,
    )
}

// A part of kind 7 with a link to itself, and one without.
fn on_own_and_none(rt: &impl Print, name: &str, minimum: u8) -> io::Result<()> {
    case(
        rt,
        name,
        b"\x04\x02\x03\x07\x00\x02\x00\x00\x01\x00",
        b"\x04\x02\x03\x07\x00\x00",
        b"",
        minimum,
    )
}

fn own_links(rt: &impl Print) -> io::Result<()> {
    on_own_and_none(rt, "own link against none, floor 0", 0)?;
    on_own_and_none(rt, "own link against none, floor 1", 1)?;
    // the link of the two old parts is the new part's own
    case(
        rt,
        "one new part serves once",
        b"\x04\x02\x03\x07\x00\x03\x07\x00\x02\x00\x00\x05\x02\x01\x01\x05\x02\x00\x01\x05\x00",
        b"\x04\x02\x03\x07\x00\x02\x00\x00\x05\x00",
        b"",
        0,
    )?;
    case(
        rt,
        "own link of the first against own link of the second",
        b"\x04\x02\x03\x07\x00\x03\x07\x00\x02\x00\x00\x01\x00",
        b"\x04\x02\x03\x07\x00\x03\x07\x00\x02\x01\x01\x01\x00",
        b"",
        0,
    )
}

// One part of kind 7, and one of kind 9.
fn on_seven_and_nine(
    rt: &impl Print,
    name: &str,
    substitutes: &[u8],
    minimum: u8,
) -> io::Result<()> {
    case(
        rt,
        name,
        b"\x04\x02\x03\x07\x00\x00",
        b"\x04\x02\x03\x09\x00\x00",
        substitutes,
        minimum,
    )
}

fn substitutes(rt: &impl Print) -> io::Result<()> {
    on_seven_and_nine(rt, "substitutes 7 9", b"\x07\x00\x09\x00", 1)?;
    on_seven_and_nine(rt, "substitutes 9 7, floor 0", b"\x09\x00\x07\x00", 0)?;
    on_seven_and_nine(rt, "substitutes 9 7, floor 1", b"\x09\x00\x07\x00", 1)?;
    on_seven_and_nine(
        rt,
        "substitutes 7 8 8 9, no chain",
        b"\x07\x00\x08\x00\x08\x00\x09\x00",
        1,
    )?;
    case(
        rt,
        "links have no substitutes",
        b"\x04\x02\x03\x07\x00\x03\x07\x00\x02\x00\x01\x07\x00",
        b"\x04\x02\x03\x09\x00\x03\x09\x00\x02\x00\x01\x09\x00",
        b"\x07\x00\x09\x00",
        0,
    )
}

// Old kinds 263 and 7 against the new kinds 7 and 519: all have the low byte 7.
fn on_low_bytes(rt: &impl Print, name: &str, substitutes: &[u8]) -> io::Result<()> {
    case(
        rt,
        name,
        b"\x04\x02\x03\x07\x01\x03\x07\x00\x00",
        b"\x04\x02\x03\x07\x00\x03\x07\x02\x00",
        substitutes,
        1,
    )
}

fn wide_kinds(rt: &impl Print) -> io::Result<()> {
    on_low_bytes(rt, "kinds of one low byte", b"")?;
    on_low_bytes(
        rt,
        "kinds of one low byte, substitutes 263 519",
        b"\x07\x01\x07\x02",
    )?;
    on_low_bytes(
        rt,
        "kinds of one low byte, substitutes 519 263",
        b"\x07\x02\x07\x01",
    )
}

// Old kinds 1 to 8, new kinds 8 to 1.
fn on_eight(rt: &impl Print, name: &str, minimum: u8) -> io::Result<()> {
    case(
        rt,
        name,
        b"\x04\x02\x03\x01\x00\x03\x02\x00\x03\x03\x00\x03\x04\x00\x03\x05\x00\x03\x06\x00\x03\x07\x00\x03\x08\x00\x00",
        b"\x04\x02\x03\x08\x00\x03\x07\x00\x03\x06\x00\x03\x05\x00\x03\x04\x00\x03\x03\x00\x03\x02\x00\x03\x01\x00\x00",
        b"",
        minimum,
    )
}

fn eight_old(rt: &impl Print) -> io::Result<()> {
    on_eight(rt, "eight, floor 8", 8)?;
    on_eight(rt, "eight, floor 9", 9)?;
    case(
        rt,
        "eight against two",
        b"\x04\x02\x03\x07\x00\x03\x07\x00\x03\x07\x00\x03\x07\x00\x03\x07\x00\x03\x07\x00\x03\x07\x00\x03\x07\x00\x00",
        b"\x04\x02\x03\x07\x00\x03\x07\x00\x00",
        b"",
        0,
    )?;
    case(
        rt,
        "one against nine",
        b"\x04\x02\x03\x07\x00\x00",
        b"\x04\x02\x03\x07\x00\x03\x07\x00\x03\x07\x00\x03\x07\x00\x03\x07\x00\x03\x07\x00\x03\x07\x00\x03\x07\x00\x03\x07\x00\x00",
        b"",
        0,
    )
}

// Old parts against none.
fn on_old(rt: &impl Print, name: &str, old: &Tables, substitutes: &[u8]) -> io::Result<()> {
    branch(rt, name, old, &Tables::empty(), substitutes, 255)
}

fn nine_old(rt: &impl Print) -> io::Result<()> {
    let mut nine = Tables::read(
        rt,
        b"\x04\x02\x03\x07\x00\x03\x07\x00\x03\x07\x00\x03\x07\x00\x03\x07\x00\x03\x07\x00\x03\x07\x00\x03\x07\x00\x03\x07\x00\x00",
    )?;
    on_old(rt, "nine", &nine, b"")?;
    on_old(rt, "nine, and substitutes 7 9", &nine, b"\x07\x00\x09\x00")?;
    on_old(
        rt,
        "nine, and a label 0 in the substitutes",
        &nine,
        b"\x07\x00\x00\x00",
    )?;
    on_old(rt, "nine, and one byte of substitutes", &nine, b"\x07")?;
    on_old(
        rt,
        "nine, and six bytes with a label 0",
        &nine,
        b"\x07\x00\x00\x00\x07\x00",
    )?;
    // the kind of a part 63 and its link with itself, which are 0 in a sound chart of nine
    nine.edges[4095] = 1;
    on_old(rt, "nine, and links unsound", &nine, b"")?;
    nine.labels[63] = 7;
    on_old(
        rt,
        "nine, kinds and links unsound, one byte of substitutes",
        &nine,
        b"\x07",
    )?;
    nine.order = 65;
    nine.edges[4095] = 0;
    on_old(rt, "order 65, and kinds unsound", &nine, b"")
}

fn main(rt: HostRuntime) -> io::Result<()> {
    minimums(&rt)?;
    first_held(&rt)?;
    larger_later(&rt)?;
    links(&rt)?;
    own_links(&rt)?;
    substitutes(&rt)?;
    wide_kinds(&rt)?;
    eight_old(&rt)?;
    nine_old(&rt)
}
