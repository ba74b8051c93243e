// Reads old.chart, new.chart and standard input, and writes what `refit_text::refit` says of them.

#![tactic(auto)]

ghost use Rattle.std.specs.Prelude.{IfOk};
ghost use Rattle.refit.specs.Counts.{IsPrefixLen};

use refit_text::MAX_TEXT;
use std::io::Read;
use std::rt::Files;
use std::{fs, io};

// Reads until `buf` is full or the input ends, and returns how many bytes stand at its front. `read_to_end` would need a heap, and `read_exact` leaves open
// how much it read of a shorter input.
fn read_all<R: Read>(input: &mut R, buf: &mut [u8]) -> io::Result<usize>
    ensures { IfOk result (λ count. IsPrefixLen count buf.new) }
{
    let mut done = 0;
    while done < buf.len() {
        match input.read(&mut buf[done..])? {
            0 => break,
            more => done += more,
        }
    }
    Ok(done)
}

fn read_file(rt: &impl Files, path: &str, buf: &mut [u8]) -> io::Result<usize>
    ensures { IfOk result (λ count. IsPrefixLen count buf.new) }
{
    let mut file = fs::open(rt, path)?;
    read_all(&mut file, buf)
}

// What can't be read counts as empty.
fn main(rt: HostRuntime) -> io::Result<()> {
    let mut old = [0u8; 8520];
    let old_count = read_file(&rt, "old.chart", &mut old).unwrap_or(0);
    let mut new = [0u8; 8520];
    let new_count = read_file(&rt, "new.chart", &mut new).unwrap_or(0);
    // a tenth byte tells more than nine from nine
    let mut input = [0u8; 10];
    let input_count = read_all(&mut rt.reader(), &mut input).unwrap_or(0);
    let mut out = [0u8; MAX_TEXT];
    let count = refit_text::refit(
        &old[..old_count],
        &new[..new_count],
        &input[..input_count],
        &mut out,
    );
    rt.write_all(&out[..count])
}
