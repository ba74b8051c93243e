// The commands of graph bytes, one after the other: each decode is handed the bytes from the next command on.

ghost use Rattle.std.specs.Prelude.{◌≡◌, ◌+◌, ◌≤◌, ◌<◌, length, drop, replicate};
ghost use Rattle.graph.specs.Graph.{graph, empty_graph};
ghost use Rattle.graph_reader.specs.Answers.{fault_number};
ghost use Rattle.graph_reader.specs.Editions.{opening_width};
ghost use Rattle.graph_reader.specs.Reading.{reading_of, refuse_at, finish as finished, read_at, read_file};

use super::cursor::Reader;
use super::{Edition, Fault, ReadError, commands};
use graph::Label;

// A refusal: both tables are cleared. They are two parameters here and in `commands`: a struct of two `&mut` would be taken apart and lent again at each call.
pub fn refuse(
    fault: Fault,
    at: usize,
    labels: &mut [Label],
    edges: &mut [u8],
) -> Result<usize, ReadError>
    requires { (length labels.old ≡ 64) × (length edges.old ≡ 4096) }
    ensures { reading_of result labels.new edges.new ≡ refuse_at (fault_number fault) at }
{
    labels.fill(0);
    edges.fill(0);
    Err(ReadError::Faulty(fault, at))
}

// The end, with the bytes from the place `at` on after it.
pub fn finish(
    bytes: &[u8],
    at: usize,
    order: usize,
    labels: &mut [Label],
    edges: &mut [u8],
) -> Result<usize, ReadError>
    requires { (length labels.old ≡ 64) × (length edges.old ≡ 4096) × (at ≤ length bytes.now) }
    ensures { reading_of result labels.new edges.new
        ≡ finished (graph order labels.old edges.old) at (drop at bytes.now) }
{
    if at < bytes.len() {
        return refuse(Fault::TrailingBytes, at, labels, edges);
    }
    Ok(order)
}

// All commands of a file that opens as its edition does, into tables that are all 0.
pub fn read_commands(
    from: Edition,
    to: Edition,
    bytes: &[u8],
    labels: &mut [Label],
    edges: &mut [u8],
) -> Result<usize, ReadError>
    requires { (labels.old ≡ replicate 64 0) × (edges.old ≡ replicate 4096 0) × (opening_width from ≤ length bytes.now) }
    ensures { reading_of result labels.new edges.new
        ≡ read_at from to empty_graph (opening_width from) (drop (opening_width from) bytes.now) }
{
    let mut order = 0;
    let mut reader = Reader::new(bytes, from.opening_width(), from);
    // a turn makes the next reader, so there is nothing to go through by `for`
    loop {
        let command = reader.next();
        match commands::apply(to, command, order, labels, edges) {
            Ok(Some(grown)) => {
                order = grown;
                reader = reader.moved(command);
            }
            Ok(None) => {
                return finish(bytes, reader.at + 1, order, labels, edges);
            }
            Err(fault) => {
                return refuse(fault, reader.at, labels, edges);
            }
        }
    }
}

// A whole file, into tables that are all 0.
#[tactic(auto, unfolding(crate::specs::Reading::read_file))]
pub fn read_file(
    from: Edition,
    to: Edition,
    bytes: &[u8],
    labels: &mut [Label],
    edges: &mut [u8],
) -> Result<usize, ReadError>
    requires { (labels.old ≡ replicate 64 0) × (edges.old ≡ replicate 4096 0) }
    ensures { reading_of result labels.new edges.new ≡ read_file from to bytes.now }
{
    match from.judge_opening(bytes) {
        Ok(()) => read_commands(from, to, bytes, labels, edges),
        Err(fault) => Err(ReadError::Faulty(fault, 0)),
    }
}
