// Graph bytes of either edition read into two lent tables, command by command.

#![tactic(auto)]

mod commands;
mod cursor;
mod editions;
mod reader;

ghost use Rattle.std.specs.Prelude.{◌≡◌};
ghost use Rattle.graph_reader.specs.Answers.{read_refusal};
ghost use Rattle.graph_reader.specs.Reading.{reading_of, reading_edition, reading};

use answers::Refusal;
use graph::{EDGE_BYTES, Label, MAX_ORDER};

// How graph bytes are written: the first edition's labels take one byte, the second's two.
#[derive(Clone, Copy, Debug, PartialEq, Eq)]
pub enum Edition {
    One,
    Two,
}

// Why graph bytes do not begin as they should, or a command or a byte after the end cannot stand where it does.
#[derive(Clone, Copy, Debug, PartialEq, Eq)]
pub enum Fault {
    Truncated,
    UnknownCommand,
    ZeroLabel,
    TooManyVertices,
    MissingVertex,
    NullEdge,
    RepeatedEdge,
    TrailingBytes,
    OtherEdition,
    WideLabel,
}

// Why graph bytes were refused: the tables do not fit, or a fault, with its place.
#[derive(Clone, Copy, Debug, PartialEq, Eq)]
pub enum ReadError {
    Tables,
    Faulty(Fault, usize),
}

impl Refusal for ReadError {
    ghost says = { read_refusal };

    fn number(self) -> u8 {
        match self {
            ReadError::Tables => 10,
            ReadError::Faulty(fault, _) => match fault {
                Fault::Truncated => 1,
                Fault::UnknownCommand => 2,
                Fault::ZeroLabel => 3,
                Fault::TooManyVertices => 4,
                Fault::MissingVertex => 5,
                Fault::NullEdge => 7,
                Fault::RepeatedEdge => 8,
                Fault::TrailingBytes => 9,
                Fault::OtherEdition => 27,
                Fault::WideLabel => 28,
            },
        }
    }

    fn place(self) -> usize {
        match self {
            ReadError::Tables => 0,
            ReadError::Faulty(_, at) => at,
        }
    }
}

// Reads graph bytes of the edition `from` into the two tables, for a graph that is to fit the edition `to`: the graph's order.
// The tables are slices of any length: refusal 10 tells of those that do not fit.
#[tactic(auto, unfolding(crate::specs::Reading::reading_edition))]
pub fn read_edition(
    from: Edition,
    to: Edition,
    bytes: &[u8],
    labels: &mut [Label],
    edges: &mut [u8],
) -> Result<usize, ReadError>
    ensures { reading_of result labels.new edges.new ≡ reading_edition from to labels.old edges.old bytes.now }
{
    if labels.len() != MAX_ORDER || edges.len() != EDGE_BYTES {
        return Err(ReadError::Tables);
    }
    labels.fill(0);
    edges.fill(0);
    reader::read_file(from, to, bytes, labels, edges)
}

// Reads graph bytes into the two tables: the graph's order.
#[tactic(auto, unfolding(crate::specs::Reading::reading))]
pub fn read_graph(bytes: &[u8], labels: &mut [Label], edges: &mut [u8]) -> Result<usize, ReadError>
    ensures { reading_of result labels.new edges.new ≡ reading labels.old edges.old bytes.now }
{
    read_edition(Edition::Two, Edition::Two, bytes, labels, edges)
}
