// A sound graph written as graph bytes into a lent buffer, and graph bytes moved from one edition to the other; and, in proofs/, that reading what is written
// gives the graph back.

#![tactic(auto)]

mod mover;
mod writer;

ghost use Rattle.std.specs.Prelude.{◌≡◌};
ghost use Rattle.graph.specs.Lent.{lent_graph};
ghost use Rattle.graph_writer.specs.declared.WriteError.TheVariants.{Flawed};
ghost use Rattle.graph_writer.specs.Answers.{write_refusal, move_refusal};
ghost use Rattle.graph_writer.specs.Writing.{writing_of, writing};
ghost use Rattle.graph_writer.specs.Moving.{moving_of, moving};

use answers::Refusal;
use graph::{Flaw, Graph};
use graph_reader::{Edition, Fault, ReadError};

// Why a graph was not written.
#[derive(Clone, Copy, Debug, PartialEq, Eq)]
pub enum WriteError {
    Flawed(Flaw),
    TooShort,
}

impl From<Flaw> for WriteError {
    ghost from_gives = { λ flaw error. error ≡ Flawed flaw };

    fn from(flaw: Flaw) -> WriteError {
        WriteError::Flawed(flaw)
    }
}

impl Refusal for WriteError {
    ghost says = { write_refusal };

    fn number(self) -> u8 {
        match self {
            WriteError::Flawed(flaw) => flaw.number(),
            WriteError::TooShort => 13,
        }
    }

    fn place(self) -> usize {
        0
    }
}

// Why a file was not moved: the reader's fault, with its place, or no room.
#[derive(Clone, Copy, Debug, PartialEq, Eq)]
pub enum MoveError {
    Unreadable(Fault, usize),
    TooShort,
}

impl Refusal for MoveError {
    ghost says = { move_refusal };

    fn number(self) -> u8 {
        match self {
            MoveError::Unreadable(fault, at) => ReadError::Faulty(fault, at).number(),
            MoveError::TooShort => 13,
        }
    }

    fn place(self) -> usize {
        match self {
            MoveError::Unreadable(_, at) => at,
            MoveError::TooShort => 0,
        }
    }
}

// Writes a sound graph's bytes to the front of `out`: how many they are.
pub fn write_graph(graph: Graph<'_>, out: &mut [u8]) -> Result<usize, WriteError>
    ensures { writing_of result out.new ≡ writing (lent_graph graph.entry) out.old }
{
    graph.check()?;
    writer::write_sound(Edition::Two, graph, out).ok_or(WriteError::TooShort)
}

// Moves a file of edition 1 to edition 2. 02 asks for this and for the way back; what both do is `move_file`.
pub fn to_edition_2(bytes: &[u8], out: &mut [u8]) -> Result<usize, MoveError>
    ensures { moving_of result out.new ≡ moving Edition.One Edition.Two bytes.now out.old }
{
    mover::move_file(Edition::One, Edition::Two, bytes, out)
}

// Moves a file of edition 2 back to edition 1, where every label fits a byte.
pub fn to_edition_1(bytes: &[u8], out: &mut [u8]) -> Result<usize, MoveError>
    ensures { moving_of result out.new ≡ moving Edition.Two Edition.One bytes.now out.old }
{
    mover::move_file(Edition::Two, Edition::One, bytes, out)
}
