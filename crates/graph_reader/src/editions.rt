// Where the two editions of graph bytes differ.

ghost use Rattle.std.specs.Prelude.{◌≡◌, ◌≤◌, length};
ghost use Rattle.graph_reader.specs.Editions.{opening_width, vertex_code, vertex_width, vertex_label, greatest_label};
ghost use Rattle.graph_reader.specs.Answers.{opening_answer};
ghost use Rattle.graph_reader.specs.Reading.{opens};

use super::{Edition, Fault};
use graph::Label;

impl Edition {
    // How a file begins: as its edition does, or with a fault.
    #[tactic(auto, unfolding(crate::specs::Reading::opens))]
    pub fn judge_opening(self, bytes: &[u8]) -> Result<(), Fault>
        ensures { opening_answer result ≡ opens self bytes.now }
    {
        match (self, bytes) {
            (Edition::One, _) | (Edition::Two, [4, 2, ..]) => Ok(()),
            (Edition::Two, [] | [4]) => Err(Fault::Truncated),
            (Edition::Two, _) => Err(Fault::OtherEdition),
        }
    }

    // Where the first command begins.
    pub fn opening_width(self) -> usize
        ensures { result ≡ opening_width self }
    {
        match self {
            Edition::One => 0,
            Edition::Two => 2,
        }
    }

    pub fn vertex_code(self) -> u8
        ensures { result ≡ vertex_code self }
    {
        match self {
            Edition::One => 1,
            Edition::Two => 3,
        }
    }

    pub fn vertex_width(self) -> usize
        ensures { result ≡ vertex_width self }
    {
        match self {
            Edition::One => 2,
            Edition::Two => 3,
        }
    }

    // The label of the whole vertex command at the front of `rest`.
    pub(crate) fn whole_label(self, rest: &[u8]) -> Label
        requires { vertex_width self ≤ length rest.now }
        ensures { result ≡ vertex_label self rest.now }
    {
        match self {
            Edition::One => rest[1] as Label,
            Edition::Two => little_endian::join_two(rest[1], rest[2]),
        }
    }

    // The label of a vertex command, whole or cut off: a byte that is not there counts as 0. `decode`, which has tested the length, asks `whole_label`.
    pub fn vertex_label(self, rest: &[u8]) -> Label
        ensures { result ≡ vertex_label self rest.now }
    {
        match rest {
            [] | [_] => 0,
            [_, low] => *low as Label,
            _ => self.whole_label(rest),
        }
    }

    pub fn greatest_label(self) -> Label
        ensures { result ≡ greatest_label self }
    {
        match self {
            Edition::One => 255,
            Edition::Two => 65535,
        }
    }
}
