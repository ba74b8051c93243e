// The command reader: the lent graph bytes along with the place of the next command and their edition.

ghost use Rattle.std.specs.Prelude.{◌≡◌, ◌+◌, ◌≤◌, ◌<◌, ◌^◌, length};
ghost use Rattle.graph_reader.specs.Commands.{width as width_of};
ghost use Rattle.graph_reader.specs.Cursor.{command_at, place_after};

use super::commands::Command;
use super::{Edition, commands};

#[derive(Clone, Copy)]
pub struct Reader<'a> {
    pub bytes: &'a [u8],
    pub at: usize,
    pub edition: Edition,
}

impl<'a> Reader<'a> {
    // A reader of the bytes, at a place.
    pub fn new(bytes: &'a [u8], at: usize, edition: Edition) -> Reader<'a>
        ensures { (result.bytes ≡ bytes.entry) × (result.at ≡ at) × (result.edition ≡ edition) }
    {
        Reader { bytes, at, edition }
    }

    // The command at the reader's place: the bytes from there on are handed to the decode.
    pub fn next(self) -> Command
        requires { self.at ≤ length self.bytes.now }
        ensures { result ≡ command_at self.entry.bytes.now self.entry.at self.entry.edition }
    {
        commands::decode(self.edition, &self.bytes[self.at..])
    }

    // The reader past that command.
    pub fn moved(self, command: Command) -> Reader<'a>
        requires { self.at + width_of self.edition command < 2 ^ 64 }
        ensures { (result.bytes ≡ self.entry.bytes) × (result.at ≡ place_after self.entry.at self.entry.edition command) × (result.edition ≡ self.entry.edition) }
    {
        Reader {
            at: self.at + command.width(self.edition),
            ..self
        }
    }
}
