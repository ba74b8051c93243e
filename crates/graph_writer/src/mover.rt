// Graph bytes of one edition read, and written in the other.

ghost use Rattle.std.specs.Prelude.{◌≡◌};
ghost use Rattle.graph_writer.specs.Moving.{moving_of, moving};

use super::{MoveError, writer};
use graph::{EDGE_BYTES, Graph, Label, MAX_ORDER};
use graph_reader::{Edition, ReadError};

pub fn move_file(
    from: Edition,
    to: Edition,
    bytes: &[u8],
    out: &mut [u8],
) -> Result<usize, MoveError>
    ensures { moving_of result out.new ≡ moving from to bytes.now out.old }
{
    let mut labels = [0 as Label; MAX_ORDER];
    let mut edges = [0u8; EDGE_BYTES];
    match graph_reader::read_edition(from, to, bytes, &mut labels, &mut edges) {
        Ok(order) => {
            let graph = Graph {
                order,
                labels: &labels,
                edges: &edges,
            };
            writer::write_sound(to, graph, out).ok_or(MoveError::TooShort)
        }
        Err(ReadError::Faulty(fault, at)) => Err(MoveError::Unreadable(fault, at)),
        // Both tables have their lengths.
        Err(ReadError::Tables) => unreachable!(),
    }
}
