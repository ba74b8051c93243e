// Eight bytes of the edge table joined into one word (02, U3).

ghost use Rattle.std.specs.Prelude.{◌≡◌, ◌+◌, ◌*◌, ◌≤◌, ◌<◌, length};
ghost use Rattle.little_endian.specs.LittleEndian.{from_little};
ghost use Rattle.graph.specs.EdgeRows.{eight_by};

use super::EDGE_BYTES;

// How many bytes a word has.
pub const WORD: usize = 8;

// The bytes of a row are 1 apart, those of a column 64.
pub fn eight(edges: &[u8; EDGE_BYTES], from: usize, step: usize) -> u64
    requires { (step ≤ 64) × (from + step * 7 < 4096) }
    ensures { result ≡ from_little (eight_by step edges.now from) }
{
    little_endian::join([
        edges[from],
        edges[from + step],
        edges[from + step * 2],
        edges[from + step * 3],
        edges[from + step * 4],
        edges[from + step * 5],
        edges[from + step * 6],
        edges[from + step * 7],
    ])
}
