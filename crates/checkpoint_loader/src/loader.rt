// The checkpoint that bytes in the form say.

ghost use Rattle.std.specs.Prelude.{◌≡◌, None, ◌+◌, ◌*◌, ◌≤◌, length};
ghost use Rattle.checkpoint.specs.Checkpoints.{padded};
ghost use Rattle.checkpoint_loader.specs.Form.{form_fault};
ghost use Rattle.checkpoint_loader.specs.Loading.{entries, said};

use checkpoint::Checkpoint;
use checkpoint_saver::HEADER;
use graph::MAX_ORDER;

// The `k` entries from the place `from` on, without their marks: by place, as `entries` says them.
fn read_entries(bytes: &[u8], from: usize, k: usize) -> [u8; MAX_ORDER]
    requires { (k ≤ 64) × (from + 2 * k ≤ length bytes.now) }
    ensures { result ≡ padded (entries bytes.now from k) }
{
    let mut list = [0u8; MAX_ORDER];
    for i in 0..k {
        list[i] = bytes[from + 2 * i + 1];
    }
    list
}

pub fn read_formed(order: usize, bytes: &[u8]) -> Checkpoint
    requires { (order ≤ 64) × (form_fault order bytes.now ≡ None) }
    ensures { result ≡ said order bytes.now }
{
    let state = bytes[12];
    let holds = state % 2 == 1;
    let entries = if holds { order } else { 0 };
    let depth = (bytes.len() - (HEADER + 1 + 2 * entries)) / 2;
    Checkpoint {
        minimum: bytes[1],
        steps: little_endian::load(&bytes[3..]),
        depth,
        path: read_entries(bytes, HEADER, depth),
        finished: 2 <= state,
        holds,
        incumbent: read_entries(bytes, HEADER + 2 * depth, entries),
    }
}
