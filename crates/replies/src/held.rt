// The mapping that is held, by a checkpoint or at the end of clique branching, stored and counted.

ghost use Rattle.std.specs.Prelude.{◌≡◌, cond, ◌≤◌, length};
ghost use Rattle.answers.specs.Output.{overwrite};
ghost use Rattle.mapping.specs.Common.{size};

// How many entries are held: the old order, or none. The flag is a checkpoint's own, which stands beside the entries.
pub fn entries_held(holds: bool, order: usize) -> usize
    ensures { result ≡ cond holds order 0 }
{
    if holds { order } else { 0 }
}

// The entries, to the front of `out`, and how many of them are pairs.
pub fn put_entries(entries: &[u8], out: &mut [u8]) -> u64
    requires { length entries.now ≤ length out.old }
    ensures size { result ≡ size entries.now }
    ensures stored { out.new ≡ overwrite entries.now out.old }
{
    out[..entries.len()].copy_from_slice(entries);
    mapping::mapping_size(entries) as u64
}
