// The bytes of a checkpoint, written to the front of a buffer.

ghost use Rattle.std.specs.Prelude.{◌≡◌, ◌+◌, ◌*◌, ◌≤◌, length};
ghost use Rattle.std.proofs.lemmas.List.Edits.{sets};
ghost use Rattle.answers.specs.Output.{fill};
ghost use Rattle.checkpoint_saver.specs.Saving.{header_bytes, entry_bytes, checkpoint_bytes, saving_of};

use super::{
    END, HEADER, INCUMBENT_MARK, MINIMUM_MARK, PATH_MARK, STATE_MARK, STEPS_MARK, SaveError,
};
use checkpoint::Checkpoint;

pub fn put_header(checkpoint: &Checkpoint, out: &mut [u8])
    requires { 13 ≤ length out.old }
    ensures { out.new ≡ sets out.old 0 (header_bytes checkpoint.now) }
{
    out[0] = MINIMUM_MARK;
    out[1] = checkpoint.minimum;
    out[2] = STEPS_MARK;
    out[3..11].copy_from_slice(&little_endian::store(checkpoint.steps));
    out[11] = STATE_MARK;
    out[12] = super::state_byte(checkpoint.finished, checkpoint.holds);
}

// The entries, each after its mark, from the place `start` on: a `Writer` writes as far as there is room, and a checkpoint is written whole or not at all.
pub fn put_entries(mark: u8, entries: &[u8], out: &mut [u8], start: usize)
    requires { start + 2 * length entries.now ≤ length out.old }
    ensures { out.new ≡ sets out.old start (entry_bytes mark entries.now (length entries.now)) }
{
    let mut at = start;
    for entry in entries {
        out[at] = mark;
        out[at + 1] = *entry;
        at += 2;
    }
}

// The bytes of a checkpoint that is known to be in shape, where `out` has room for them.
pub fn save_in_shape(
    order: usize,
    checkpoint: &Checkpoint,
    out: &mut [u8],
) -> Result<usize, SaveError>
    requires { (order ≤ 64) × (checkpoint.now.depth ≤ 64) × (length checkpoint.now.path ≡ 64) × (length checkpoint.now.incumbent ≡ 64) }
    ensures { saving_of result out.new ≡ fill (checkpoint_bytes order checkpoint.now) out.old }
{
    let held = if checkpoint.holds { order } else { 0 };
    let path = &checkpoint.path[..checkpoint.depth];
    let incumbent = &checkpoint.incumbent[..held];
    let middle = HEADER + 2 * path.len();
    let end = middle + 2 * incumbent.len();
    let total = end + 1;
    if out.len() < total {
        return Err(SaveError::TooShort);
    }
    put_header(checkpoint, out);
    put_entries(PATH_MARK, path, out, HEADER);
    put_entries(INCUMBENT_MARK, incumbent, out, middle);
    out[end] = END;
    Ok(total)
}
