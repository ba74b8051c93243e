// Checkpoints saved as bytes into a lent buffer.

#![tactic(auto)]

mod saver;

ghost use Rattle.std.specs.Prelude.{◌≡◌};
ghost use Rattle.problem.specs.Lent.{lent};
ghost use Rattle.checkpoint_saver.specs.declared.SaveError.TheVariants.{Shape as OfShape};
ghost use Rattle.checkpoint_saver.specs.Saving.{state_byte, saving_of, saving};
ghost use Rattle.checkpoint_saver.specs.Answers.{save_refusal};

use answers::Refusal;
use checkpoint::{Checkpoint, ShapeError};
use problem::Problem;

// The marks: before the minimum, the steps, the state, each entry of the path and each of the incumbent; and the end.
pub const MINIMUM_MARK: u8 = 16;

pub const STEPS_MARK: u8 = 17;

pub const STATE_MARK: u8 = 18;

pub const PATH_MARK: u8 = 19;

pub const INCUMBENT_MARK: u8 = 20;

pub const END: u8 = 0;

// How many bytes stand before the entries.
pub const HEADER: usize = 13;

// Why no checkpoint was saved.
#[derive(Clone, Copy, Debug, PartialEq, Eq)]
pub enum SaveError {
    Shape(ShapeError),
    TooShort,
}

impl Refusal for SaveError {
    ghost says = { save_refusal };

    fn number(self) -> u8 {
        match self {
            SaveError::Shape(error) => error.number(),
            SaveError::TooShort => 13,
        }
    }

    fn place(self) -> usize {
        0
    }
}

impl From<ShapeError> for SaveError {
    ghost from_gives = { λ error r. r ≡ OfShape error };

    fn from(error: ShapeError) -> SaveError {
        SaveError::Shape(error)
    }
}

// The byte of a checkpoint's state.
pub fn state_byte(finished: bool, holds: bool) -> u8
    ensures { result ≡ state_byte finished holds }
{
    2 * u8::from(finished) + u8::from(holds)
}

// Writes the bytes of a checkpoint of the first search, or of the connected one, to the front of `out`, and returns how many they are.
pub fn save_checkpoint<'a>(
    problem: Problem<'a>,
    connected: bool,
    checkpoint: Checkpoint,
    out: &mut [u8],
) -> Result<usize, SaveError>
    ensures { saving_of result out.new ≡ saving connected (lent problem.entry) checkpoint out.old }
{
    checkpoint.check(problem, connected)?;
    saver::save_in_shape(problem.old.order, &checkpoint, out)
}
