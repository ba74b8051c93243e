// Checkpoints loaded from bytes.

#![tactic(auto)]

mod form;
mod loader;

ghost use Rattle.std.specs.Prelude.{◌≡◌};
ghost use Rattle.problem.specs.Lent.{lent};
ghost use Rattle.checkpoint.specs.declared.ShapeError.TheVariants.{Flawed as OfProblem};
ghost use Rattle.checkpoint_loader.specs.declared.LoadError.TheVariants.{Shape as OfShape};
ghost use Rattle.checkpoint_loader.specs.Loading.{loading_of, refuse as refused, loading};
ghost use Rattle.checkpoint_loader.specs.Answers.{load_refusal};

use answers::Refusal;
use checkpoint::{Checkpoint, ShapeError};
use problem::{Problem, ProblemFlaw};

// Why no checkpoint was loaded; `Malformed` has the place of the first byte that cannot stand there.
#[derive(Clone, Copy, Debug, PartialEq, Eq)]
pub enum LoadError {
    Shape(ShapeError),
    Malformed(usize),
}

impl Refusal for LoadError {
    ghost says = { load_refusal };

    fn number(self) -> u8 {
        match self {
            LoadError::Shape(error) => error.number(),
            LoadError::Malformed(_) => 17,
        }
    }

    fn place(self) -> usize {
        match self {
            LoadError::Shape(_) => 0,
            LoadError::Malformed(at) => at,
        }
    }
}

impl From<ProblemFlaw> for LoadError {
    ghost from_gives = { λ flaw r. r ≡ OfShape (OfProblem flaw) };

    fn from(flaw: ProblemFlaw) -> LoadError {
        LoadError::Shape(ShapeError::Flawed(flaw))
    }
}

impl From<ShapeError> for LoadError {
    ghost from_gives = { λ error r. r ≡ OfShape error };

    fn from(error: ShapeError) -> LoadError {
        LoadError::Shape(error)
    }
}

// The answer, and the checkpoint that was loaded; the fresh one of minimum 0 after a refusal, so that it stands beside the answer.
#[derive(Clone, Copy)]
pub struct Loaded {
    pub answer: Result<(), LoadError>,
    pub checkpoint: Checkpoint,
}

// A refused load.
fn refuse(error: LoadError) -> Loaded
    ensures { loading_of result ≡ refused (load_refusal error) }
{
    Loaded {
        answer: Err(error),
        checkpoint: Checkpoint::fresh(0),
    }
}

// The checkpoint that the bytes say, if they are in the form and it is in shape for the two graphs, the substitutes and the search.
pub fn load_checkpoint<'a>(problem: Problem<'a>, connected: bool, bytes: &[u8]) -> Loaded
    ensures { loading_of result ≡ loading connected (lent problem.entry) bytes.now }
{
    if let Err(flaw) = problem.check() {
        return refuse(flaw.into());
    }
    let order = problem.old.order;
    if let Some(at) = form::find_fault(order, bytes) {
        return refuse(LoadError::Malformed(at));
    }
    let checkpoint = loader::read_formed(order, bytes);
    match checkpoint.check(problem, connected) {
        Ok(()) => Loaded {
            answer: Ok(()),
            checkpoint,
        },
        Err(error) => refuse(error.into()),
    }
}
