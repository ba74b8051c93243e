// The checkpoint of a search, and the test of its shape for two graphs, a list of substitutes and one of the two searches.

#![tactic(auto)]

mod shape;

ghost use Rattle.std.specs.Prelude.{◌≡◌};
ghost use Rattle.problem.specs.Lent.{lent};
ghost use Rattle.checkpoint.specs.declared.ShapeError.TheVariants.{Flawed as OfProblem};
ghost use Rattle.checkpoint.specs.Checkpoints.{fresh_checkpoint};
ghost use Rattle.checkpoint.specs.Checking.{checkpoint_answer};
ghost use Rattle.checkpoint.specs.Answers.{shape_refusal, shape_answer};

use answers::Refusal;
use graph::MAX_ORDER;
use problem::{Problem, ProblemFlaw};

// Why a checkpoint can't be gone on with.
#[derive(Clone, Copy, Debug, PartialEq, Eq)]
pub enum ShapeError {
    Flawed(ProblemFlaw),
    OutOfShape,
}

impl Refusal for ShapeError {
    ghost says = { shape_refusal };

    fn number(self) -> u8 {
        match self {
            ShapeError::Flawed(flaw) => flaw.number(),
            ShapeError::OutOfShape => 14,
        }
    }

    fn place(self) -> usize {
        0
    }
}

impl From<ProblemFlaw> for ShapeError {
    ghost from_gives = { λ flaw r. r ≡ OfProblem flaw };

    fn from(flaw: ProblemFlaw) -> ShapeError {
        ShapeError::Flawed(flaw)
    }
}

// 01 calls a checkpoint a bookmark, the minimum a floor, the incumbent the held matching.
// `holds` and the incumbent's bytes stand beside each other: 01 asks that unused bytes are 0, and a checkpoint where they are not is refused (`rest_fits`).
#[derive(Clone, Copy)]
pub struct Checkpoint {
    pub minimum: u8,
    pub steps: u64,
    pub depth: usize,
    pub path: [u8; MAX_ORDER],
    pub finished: bool,
    pub holds: bool,
    pub incumbent: [u8; MAX_ORDER],
}

impl Checkpoint {
    // A search that has not begun.
    pub fn fresh(minimum: u8) -> Checkpoint
        ensures { result ≡ fresh_checkpoint minimum }
    {
        Checkpoint {
            minimum,
            steps: 0,
            depth: 0,
            path: [0u8; MAX_ORDER],
            finished: false,
            holds: false,
            incumbent: [0u8; MAX_ORDER],
        }
    }

    // Whether it is in shape for the two graphs, the substitutes and the search, the first or the connected one.
    pub fn check<'a>(self, problem: Problem<'a>, connected: bool) -> Result<(), ShapeError>
        ensures { shape_answer result ≡ checkpoint_answer connected (lent problem.entry) self }
    {
        let order = problem.old.order;
        let rows = shape::rows(order);
        let entries = shape::filled(self.path, self.depth);
        // where nothing is held these bytes are checked all the same, and `in_shape` does not ask what was found
        let incumbent = self.incumbent;
        let (reached, held) = mapping::check_mappings(
            problem,
            &entries[..rows],
            &incumbent[..rows],
        )?;
        if !self.in_shape(order, reached, held) {
            return Err(ShapeError::OutOfShape);
        }
        if !self.held_admitted(connected, problem.old.edges, rows) {
            return Err(ShapeError::OutOfShape);
        }
        Ok(())
    }
}
