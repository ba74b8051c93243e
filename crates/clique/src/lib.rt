// Clique branching: the largest common subgraph of two graphs by the search of document 004, for old graphs of at most eight vertices.

#![tactic(auto)]

mod branching;
mod candidates;

ghost use Rattle.std.specs.Prelude.{◌≡◌};
ghost use Rattle.problem.specs.Lent.{lent};
ghost use Rattle.clique.specs.declared.CliqueError.TheVariants.{Flawed as OfProblem};
ghost use Rattle.clique.specs.Answers.{clique_refusal, called_of};
ghost use Rattle.clique.specs.Call.{clique_call};

use answers::Refusal;
use candidates::Allowed;
use problem::{Problem, ProblemFlaw};

// The greatest old order: the search has no bound test and no budget.
pub const MAX_OLD: usize = 8;

// Why a call is refused.
#[derive(Clone, Copy, Debug, PartialEq, Eq)]
pub enum CliqueError {
    Flawed(ProblemFlaw),
    ManyVertices,
}

impl Refusal for CliqueError {
    ghost says = { clique_refusal };

    fn number(self) -> u8 {
        match self {
            CliqueError::Flawed(flaw) => flaw.number(),
            CliqueError::ManyVertices => 25,
        }
    }

    fn place(self) -> usize {
        0
    }
}

impl From<ProblemFlaw> for CliqueError {
    ghost from_gives = { λ flaw r. r ≡ OfProblem flaw };

    fn from(flaw: ProblemFlaw) -> CliqueError {
        CliqueError::Flawed(flaw)
    }
}

// The first of the largest common subgraphs of at least `minimum` pairs, under the substitutes, if there is one: one entry for each old vertex, and 0 after
// them.
pub fn branch<'a>(problem: Problem<'a>, minimum: u8) -> Result<Option<[u8; MAX_OLD]>, CliqueError>
    ensures { called_of result ≡ clique_call (lent problem.entry) minimum }
{
    problem.check()?;
    if MAX_OLD < problem.old.order {
        return Err(CliqueError::ManyVertices);
    }
    let sets = problem.allowed_sets();
    let allowed = Allowed {
        problem,
        sets: &sets,
    };
    let held = allowed.branch(minimum);
    Ok(held.mapping)
}
