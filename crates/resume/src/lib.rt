// The call of either search on a checkpoint that the caller lends: thin functions over `search::search`, which takes the checkpoint by value.

#![tactic(auto)]

ghost use Rattle.std.specs.Prelude.{◌≡◌};
ghost use Rattle.problem.specs.Lent.{lent};
ghost use Rattle.search.specs.Call.{search_call};
ghost use Rattle.checkpoint.specs.Checkpoints.{fresh_checkpoint};
ghost use Rattle.search.specs.Answers.{called_of};
ghost use Rattle.resume.specs.Lent.{lent_call};

use checkpoint::Checkpoint;
use problem::Problem;
use search::{SearchError, Searched};

// One search call: the lent checkpoint is advanced in place, and the answer is returned. A refused call changes nothing.
pub fn resume<'a>(
    problem: Problem<'a>,
    connected: bool,
    checkpoint: &mut Checkpoint,
    budget: u64,
    workspace: &mut [u64],
) -> Result<usize, SearchError>
    ensures { lent_call result checkpoint.new workspace.new
        ≡ search_call connected (lent problem.entry) checkpoint.old budget workspace.old }
{
    let called = search::search(problem, connected, *checkpoint, budget, workspace);
    *checkpoint = called.checkpoint;
    called.answer
}

// The first call of a search, with no checkpoint to lend yet: from a fresh one, which comes back beside the answer.
pub fn start<'a>(
    problem: Problem<'a>,
    connected: bool,
    minimum: u8,
    budget: u64,
    workspace: &mut [u64],
) -> Searched
    ensures { called_of result workspace.new
        ≡ search_call connected (lent problem.entry) (fresh_checkpoint minimum) budget workspace.old }
{
    let mut checkpoint = Checkpoint::fresh(minimum);
    let answer = resume(problem, connected, &mut checkpoint, budget, workspace);
    Searched { answer, checkpoint }
}
