// The search for the largest common subgraph of two graphs, or for the largest connected one: resumable calls on a checkpoint.

#![tactic(auto)]

mod ceiling;
mod tables;
mod walk;
mod words;

ghost use Rattle.std.specs.Prelude.{◌≡◌, T, length};
ghost use Rattle.problem.specs.Problem.{SoundProblem};
ghost use Rattle.problem.specs.Lent.{lent};
ghost use Rattle.checkpoint.specs.Checkpoints.{InShape};
ghost use Rattle.search.specs.Call.{advance as advanced, count_fits, search_call};
ghost use Rattle.search.specs.Answers.{called_of, search_refusal};

use answers::Refusal;
use checkpoint::{Checkpoint, ShapeError};
use graph::MAX_ORDER;
use problem::Problem;
use tables::Tables;

// How many words of 64 bits a call needs.
pub const WORDS: usize = 4160;

// Why a search call is refused.
#[derive(Clone, Copy, Debug, PartialEq, Eq)]
pub enum SearchError {
    Shape(ShapeError),
    FewWords,
    ManySteps,
}

impl Refusal for SearchError {
    ghost says = { search_refusal };

    fn number(self) -> u8 {
        match self {
            SearchError::Shape(error) => error.number(),
            SearchError::FewWords => 15,
            SearchError::ManySteps => 16,
        }
    }

    fn place(self) -> usize {
        0
    }
}

// The answer, the ceiling or a refusal, and the checkpoint after the call, which a refusal leaves as it was: it stands beside the answer, since 01 gives it
// after a refusal too.
#[derive(Clone, Copy)]
pub struct Searched {
    pub answer: Result<usize, SearchError>,
    pub checkpoint: Checkpoint,
}

// Whether the steps after the call would still count in 64 bits; a finished search makes none.
fn count_fits(checkpoint: Checkpoint, budget: u64) -> bool
    ensures { result ≡ count_fits checkpoint budget }
{
    checkpoint.finished || budget <= u64::MAX - checkpoint.steps
}

// The visits of an accepted call, from the words of the root on, and the ceiling there.
fn advance<'a>(
    problem: Problem<'a>,
    connected: bool,
    checkpoint: Checkpoint,
    budget: u64,
    workspace: &mut [u64],
) -> Searched
    requires sound_problem { SoundProblem (lent problem) }
    requires in_shape { InShape connected (lent problem) checkpoint }
    requires workspace_len { (length workspace.old ≡ 4160) × T (count_fits checkpoint budget) }
    ensures { called_of result workspace.new ≡ advanced connected (lent problem.entry) checkpoint budget workspace.old }
{
    let old = problem.old;
    let mut masks = [0u64; words::MASKS];
    words::fill_masks(problem.new.order, problem.new.edges, &mut masks);
    let allowed = problem.allowed_sets();
    words::root_words(old.order, &allowed, workspace);
    let first = words::all_first(old.order, old.edges);
    let neighbours = walk::neighbours_for(connected, old.edges);
    let numbers = walk::row_numbers();
    let tables = Tables {
        connected,
        order: old.order,
        edges: old.edges,
        masks: &masks,
        first: &first,
        neighbours: &neighbours,
        numbers: &numbers,
    };
    let mut trail = tables::no_pairs();
    let start = walk::start(checkpoint, tables, &mut trail, workspace);
    let end = walk::run(start, tables, budget, &mut trail, workspace);
    let top = ceiling::ceiling(end, tables, workspace);
    words::clear_words(workspace);
    let left = end.checkpoint;
    Searched {
        answer: Ok(top),
        checkpoint: left,
    }
}

// One call of the first search, or of the connected one: the checkpoint is advanced by as many visits as the budget says, and the ceiling is returned.
pub fn search<'a>(
    problem: Problem<'a>,
    connected: bool,
    checkpoint: Checkpoint,
    budget: u64,
    workspace: &mut [u64],
) -> Searched
    ensures { called_of result workspace.new ≡ search_call connected (lent problem.entry) checkpoint budget workspace.old }
{
    if let Err(error) = checkpoint.check(problem, connected) {
        return Searched {
            answer: Err(SearchError::Shape(error)),
            checkpoint,
        };
    }
    if workspace.len() < WORDS {
        return Searched {
            answer: Err(SearchError::FewWords),
            checkpoint,
        };
    }
    if !count_fits(checkpoint, budget) {
        return Searched {
            answer: Err(SearchError::ManySteps),
            checkpoint,
        };
    }
    // only these words are lent on, so later words stay untouched
    advance(
        problem,
        connected,
        checkpoint,
        budget,
        &mut workspace[..WORDS],
    )
}
