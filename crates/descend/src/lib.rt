// The descent: the search for the largest common subgraph, or for the largest connected one, from the largest conceivable minimum, begun anew one lower
// each time it finishes with nothing held, down to a floor. All visits are made by `search::search`; what a caller keeps is the checkpoint and the floor.

#![tactic(auto)]

ghost use Rattle.std.specs.Prelude.{◌≡◌, ◌≤◌, min, max};
ghost use Rattle.problem.specs.Lent.{lent};
ghost use Rattle.checkpoint.specs.Checkpoints.{state_of};
ghost use Rattle.descend.specs.Descent.{is_exhausted, lowered as lowered_to};
ghost use Rattle.descend.specs.Call.{start_call, descend_call};
ghost use Rattle.descend.specs.Answers.{started_of, descended_of};

use checkpoint::Checkpoint;
use problem::Problem;
use search::{SearchError, Searched, WORDS};

// The answer of a call, the visits that it made, and the checkpoint after it.
#[derive(Clone, Copy)]
pub struct Descended {
    pub answer: Result<usize, SearchError>,
    pub visits: u64,
    pub checkpoint: Checkpoint,
}

// Whether the search is finished with nothing held, above the floor.
fn is_exhausted(floor: u8, checkpoint: Checkpoint) -> bool
    ensures { result ≡ is_exhausted floor checkpoint.minimum checkpoint.finished checkpoint.holds }
{
    checkpoint.finished && !checkpoint.holds && floor < checkpoint.minimum
}

// The ceiling of a descent at a checkpoint, from its search's.
fn lowered(order: usize, checkpoint: Checkpoint, top: usize) -> usize
    requires { order ≤ 64 }
    ensures { result ≡ lowered_to checkpoint.minimum (state_of order checkpoint).incumbent top }
{
    let minimum = checkpoint.minimum as usize;
    if checkpoint.holds {
        let incumbent = checkpoint.incumbent;
        if minimum < mapping::mapping_size(&incumbent[..order]) {
            return top;
        }
    }
    (minimum + 1).min(top)
}

// The largest conceivable minimum, from both orders and the root's upper bound, but not below the floor.
fn first_minimum(old_order: usize, new_order: usize, bound: usize, floor: u8) -> u8
    requires { old_order ≤ 64 }
    ensures { result ≡ max floor (min (min old_order new_order) bound) }
{
    let most = old_order.min(new_order).min(bound);
    (floor as usize).max(most) as u8
}

// The start of a descent: the ceiling there, and the fresh checkpoint of its first minimum.
pub fn start<'a>(problem: Problem<'a>, floor: u8) -> Searched
    ensures { started_of result ≡ start_call (lent problem.entry) floor }
{
    let mut workspace = [0u64; WORDS];
    // from minimum 0, before any visit, a ceiling is one above the root's upper bound
    let root = search::search(problem, false, Checkpoint::fresh(0), 0, &mut workspace);
    match root.answer {
        Ok(top) => {
            let minimum = first_minimum(problem.old.order, problem.new.order, top - 1, floor);
            let checkpoint = Checkpoint::fresh(minimum);
            let own = (minimum as usize).max(top);
            Searched {
                answer: Ok(lowered(problem.old.order, checkpoint, own)),
                checkpoint,
            }
        }
        Err(error) => Searched {
            answer: Err(error),
            checkpoint: Checkpoint::fresh(floor),
        },
    }
}

// One call of a descent: as many visits as the budget says, or until it is done, and the ceiling there. It is done where the checkpoint left is finished.
pub fn descend<'a>(
    problem: Problem<'a>,
    connected: bool,
    floor: u8,
    checkpoint: Checkpoint,
    budget: u64,
    workspace: &mut [u64],
) -> Descended
    ensures { descended_of result workspace.new
        ≡ descend_call connected (lent problem.entry) floor checkpoint budget workspace.old }
{
    let mut at = checkpoint;
    let mut left = budget;
    let mut visits: u64 = 0;
    // a turn makes the next checkpoint, so there is nothing to go through by `for`
    loop {
        let searched = search::search(problem, connected, at, left, workspace);
        let reached = searched.checkpoint;
        let made = reached.steps - at.steps;
        visits += made;
        match searched.answer {
            Ok(top) => {
                if !is_exhausted(floor, reached) {
                    return Descended {
                        answer: Ok(lowered(problem.old.order, reached, top)),
                        visits,
                        checkpoint: reached,
                    };
                }
                at = Checkpoint::fresh(reached.minimum - 1);
                left -= made;
            }
            Err(error) => {
                return Descended {
                    answer: Err(error),
                    visits,
                    checkpoint: reached,
                };
            }
        }
    }
}
