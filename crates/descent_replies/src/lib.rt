// A descent from checkpoint bytes to checkpoint bytes: its start saved, and what a caller outside Rattle gets of a descent call, in numbers.

#![tactic(auto)]

ghost use Rattle.std.specs.Prelude.{◌≡◌, List, ℕ, length};
ghost use Rattle.problem.specs.Lent.{lent};
ghost use Rattle.checkpoint_saver.specs.Saving.{saving_of};
ghost use Rattle.descend.specs.Call.{descend_call};
ghost use Rattle.descent_replies.specs.Apart.{DescendedBy};
ghost use Rattle.descent_replies.specs.DescentReply.{save_start, descent_reply, descend_and_save, descend_bytes};

use checkpoint::Checkpoint;
use checkpoint_saver::SaveError;
use descend::Descended;
use problem::Problem;
use replies::Reply;
use search::WORDS;

// A reply, the ceiling, and the visits made.
#[derive(Clone, Copy, Debug, PartialEq, Eq)]
pub struct DescentNumbers {
    pub reply: Reply,
    pub ceiling: u64,
    pub visits: u64,
}

// The start of a descent, its checkpoint saved to the front of `out`.
pub fn start<'a>(
    problem: Problem<'a>,
    connected: bool,
    floor: u8,
    out: &mut [u8],
) -> Result<usize, SaveError>
    ensures { saving_of result out.new ≡ save_start connected (lent problem.entry) floor out.old }
{
    let started = descend::start(problem, floor);
    let first = started.checkpoint;
    checkpoint_saver::save_checkpoint(problem, connected, first, out)
}

// The descent call as over any lent workspace of so many words: too few of them are refused.
fn descend_apart<'a>(
    problem: Problem<'a>,
    connected: bool,
    floor: u8,
    checkpoint: Checkpoint,
    budget: u64,
    words: usize,
) -> Descended
    ensures { (workspace : List ℕ) → length workspace ≡ words
        → DescendedBy result (descend_call connected (lent problem.entry) floor checkpoint budget workspace) }
{
    let mut own = [0u64; WORDS];
    let used = replies::words_used(words);
    descend::descend(
        problem,
        connected,
        floor,
        checkpoint,
        budget,
        &mut own[..used],
    )
}

// The descent call, and its checkpoint saved; only then does the lent workspace become what the call leaves.
fn descend_and_save<'a>(
    problem: Problem<'a>,
    connected: bool,
    floor: u8,
    checkpoint: Checkpoint,
    budget: u64,
    workspace: &mut [u64],
    next: &mut [u8],
) -> DescentNumbers
    ensures { descent_reply result.reply result.ceiling result.visits workspace.new next.new
        ≡ descend_and_save connected (lent problem.entry) floor checkpoint budget workspace.old next.old }
{
    let lent = workspace.len();
    let descended = descend_apart(problem, connected, floor, checkpoint, budget, lent);
    let reached = descended.checkpoint;
    match descended.answer {
        Ok(ceiling) => {
            match checkpoint_saver::save_checkpoint(problem, connected, reached, next) {
                Ok(count) => {
                    replies::clear_words(workspace);
                    DescentNumbers {
                        reply: Reply::accepted(count as u64),
                        ceiling: ceiling as u64,
                        visits: descended.visits,
                    }
                }
                Err(error) => DescentNumbers {
                    reply: Reply::refused(error),
                    ceiling: 0,
                    visits: 0,
                },
            }
        }
        Err(error) => DescentNumbers {
            reply: Reply::refused(error),
            ceiling: 0,
            visits: 0,
        },
    }
}

// The checkpoint loaded, the descent call on it, and its checkpoint saved to the front of `next`; 270 bytes are always room enough.
pub fn descend<'a>(
    problem: Problem<'a>,
    connected: bool,
    floor: u8,
    bytes: &[u8],
    budget: u64,
    workspace: &mut [u64],
    next: &mut [u8],
) -> DescentNumbers
    ensures { descent_reply result.reply result.ceiling result.visits workspace.new next.new
        ≡ descend_bytes connected (lent problem.entry) floor bytes.now budget workspace.old next.old }
{
    let loaded = checkpoint_loader::load_checkpoint(problem, connected, bytes);
    match loaded.answer {
        Ok(()) => descend_and_save(
            problem,
            connected,
            floor,
            loaded.checkpoint,
            budget,
            workspace,
            next,
        ),
        Err(error) => DescentNumbers {
            reply: Reply::refused(error),
            ceiling: 0,
            visits: 0,
        },
    }
}
