// A search call over words of its own, so that the lent ones are untouched.

ghost use Rattle.std.specs.Prelude.{◌≡◌, List, ℕ, length};
ghost use Rattle.problem.specs.Lent.{lent};
ghost use Rattle.search.specs.Call.{search_call};
ghost use Rattle.replies.specs.Apart.{FoundBy};

use checkpoint::Checkpoint;
use problem::Problem;
use search::{Searched, WORDS};

// The search call as over any lent workspace of so many words: too few of them are refused.
// `descent_replies` has the same of a descent call; one function over the call would have to state both contracts again, and is longer than the two.
pub fn search_apart<'a>(
    problem: Problem<'a>,
    connected: bool,
    checkpoint: Checkpoint,
    budget: u64,
    words: usize,
) -> Searched
    ensures { (workspace : List ℕ) → length workspace ≡ words
        → FoundBy result (search_call connected (lent problem.entry) checkpoint budget workspace) }
{
    let mut own = [0u64; WORDS];
    let used = super::words_used(words);
    search::search(problem, connected, checkpoint, budget, &mut own[..used])
}
