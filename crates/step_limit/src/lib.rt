// How many visits a search can take at most, told from the orders of the two graphs alone.

#![tactic(auto)]

mod table;

ghost use Rattle.std.specs.Prelude.{◌≡◌};
ghost use Rattle.step_limit.specs.StepLimits.{CappedRecurrence, foretold};
ghost use Rattle.step_limit.specs.Answers.{limit_refusal, limit_answer_of};

use answers::Refusal;
use graph::MAX_ORDER;

// A graph has one of so many orders.
const ORDERS: usize = MAX_ORDER + 1;

const ENTRIES: usize = ORDERS * ORDERS;

// Why no limit is told.
#[derive(Clone, Copy, Debug, PartialEq, Eq)]
pub enum LimitError {
    ManyVertices,
}

impl Refusal for LimitError {
    ghost says = { limit_refusal };

    fn number(self) -> u8 {
        match self {
            LimitError::ManyVertices => 26,
        }
    }

    fn place(self) -> usize {
        0
    }
}

// The whole table.
fn whole_table() -> [u64; ENTRIES]
    ensures { CappedRecurrence result }
{
    table::STEP_LIMITS
}

// At most so many visits, or, at 2^64 - 1, that many or more.
pub fn step_limit(new_order: usize, old_order: usize) -> Result<u64, LimitError>
    ensures { limit_answer_of result ≡ foretold new_order old_order }
{
    if MAX_ORDER < new_order || MAX_ORDER < old_order {
        return Err(LimitError::ManyVertices);
    }
    let limits = whole_table();
    Ok(limits[ORDERS * old_order + new_order])
}
