// The test of a checkpoint's shape, clause by clause; the path and the incumbent are tested by the check of a mapping, and the incumbent, in the connected
// search, for hanging together.

ghost use Rattle.std.specs.Prelude.{◌≡◌, not, ◌||◌, ◌++◌, ◌-◌, ◌≤◌, length, take, replicate};
ghost use Rattle.bounded.specs.Below.{all_below};
ghost use Rattle.mapping.specs.Answers.{mapping_outcome};
ghost use Rattle.search_tree.specs.Search.{admits_by};
ghost use Rattle.checkpoint.specs.Checkpoints.{reaches as reaches_to, steps_fit, rest_fits, shape_tests};

use super::Checkpoint;
use graph::MAX_ORDER;
use mapping::{Checked, UNMAPPED};

// The rows that can be lent of 64, whatever the order: an order above 64 is refused by the check that they are lent to.
pub fn rows(order: usize) -> usize
    ensures { (result ≤ 64) × (order ≤ 64 → result ≡ order) }
{
    order.min(MAX_ORDER)
}

// The path's first `depth` entries, and 255 after them: a mapping where every undecided row is left out. It is a common subgraph exactly where
// each path byte is a candidate of its row or 255.
pub fn filled(path: [u8; MAX_ORDER], depth: usize) -> [u8; MAX_ORDER]
    requires { length path ≡ 64 }
    ensures { result ≡ take depth path ++ replicate (64 - depth) 255 }
{
    let mut entries = path;
    for i in depth..MAX_ORDER {
        entries[i] = UNMAPPED;
    }
    entries
}

// Whether a mapping, if it is asked about, is a common subgraph of at least `minimum` pairs.
pub fn reaches(asked: bool, minimum: u8, answer: Checked) -> bool
    ensures { result ≡ (not asked || reaches_to minimum (mapping_outcome answer)) }
{
    if !asked {
        return true;
    }
    match answer {
        Ok(size) => minimum as usize <= size,
        Err(_) => false,
    }
}

impl Checkpoint {
    // Whether what is held in the first `rows` rows (all 64, where more are asked for) hangs together, if anything is held and the search asks for it.
    pub fn held_admitted(self, connected: bool, edges: &[u8], rows: usize) -> bool
        ensures { result ≡ (not self.holds || admits_by connected edges.now (take rows self.incumbent)) }
    {
        let rows = rows.min(MAX_ORDER);
        let incumbent = self.incumbent;
        !self.holds || !connected || connected::is_connected(edges, &incumbent[..rows])
    }

    // Steps are 0 exactly when it is unfinished at depth 0, and then nothing is held; finished has depth 0.
    pub fn steps_fit(self) -> bool
        ensures { result ≡ steps_fit self }
    {
        let depth = self.depth;
        let steps = self.steps;
        if self.finished {
            return depth == 0 && steps != 0;
        }
        if depth == 0 {
            return steps == 0 && !self.holds;
        }
        steps != 0
    }

    // Unused bytes are 0.
    pub fn rest_fits(self, order: usize) -> bool
        ensures { result ≡ all_below 64 (rest_fits order self) }
    {
        let depth = self.depth;
        let holds = self.holds;
        let path = self.path;
        let incumbent = self.incumbent;
        let used = if holds { order } else { 0 };
        for i in 0..MAX_ORDER {
            if depth <= i && path[i] != 0 {
                return false;
            }
            if used <= i && incumbent[i] != 0 {
                return false;
            }
        }
        true
    }

    // The tests in their order, all but `held_admitted`, with what the check of a mapping says of the filled path and of the incumbent.
    pub fn in_shape(self, order: usize, path: Checked, held: Checked) -> bool
        ensures { result ≡ shape_tests order (reaches_to 0 (mapping_outcome path))
            (not self.holds || reaches_to self.minimum (mapping_outcome held)) self }
    {
        self.depth <= order
            && reaches(true, 0, path)
            && reaches(self.holds, self.minimum, held)
            && self.steps_fit()
            && self.rest_fits(order)
    }
}
