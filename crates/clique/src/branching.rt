// The two routines of the search, one for a row and one for the choices in that row.

ghost use Rattle.std.specs.Prelude.{◌≡◌, [], ◌+◌, ◌-◌, ◌*◌, ◌≤◌, ◌<◌, take};
ghost use Rattle.std.proofs.Math.Option.{none};
ghost use Rattle.clique.specs.Branching.{keep_larger, branch_row, branch_choices};
ghost use Rattle.clique.specs.LentRules.{lent_rules, choices_of};
ghost use Rattle.clique.specs.Carried.{Decided, incumbent_as, Becomes};

use super::MAX_OLD;
use super::candidates::Allowed;
use mapping::{OldVertex, UNMAPPED};

// The mapping that is held, if there is one, and how many pairs the next one must have.
#[derive(Clone, Copy)]
pub struct Incumbent {
    pub cutoff: usize,
    pub mapping: Option<[u8; MAX_OLD]>,
}

// A path that decides every row becomes what is held where it has enough pairs.
pub fn keep_larger(order: usize, path: [u8; MAX_OLD], pairs: usize, held: Incumbent) -> Incumbent
    requires { (order ≤ 8) × Decided path order pairs }
    ensures { Becomes held (λ minimum. keep_larger minimum (take order path)) result }
{
    if pairs < held.cutoff {
        return held;
    }
    Incumbent {
        cutoff: pairs + 1,
        mapping: Some(path),
    }
}

// What is searched is lent to each of the nested calls: by value, copies of it would be most of their stack.
impl<'a> Allowed<'a> {
    // The row at `depth`, or the path's end.
    #[cycle(branch_choices_branch_row)]
    pub fn branch_row(
        &self,
        path: [u8; MAX_OLD],
        depth: usize,
        pairs: usize,
        held: Incumbent,
    ) -> Incumbent
        requires { (depth ≤ self.now.problem.old.order) × Decided path depth pairs }
        ensures { Becomes held (λ minimum. branch_row (lent_rules self.entry.now.problem self.entry.now.sets.now) minimum
            (2 * (self.entry.now.problem.old.order - depth)) (take depth path)) result }
    {
        if depth == self.problem.old.order {
            return keep_larger(depth, path, pairs, held);
        }
        let candidates = self.candidates(path, OldVertex(depth));
        self.branch_choices(path, depth, pairs, candidates, held)
    }

    // The choices of the row at `depth`: each of these candidates, rising, then none.
    #[cycle(branch_choices_branch_row)]
    pub fn branch_choices(
        &self,
        path: [u8; MAX_OLD],
        depth: usize,
        pairs: usize,
        candidates: u64,
        held: Incumbent,
    ) -> Incumbent
        requires { (depth < self.now.problem.old.order) × Decided path depth pairs }
        ensures { Becomes held (λ minimum. branch_choices (lent_rules self.entry.now.problem self.entry.now.sets.now) minimum
            (2 * (self.entry.now.problem.old.order - (depth + 1)) + 1) (take depth path) (choices_of candidates)) result }
    {
        let mut next = path;
        match bitset::least_member(candidates) {
            None => {
                next[depth] = UNMAPPED;
                self.branch_row(next, depth + 1, pairs, held)
            }
            Some(vertex) => {
                next[depth] = vertex as u8;
                let better = self.branch_row(next, depth + 1, pairs + 1, held);
                let rest = bitset::without_least(candidates);
                self.branch_choices(path, depth, pairs, rest, better)
            }
        }
    }

    // The whole search.
    pub fn branch(&self, minimum: u8) -> Incumbent
        ensures { result ≡ incumbent_as minimum (branch_row (lent_rules self.entry.now.problem self.entry.now.sets.now) minimum (2 * self.entry.now.problem.old.order) [] none) }
    {
        let held = Incumbent {
            cutoff: minimum as usize,
            mapping: None,
        };
        self.branch_row([0u8; MAX_OLD], 0, 0, held)
    }
}
