// The ceiling: one more than the greatest upper bound of an open node, where that is above the cutoff.

ghost use Rattle.std.specs.Prelude.{◌≡◌, Bool, List, ℕ, ◌-◌, ◌^◌, ◌≤◌, ◌<◌, max, length, take};
ghost use Rattle.problem.specs.Problem.{Problem};
ghost use Rattle.search_tree.specs.Rules.{rules_of};
ghost use Rattle.search_tree.specs.Node.{later_siblings};
ghost use Rattle.search_tree.specs.Ceiling.{top_bound, ceiling as ceiling_of};
ghost use Rattle.checkpoint.specs.Checkpoints.{state_of};
ghost use Rattle.search.specs.Walking.{LendsEdges, AtNode, AtRow, InBounds, Ready, level_top};
ghost use Rattle.search.specs.Words.{SameLevels};

use super::tables::Tables;
use super::walk::Walk;
use super::words;
use graph::MAX_ORDER;
use mapping::{NewVertex, OldVertex, UNMAPPED};

// One more than the greatest upper bound among the later siblings at `row`, which has taken `value` after `pairs` pairs. Their words are made in
// the level after theirs, which is needed no more.
#[tactic(auto, using(crate::proofs::NodeWords::open_rows_max, crate::proofs::NodeWords::meet_rows_max))]
pub fn row_top(
    tables: Tables<'_>,
    workspace: &mut [u64],
    row: OldVertex,
    pairs: usize,
    value: NewVertex,
) -> usize
    requires room { 4160 ≤ length workspace.old }
    requires row_bound { (row.0 < 64) × (pairs ≤ row.0) × (value.0 < 64) }
    ensures kept { SameLevels pairs workspace.old workspace.new }
    ensures top { (P : Problem) (path : List ℕ) → LendsEdges P tables.entry
        → AtRow P path row.0 pairs workspace.old → result ≡ level_top (rules_of P) (take row.0 path) value.0 }
{
    let word = words::level_word(workspace, pairs, row);
    let open = words::count_open(workspace, row.0 + 1, pairs);
    let mut top = pairs + 1 + open;
    let mut last = value.0;
    while let Some(v) = bitset::least_above(word, last) {
        let kept = words::refine(tables, workspace, row, pairs, NewVertex(v), open, 0);
        top = top.max(pairs + 2 + kept);
        last = v;
    }
    top
}

// One more than the greatest upper bound among the later siblings of the node and of its ancestors. A level is passed over where its parent's
// bound shows that it cannot raise the greatest so far.
#[tactic(auto, using(crate::proofs::NodeWords::open_rows_max, crate::proofs::NodeWords::size_take_max, crate::proofs::NodeWords::entry_max, crate::proofs::LaterTop::level_pairs))]
pub fn later_top(
    tables: Tables<'_>,
    path: &[u8; MAX_ORDER],
    workspace: &mut [u64],
    depth: usize,
    pairs: usize,
    least: usize,
) -> usize
    requires { InBounds path.now depth pairs workspace.old }
    ensures { (P : Problem) → LendsEdges P tables.entry
        → AtNode P path.now depth pairs workspace.old
        → result ≡ max least (top_bound (rules_of P) (later_siblings (rules_of P) (take depth path.now) depth)) }
{
    let mut top = least;
    let mut left = pairs;
    for row in (0..depth).rev() {
        let last = path[row];
        if last != UNMAPPED {
            left -= 1;
            let limit = left + 1 + words::count_open(workspace, row, left);
            if top < limit {
                let above = row_top(
                    tables,
                    workspace,
                    OldVertex(row),
                    left,
                    NewVertex(last as usize),
                );
                top = top.max(above);
            }
        }
    }
    top
}

// The ceiling of the walk where it stands.
pub fn ceiling(walk: Walk, tables: Tables<'_>, workspace: &mut [u64]) -> usize
    requires in_bounds { InBounds walk.checkpoint.path walk.checkpoint.depth walk.pairs workspace.old }
    requires bound_bound { walk.bound < 2 ^ 64 - 1 }
    ensures { (connected : Bool) (P : Problem) → LendsEdges P tables.entry → Ready connected P walk workspace.old
        → result ≡ ceiling_of (rules_of P) walk.checkpoint.minimum (state_of P.old.order walk.checkpoint) }
{
    if walk.checkpoint.finished {
        return walk.cutoff;
    }
    later_top(
        tables,
        &walk.checkpoint.path,
        workspace,
        walk.checkpoint.depth,
        walk.pairs,
        walk.cutoff.max(walk.bound + 1),
    )
}
