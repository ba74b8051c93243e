// One visit of the walk, by value, of the first search or the connected one, and a run of visits, over a workspace that holds the candidate words of the
// path's ancestors.

ghost use Rattle.std.specs.Prelude.{◌≡◌, Bool, true, false, not, ◌||◌, List, ℕ, ◌+◌, ◌-◌, ◌≤◌, ◌<◌, ◌^◌, length, get_or, take};
ghost use Rattle.problem.specs.Problem.{Problem, SoundProblem};
ghost use Rattle.mapping.specs.Common.{size};
ghost use Rattle.connected.specs.Spreading.{mapped_set, connected_set, Neighbours};
ghost use Rattle.search_tree.specs.Rules.{rules_of};
ghost use Rattle.search_tree.specs.Search.{search_of};
ghost use Rattle.search_tree.specs.Trees.{Reached};
ghost use Rattle.search_tree.specs.Walk.{visit};
ghost use Rattle.checkpoint.specs.Checkpoints.{state_of, InShape};
ghost use Rattle.search.specs.Rows.{Numbers};
ghost use Rattle.search.specs.Words.{Words, ExactSet, open_set, open_rows};
ghost use Rattle.search.specs.Walking.{Lends, LendsEdges, AtNode, InBounds, Ready, Arrives, Bounded, Descends, Retreats, CountFits, Resumes, Starts};
ghost use Rattle.search.specs.Walking.{RestZero, Moved, OnTrail, OpenIs, LastIs, Placed};
ghost use Rattle.search.specs.Call.{visits};

use super::tables::{Pair, Tables, Trail};
use super::words;
use checkpoint::Checkpoint;
use graph::MAX_ORDER;
use mapping::{NewVertex, OldVertex, UNMAPPED};

// Where the walk stands: the next node's depth and number of pairs, or finished at depth 0. `last` is its last row's entry, and `later` tells how
// many rows after it have a candidate before that entry is met: where the row is left out, none is lost.
#[derive(Clone, Copy)]
pub struct Place {
    pub depth: usize,
    pub pairs: usize,
    pub finished: bool,
    pub last: u8,
    pub later: usize,
}

// A checkpoint, with the numbers that follow from it: the pairs on its path, the cutoff, which a node must reach, and its node's upper bound, or,
// where that is below the cutoff, some number below it. The bound is made on arrival, so that a visit first moves and then counts.
#[derive(Clone, Copy)]
pub struct Walk {
    pub checkpoint: Checkpoint,
    pub pairs: usize,
    pub cutoff: usize,
    pub bound: usize,
}

// The upper bound of the node at a place, and its own words in the workspace; or, where the bound is below the cutoff, some number below it.
#[tactic(auto, using(crate::proofs::NodeWords::open_rows_max, crate::proofs::NodeWords::pairs_max, crate::proofs::NodeWords::counted_max))]
pub fn upper_bound(tables: Tables<'_>, workspace: &mut [u64], place: Place, cutoff: usize) -> usize
    requires { Placed place workspace.old }
    ensures bounded { (P : Problem) (path : List ℕ) → LendsEdges P tables.entry
        → AtNode P path place.depth place.pairs workspace.old → LastIs path place.depth place.last
        → Bounded P path place.depth cutoff workspace.new result }
    ensures small { result < 2 ^ 64 - 1 }
    ensures kept { (p : ℕ) → p < place.pairs → open_set p workspace.new ≡ open_set p workspace.old }
{
    if place.last == UNMAPPED {
        return place.pairs + place.later;
    }
    place.pairs
        + words::refine(
            tables,
            workspace,
            OldVertex(place.depth - 1),
            place.pairs - 1,
            NewVertex(place.last as usize),
            place.later,
            cutoff.saturating_sub(place.pairs),
        )
}

// The rows' numbers, from 1 on, as bytes.
pub fn row_numbers() -> [u8; MAX_ORDER]
    ensures { Numbers result }
{
    let mut numbers = [0u8; MAX_ORDER];
    for (row, number) in numbers.iter_mut().enumerate() {
        *number = (row + 1) as u8;
    }
    numbers
}

// The entry of the row of a number once the walk stands at `depth`; `before` stood there till then.
pub fn entry(number: u8, depth: u8, before: u8, last: u8) -> u8
    ensures { (number < depth → result ≡ before) × (number ≡ depth → result ≡ last) × (depth < number → result ≡ 0) }
{
    if number < depth {
        before
    } else if number == depth {
        last
    } else {
        0
    }
}

// The path becomes that of `depth` entries which ends in `last` and is the same before it. Entry by entry, so that it can be held in registers and
// need not move through memory: `numbers` lets the compiler do it by the sixteen.
pub fn move_back(numbers: &[u8; MAX_ORDER], path: &mut [u8; MAX_ORDER], depth: u8, last: u8)
    requires { Numbers numbers.now × (length path.old ≡ 64) }
    ensures { Moved path.old depth last path.new }
{
    for i in 0..MAX_ORDER {
        path[i] = entry(numbers[i], depth, path[i], last);
    }
}

// The same for a path that is 0 from `depth` on.
pub fn move_down(numbers: &[u8; MAX_ORDER], path: &mut [u8; MAX_ORDER], depth: u8, last: u8)
    requires { Numbers numbers.now × (length path.old ≡ 64) × RestZero path.old depth }
    ensures { Moved path.old depth last path.new }
{
    for i in 0..MAX_ORDER {
        // stored in either case: with the store in the `if` the compiler goes byte by byte
        path[i] = if numbers[i] == depth { last } else { path[i] };
    }
}

// The first child: the row at `depth`, from which on `rows` rows have a candidate, takes its least candidate, or is left out.
#[tactic(auto, using(crate::proofs::MeetTurn::row_inside, crate::proofs::NodeWords::open_rows_max))]
pub fn descend(
    numbers: &[u8; MAX_ORDER],
    path: &mut [u8; MAX_ORDER],
    trail: &mut Trail,
    workspace: &[u64],
    depth: usize,
    pairs: usize,
    rows: usize,
) -> Place
    requires numbers { Numbers numbers.now × (length path.old ≡ 64) × (length trail.old ≡ 64) × (4160 ≤ length workspace.now) }
    requires depth_bound { (depth < 64) × (pairs ≤ depth) × (rows ≡ open_rows depth pairs workspace.now) × RestZero path.old depth }
    ensures child { (P : Problem) → SoundProblem P → depth < P.old.order
        → AtNode P path.old depth pairs workspace.now → Words P path.old depth workspace.now
        → Descends P path.old depth workspace.now result path.new }
    ensures trail { pairs ≡ size (take depth path.old)
        → OnTrail path.old depth trail.old workspace.now
        → OnTrail path.new result.depth trail.new workspace.now }
    ensures later { (n : ℕ) → ExactSet n pairs workspace.now
        → OpenIs result.depth result.pairs result.last result.later workspace.now }
    ensures last { LastIs path.new result.depth result.last }
{
    match bitset::least_member(words::level_word(workspace, pairs, OldVertex(depth))) {
        Some(v) => {
            let later = rows - 1;
            trail[pairs] = Pair {
                row: OldVertex(depth),
                value: NewVertex(v),
                later,
            };
            let value = v as u8;
            move_down(numbers, path, (depth + 1) as u8, value);
            Place {
                depth: depth + 1,
                pairs: pairs + 1,
                finished: false,
                last: value,
                later,
            }
        }
        None => {
            move_down(numbers, path, (depth + 1) as u8, UNMAPPED);
            Place {
                depth: depth + 1,
                pairs,
                finished: false,
                last: UNMAPPED,
                later: rows,
            }
        }
    }
}

// The nearest later sibling of the node or of an ancestor: the last pair takes its next candidate, or is left out. The rows after it, which were
// left out, have no later sibling.
#[tactic(auto, using(crate::proofs::MeetTurn::row_above_inside))]
pub fn retreat(
    numbers: &[u8; MAX_ORDER],
    path: &mut [u8; MAX_ORDER],
    trail: &mut Trail,
    workspace: &[u64],
    pairs: usize,
) -> Place
    requires { Numbers numbers.now × (length path.old ≡ 64) × (length trail.old ≡ 64) × (4160 ≤ length workspace.now) × (pairs ≤ 64) }
    ensures sibling { (P : Problem) (depth : ℕ) → SoundProblem P → AtNode P path.old depth pairs workspace.now
        → OnTrail path.old depth trail.old workspace.now
        → Retreats P path.old depth workspace.now result path.new }
    ensures trail { (depth : ℕ) → depth ≤ 64 → pairs ≡ size (take depth path.old)
        → OnTrail path.old depth trail.old workspace.now
        → OnTrail path.new result.depth trail.new workspace.now
        × OpenIs result.depth result.pairs result.last result.later workspace.now }
    ensures last { LastIs path.new result.depth result.last }
{
    if pairs == 0 {
        move_back(numbers, path, 0, UNMAPPED);
        return Place {
            depth: 0,
            pairs: 0,
            finished: true,
            last: UNMAPPED,
            later: words::count_open(workspace, 0, 0),
        };
    }
    let before = pairs - 1;
    let pair = trail[before];
    let row = pair.row.0;
    let later = pair.later;
    let word = words::level_word(workspace, before, OldVertex(row));
    match bitset::least_above(word, pair.value.0) {
        Some(v) => {
            trail[before].value = NewVertex(v);
            let value = v as u8;
            move_back(numbers, path, (row + 1) as u8, value);
            Place {
                depth: row + 1,
                pairs,
                finished: false,
                last: value,
                later,
            }
        }
        None => {
            move_back(numbers, path, (row + 1) as u8, UNMAPPED);
            Place {
                depth: row + 1,
                pairs: before,
                finished: false,
                last: UNMAPPED,
                later,
            }
        }
    }
}

// The neighbours of each old vertex, which only the connected search reads.
pub fn neighbours_for(connected: bool, edges: &[u8]) -> [u64; MAX_ORDER]
    ensures { connected ≡ true → Neighbours edges.now result }
{
    if connected {
        connected::neighbours(edges)
    } else {
        [0u64; MAX_ORDER]
    }
}

// The rows of all `pairs` pairs on the trail, as a set.
pub fn trail_rows(trail: &Trail, pairs: usize) -> u64
    requires { (length trail.now ≡ 64) × (pairs ≤ 64) }
    ensures { (path : List ℕ) (depth : ℕ) (workspace : List ℕ) → length path ≡ 64 → depth ≤ 64 → pairs ≡ size (take depth path)
        → OnTrail path depth trail.now workspace → result ≡ mapped_set (take depth path) }
{
    let mut set = 0;
    for before in (0..pairs).rev() {
        set = bitset::with(set, trail[before].row.0);
    }
    set
}

// Whether a last node may be held: in the first search always, in the connected one where the rows of its pairs hang together.
pub fn admitted(tables: Tables<'_>, trail: &Trail, pairs: usize) -> bool
    requires { (length trail.now ≡ 64) × (pairs ≤ 64) }
    ensures { (path : List ℕ) (depth : ℕ) (workspace : List ℕ) → length path ≡ 64 → depth ≤ 64 → pairs ≡ size (take depth path)
        → OnTrail path depth trail.now workspace
        → result ≡ (not tables.entry.connected || connected_set (λ v. get_or tables.entry.neighbours.now v 0) (mapped_set (take depth path))) }
{
    !tables.connected || connected::is_connected_set(tables.neighbours, trail_rows(trail, pairs))
}

impl Walk {
    // One visit turns a checkpoint into the next, and leaves the words of the next node's ancestors.
    pub fn visit(self, tables: Tables<'_>, trail: &mut Trail, workspace: &mut [u64]) -> Walk
        requires resumes { Resumes tables self workspace.old }
        requires goes_on { (self.checkpoint.finished ≡ false) × (self.checkpoint.steps + 1 < 2 ^ 64)
            × OnTrail self.checkpoint.path self.checkpoint.depth trail.old workspace.old }
        ensures visited { (P : Problem) → Lends P tables.entry → Ready tables.entry.connected P self workspace.old
            → Arrives tables.entry.connected P self.checkpoint.minimum
            (visit (search_of tables.entry.connected P) self.checkpoint.minimum (state_of P.old.order self.checkpoint)) result workspace.new }
        ensures trail { OnTrail result.checkpoint.path result.checkpoint.depth trail.new workspace.new }
    {
        let minimum = self.checkpoint.minimum;
        let steps = self.checkpoint.steps + 1;
        let depth = self.checkpoint.depth;
        let pairs = self.pairs;
        let mut holds = self.checkpoint.holds;
        let mut incumbent = self.checkpoint.incumbent;
        let mut cutoff = self.cutoff;
        let mut path = self.checkpoint.path;
        let place = if self.bound < cutoff {
            retreat(tables.numbers, &mut path, trail, workspace, pairs)
        } else if depth == tables.order {
            if admitted(tables, trail, pairs) {
                holds = true;
                incumbent = path;
                cutoff = pairs + 1;
            }
            retreat(tables.numbers, &mut path, trail, workspace, pairs)
        } else {
            descend(
                tables.numbers,
                &mut path,
                trail,
                workspace,
                depth,
                pairs,
                self.bound - pairs,
            )
        };
        let bound = upper_bound(tables, workspace, place, cutoff);
        Walk {
            checkpoint: Checkpoint {
                minimum,
                steps,
                depth: place.depth,
                path,
                finished: place.finished,
                holds,
                incumbent,
            },
            pairs: place.pairs,
            cutoff,
            bound,
        }
    }
}

// A walk at a checkpoint, from the words of the root: those of its path are rebuilt, and its pairs, cutoff and bound are counted.
pub fn start(
    checkpoint: Checkpoint,
    tables: Tables<'_>,
    trail: &mut Trail,
    workspace: &mut [u64],
) -> Walk
    requires in_bounds { InBounds checkpoint.path checkpoint.depth (size (take checkpoint.depth checkpoint.path)) workspace.old }
    requires lengths { (length checkpoint.incumbent ≡ 64) × (length trail.old ≡ 64) }
    ensures starts { (connected : Bool) (P : Problem) → Lends P tables.entry → InShape connected P checkpoint
        → Words P checkpoint.path 0 workspace.old → Starts connected P checkpoint result workspace.new }
    ensures trail { OnTrail checkpoint.path checkpoint.depth trail.new workspace.new }
{
    let depth = checkpoint.depth;
    let cutoff = if checkpoint.holds {
        mapping::mapping_size(&checkpoint.incumbent[..tables.order]) + 1
    } else {
        checkpoint.minimum as usize
    };
    let pairs = mapping::mapping_size(&checkpoint.path[..depth]);
    rebuild(tables, &checkpoint.path, trail, workspace, depth);
    // with 64 pairs no row is undecided
    let bound = if pairs < MAX_ORDER {
        pairs + words::count_open(workspace, depth, pairs)
    } else {
        pairs
    };
    Walk {
        checkpoint,
        pairs,
        cutoff,
        bound,
    }
}

// As many visits as the budget says, fewer only if the search finishes.
pub fn run(
    walk: Walk,
    tables: Tables<'_>,
    budget: u64,
    trail: &mut Trail,
    workspace: &mut [u64],
) -> Walk
    requires { CountFits walk.checkpoint budget × Resumes tables walk workspace.old
        × OnTrail walk.checkpoint.path walk.checkpoint.depth trail.old workspace.old }
    ensures { (P : Problem) → Lends P tables.entry → Ready tables.entry.connected P walk workspace.old
        → Arrives tables.entry.connected P walk.checkpoint.minimum
        (visits (search_of tables.entry.connected P) walk.checkpoint.minimum budget (state_of P.old.order walk.checkpoint)) result workspace.new }
{
    let mut at = walk;
    for _made in 0..budget {
        if at.checkpoint.finished {
            break;
        }
        at = at.visit(tables, trail, workspace);
    }
    at
}

// The words of the path, from those of the root, and its trail.
#[tactic(auto, using(crate::proofs::NodeWords::open_rows_max, crate::proofs::NodeWords::size_take_max, crate::proofs::NodeWords::entry_max))]
pub fn rebuild(
    tables: Tables<'_>,
    path: &[u8; MAX_ORDER],
    trail: &mut Trail,
    workspace: &mut [u64],
    depth: usize,
)
    requires in_bounds { InBounds path.now depth (size (take depth path.now)) workspace.old }
    requires trail_len { length trail.old ≡ 64 }
    ensures words { (P : Problem) → LendsEdges P tables.entry → depth ≤ P.old.order
        → Reached (rules_of P) (take depth path.now) → Words P path.now 0 workspace.old
        → Words P path.now depth workspace.new }
    ensures trail { OnTrail path.now depth trail.new workspace.new }
{
    let mut pairs = 0;
    for row in 0..depth {
        let value = path[row];
        if value != UNMAPPED {
            let later = words::count_open(workspace, row + 1, pairs);
            trail[pairs] = Pair {
                row: OldVertex(row),
                value: NewVertex(value as usize),
                later,
            };
            words::refine(
                tables,
                workspace,
                OldVertex(row),
                pairs,
                NewVertex(value as usize),
                later,
                0,
            );
            pairs += 1;
        }
    }
}
