// Candidate sets as words: the masks of the new graph, the words of the root, and the words of a node from those of its parent.

ghost use Rattle.std.specs.Prelude.{◌≡◌, [], ◌++◌, ℕ, ◌+◌, ◌*◌, ◌≤◌, ◌<◌, length, get_or, drop, replicate};
ghost use Rattle.graph.specs.Graph.{graph};
ghost use Rattle.problem.specs.Problem.{Problem};
ghost use Rattle.problem.specs.VertexSets.{AllowedSets};
ghost use Rattle.bitset.specs.Count.{size};
ghost use Rattle.search.specs.Words.{Masks, MaskRow, RootWords, level_word, Counted, open_rows};
ghost use Rattle.search.specs.Rows.{Covers, First};
ghost use Rattle.search.specs.Words.{Met, near_word, far_word};

use super::WORDS;
use super::tables::Tables;
use graph::MAX_ORDER;
use mapping::{NewVertex, OldVertex};

// How many values an edge label has, 0 for a null edge included: as many masks has a new vertex.
const EDGE_LABELS: usize = 256;

pub const MASKS: usize = MAX_ORDER * EDGE_LABELS;

// Where the sets of rows stand that have a candidate, one for each level.
const OPEN_SETS: usize = MAX_ORDER * MAX_ORDER;

const NEXT_OPEN_SETS: usize = OPEN_SETS + 1;

// The edges are a problem's slices, here and below: as an array each would need a conversion that cannot fail, and its proof.
// The masks of the new vertex w: each other vertex v is added to the mask of the label of the edge of w and v, null edges too.
pub fn mask_row(order: usize, edges: &[u8], vertex: NewVertex, masks: &mut [u64])
    requires edges_len { (length edges.now ≡ 4096) × (length masks.old ≡ 16384) × (order ≤ 64) × (vertex.0 < order) }
    requires by_index { (k : ℕ) → k < 256 → get_or masks.old (256 * vertex.0 + k) 0 ≡ 0 }
    ensures { MaskRow (graph order [] edges.now) vertex.0 masks.old masks.new }
{
    let w = vertex.0;
    for v in 0..order {
        if v != w {
            let label = edges[MAX_ORDER * w + v] as usize;
            let at = EDGE_LABELS * w + label;
            masks[at] = bitset::with(masks[at], v);
        }
    }
}

// All masks, into words that are all 0.
pub fn fill_masks(order: usize, edges: &[u8], masks: &mut [u64])
    requires { (length edges.now ≡ 4096) × (masks.old ≡ replicate 16384 0) × (order ≤ 64) }
    ensures { Masks (graph order [] edges.now) masks.new }
{
    for w in 0..order {
        mask_row(order, edges, NewVertex(w), masks);
    }
}

// The words of the root, level 0: each row's vertices that it may lie on, and the set of the rows that have some.
pub fn root_words(order: usize, allowed: &[u64; MAX_ORDER], workspace: &mut [u64])
    requires { (order ≤ 64) × (4160 ≤ length workspace.old) }
    ensures { (P : Problem) → P.old.order ≡ order → AllowedSets P allowed.now
        → RootWords P workspace.old workspace.new }
{
    let mut rows = 0;
    for r in 0..order {
        let word = allowed[r];
        workspace[r] = word;
        if !bitset::is_empty(word) {
            rows = bitset::with(rows, r);
        }
    }
    workspace[OPEN_SETS] = rows;
}

// The word of `row` at the level of `pairs` pairs.
pub fn level_word(workspace: &[u64], pairs: usize, row: OldVertex) -> u64
    requires { (4160 ≤ length workspace.now) × (pairs < 64) × (row.0 < 64) }
    ensures { result ≡ level_word workspace.now pairs row.0 }
{
    if bitset::has(workspace[OPEN_SETS + pairs], row.0) {
        workspace[MAX_ORDER * pairs + row.0]
    } else {
        0
    }
}

// Whether more than one in six of the edge bytes of the old vertices is not null.
pub fn many_edges(order: usize, edges: &[u8]) -> bool
    requires { (length edges.now ≡ 4096) × (order ≤ 64) }
{
    let count = edges.iter().filter(|edge| **edge != 0).count();
    order * order < 6 * count
}

// The rows after `row` that are met first: those that have an edge to it, or, where edges are many, all.
pub fn first_rows(many: bool, edges: &[u8], row: OldVertex) -> u64
    requires { (length edges.now ≡ 4096) × (row.0 < 64) }
    ensures { Covers edges.now row.0 result }
{
    let from = row.0;
    let mut word = 0;
    for r in from + 1..MAX_ORDER {
        if many || edges[MAX_ORDER * from + r] != 0 {
            word = bitset::with(word, r);
        }
    }
    word
}

// The rows that are met first, for each row. Where edges are many a second loop would cost more than it saves.
pub fn all_first(order: usize, edges: &[u8]) -> [u64; MAX_ORDER]
    requires { (length edges.now ≡ 4096) × (order ≤ 64) }
    ensures { First edges.now result }
{
    let many = many_edges(order, edges);
    let mut first = [0u64; MAX_ORDER];
    for (row, rows) in first.iter_mut().enumerate() {
        *rows = first_rows(many, edges, OldVertex(row));
    }
    first
}

// The rows that keep a candidate, and how many of the rows open before are not known to have lost theirs.
#[derive(Clone, Copy)]
pub struct Kept {
    pub rows: u64,
    pub count: usize,
}

// Of the rows `near` each word meets the mask of its edge to `row`, which took `value` after `pairs` pairs. No turn asks whether enough rows are
// left: a way out of the midst would be hard to foresee.
#[tactic(auto, using(crate::proofs::MeetTurn::row_inside, crate::proofs::MeetTurn::rest_falls, crate::proofs::MeetTurn::some_left))]
pub fn meet_near(
    tables: Tables<'_>,
    workspace: &mut [u64],
    row: OldVertex,
    pairs: usize,
    value: NewVertex,
    near: u64,
    kept: Kept,
) -> Kept
    requires room { 4160 ≤ length workspace.old }
    requires row_bound { (row.0 < 64) × (pairs < 63) × (value.0 < 64) × (size near ≤ kept.count) }
    ensures { Met near (near_word tables.entry.edges.now tables.entry.masks.now row.0 pairs value.0 workspace.old)
        (pairs + 1) 0 workspace.old kept workspace.new result }
{
    let from = row.0;
    let mut rest = near;
    let mut rows = kept.rows;
    let mut left = kept.count;
    while let Some(r) = bitset::least_member(rest) {
        let label = tables.edges[MAX_ORDER * from + r] as usize;
        let at = MAX_ORDER * pairs + r;
        let word = bitset::meet(workspace[at], tables.masks[EDGE_LABELS * value.0 + label]);
        // an empty word is stored too: a jump over the store would be hard to foresee
        workspace[at + MAX_ORDER] = word;
        rest = bitset::without_least(rest);
        if bitset::is_empty(word) {
            left -= 1;
        } else {
            rows = bitset::with(rows, r);
        }
    }
    Kept { rows, count: left }
}

// Of the rows `far`, without an edge to the row just mapped, each word meets the one mask of null edges.
#[tactic(auto, using(crate::proofs::MeetTurn::row_inside, crate::proofs::MeetTurn::rest_falls, crate::proofs::MeetTurn::some_left))]
pub fn meet_far(
    mask: u64,
    workspace: &mut [u64],
    pairs: usize,
    far: u64,
    kept: Kept,
    need: usize,
) -> Kept
    requires { (4160 ≤ length workspace.old) × (pairs < 63) × (size far ≤ kept.count) }
    ensures { Met far (far_word mask pairs workspace.old) (pairs + 1) need workspace.old kept workspace.new result }
{
    let mut rest = far;
    let mut rows = kept.rows;
    let mut left = kept.count;
    while let Some(r) = bitset::least_member(rest) {
        let at = MAX_ORDER * pairs + r;
        let word = bitset::meet(workspace[at], mask);
        if bitset::is_empty(word) {
            left -= 1;
            if left < need {
                return Kept { rows, count: left };
            }
        } else {
            rows = bitset::with(rows, r);
            workspace[at + MAX_ORDER] = word;
        }
        rest = bitset::without_least(rest);
    }
    Kept { rows, count: left }
}

// The words after `row`, with `pairs` pairs before it, took `value`: the word of each later row that has one meets the mask of its edge to
// `row`, those that are met first before the others, which have no edge to it. `count` later rows have a word. Returns how many of them keep one, or, once
// fewer than `need` can, a number below `need`. After 64 pairs there is no later row.
pub fn refine(
    tables: Tables<'_>,
    workspace: &mut [u64],
    row: OldVertex,
    pairs: usize,
    value: NewVertex,
    count: usize,
    need: usize,
) -> usize
    requires room { 4160 ≤ length workspace.old }
    requires row_bound { (row.0 < 64) × (pairs ≤ row.0) × (value.0 < 64) × (count ≡ open_rows (row.0 + 1) pairs workspace.old) }
    ensures { Counted tables.entry.edges.now tables.entry.masks.now row.0 pairs value.0 need workspace.old workspace.new result }
{
    if pairs == 63 {
        return 0;
    }
    let open = bitset::members_from(workspace[OPEN_SETS + pairs], row.0 + 1);
    let near = bitset::meet(open, tables.first[row.0]);
    let all = Kept { rows: 0, count };
    let met = meet_near(tables, workspace, row, pairs, value, near, all);
    if met.count < need {
        return met.count;
    }
    let mask = tables.masks[EDGE_LABELS * value.0];
    let kept = meet_far(
        mask,
        workspace,
        pairs,
        bitset::difference(open, near),
        met,
        need,
    );
    if kept.count < need {
        return kept.count;
    }
    workspace[NEXT_OPEN_SETS + pairs] = kept.rows;
    kept.count
}

// How many rows from `depth` on have a candidate, at a node with `pairs` pairs.
pub fn count_open(workspace: &[u64], depth: usize, pairs: usize) -> usize
    requires { (4160 ≤ length workspace.now) × (pairs < 64) }
    ensures { result ≡ open_rows depth pairs workspace.now }
{
    bitset::size(bitset::members_from(workspace[OPEN_SETS + pairs], depth)) as usize
}

// The first 4,160 words become 0.
pub fn clear_words(workspace: &mut [u64])
    requires { 4160 ≤ length workspace.old }
    ensures { workspace.new ≡ replicate 4160 0 ++ drop 4160 workspace.old }
{
    workspace[..WORDS].fill(0);
}
