// The check of a mapping row by row, each row with itself and then against the earlier ones.

ghost use Rattle.std.specs.Prelude.{◌≡◌, ◌≤◌, ◌<◌, length, get_or};
ghost use Rattle.bounded.specs.First.{first_below};
ghost use Rattle.bitset.specs.Members.{member};
ghost use Rattle.problem.specs.Problem.{compare_edges};
ghost use Rattle.problem.specs.Lent.{lent, EdgesLong};
ghost use Rattle.mapping.specs.Common.{size as size_of};
ghost use Rattle.mapping.specs.Answers.{mapping_outcome};
ghost use Rattle.mapping.specs.Check.{finding, EntriesBelow, clash as clash_at, list_by};
ghost use Rattle.mapping.specs.LentRows.{lent_row};

use super::{Checked, MappingError, NewVertex, OldVertex, UNMAPPED};
use graph::MAX_ORDER;
use problem::Problem;

// Of the labels nothing is read here but the sets of vertices that agree with each row.

// The edges of v and v2 in the old graph, and of w and w2 in the new one.
pub fn compare_edges<'a>(
    problem: Problem<'a>,
    v: OldVertex,
    v2: OldVertex,
    w: NewVertex,
    w2: NewVertex,
) -> bool
    requires { EdgesLong problem × (v.0 < 64) × (v2.0 < 64) × (w.0 < 64) × (w2.0 < 64) }
    ensures { result ≡ compare_edges (lent problem.entry) v.0 v2.0 w.0 w2.0 }
{
    let old = problem.old.edges;
    let new = problem.new.edges;
    let from = v.0;
    let to = v2.0;
    let new_from = w.0;
    let new_to = w2.0;
    old[MAX_ORDER * from + to] == new[MAX_ORDER * new_from + new_to]
}

// A mapping that is checked, beside the problem and the sets of the new vertices whose labels agree with each old one's.
#[derive(Clone, Copy)]
pub struct Rows<'a> {
    pub problem: Problem<'a>,
    pub agreeing: &'a [u64; MAX_ORDER],
    pub mapping: &'a [u8],
    pub ghost edges_long: { EdgesLong problem },
    pub ghost new_order_max: { problem.new.order ≤ 64 },
    pub ghost few_rows: { length mapping.now ≤ 64 },
}

impl<'a> Rows<'a> {
    fn compare_vertices(self, v: OldVertex, w: NewVertex) -> bool
        requires { v.0 < 64 }
        ensures { result ≡ member (get_or self.entry.agreeing.now v.0 0) w.0 }
    {
        bitset::has(self.agreeing[v.0], w.0)
    }

    // Row v against the earlier row u.
    fn clash(self, v: OldVertex, u: OldVertex) -> Result<(), MappingError>
        requires rows { (v.0 < length self.mapping.now) × (u.0 < v.0) }
        requires below { (get_or self.mapping.now v.0 0 < 64) × EntriesBelow self.mapping.now v.0 }
        ensures { finding result ≡ clash_at (lent self.entry.problem) self.entry.mapping.now v.0 u.0 }
    {
        let image = self.mapping[v.0];
        let other = self.mapping[u.0];
        if other == UNMAPPED {
            return Ok(());
        }
        if other == image {
            return Err(MappingError::SameImage(v, u));
        }
        if !compare_edges(
            self.problem,
            u,
            v,
            NewVertex(other as usize),
            NewVertex(image as usize),
        ) {
            return Err(MappingError::EdgesDiffer(v, u));
        }
        Ok(())
    }

    // Row v against all earlier rows, rising.
    fn first_clash(self, v: OldVertex) -> Result<(), MappingError>
        requires row { v.0 < length self.mapping.now }
        requires below { (get_or self.mapping.now v.0 0 < 64) × EntriesBelow self.mapping.now v.0 }
        ensures { finding result ≡ first_below v.0 (clash_at (lent self.entry.problem) self.entry.mapping.now v.0) }
    {
        for u in 0..v.0 {
            self.clash(v, OldVertex(u))?;
        }
        Ok(())
    }

    // One row: its own entry and its vertex with itself, then the earlier rows. The rows before it are clear.
    fn row_fault(self, v: OldVertex) -> Result<(), MappingError>
        requires { (v.0 < length self.mapping.now) × EntriesBelow self.mapping.now v.0 }
        ensures { finding result ≡ lent_row self.entry.problem self.entry.agreeing.now self.entry.mapping.now v.0 }
    {
        let image = self.mapping[v.0];
        if image == UNMAPPED {
            return Ok(());
        }
        let w = NewVertex(image as usize);
        if self.problem.new.order <= w.0 {
            return Err(MappingError::NoVertex(v));
        }
        if !self.compare_vertices(v, w) {
            return Err(MappingError::LabelsDisagree(v));
        }
        if !compare_edges(self.problem, v, v, w, w) {
            return Err(MappingError::EdgesDiffer(v, v));
        }
        self.first_clash(v)
    }

    // All rows, rising.
    fn first_fault(self) -> Result<(), MappingError>
        ensures { finding result ≡ first_below (length self.entry.mapping.now)
            (lent_row self.entry.problem self.entry.agreeing.now self.entry.mapping.now) }
    {
        for v in 0..self.mapping.len() {
            self.row_fault(OldVertex(v))?;
        }
        Ok(())
    }
}

// The number of mapped rows.
pub fn size(mapping: &[u8]) -> usize
    ensures { result ≡ size_of mapping.now }
{
    mapping.iter().filter(|entry| **entry != UNMAPPED).count()
}

// A mapping: its length, then its rows.
pub fn check_list<'a>(
    problem: Problem<'a>,
    agreeing: &'a [u64; MAX_ORDER],
    mapping: &'a [u8],
) -> Checked
    requires { EdgesLong problem × (problem.old.order ≤ 64) × (problem.new.order ≤ 64) }
    ensures { mapping_outcome result ≡ list_by problem.entry.old.order (lent_row problem.entry agreeing.now mapping.now) mapping.now }
{
    if mapping.len() != problem.old.order {
        return Err(MappingError::Length);
    }
    let rows = Rows {
        problem,
        agreeing,
        mapping,
    };
    rows.first_fault()?;
    Ok(size(mapping))
}
