// The candidates of a row beside the rows before it.

ghost use Rattle.std.specs.Prelude.{◌≡◌, ◌||◌, ◌≤◌, ◌<◌, eqb, get_or};
ghost use Rattle.bounded.specs.Below.{all_below, some_below};
ghost use Rattle.bitset.specs.Members.{set_of};
ghost use Rattle.problem.specs.Problem.{compare_edges};
ghost use Rattle.problem.specs.Lent.{lent};
ghost use Rattle.mapping.specs.Check.{EntriesBelow};
ghost use Rattle.clique.specs.Carried.{Small};
ghost use Rattle.clique.specs.LentRules.{edge_fits, lent_candidate};

use super::MAX_OLD;
use graph::MAX_ORDER;
use mapping::{NewVertex, OldVertex, UNMAPPED};
use problem::Problem;

// The vertices that the rows before `depth` take; 255, of a row that is left out, is in no set.
pub fn taken(path: [u8; MAX_OLD], depth: usize) -> u64
    requires { depth ≤ 8 }
    ensures { result ≡ set_of 64 (λ v. some_below depth (λ i. eqb v (get_or path i 0))) }
{
    let mut set = 0;
    for i in 0..depth {
        set = bitset::with(set, path[i] as usize);
    }
    set
}

// A problem, and for each old vertex the set of the new ones that it may lie on.
#[derive(Clone, Copy)]
pub struct Allowed<'a> {
    pub problem: Problem<'a>,
    pub sets: &'a [u64; MAX_ORDER],
    pub ghost small: { Small problem sets.now },
}

impl<'a> Allowed<'a> {
    // Whether an earlier row with this entry is left out, or its edge to the row is that of its vertex to this one.
    fn edge_fits(&self, earlier: OldVertex, entry: u8, row: OldVertex, vertex: NewVertex) -> bool
        requires { (earlier.0 < 64) × (row.0 < 64) × (vertex.0 < 64) × ((entry ≡ 255 → ⊥) → entry < 64) }
        ensures { result ≡ (eqb entry 255 || compare_edges (lent self.entry.now.problem) earlier.0 row.0 entry vertex.0) }
    {
        if entry == UNMAPPED {
            return true;
        }
        let old = self.problem.old.edges;
        let new = self.problem.new.edges;
        let from = earlier.0;
        let to = row.0;
        let new_from = entry as usize;
        let new_to = vertex.0;
        old[MAX_ORDER * from + to] == new[MAX_ORDER * new_from + new_to]
    }

    // The same of every row before it.
    fn edges_fit(&self, path: [u8; MAX_OLD], row: OldVertex, vertex: NewVertex) -> bool
        requires { (row.0 < 8) × (vertex.0 < 64) × EntriesBelow path row.0 }
        ensures { result ≡ all_below row.0 (edge_fits self.entry.now.problem path row.0 vertex.0) }
    {
        for i in 0..row.0 {
            if !self.edge_fits(OldVertex(i), path[i], row, vertex) {
                return false;
            }
        }
        true
    }

    // The candidates of the row: of the vertices that it may lie on, those that are free and whose edges fit.
    pub fn candidates(&self, path: [u8; MAX_OLD], row: OldVertex) -> u64
        requires { (row.0 < 8) × EntriesBelow path row.0 }
        ensures { result ≡ set_of 64 (lent_candidate self.entry.now.problem self.entry.now.sets.now path row.0) }
    {
        let mut rest = bitset::difference(self.sets[row.0], taken(path, row.0));
        let mut fitting = 0;
        while let Some(v) = bitset::least_member(rest) {
            if self.edges_fit(path, row, NewVertex(v)) {
                fitting = bitset::with(fitting, v);
            }
            rest = bitset::without_least(rest);
        }
        fitting
    }
}
