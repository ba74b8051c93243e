// Two graphs to be compared, the old and the new one, and a list of substitutes, pairs of an old and a new label that agree beside equal ones: as they are
// lent, and whether all three are sound.

#![tactic(auto)]

mod vertex_sets;

ghost use Rattle.std.specs.Prelude.{◌≡◌};
ghost use Rattle.problem.specs.declared.ProblemFlaw.TheVariants.{Graph as OfGraph, Substitutes as OfSubstitutes};
ghost use Rattle.problem.specs.Problem.{both_fit, problem_answer};
ghost use Rattle.problem.specs.Lent.{lent};
ghost use Rattle.problem.specs.VertexSets.{Allowing};
ghost use Rattle.problem.specs.Answers.{problem_refusal, problem_answer_of};

use answers::Refusal;
use graph::{Flaw, Graph, MAX_ORDER};
use substitutes::SubstitutesFlaw;

// Why what is lent is no problem of two sound graphs and a sound list.
#[derive(Clone, Copy, Debug, PartialEq, Eq)]
pub enum ProblemFlaw {
    Graph(Flaw),
    Substitutes(SubstitutesFlaw),
}

impl Refusal for ProblemFlaw {
    ghost says = { problem_refusal };

    fn number(self) -> u8 {
        match self {
            ProblemFlaw::Graph(flaw) => flaw.number(),
            ProblemFlaw::Substitutes(flaw) => flaw.number(),
        }
    }

    fn place(self) -> usize {
        0
    }
}

impl From<Flaw> for ProblemFlaw {
    ghost from_gives = { λ flaw r. r ≡ OfGraph flaw };

    fn from(flaw: Flaw) -> ProblemFlaw {
        ProblemFlaw::Graph(flaw)
    }
}

impl From<SubstitutesFlaw> for ProblemFlaw {
    ghost from_gives = { λ flaw r. r ≡ OfSubstitutes flaw };

    fn from(flaw: SubstitutesFlaw) -> ProblemFlaw {
        ProblemFlaw::Substitutes(flaw)
    }
}

// What a call on two graphs and a list is lent. Which search a call is of stands beside it: clique branching and the check of a mapping are of none.
#[derive(Clone, Copy)]
pub struct Problem<'a> {
    pub old: Graph<'a>,
    pub new: Graph<'a>,
    pub substitutes: &'a [u8],
}

impl<'a> Problem<'a> {
    // Whether the tables of both graphs have their lengths, and both orders are at most 64.
    fn both_fit(self) -> bool
        ensures { result ≡ both_fit (lent self.entry) }
    {
        self.old.tables_fit() && self.new.tables_fit()
    }

    // Whether both sets of tables hold sound graphs and the list is sound; the lengths and orders of both come first, then the old graph, and the list last.
    pub fn check(self) -> Result<(), ProblemFlaw>
        ensures { problem_answer_of result ≡ problem_answer (lent self.entry) }
    {
        if !self.both_fit() {
            return Err(ProblemFlaw::Graph(Flaw::Tables));
        }
        self.old.check()?;
        self.new.check()?;
        substitutes::check_substitutes(self.substitutes)?;
        Ok(())
    }

    // For each old vertex the set of the new vertices that it may lie on. An edge with itself is to a vertex like a second label, which no list lets differ.
    pub fn allowed_sets(self) -> [u64; MAX_ORDER]
        ensures { Allowing self.entry result }
    {
        let agreeing = substitutes::agreeing(self.old.labels, self.new.labels, self.substitutes);
        let old = vertex_sets::diagonal(self.old.edges);
        let new = vertex_sets::diagonal(self.new.edges);
        let same = substitutes::agreeing(&old, &new, &[]);
        vertex_sets::meet_all(agreeing, same)
    }
}
