// Mappings of the old graph's vertices to the new graph's, and the check of a mapping.
// A mapping has one byte for each old vertex: a new vertex's number, or 255 where the vertex is left out.

#![tactic(auto)]

mod rows;

ghost use Rattle.std.specs.Prelude.{◌≡◌};
ghost use Rattle.problem.specs.Lent.{lent};
ghost use Rattle.mapping.specs.declared.MappingError.TheVariants.{Flawed as OfProblem};
ghost use Rattle.mapping.specs.Common.{size};
ghost use Rattle.mapping.specs.Answers.{mapping_outcome, mappings_outcome, mapping_refusal};
ghost use Rattle.mapping.specs.Check.{check_outcome, both_outcomes};

use answers::Refusal;
use problem::{Problem, ProblemFlaw};
use rows::Rows;

// The entry of a row that is left out.
pub const UNMAPPED: u8 = 255;

// An old and a new vertex: a number of one never serves as the other's.
#[derive(Clone, Copy, Debug, PartialEq, Eq)]
pub struct OldVertex(pub usize);

#[derive(Clone, Copy, Debug, PartialEq, Eq)]
pub struct NewVertex(pub usize);

// Why a mapping is no common subgraph, with the row at fault and, where two rows clash, the earlier row; of a row with itself, that row twice.
#[derive(Clone, Copy, Debug, PartialEq, Eq)]
pub enum MappingError {
    Flawed(ProblemFlaw),
    Length,
    NoVertex(OldVertex),
    SameImage(OldVertex, OldVertex),
    LabelsDisagree(OldVertex),
    EdgesDiffer(OldVertex, OldVertex),
}

impl Refusal for MappingError {
    ghost says = { mapping_refusal };

    fn number(self) -> u8 {
        match self {
            MappingError::Flawed(flaw) => flaw.number(),
            MappingError::Length => 18,
            MappingError::NoVertex(_) => 19,
            MappingError::SameImage(_, _) => 20,
            MappingError::LabelsDisagree(_) => 21,
            MappingError::EdgesDiffer(_, _) => 22,
        }
    }

    fn place(self) -> usize {
        match self {
            MappingError::Flawed(_) | MappingError::Length => 0,
            MappingError::NoVertex(row) | MappingError::LabelsDisagree(row) => row.0,
            MappingError::SameImage(row, _) | MappingError::EdgesDiffer(row, _) => row.0,
        }
    }
}

impl From<ProblemFlaw> for MappingError {
    ghost from_gives = { λ flaw r. r ≡ OfProblem flaw };

    fn from(flaw: ProblemFlaw) -> MappingError {
        MappingError::Flawed(flaw)
    }
}

// What the check of a mapping answers: its size, or why it is no common subgraph.
pub type Checked = Result<usize, MappingError>;

// The number of pairs of a mapping.
pub fn mapping_size(mapping: &[u8]) -> usize
    ensures { result ≡ size mapping.now }
{
    rows::size(mapping)
}

// Whether the mapping is a common subgraph of the two graphs, under the substitutes.
pub fn check_mapping<'a>(problem: Problem<'a>, mapping: &'a [u8]) -> Checked
    ensures { mapping_outcome result ≡ check_outcome (lent problem.entry) mapping.now }
{
    problem.check()?;
    let agreeing = substitutes::agreeing(
        problem.old.labels,
        problem.new.labels,
        problem.substitutes,
    );
    rows::check_list(problem, &agreeing, mapping)
}

// Whether each of two mappings is a common subgraph: the graphs and the substitutes are tested once for both.
pub fn check_mappings<'a>(
    problem: Problem<'a>,
    first: &'a [u8],
    second: &'a [u8],
) -> Result<(Checked, Checked), ProblemFlaw>
    ensures { mappings_outcome result ≡ both_outcomes (lent problem.entry) first.now second.now }
{
    problem.check()?;
    let agreeing = substitutes::agreeing(
        problem.old.labels,
        problem.new.labels,
        problem.substitutes,
    );
    Ok((
        rows::check_list(problem, &agreeing, first),
        rows::check_list(problem, &agreeing, second),
    ))
}
