// Two graphs read from their bytes into four lent tables.

#![tactic(auto)]

ghost use Rattle.std.specs.Prelude.{◌≡◌};
ghost use Rattle.graph.specs.Soundness.{tables_fit};
ghost use Rattle.problem_reader.specs.Answers.{problem_reading_of};
ghost use Rattle.problem_reader.specs.ProblemReading.{reading_problem};

use graph::{Graph, Label};
use graph_reader::ReadError;

// Whether two tables have the lengths of a graph's.
fn tables_fit(labels: &[Label], edges: &[u8]) -> bool
    ensures { result ≡ tables_fit 0 labels.now edges.now }
{
    let empty = Graph {
        order: 0,
        labels,
        edges,
    };
    empty.tables_fit()
}

// Reads each graph into its two tables, whatever becomes of the other, and answers both orders. The lengths of all tables come first, then the old graph's
// refusal.
pub fn read_problem(
    old_bytes: &[u8],
    new_bytes: &[u8],
    old_labels: &mut [Label],
    old_edges: &mut [u8],
    new_labels: &mut [Label],
    new_edges: &mut [u8],
) -> Result<(usize, usize), ReadError>
    ensures { problem_reading_of result old_labels.new old_edges.new new_labels.new new_edges.new
        ≡ reading_problem old_labels.old old_edges.old new_labels.old new_edges.old
        old_bytes.now new_bytes.now }
{
    if !tables_fit(old_labels, old_edges) {
        return Err(ReadError::Tables);
    }
    if !tables_fit(new_labels, new_edges) {
        return Err(ReadError::Tables);
    }
    let old = graph_reader::read_graph(old_bytes, old_labels, old_edges);
    let new = graph_reader::read_graph(new_bytes, new_labels, new_edges);
    Ok((old?, new?))
}
