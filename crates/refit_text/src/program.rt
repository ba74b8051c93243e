// The steps of the refit program between reading and writing.

ghost use Rattle.std.specs.Prelude.{◌≡◌};
ghost use Rattle.problem.specs.Lent.{lent};
ghost use Rattle.search.specs.Answers.{search_answer};
ghost use Rattle.text.specs.Writes.{Writes};
ghost use Rattle.refit_text.specs.Report.{report_text};
ghost use Rattle.refit_text.specs.Program.{search_text, graphs_text};

use super::report;
use graph::{EDGE_BYTES, Graph, Label, MAX_ORDER};
use problem::Problem;
use search::{Searched, WORDS};
use text::Writer;

// The first search from a fresh checkpoint; refit has no other.
fn search_first<'a>(problem: Problem<'a>, minimum: u8, budget: u64) -> Searched
    ensures { report_text problem.entry.old.order problem.entry.new.order (search_answer result.answer) result.checkpoint
        ≡ search_text (lent problem.entry) minimum budget }
{
    let mut workspace = [0u64; WORDS];
    resume::start(problem, false, minimum, budget, &mut workspace)
}

// Both graphs are read, and the old one's refusal comes first.
pub fn put_graphs(
    old_bytes: &[u8],
    new_bytes: &[u8],
    minimum: u8,
    budget: u64,
    writer: &mut Writer<'_>,
)
    ensures { Writes (graphs_text old_bytes.now new_bytes.now minimum budget) writer.old writer.new }
{
    let mut old_labels = [0 as Label; MAX_ORDER];
    let mut old_edges = [0u8; EDGE_BYTES];
    let mut new_labels = [0 as Label; MAX_ORDER];
    let mut new_edges = [0u8; EDGE_BYTES];
    let read = problem_reader::read_problem(
        old_bytes,
        new_bytes,
        &mut old_labels,
        &mut old_edges,
        &mut new_labels,
        &mut new_edges,
    );
    match read {
        Ok((old_order, new_order)) => {
            let old = Graph {
                order: old_order,
                labels: &old_labels,
                edges: &old_edges,
            };
            let new = Graph {
                order: new_order,
                labels: &new_labels,
                edges: &new_edges,
            };
            let problem = Problem {
                old,
                new,
                substitutes: &[],
            };
            let searched = search_first(problem, minimum, budget);
            report::put_report(old_order, new_order, searched, writer);
        }
        Err(error) => report::put_refusal(error, writer),
    }
}
