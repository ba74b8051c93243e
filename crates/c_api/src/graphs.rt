// The tables of a call's own, into which the graphs of both byte slices are read.

ghost use Rattle.std.specs.Prelude.{◌≡◌};
ghost use Rattle.graph.specs.Graph.{graph};
ghost use Rattle.problem.specs.Problem.{problem as problem_of, substituting};
ghost use Rattle.problem.specs.Lent.{lent};
ghost use Rattle.problem_reader.specs.Answers.{problem_reading_of};
ghost use Rattle.problem_reader.specs.ProblemReading.{reading_problem};
ghost use Rattle.c_api.specs.Graphs.{IsEmpty};

use graph::{EDGE_BYTES, Graph, Label, MAX_ORDER};
use graph_reader::ReadError;
use problem::Problem;

#[derive(Drop)]
pub struct Graphs {
    pub old_labels: [Label; MAX_ORDER],
    pub old_edges: [u8; EDGE_BYTES],
    pub new_labels: [Label; MAX_ORDER],
    pub new_edges: [u8; EDGE_BYTES],
}

impl Graphs {
    pub fn empty() -> Graphs
        ensures { IsEmpty result }
    {
        Graphs {
            old_labels: [0; MAX_ORDER],
            old_edges: [0; EDGE_BYTES],
            new_labels: [0; MAX_ORDER],
            new_edges: [0; EDGE_BYTES],
        }
    }

    // Both orders, or the refusal of the first graph that is refused.
    pub fn read(&mut self, old_graph: &[u8], new_graph: &[u8]) -> Result<(usize, usize), ReadError>
        ensures { problem_reading_of result self.new.old_labels self.new.old_edges self.new.new_labels self.new.new_edges
            ≡ reading_problem self.old.old_labels self.old.old_edges self.old.new_labels self.old.new_edges
            old_graph.now new_graph.now }
    {
        problem_reader::read_problem(
            old_graph,
            new_graph,
            &mut self.old_labels,
            &mut self.old_edges,
            &mut self.new_labels,
            &mut self.new_edges,
        )
    }

    // The two graphs of these orders, with a list of substitutes.
    pub fn problem<'a>(&'a self, orders: (usize, usize), substitutes: &'a [u8]) -> Problem<'a>
        ensures { lent result ≡ substituting substitutes.entry.now
            (problem_of (graph orders.0 self.now.old_labels self.now.old_edges)
            (graph orders.1 self.now.new_labels self.now.new_edges)) }
    {
        Problem {
            old: Graph {
                order: orders.0,
                labels: &self.old_labels,
                edges: &self.old_edges,
            },
            new: Graph {
                order: orders.1,
                labels: &self.new_labels,
                edges: &self.new_edges,
            },
            substitutes,
        }
    }
}
