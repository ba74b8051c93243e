// The tables of a graph, to be filled and lent.

use graph::{Graph, Label};

#[derive(Drop)]
pub struct Tables {
    pub labels: [Label; 64],
    pub edges: [u8; 4096],
}

impl Tables {
    // The tables of the empty graph.
    pub fn empty() -> Tables {
        Tables {
            labels: [0; 64],
            edges: [0; 4096],
        }
    }

    pub fn graph(&self, order: usize) -> Graph<'_> {
        Graph {
            order,
            labels: &self.labels,
            edges: &self.edges,
        }
    }
}
