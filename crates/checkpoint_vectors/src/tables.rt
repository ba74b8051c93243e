// The tables of a graph, to be read, changed and lent.

ghost use Rattle.std.specs.Prelude.{◌≤◌};

use graph::{Graph, Label};
use problem::Problem;
use std::io;

// Three programs of vectors have these: shared, they would be a crate of public functions that no document asks for.
#[derive(Drop)]
pub struct Tables {
    pub order: usize,
    pub labels: [Label; 64],
    pub edges: [u8; 4096],
}

impl Tables {
    // The tables of the empty graph.
    pub fn empty() -> Tables {
        Tables {
            order: 0,
            labels: [0; 64],
            edges: [0; 4096],
        }
    }

    // The tables of vertices of label 7, with no edges.
    pub fn loose(order: usize) -> Tables
        requires { order ≤ 64 }
    {
        let mut tables = Tables::empty();
        tables.order = order;
        tables.labels[..order].fill(7);
        tables
    }

    // Bytes that hold no graph are told of in the output.
    pub fn read(rt: &impl Print, bytes: &[u8]) -> io::Result<Tables> {
        let mut tables = Tables::empty();
        match graph_reader::read_graph(bytes, &mut tables.labels, &mut tables.edges) {
            Ok(order) => tables.order = order,
            Err(_) => println!(rt; "no graph")?,
        }
        Ok(tables)
    }

    fn graph(&self) -> Graph<'_> {
        Graph {
            order: self.order,
            labels: &self.labels,
            edges: &self.edges,
        }
    }
}

pub fn lend<'a>(old: &'a Tables, new: &'a Tables, substitutes: &'a [u8]) -> Problem<'a> {
    let old = old.graph();
    let new = new.graph();
    Problem {
        old,
        new,
        substitutes,
    }
}
