// What a case lends: the tables of a graph read from its bytes, and then harmed in at most one way.

use graph::{Graph, Label};
use problem::Problem;
use std::io;

// What is wrong with the tables. The graphs here that are harmed have fewer than 64 vertices, and at least one.
#[derive(Clone, Copy, Debug, PartialEq, Eq)]
pub enum Harm {
    Sound,
    // the order is 65
    Order,
    // 63 labels are lent
    ShortLabels,
    // 4,095 edges are lent
    ShortEdges,
    // 63, which is no vertex, has a label
    Label,
    // 0, which is a vertex, has none
    NoLabel,
    // 63, which is no vertex, has an edge with itself
    Edge,
}

// A graph's bytes, and what is wrong with its tables.
#[derive(Clone, Copy)]
pub struct Source<'a> {
    pub bytes: &'a [u8],
    pub harm: Harm,
}

pub fn sound(bytes: &[u8]) -> Source<'_> {
    Source {
        bytes,
        harm: Harm::Sound,
    }
}

// Three programs of vectors have these: shared, they would be a crate of public functions that no document asks for.
#[derive(Drop)]
pub struct Tables {
    order: usize,
    labels: [Label; 64],
    edges: [u8; 4096],
    harm: Harm,
}

impl Tables {
    // Bytes that hold no graph are told of in the output.
    pub fn read(rt: &impl Print, source: Source<'_>) -> io::Result<Tables> {
        let mut labels = [0; 64];
        let mut edges = [0; 4096];
        let mut order = 0;
        match graph_reader::read_graph(source.bytes, &mut labels, &mut edges) {
            Ok(read) => order = read,
            Err(_) => println!(rt; "no graph")?,
        }
        match source.harm {
            Harm::Order => order = 65,
            Harm::Label => labels[63] = 9,
            Harm::NoLabel => labels[0] = 0,
            Harm::Edge => edges[4095] = 1,
            Harm::Sound | Harm::ShortLabels | Harm::ShortEdges => {}
        }
        Ok(Tables {
            order,
            labels,
            edges,
            harm: source.harm,
        })
    }

    fn graph(&self) -> Graph<'_> {
        let label_count = if self.harm == Harm::ShortLabels {
            63
        } else {
            64
        };
        let edge_count = if self.harm == Harm::ShortEdges {
            4095
        } else {
            4096
        };
        Graph {
            order: self.order,
            labels: &self.labels[..label_count],
            edges: &self.edges[..edge_count],
        }
    }
}

pub fn lend<'a>(old: &'a Tables, new: &'a Tables, substitutes: &'a [u8]) -> Problem<'a> {
    let old = old.graph();
    let new = new.graph();
    Problem {
        old,
        new,
        substitutes,
    }
}
