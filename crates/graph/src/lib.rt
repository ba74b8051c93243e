// Graphs in two lent tables, and the test of soundness.
// A graph is a number of vertices, 64 vertex labels of two bytes and 4,096 edge labels of one, the label of the edge of a and b at 64 * a + b.

#![tactic(auto)]

mod joined;
mod null_edges;
mod same_edges;
mod table_tests;

ghost use Rattle.std.specs.Prelude.{◌≡◌};
ghost use Rattle.graph.specs.Lent.{lent_graph};
ghost use Rattle.graph.specs.Soundness.{tables_fit, soundness};
ghost use Rattle.graph.specs.Answers.{flaw_refusal, soundness_answer};

use answers::Refusal;

// A vertex label: one alias says its width.
pub type Label = u16;

// The greatest order, which is the length of the label table, and the length of the edge table.
pub const MAX_ORDER: usize = 64;

pub const EDGE_BYTES: usize = 4096;

// Why lent tables hold no sound graph.
#[derive(Clone, Copy, Debug, PartialEq, Eq)]
pub enum Flaw {
    Tables,
    Labels,
    Edges,
}

impl Refusal for Flaw {
    ghost says = { flaw_refusal };

    fn number(self) -> u8 {
        match self {
            Flaw::Tables => 10,
            Flaw::Labels => 11,
            Flaw::Edges => 12,
        }
    }

    fn place(self) -> usize {
        0
    }
}

// A graph as it is lent: its order, and its two tables, of any lengths.
#[derive(Clone, Copy)]
pub struct Graph<'a> {
    pub order: usize,
    pub labels: &'a [Label],
    pub edges: &'a [u8],
}

impl<'a> Graph<'a> {
    // Whether the tables have 64 labels and 4,096 bytes, and the order is at most 64.
    pub fn tables_fit(self) -> bool
        ensures { result ≡ tables_fit self.entry.order self.entry.labels.now self.entry.edges.now }
    {
        self.labels.len() == MAX_ORDER && self.edges.len() == EDGE_BYTES && self.order <= MAX_ORDER
    }

    // Whether the tables hold a sound graph of that order.
    pub fn check(self) -> Result<(), Flaw>
        ensures { soundness_answer result ≡ soundness (lent_graph self.entry) }
    {
        let (Ok(labels), Ok(edges)) = (
            <&[Label; MAX_ORDER]>::try_from(self.labels),
            <&[u8; EDGE_BYTES]>::try_from(self.edges),
        ) else {
            return Err(Flaw::Tables);
        };
        if MAX_ORDER < self.order {
            return Err(Flaw::Tables);
        }
        if !table_tests::labels_sound(self.order, labels) {
            return Err(Flaw::Labels);
        }
        if !table_tests::edges_sound(self.order, edges) {
            return Err(Flaw::Edges);
        }
        Ok(())
    }
}
