// One command of graph bytes: decoded from the front of the rest of the bytes, judged against the graph so far, and added to its tables.

ghost use Rattle.std.specs.Prelude.{◌≡◌, List, ℕ, ◌≤◌, ◌<◌, length};
ghost use Rattle.graph.specs.Graph.{graph};
ghost use Rattle.graph_reader.specs.Commands.{decode as decoded, width as width_of};
ghost use Rattle.graph_reader.specs.Reading.{Applied};

use super::{Edition, Fault};
use graph::{Label, MAX_ORDER};

// A command. Bytes that make none have the last two cases, as in `decode` and `judge` of specs/: so one arm of the loop refuses every fault.
#[derive(Clone, Copy, Debug, PartialEq, Eq)]
pub enum Command {
    Vertex(Label),
    Edge(u8, u8, u8),
    End,
    Truncated,
    Unknown,
}

// The command at the front of `rest`.
pub fn decode(edition: Edition, rest: &[u8]) -> Command
    ensures { result ≡ decoded edition rest.now }
{
    match rest {
        [] => Command::Truncated,
        [0, ..] => Command::End,
        [code, ..] if *code == edition.vertex_code() => {
            if rest.len() < edition.vertex_width() {
                Command::Truncated
            } else {
                Command::Vertex(edition.whole_label(rest))
            }
        }
        [2, a, b, label, ..] => Command::Edge(*a, *b, *label),
        [2, ..] => Command::Truncated,
        _ => Command::Unknown,
    }
}

impl Command {
    // How many bytes a whole command takes.
    pub fn width(self, edition: Edition) -> usize
        ensures { result ≡ width_of edition self }
    {
        match self {
            Command::Vertex(_) => edition.vertex_width(),
            Command::Edge(_, _, _) => 4,
            Command::End => 1,
            Command::Truncated => 0,
            Command::Unknown => 0,
        }
    }
}

// The next vertex, with its label: the graph's order after it.
#[tactic(auto, unfolding(crate::specs::Reading::judge))]
pub fn add_vertex(
    to: Edition,
    label: Label,
    order: usize,
    labels: &mut [Label],
) -> Result<Option<usize>, Fault>
    requires { (length labels.old ≡ 64) × (order ≤ 64) }
    ensures { (edges : List ℕ) → Applied to (graph order labels.old edges) (Command.Vertex label) result labels.new edges }
{
    if label == 0 {
        return Err(Fault::ZeroLabel);
    }
    if MAX_ORDER <= order {
        return Err(Fault::TooManyVertices);
    }
    if to.greatest_label() < label {
        return Err(Fault::WideLabel);
    }
    labels[order] = label;
    Ok(Some(order + 1))
}

// An edge between two vertices, which may be one and the same, entered both ways.
#[tactic(auto, unfolding(crate::specs::Reading::judge))]
pub fn add_edge(
    a: u8,
    b: u8,
    edge_label: u8,
    order: usize,
    edges: &mut [u8],
) -> Result<Option<usize>, Fault>
    requires { (length edges.old ≡ 4096) × (order ≤ 64) }
    ensures { (to : Edition) → (labels : List ℕ) → Applied to (graph order labels edges.old) (Command.Edge a b edge_label) result labels edges.new }
{
    let first = a as usize;
    let second = b as usize;
    if order <= first || order <= second {
        return Err(Fault::MissingVertex);
    }
    if edge_label == 0 {
        return Err(Fault::NullEdge);
    }
    if edges[MAX_ORDER * first + second] != 0 {
        return Err(Fault::RepeatedEdge);
    }
    edges[MAX_ORDER * first + second] = edge_label;
    edges[MAX_ORDER * second + first] = edge_label;
    Ok(Some(order))
}

// One command, judged against the graph so far and added to its tables if it stands: the order it makes, or none at the end.
#[tactic(auto, unfolding(crate::specs::Reading::judge))]
pub fn apply(
    to: Edition,
    command: Command,
    order: usize,
    labels: &mut [Label],
    edges: &mut [u8],
) -> Result<Option<usize>, Fault>
    requires { (length labels.old ≡ 64) × (length edges.old ≡ 4096) × (order ≤ 64) }
    ensures { Applied to (graph order labels.old edges.old) command result labels.new edges.new }
{
    match command {
        Command::Vertex(label) => add_vertex(to, label, order, labels),
        Command::Edge(a, b, label) => add_edge(a, b, label, order, edges),
        Command::End => Ok(None),
        Command::Truncated => Err(Fault::Truncated),
        Command::Unknown => Err(Fault::UnknownCommand),
    }
}
