// What a call on two graphs and a list of substitutes tests before all else, and which of the three is at fault.

#![tactic(auto)]

ghost use Rattle.std.specs.Prelude.{◌≡◌};
ghost use Rattle.graph_reader.specs.Reading.{read_graph};
ghost use Rattle.substitutes.specs.Soundness.{substitutes_answer};
ghost use Rattle.replies.specs.Reply.{reply_of};
ghost use Rattle.inputs.specs.Judging.{judging};

use graph::{EDGE_BYTES, Label, MAX_ORDER};
use replies::Reply;

// What a reply is about: nothing is at fault, or the first input that is. Numbers and no enum, since C gets them.
const NONE: u64 = 0;

const OLD_GRAPH: u64 = 1;

const NEW_GRAPH: u64 = 2;

const SUBSTITUTES: u64 = 3;

// A reply, and what it is about.
#[derive(Clone, Copy, Debug, PartialEq, Eq)]
pub struct Judgement {
    pub reply: Reply,
    pub about: u64,
}

// Whether the bytes are a graph.
pub fn judge_graph(graph: &[u8]) -> Reply
    ensures { result ≡ reply_of (read_graph graph.now).answer }
{
    let mut labels = [0 as Label; MAX_ORDER];
    let mut edges = [0u8; EDGE_BYTES];
    Reply::of(graph_reader::read_graph(graph, &mut labels, &mut edges))
}

// Whether the list is sound.
fn judge_list(list: &[u8]) -> Reply
    ensures { result ≡ reply_of (substitutes_answer list.now) }
{
    match substitutes::check_substitutes(list) {
        Ok(()) => Reply::accepted(0),
        Err(flaw) => Reply::refused(flaw),
    }
}

// The old graph comes first, then the new one, then the list.
pub fn judge(old_graph: &[u8], new_graph: &[u8], list: &[u8]) -> Judgement
    ensures { result ≡ judging old_graph.now new_graph.now list.now }
{
    let old = judge_graph(old_graph);
    if old.number != 0 {
        return Judgement {
            reply: old,
            about: OLD_GRAPH,
        };
    }
    let new = judge_graph(new_graph);
    if new.number != 0 {
        return Judgement {
            reply: new,
            about: NEW_GRAPH,
        };
    }
    let reply = judge_list(list);
    if reply.number != 0 {
        return Judgement {
            reply,
            about: SUBSTITUTES,
        };
    }
    Judgement { reply, about: NONE }
}
