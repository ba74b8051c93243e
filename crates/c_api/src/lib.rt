// What C, Rust or Python links: exported functions on numbers and byte slices, over graph bytes and checkpoint bytes. include/golfcedar.h declares them.

#![tactic(auto)]

mod graphs;

ghost use Rattle.std.specs.Prelude.{◌≡◌};
ghost use Rattle.answers.specs.Output.{fill};
ghost use Rattle.reasons.specs.Reasons.{reason_text};
ghost use Rattle.inputs.specs.Judging.{judged, judging};
ghost use Rattle.step_limit.specs.StepLimits.{foretold};
ghost use Rattle.replies.specs.Reply.{reply, reply_of};
ghost use Rattle.replies.specs.Checked.{checked};
ghost use Rattle.replies.specs.Resumed.{resumed};
ghost use Rattle.replies.specs.ReadOut.{read_out};
ghost use Rattle.replies.specs.CliqueReply.{clique_reply};
ghost use Rattle.descent_replies.specs.DescentReply.{descent_reply};
ghost use Rattle.c_api.specs.Checks.{checking_graph, checking_mapping};
ghost use Rattle.c_api.specs.Calls.{asked, starting, resuming};
ghost use Rattle.c_api.specs.Descents.{descend_starting, descend_resuming};
ghost use Rattle.c_api.specs.ReadOut.{reading_out};
ghost use Rattle.c_api.specs.Branching.{branching};
ghost use Rattle.c_api.specs.Moves.{moving_to};
ghost use Rattle.c_api.specs.Wrote.{wrote, wrote_by};
ghost use Rattle.c_api.specs.Version.{version};

use checkpoint::Checkpoint;
use graph_reader::Edition;
use graphs::Graphs;
use replies::Reply;

// 1.0.0: major, minor and patch, a byte each for the last two.
const VERSION: u32 = 65536;

// Whether the bytes are a graph.
#[unsafe(no_mangle)]
pub extern "C" fn golfcedar_check_graph(graph: &[u8], value: &mut u64) -> u32
    ensures { reply result value.new ≡ checking_graph graph.now }
{
    let reply = inputs::judge_graph(graph);
    reply.tell(value)
}

// Whether two graphs and a list are ones, which every call on them tests first, and which of the three is not.
#[unsafe(no_mangle)]
pub extern "C" fn golfcedar_check_problem(
    old_graph: &[u8],
    new_graph: &[u8],
    substitutes: &[u8],
    value: &mut u64,
    about: &mut u64,
) -> u32
    ensures { judged about.new (reply result value.new)
        ≡ judging old_graph.now new_graph.now substitutes.now }
{
    let judgement = inputs::judge(old_graph, new_graph, substitutes);
    *about = judgement.about;
    judgement.reply.tell(value)
}

// The text of a refusal's number.
#[unsafe(no_mangle)]
pub extern "C" fn golfcedar_reason(number: u32, text: &mut [u8], value: &mut u64) -> u32
    ensures { wrote (reply result value.new) text.new ≡ wrote_by (fill (reason_text number) text.old) }
{
    let reply = Reply::of(reasons::reason(number, text));
    reply.tell(value)
}

// The library's version.
#[unsafe(no_mangle)]
pub extern "C" fn golfcedar_version() -> u32
    ensures { result ≡ version }
{
    VERSION
}

// Moves graph bytes of edition 1 to edition 2.
#[unsafe(no_mangle)]
pub extern "C" fn golfcedar_to_edition_2(graph: &[u8], out: &mut [u8], value: &mut u64) -> u32
    ensures { wrote (reply result value.new) out.new ≡ moving_to Edition.One Edition.Two graph.now out.old }
{
    let reply = Reply::of(graph_writer::to_edition_2(graph, out));
    reply.tell(value)
}

// Moves graph bytes of edition 2 back to edition 1, where every label fits a byte.
#[unsafe(no_mangle)]
pub extern "C" fn golfcedar_to_edition_1(graph: &[u8], out: &mut [u8], value: &mut u64) -> u32
    ensures { wrote (reply result value.new) out.new ≡ moving_to Edition.Two Edition.One graph.now out.old }
{
    let reply = Reply::of(graph_writer::to_edition_1(graph, out));
    reply.tell(value)
}

// Whether the mapping is a common subgraph of the two graphs, under the substitutes.
#[unsafe(no_mangle)]
pub extern "C" fn golfcedar_check_mapping(
    old_graph: &[u8],
    new_graph: &[u8],
    substitutes: &[u8],
    mapping: &[u8],
    value: &mut u64,
    earlier: &mut u64,
) -> u32
    ensures { checked (reply result value.new) earlier.new
        ≡ checking_mapping old_graph.now new_graph.now substitutes.now mapping.now }
{
    let mut graphs = Graphs::empty();
    match graphs.read(old_graph, new_graph) {
        Err(error) => {
            let reply = Reply::refused(error);
            *earlier = 0;
            reply.tell(value)
        }
        Ok(orders) => {
            let problem = graphs.problem(orders, substitutes);
            let checked = replies::of_mapping(mapping::check_mapping(problem, mapping));
            *earlier = checked.earlier;
            checked.reply.tell(value)
        }
    }
}

// A search that has not begun, as checkpoint bytes: the first one where `connected` is 0, else the connected one, here and below.
#[unsafe(no_mangle)]
pub extern "C" fn golfcedar_start(
    old_graph: &[u8],
    new_graph: &[u8],
    substitutes: &[u8],
    connected: u32,
    minimum: u8,
    checkpoint: &mut [u8],
    value: &mut u64,
) -> u32
    ensures { wrote (reply result value.new) checkpoint.new
        ≡ starting old_graph.now new_graph.now substitutes.now (asked connected) minimum checkpoint.old }
{
    let mut graphs = Graphs::empty();
    match graphs.read(old_graph, new_graph) {
        Err(error) => {
            let reply = Reply::refused(error);
            reply.tell(value)
        }
        Ok(orders) => {
            let problem = graphs.problem(orders, substitutes);
            let fresh = Checkpoint::fresh(minimum);
            let reply = Reply::of(checkpoint_saver::save_checkpoint(
                problem,
                connected != 0,
                fresh,
                checkpoint,
            ));
            reply.tell(value)
        }
    }
}

// A search goes on for as many visits as the budget says, from checkpoint bytes to checkpoint bytes.
#[unsafe(no_mangle)]
pub extern "C" fn golfcedar_resume(
    old_graph: &[u8],
    new_graph: &[u8],
    substitutes: &[u8],
    connected: u32,
    checkpoint: &[u8],
    budget: u64,
    workspace: &mut [u64],
    next: &mut [u8],
    value: &mut u64,
    ceiling: &mut u64,
) -> u32
    ensures { resumed (reply result value.new) ceiling.new workspace.new next.new
        ≡ resuming old_graph.now new_graph.now substitutes.now (asked connected) checkpoint.now budget
        workspace.old next.old }
{
    let mut graphs = Graphs::empty();
    match graphs.read(old_graph, new_graph) {
        Err(error) => {
            let reply = Reply::refused(error);
            *ceiling = 0;
            reply.tell(value)
        }
        Ok(orders) => {
            let problem = graphs.problem(orders, substitutes);
            let resumed = replies::resume(
                problem,
                connected != 0,
                checkpoint,
                budget,
                workspace,
                next,
            );
            *ceiling = resumed.ceiling;
            resumed.reply.tell(value)
        }
    }
}

// A descent that has not begun, as the checkpoint bytes of its first search.
#[unsafe(no_mangle)]
pub extern "C" fn golfcedar_descend_start(
    old_graph: &[u8],
    new_graph: &[u8],
    substitutes: &[u8],
    connected: u32,
    floor: u8,
    checkpoint: &mut [u8],
    value: &mut u64,
) -> u32
    ensures { wrote (reply result value.new) checkpoint.new
        ≡ descend_starting old_graph.now new_graph.now substitutes.now (asked connected) floor checkpoint.old }
{
    let mut graphs = Graphs::empty();
    match graphs.read(old_graph, new_graph) {
        Err(error) => {
            let reply = Reply::refused(error);
            reply.tell(value)
        }
        Ok(orders) => {
            let problem = graphs.problem(orders, substitutes);
            let reply = Reply::of(descent_replies::start(
                problem,
                connected != 0,
                floor,
                checkpoint,
            ));
            reply.tell(value)
        }
    }
}

// A descent goes on for as many visits as the budget says, from checkpoint bytes to checkpoint bytes.
#[unsafe(no_mangle)]
pub extern "C" fn golfcedar_descend_resume(
    old_graph: &[u8],
    new_graph: &[u8],
    substitutes: &[u8],
    connected: u32,
    floor: u8,
    checkpoint: &[u8],
    budget: u64,
    workspace: &mut [u64],
    next: &mut [u8],
    value: &mut u64,
    ceiling: &mut u64,
    visits: &mut u64,
) -> u32
    ensures { descent_reply (reply result value.new) ceiling.new visits.new workspace.new next.new
        ≡ descend_resuming old_graph.now new_graph.now substitutes.now (asked connected) floor checkpoint.now budget
        workspace.old next.old }
{
    let mut graphs = Graphs::empty();
    match graphs.read(old_graph, new_graph) {
        Err(error) => {
            let reply = Reply::refused(error);
            *ceiling = 0;
            *visits = 0;
            reply.tell(value)
        }
        Ok(orders) => {
            let problem = graphs.problem(orders, substitutes);
            let descended = descent_replies::descend(
                problem,
                connected != 0,
                floor,
                checkpoint,
                budget,
                workspace,
                next,
            );
            *ceiling = descended.ceiling;
            *visits = descended.visits;
            descended.reply.tell(value)
        }
    }
}

// What checkpoint bytes say: the state, the steps, what is held and its size, and the ceiling.
#[unsafe(no_mangle)]
pub extern "C" fn golfcedar_read_out(
    old_graph: &[u8],
    new_graph: &[u8],
    substitutes: &[u8],
    connected: u32,
    checkpoint: &[u8],
    mapping: &mut [u8],
    value: &mut u64,
    steps: &mut u64,
    size: &mut u64,
    ceiling: &mut u64,
) -> u32
    ensures { read_out (reply result value.new) steps.new size.new ceiling.new mapping.new
        ≡ reading_out old_graph.now new_graph.now substitutes.now (asked connected) checkpoint.now
        mapping.old }
{
    *steps = 0;
    *size = 0;
    *ceiling = 0;
    let mut graphs = Graphs::empty();
    match graphs.read(old_graph, new_graph) {
        Err(error) => {
            let reply = Reply::refused(error);
            reply.tell(value)
        }
        Ok(orders) => {
            let problem = graphs.problem(orders, substitutes);
            let out = replies::read_out(problem, connected != 0, checkpoint, mapping);
            *steps = out.steps;
            *size = out.size;
            *ceiling = out.ceiling;
            out.reply.tell(value)
        }
    }
}

// The first of the largest common subgraphs of at least `minimum` pairs, under the substitutes, by clique branching.
#[unsafe(no_mangle)]
pub extern "C" fn golfcedar_clique(
    old_graph: &[u8],
    new_graph: &[u8],
    substitutes: &[u8],
    minimum: u8,
    mapping: &mut [u8],
    value: &mut u64,
    size: &mut u64,
) -> u32
    ensures { clique_reply (reply result value.new) size.new mapping.new
        ≡ branching old_graph.now new_graph.now substitutes.now minimum mapping.old }
{
    let mut graphs = Graphs::empty();
    match graphs.read(old_graph, new_graph) {
        Err(error) => {
            let reply = Reply::refused(error);
            *size = 0;
            reply.tell(value)
        }
        Ok(orders) => {
            let problem = graphs.problem(orders, substitutes);
            let found = replies::branch(problem, minimum, mapping);
            *size = found.size;
            found.reply.tell(value)
        }
    }
}

// How many visits a search of two graphs of these orders can take at most.
#[unsafe(no_mangle)]
pub extern "C" fn golfcedar_step_limit(new_order: u64, old_order: u64, value: &mut u64) -> u32
    ensures { reply result value.new ≡ reply_of (foretold new_order old_order) }
{
    let reply = match step_limit::step_limit(new_order as usize, old_order as usize) {
        Ok(limit) => Reply::accepted(limit),
        Err(error) => Reply::refused(error),
    };
    reply.tell(value)
}
