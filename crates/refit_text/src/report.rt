// The lines of a search call's answer.

ghost use Rattle.std.specs.Prelude.{◌≤◌};
ghost use Rattle.answers.specs.Answer.{refusal_number};
ghost use Rattle.search.specs.Answers.{search_answer};
ghost use Rattle.text.specs.Writes.{Writes};
ghost use Rattle.refit_text.specs.Lines.{state_line, size_line};
ghost use Rattle.refit_text.specs.Report.{accepted_text, refused_text, report_text};

use super::vertices;
use answers::Refusal;
use checkpoint::Checkpoint;
use search::Searched;
use text::Writer;

fn put_state(finished: bool, writer: &mut Writer<'_>)
    ensures { Writes (state_line finished) writer.old writer.new }
{
    if finished {
        writer.put(b"state done\n");
    } else {
        writer.put(b"state stopped\n");
    }
}

// The flag stands beside the mapping as in a checkpoint: `size_line` is over both.
fn put_size(holds: bool, mapping: &[u8], writer: &mut Writer<'_>)
    ensures { Writes (size_line holds mapping.now) writer.old writer.new }
{
    if holds {
        writer.put_number_line(b"size ", mapping::mapping_size(mapping) as u64);
    } else {
        writer.put(b"size none\n");
    }
}

// The lines of an accepted call.
fn put_accepted(
    old_order: usize,
    new_order: usize,
    ceiling: usize,
    checkpoint: &Checkpoint,
    writer: &mut Writer<'_>,
)
    requires { old_order ≤ 64 }
    ensures { Writes (accepted_text old_order new_order ceiling checkpoint.now) writer.old writer.new }
{
    let mapping = &checkpoint.incumbent[..old_order];
    put_state(checkpoint.finished, writer);
    put_size(checkpoint.holds, mapping, writer);
    writer.put_number_line(b"steps ", checkpoint.steps);
    writer.put_number_line(b"fence ", ceiling as u64);
    if checkpoint.holds {
        vertices::put_vertices(new_order, mapping, writer);
    }
}

pub fn put_refusal<E: Refusal>(error: E, writer: &mut Writer<'_>)
    ensures { Writes (refused_text (refusal_number (E.says error))) writer.old writer.new }
{
    writer.put_number_line(b"refused ", error.number() as u64);
}

pub fn put_report(old_order: usize, new_order: usize, searched: Searched, writer: &mut Writer<'_>)
    requires { old_order ≤ 64 }
    ensures { Writes (report_text old_order new_order (search_answer searched.answer) searched.checkpoint) writer.old writer.new }
{
    match searched.answer {
        Ok(ceiling) => put_accepted(old_order, new_order, ceiling, &searched.checkpoint, writer),
        Err(error) => put_refusal(error, writer),
    }
}
