// The text of each refusal's number, for people. The numbers are the document's, and the texts stand here alone: no program in another language needs a table of its own.

#![tactic(auto)]

mod table;

ghost use Rattle.std.specs.Prelude.{◌≡◌};
ghost use Rattle.answers.specs.Output.{fill};
ghost use Rattle.reasons.specs.Reasons.{reason_text};
ghost use Rattle.reasons.specs.Rows.{RowsTell};
ghost use Rattle.reasons.specs.Answers.{reason_refusal, writing_of};

use answers::Refusal;
use text::Writer;

// Each number below this one has a row.
const COUNT: usize = 29;

// Why no text was written: the buffer is too short for it.
#[derive(Clone, Copy, Debug, PartialEq, Eq)]
pub enum ReasonError {
    TooShort,
}

impl Refusal for ReasonError {
    ghost says = { reason_refusal };

    fn number(self) -> u8 {
        match self {
            ReasonError::TooShort => 13,
        }
    }

    fn place(self) -> usize {
        0
    }
}

fn all_rows() -> [&'static str; COUNT]
    ensures { RowsTell result }
{
    table::ROWS
}

// The empty text where no refusal has the number.
fn text(number: u32) -> &'static str
    ensures { result.now ≡ reason_text number }
{
    all_rows().get(number as usize).copied().unwrap_or("")
}

// The text of a number, at the front of `out`: the empty one if no refusal has the number.
pub fn reason(number: u32, out: &mut [u8]) -> Result<usize, ReasonError>
    ensures { writing_of result out.new ≡ fill (reason_text number) out.old }
{
    let text = text(number).as_bytes();
    if out.len() < text.len() {
        return Err(ReasonError::TooShort);
    }
    let mut writer = Writer::new(out);
    writer.put(text);
    Ok(writer.written())
}
