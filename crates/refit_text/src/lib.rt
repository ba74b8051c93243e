// All that the refit program prints, as bytes in a lent buffer.

#![tactic(auto)]

mod program;
mod report;
mod vertices;

ghost use Rattle.std.specs.Prelude.{◌≡◌};
ghost use Rattle.answers.specs.Output.{fill};
ghost use Rattle.refit_text.specs.Program.{written, refit_text};

use text::Writer;

// Whatever the files hold, what is printed has no more bytes.
pub const MAX_TEXT: usize = 8192;

// All that the program prints, of the bytes of both graphs and of standard input, to the front of `out`. Returns how many bytes that are.
pub fn refit(old_bytes: &[u8], new_bytes: &[u8], input: &[u8], out: &mut [u8; MAX_TEXT]) -> usize
    ensures { written result out.new
        ≡ fill (refit_text old_bytes.now new_bytes.now input.now) out.old }
{
    let mut writer = Writer::new(out);
    if input.len() == 9 {
        let budget = little_endian::load(&input[1..]);
        program::put_graphs(old_bytes, new_bytes, input[0], budget, &mut writer);
    } else {
        writer.put(b"refused input\n");
    }
    writer.written()
}
