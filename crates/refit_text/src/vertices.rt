// The lines of the vertices: those kept, those to be removed, those to be fitted.

ghost use Rattle.std.specs.Prelude.{◌≡◌};
ghost use Rattle.text.specs.Writes.{Writes};
ghost use Rattle.refit_text.specs.Lines.{keep_line, keep_lines, remove_lines, is_free, fit_lines};
ghost use Rattle.refit_text.specs.Report.{vertex_lines};

use mapping::{NewVertex, OldVertex, UNMAPPED};
use text::Writer;

fn put_keep(v: OldVertex, w: NewVertex, writer: &mut Writer<'_>)
    ensures { Writes (keep_line v.0 w.0) writer.old writer.new }
{
    writer.put_pair_line(b"keep ", v.0 as u64, w.0 as u64);
}

fn put_kept(mapping: &[u8], writer: &mut Writer<'_>)
    ensures { Writes (keep_lines mapping.now) writer.old writer.new }
{
    for (v, image) in mapping.iter().enumerate() {
        if *image != UNMAPPED {
            put_keep(OldVertex(v), NewVertex(*image as usize), writer);
        }
    }
}

fn put_removed(mapping: &[u8], writer: &mut Writer<'_>)
    ensures { Writes (remove_lines mapping.now) writer.old writer.new }
{
    for (v, image) in mapping.iter().enumerate() {
        if *image == UNMAPPED {
            writer.put_number_line(b"remove ", v as u64);
        }
    }
}

// Whether w is the image of no old vertex.
fn is_free(mapping: &[u8], w: NewVertex) -> bool
    ensures { result ≡ is_free mapping.now w.0 }
{
    mapping.iter().all(|image| *image as usize != w.0)
}

fn put_fitted(new_order: usize, mapping: &[u8], writer: &mut Writer<'_>)
    ensures { Writes (fit_lines new_order mapping.now) writer.old writer.new }
{
    for w in 0..new_order {
        if is_free(mapping, NewVertex(w)) {
            writer.put_number_line(b"fit ", w as u64);
        }
    }
}

pub fn put_vertices(new_order: usize, mapping: &[u8], writer: &mut Writer<'_>)
    ensures { Writes (vertex_lines new_order mapping.now) writer.old writer.new }
{
    put_kept(mapping, writer);
    put_removed(mapping, writer);
    put_fitted(new_order, mapping, writer);
}
