// The form of checkpoint bytes, walked byte by byte to the first one that cannot stand where it does.

ghost use Rattle.std.specs.Prelude.{◌≡◌, ◌+◌, ◌^◌, ◌<◌};
ghost use Rattle.checkpoint_loader.specs.Form.{header_stage, path_stage, next as next_stage, form_fault, count};

use checkpoint_saver::{END, INCUMBENT_MARK, MINIMUM_MARK, PATH_MARK, STATE_MARK, STEPS_MARK};

// What may come next: a byte of the header; an entry of the path, its byte; an entry of the incumbent, its byte; nothing.
#[derive(Clone, Copy)]
pub enum Stage {
    Header(usize),
    Path(bool, usize),
    PathByte(bool, usize),
    Incumbent(usize),
    IncumbentByte(usize),
    Done,
}

fn after_header(i: usize, byte: u8) -> Option<Stage>
    requires { i + 1 < 2 ^ 64 }
    ensures { result ≡ header_stage i byte }
{
    match i {
        0 => (byte == MINIMUM_MARK).then_some(Stage::Header(1)),
        2 => (byte == STEPS_MARK).then_some(Stage::Header(3)),
        11 => (byte == STATE_MARK).then_some(Stage::Header(12)),
        12 => (byte <= 3).then_some(Stage::Path(byte % 2 == 1, 0)),
        _ => Some(Stage::Header(i + 1)),
    }
}

fn after_path(order: usize, holds: bool, k: usize, byte: u8) -> Option<Stage>
    ensures { result ≡ path_stage order holds k byte }
{
    let incumbent_due = holds && 0 < order;
    match byte {
        PATH_MARK => (k < order).then_some(Stage::PathByte(holds, k)),
        INCUMBENT_MARK => incumbent_due.then_some(Stage::IncumbentByte(0)),
        END => (!incumbent_due).then_some(Stage::Done),
        _ => None,
    }
}

impl Stage {
    // The stage after a byte, if the byte can stand there.
    fn next(self, order: usize, byte: u8) -> Option<Stage>
        requires { count self + 1 < 2 ^ 64 }
        ensures { result ≡ next_stage order self byte }
    {
        match self {
            Stage::Header(i) => after_header(i, byte),
            Stage::Path(holds, k) => after_path(order, holds, k, byte),
            Stage::PathByte(holds, k) => Some(Stage::Path(holds, k + 1)),
            Stage::Incumbent(k) => {
                if k < order {
                    (byte == INCUMBENT_MARK).then_some(Stage::IncumbentByte(k))
                } else {
                    (byte == END).then_some(Stage::Done)
                }
            }
            Stage::IncumbentByte(k) => Some(Stage::Incumbent(k + 1)),
            Stage::Done => None,
        }
    }
}

// The place of the first byte that cannot stand where it does, the length if the end is missing, and nothing where the bytes are in the form.
pub fn find_fault(order: usize, bytes: &[u8]) -> Option<usize>
    ensures { result ≡ form_fault order bytes.now }
{
    let mut stage = Stage::Header(0);
    for (at, byte) in bytes.iter().enumerate() {
        match stage.next(order, *byte) {
            Some(later) => stage = later,
            None => return Some(at),
        }
    }
    match stage {
        Stage::Done => None,
        _ => Some(bytes.len()),
    }
}
