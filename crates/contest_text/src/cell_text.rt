//! How a cell of the board is written.
ghost use Rattle.std.specs.Prelude.{◌≡◌, ◌++◌, OnOk, string_bytes};
ghost use Rattle.contest_text.specs.CellText.{judged_text, pending_text, cell_text};

use contest_score::Cell;
use contest_types::Minute;
use std::alloc::AllocError;

/// Writes a cell in place of what stood in the buffer: `+<judged>/<minute>` where it is solved,
/// else `-<judged>`, then `?<pending>`; a dot where that is empty.
pub(crate) fn write_cell(out: &mut String, cell: &Cell) -> Result<(), AllocError>
    ensures { OnOk result (string_bytes out.new ≡ cell_text cell.now) }
{
    out.clear();
    push_judged(out, cell.judged, cell.solved)?;
    push_pending(out, cell.pending)?;
    if out.is_empty() {
        out.push('.')?;
    }
    Ok(())
}

fn push_judged(out: &mut String, judged: u32, solved: Option<Minute>) -> Result<(), AllocError>
    ensures { OnOk result (string_bytes out.new ≡ string_bytes out.old ++ judged_text judged solved) }
{
    match solved {
        Some(minute) => {
            let minute = minute.0;
            write!(out, "+{judged}/{minute}")
        }
        None => {
            if judged == 0 {
                Ok(())
            } else {
                write!(out, "-{judged}")
            }
        }
    }
}

fn push_pending(out: &mut String, pending: u32) -> Result<(), AllocError>
    ensures { OnOk result (string_bytes out.new ≡ string_bytes out.old ++ pending_text pending) }
{
    if pending == 0 {
        Ok(())
    } else {
        write!(out, "?{pending}")
    }
}
