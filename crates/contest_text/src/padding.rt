//! Texts in columns of a terminal.
ghost use Rattle.std.specs.Prelude.{◌≡◌, ◌++◌, OnOk, string_bytes};
ghost use Rattle.contest_text.specs.Padding.{fill, left, right};

use std::alloc::AllocError;
use unicode_width::UnicodeWidthStr;

/// Pushes a text at the left of so many columns; a longer one stands whole.
pub(crate) fn push_left(out: &mut String, columns: usize, text: &str) -> Result<(), AllocError>
    ensures { OnOk result (string_bytes out.new ≡ string_bytes out.old ++ left columns text.now) }
{
    out.push_str(text)?;
    push_fill(out, columns, text)
}

/// Pushes a text at the right of so many columns; a longer one stands whole.
pub(crate) fn push_right(out: &mut String, columns: usize, text: &str) -> Result<(), AllocError>
    ensures { OnOk result (string_bytes out.new ≡ string_bytes out.old ++ right columns text.now) }
{
    push_fill(out, columns, text)?;
    out.push_str(text)
}

/// Pushes the spaces that fill so many columns beside a text.
fn push_fill(out: &mut String, columns: usize, text: &str) -> Result<(), AllocError>
    ensures { OnOk result (string_bytes out.new ≡ string_bytes out.old ++ fill columns text.now) }
{
    for _ in 0..columns.saturating_sub(text.width()) {
        out.push(' ')?;
    }
    Ok(())
}
