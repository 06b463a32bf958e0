//! How a value of a file or of the command line is shown: cut, and with nothing that a terminal
//! would obey.

use std::alloc::AllocError;

/// How many characters of a value are shown.
const SHOWN: usize = 60;

/// Pushes a value, between quotation marks.
pub(crate) fn push_quoted(text: &mut String, value: &[u8]) -> Result<(), AllocError> {
    text.push('"')?;
    push_shown(text, value)?;
    text.push('"')?;
    push_cut(text, value)
}

/// Pushes all characters of a path.
pub(crate) fn push_path(text: &mut String, path: &str) -> Result<(), AllocError> {
    for character in path.chars() {
        push_character(text, character)?;
    }
    Ok(())
}

/// Pushes the characters of a value, at most 60.
pub(crate) fn push_shown(text: &mut String, value: &[u8]) -> Result<(), AllocError> {
    match std::str::from_utf8(value) {
        Ok(value) => push_characters(text, value),
        Err(_) => push_bytes(text, value),
    }
}

/// Pushes how long a value is, if it is longer than what is shown of it.
pub(crate) fn push_cut(text: &mut String, value: &[u8]) -> Result<(), AllocError> {
    if is_cut(value) {
        let bytes = value.len();
        write!(text, " and so on, {bytes} bytes")?;
    }
    Ok(())
}

// Whether a value is longer than what is shown of it.
fn is_cut(value: &[u8]) -> bool {
    match std::str::from_utf8(value) {
        Ok(value) => value.chars().count() > SHOWN,
        Err(_) => value.len() > SHOWN,
    }
}

fn push_characters(text: &mut String, value: &str) -> Result<(), AllocError> {
    for character in value.chars().take(SHOWN) {
        push_character(text, character)?;
    }
    Ok(())
}

// What isn't UTF-8 is shown byte by byte.
fn push_bytes(text: &mut String, value: &[u8]) -> Result<(), AllocError> {
    for byte in value.iter().take(SHOWN) {
        push_byte(text, *byte)?;
    }
    Ok(())
}

fn push_byte(text: &mut String, byte: u8) -> Result<(), AllocError> {
    if byte.is_ascii_graphic() || byte == b' ' {
        text.push(char::from(byte))?;
    } else {
        write!(text, "\\x{byte:02x}")?;
    }
    Ok(())
}

fn push_character(text: &mut String, character: char) -> Result<(), AllocError> {
    if character.is_control() {
        let code = u32::from(character);
        write!(text, "\\x{code:02x}")?;
    } else if turns_text(character) {
        text.push('?')?;
    } else {
        text.push(character)?;
    }
    Ok(())
}

// Whether a character is none that is seen, but changes how those around it are laid out, or ends a
// line (Unicode, general categories Cf, Zl and Zp, as far as they are in text).
fn turns_text(character: char) -> bool {
    matches!(
        character,
        '\u{ad}' | '\u{61c}' | '\u{200b}'..='\u{200f}' | '\u{2028}'..='\u{202e}'
            | '\u{2060}'..='\u{206f}' | '\u{feff}' | '\u{fff9}'..='\u{fffb}'
    )
}
