//! In which lines of a JSON text the items of its array begin.

/// A walk over the bytes of a JSON text that is an array.
#[derive(Clone, Copy)]
struct Walk {
    line: u64,
    items: u64,
    depth: u64,
    is_in_text: bool,
    is_escaped: bool,
    awaits_item: bool,
}

/// The line, from 1, in which the item with this number begins, from 1; the last line if there is
/// none.
pub(crate) fn line_of_item(text: &[u8], number: u64) -> u64 {
    let mut walk = Walk {
        line: 1,
        items: 0,
        depth: 0,
        is_in_text: false,
        is_escaped: false,
        awaits_item: false,
    };
    for byte in text {
        walk.take(*byte);
        if walk.items == number {
            break;
        }
    }
    walk.line
}

impl Walk {
    // Takes the next byte.
    fn take(&mut self, byte: u8) {
        if self.is_in_text {
            self.take_in_text(byte);
        } else if byte == b'\n' {
            self.line = self.line.saturating_add(1);
        } else if byte != b' ' && byte != b'\t' && byte != b'\r' {
            self.take_mark(byte);
        }
    }

    fn take_in_text(&mut self, byte: u8) {
        if self.is_escaped {
            self.is_escaped = false;
        } else if byte == b'\\' {
            self.is_escaped = true;
        } else if byte == b'"' {
            self.is_in_text = false;
        }
    }

    // Takes a byte outside of texts that isn't white.
    fn take_mark(&mut self, byte: u8) {
        if self.depth == 1 && self.awaits_item && byte != b']' {
            self.awaits_item = false;
            self.items = self.items.saturating_add(1);
        }
        match byte {
            b'"' => self.is_in_text = true,
            b'[' | b'{' => {
                self.awaits_item = self.depth == 0;
                self.depth = self.depth.saturating_add(1);
            }
            b']' | b'}' => self.depth = self.depth.saturating_sub(1),
            b',' => self.awaits_item = self.depth == 1,
            _ => (),
        }
    }
}
