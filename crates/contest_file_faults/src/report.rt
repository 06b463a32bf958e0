//! The lines of an explanation.

use crate::shown::{push_cut, push_path, push_quoted, push_shown};
use std::alloc::{AllocError, Global};

/// The lines of an explanation, each of which begins with two spaces. The error of each call is want
/// of memory.
#[derive(Drop)]
pub struct Report {
    text: String,
}

impl Report {
    /// No line.
    pub fn new(alloc: Global) -> Report {
        Report {
            text: String::new(alloc),
        }
    }

    /// The lines.
    pub fn into_text(self) -> String {
        self.text
    }

    /// A whole line.
    pub fn line(&mut self, words: &str) -> Result<(), AllocError> {
        self.begin()?;
        self.say(words)?;
        self.end()
    }

    /// Begins a line.
    pub fn begin(&mut self) -> Result<(), AllocError> {
        self.text.push_str("  ")
    }

    /// Ends a line.
    pub fn end(&mut self) -> Result<(), AllocError> {
        self.text.push_str("\n")
    }

    /// Words of this program in a line.
    pub fn say(&mut self, words: &str) -> Result<(), AllocError> {
        self.text.push_str(words)
    }

    /// A number in a line.
    pub fn number(&mut self, number: u64) -> Result<(), AllocError> {
        write!(self.text, "{number}")
    }

    /// A value in a line, between quotation marks.
    pub(crate) fn quoted(&mut self, value: &[u8]) -> Result<(), AllocError> {
        push_quoted(&mut self.text, value)
    }

    /// A path in a line.
    pub fn path(&mut self, path: &str) -> Result<(), AllocError> {
        push_path(&mut self.text, path)
    }

    /// A value in a line that has marks of its own, as the text of a JSON value.
    pub(crate) fn plain(&mut self, value: &[u8]) -> Result<(), AllocError> {
        push_shown(&mut self.text, value)?;
        push_cut(&mut self.text, value)
    }
}
