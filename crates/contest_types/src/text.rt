//! What clarifications say.
ghost use Rattle.std.specs.Prelude.{◌≡◌, Some, IfOk, IfErr, OnErr, IsTrue, IsSome};
ghost use Rattle.contest_types.specs.ClarificationText.{is_text, text_of, text_from};

use crate::Refusal;
use crate::limits::TEXT_LENGTH;
use std::alloc::Global;
use std::marker::Model;

/// The text of a clarification: 1 to 4,096 bytes of UTF-8. Contracts see its bytes.
#[derive(Clone, Drop)]
pub struct Text {
    text: String,
}

impl Model for Text {
    ghost use Rattle.std.specs.Prelude.{List, ℕ, IsTrue};
    ghost use Rattle.std.specs.String.{string_bytes};
    ghost use Rattle.contest_types.specs.ClarificationText.{is_text};

    ghost Value = { List ℕ };

    ghost view = { λ t. string_bytes t.text };

    ghost invariant = { λ t. IsTrue (is_text (string_bytes t.text)) };
}

impl Text {
    /// The text of a clarification that says this, if one can.
    ///
    /// # Errors
    ///
    /// Want of memory alone, and only where there is a text.
    pub fn parse(alloc: Global, text: &str) -> Result<Option<Text>, Refusal>
        ensures value { IfOk result (λ found. found ≡ text_of text.now) }
        ensures err { IfErr result (λ e. e ≡ Refusal.Memory) }
        ensures memory { OnErr result (IsTrue (is_text text.now)) }
    {
        if !is_text(text) {
            return Ok(None);
        }
        let text = String::from_str(alloc, text)?;
        Ok(Some(Text { text }))
    }

    /// The text that bytes spell, if they are UTF-8 and not too few or too many.
    ///
    /// # Errors
    ///
    /// Want of memory alone, and only where there is a text.
    pub fn from_bytes(alloc: Global, bytes: &[u8]) -> Result<Option<Text>, Refusal>
        ensures value { IfOk result (λ found. found ≡ text_from bytes.now) }
        ensures err { IfErr result (λ e. e ≡ Refusal.Memory) }
        ensures memory { OnErr result (IsSome (text_from bytes.now)) }
    {
        match std::str::from_utf8(bytes) {
            Ok(text) => Text::parse(alloc, text),
            Err(_) => Ok(None),
        }
    }

    /// What it says.
    pub fn as_str(&self) -> &str
        ensures bytes { result.now ≡ self.now }
        ensures text { text_from self.now ≡ Some self.now }
    {
        self.text.as_str()
    }
}

/// Whether a text is neither empty nor too long.
fn is_text(text: &str) -> bool
    ensures { result ≡ is_text text.now }
{
    !text.is_empty() && text.len() <= TEXT_LENGTH
}
