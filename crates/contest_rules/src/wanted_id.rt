//! What a request gives as the id of a submission.
ghost use Rattle.std.specs.Prelude.{◌≡◌, IfOk};

use std::alloc::{AllocError, Global};
use std::marker::Model;

/// What a request gives as an id: any text. One that is no id names nothing. Contracts see its
/// bytes.
#[derive(Drop)]
pub struct WantedId {
    text: String,
}

impl Model for WantedId {
    ghost use Rattle.std.specs.Prelude.{List, ℕ};
    ghost use Rattle.std.specs.String.{string_bytes};

    ghost Value = { List ℕ };

    ghost view = { λ id. string_bytes id.text };
}

impl WantedId {
    /// What is given as this text.
    ///
    /// # Errors
    ///
    /// Want of memory alone.
    pub fn new(alloc: Global, text: &str) -> Result<WantedId, AllocError>
        ensures { IfOk result (λ id. id ≡ text.now) }
    {
        let text = String::from_str(alloc, text)?;
        Ok(WantedId { text })
    }

    /// The text.
    pub fn as_str(&self) -> &str
        ensures { result.now ≡ self.now }
    {
        self.text.as_str()
    }
}
