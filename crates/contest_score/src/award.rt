//! An award, and who has it.
ghost use Rattle.std.specs.Prelude.{◌≡◌, ◌++◌, IfOk};

use contest_types::Rows;
use std::alloc::{AllocError, Global};
use std::marker::Model;

/// The id or the citation of an award. Contracts see its bytes.
#[derive(Drop)]
pub struct AwardText {
    text: String,
}

impl Model for AwardText {
    ghost use Rattle.std.specs.Prelude.{List, ℕ};
    ghost use Rattle.std.specs.String.{string_bytes};

    ghost Value = { List ℕ };

    ghost view = { λ t. string_bytes t.text };
}

impl AwardText {
    /// This text.
    pub fn new(alloc: Global, text: &str) -> Result<AwardText, AllocError>
        ensures { IfOk result (λ t. t ≡ text.now) }
    {
        let text = String::from_str(alloc, text)?;
        Ok(AwardText { text })
    }

    /// What kind of award it is, and then for which problem or group.
    pub fn joined(alloc: Global, kind: &str, object: &str) -> Result<AwardText, AllocError>
        ensures { IfOk result (λ t. t ≡ kind.now ++ object.now) }
    {
        let mut text = String::from_str(alloc, kind)?;
        text.push_str(object)?;
        Ok(AwardText { text })
    }

    /// The text's characters.
    pub fn as_str(&self) -> &str
        ensures { result.now ≡ self.now }
    {
        self.text.as_str()
    }
}

/// An award (Contest API 2023-06, awards).
#[derive(Drop)]
pub struct Award {
    /// The award's id, such as `winner` or `first-to-solve-a`. With a problem's or a group's id in
    /// it, it may be longer than the 36 characters of an id.
    pub id: AwardText,
    /// What it is for, such as `Contest winner` or `First to solve problem A`.
    pub citation: AwardText,
    /// The places of the teams that have it in the settings, from 0, in the order of the board.
    pub teams: Rows<usize>,
}
