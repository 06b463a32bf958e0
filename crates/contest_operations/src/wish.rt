//! What a known caller wishes, once its body is read.
use crate::command::Posted;
use crate::operation::Reading;
use contest_types::{Audience, Rows};

/// What a known caller wishes, once its body is read.
#[derive(Drop)]
pub enum Wish {
    /// To read, as an audience, what a path names, or the caller's own account by its id.
    Read(Reading, Audience, Rows<u8>),
    /// That what it posts is done.
    Do(Posted),
}
