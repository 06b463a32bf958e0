//! A text of a contest that is asked for.
use crate::asked_board::{AskedBoard, Who};

/// A text of a contest that is asked for.
#[derive(Clone, Copy)]
pub enum AskedText<'a> {
    /// A board.
    Board(AskedBoard<'a>),
    /// The awards, as somebody is shown them.
    Awards(Who<'a>),
}
