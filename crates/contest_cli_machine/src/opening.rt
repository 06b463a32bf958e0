//! How the file that keeps a contest is opened.

/// Whether a file that isn't there is made.
#[derive(Clone, Copy)]
pub enum Opening {
    /// None is made: the file has to be there.
    Existing,
    /// It is made where it isn't there.
    New,
}
