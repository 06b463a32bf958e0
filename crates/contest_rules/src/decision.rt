//! What a command with a key comes to.
/// What a command with a key comes to, where the rules allow it.
#[derive(Drop)]
pub enum Decision<T, S> {
    /// A row is added.
    Add(T),
    /// The same command was given before, under the same key, and this row stands for it.
    Stands(S),
}
