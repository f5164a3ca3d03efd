//! What becomes of a task.

/// What became of a frontier, or of a task, that a path was to start with. One that wasn't started is handed back.
#[derive(Drop)]
pub enum Start<T> {
    Started,
    /// The path holds another.
    Busy(T),
    /// There is no memory.
    NoMemory(T),
}
