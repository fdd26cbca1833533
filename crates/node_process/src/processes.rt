//! What the system says of a process.

/// What the system says of this process.
pub trait Process {
    /// How many descriptors it may have.
    fn descriptors(&self) -> u64;

    /// How many kinds of signals that ask for its end have come.
    fn ends_asked(&self) -> u32;
}
