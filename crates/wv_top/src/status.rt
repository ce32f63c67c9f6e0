//! How the program ends.

/// How a call of the loader ended, with the exit status of the program (our own).
#[derive(Clone, Copy, Debug, PartialEq, Eq)]
pub enum Status {
    /// All was done.
    Done = 0,
    /// A rule is broken, and one line names it.
    Refused = 1,
    /// The words are no command, and one line says how the program is called.
    Usage = 2,
    /// The folder could not be read.
    ReadFault = 3,
    /// A file could not be put, or a line could not be written.
    WriteFault = 4,
    /// Memory ran out.
    Memory = 5,
}
