use thiserror::Error;

/// Why a line of a script was not read.
#[derive(Clone, Copy, Debug, Error)]
pub enum LineFault {
    /// The line says nothing that a script may say.
    #[error("not a line of a script")]
    Faulty,
    /// No memory was left.
    #[error("out of memory")]
    Memory,
}
