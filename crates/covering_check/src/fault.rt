// Why a line shows nothing.
use thiserror::Error;

/// Why a line of a covering shows no entry. A place counts the bytes of the line's letters from 0.
#[derive(Clone, Copy, Debug, PartialEq, Eq, Error)]
pub enum CoverFault {
    /// It is no JSON object with the members of a line.
    #[error("no line")]
    NotLine,
    /// It is of another column or day.
    #[error("another column or day")]
    Column,
    /// A letter is needed, and this byte is none.
    #[error("no letter at {0}")]
    Letter(usize),
    /// A letter is needed, and the letters have ended.
    #[error("too few letters")]
    Short,
    /// Letters or bytes are left over.
    #[error("too many letters")]
    Long,
    /// This letter isn't the one that shows its cell.
    #[error("not shown at {0}")]
    NotShown(usize),
    /// The refuted cell isn't refuted as the line says.
    #[error("not failing")]
    NotFailing,
    /// Memory was not found.
    #[error("no memory")]
    NoMemory,
}
