//! Why a field cannot be read.

/// Why a field cannot be read. The number is a place in the bytes that the reader was made of, from 0.
#[derive(Clone, Copy, Debug, PartialEq, Eq, thiserror::Error)]
pub enum CodecError {
    /// The field that begins at this place lacks bytes.
    #[error("the field at byte {0} lacks bytes")]
    Short(usize),
    /// The field that begins at this place is not spelled, or the byte at this place should not be there.
    #[error("the field at byte {0} is wrong")]
    BadField(usize),
}
