// The one type for short texts: up to 24 bytes of any value, kept as they were typed.
// Length 0 means that there is none: the image of cells has no other way to say so.
use crate::bytes::Bytes;

// The most bytes that a text can have.
pub const TEXT_MOST: usize = 24;

pub type Text = Bytes<TEXT_MOST>;
