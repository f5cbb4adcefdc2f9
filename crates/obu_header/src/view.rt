use crate::head::ObuHead;

/// An OBU, and where it stands in its buffer.
#[derive(Clone, Copy)]
pub struct ObuView<'a> {
    /// The place of its first byte.
    pub at: usize,
    /// The place after its last byte.
    pub end: usize,
    /// The fields of its header.
    pub head: ObuHead<'a>,
    /// Its last bytes, after the header.
    pub payload: &'a [u8],
}
