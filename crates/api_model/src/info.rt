//! Buffers.
use sqlite_items::Items;

/// What a taken buffer says of itself (Python/C API manual, "Buffer Protocol"). Strides and items are in bytes. Without a
/// letter no format is given, which stands for unsigned bytes; an indirect buffer has suboffsets.
#[derive(Drop)]
pub struct Info {
    pub letter: Option<u8>,
    pub at_sign: bool,
    pub item: u32,
    pub readonly: bool,
    pub indirect: bool,
    pub shape: Items<i64>,
    pub strides: Items<i64>,
}
