/// What a read of a file answers. The project's own.
#[derive(Debug, Drop)]
pub enum ReadAnswer {
    /// The bytes of the file, or the first of them up to the limit.
    Bytes(Vec<u8>),
    /// There is no file of that name.
    Absent,
    /// The read failed.
    Failed,
    /// There is no memory for the bytes.
    Memory,
}

/// What a write of a file, or a put into a sink, answers. The project's own.
#[derive(Clone, Copy, Debug, PartialEq, Eq)]
pub enum WriteAnswer {
    /// All bytes are written.
    Done,
    /// The write failed.
    Failed,
    /// There is no memory for the bytes.
    Memory,
}
