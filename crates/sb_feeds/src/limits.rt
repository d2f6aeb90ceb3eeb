//! How much a run over two files takes.

/// The most bytes of a record file.
pub const MAX_FILE_LENGTH: usize = 268_435_456;
