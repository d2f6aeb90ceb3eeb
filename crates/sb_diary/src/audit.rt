//! What an audit of a diary text finds.

/// Why a line of a diary text is refused. The tests are made in this order, and the first that fails is given. `line`
/// is the number of the line: the first line of a text has number 1.
#[derive(Clone, Copy, Debug, PartialEq, Eq)]
pub enum AuditFault {
    /// 4,294,967,295 lines stand before it.
    TooMany,
    /// It has more bytes than whoever reads the text takes in one line.
    TooLong { line: u64 },
    /// It is no line of a diary.
    Malformed { line: u64 },
    /// It is not legal after the lines before it.
    NotLegal { line: u64 },
}

/// Why an audit stops before the end.
#[derive(Clone, Copy, Debug, PartialEq, Eq)]
pub enum AuditStop {
    /// A line is refused: the first one that is.
    Fault(AuditFault),
    /// There was not enough memory.
    Memory,
}

/// What an audit says of the lines that it took.
#[derive(Clone, Copy, Debug, PartialEq, Eq)]
pub struct AuditEnd {
    /// How many head lines there are: transforms, and the sink, which is the last node of a whole text.
    pub transforms: u32,
    /// How many other lines there are.
    pub events: u64,
    /// Whether each diary is settled: nothing in it is left open.
    pub settled: bool,
}
