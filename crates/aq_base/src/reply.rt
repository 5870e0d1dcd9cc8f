use crate::fault::Code;
use crate::text::TextVal;
use crate::value::Row;

/// One line of a statement's reply, as data.
#[derive(Drop)]
pub enum ReplyLine {
    /// A row that a SELECT returned.
    Row(Row),
    /// The tag of a statement that succeeded, as `INSERT 0 1`.
    Tag(TextVal),
    /// A warning with its code and text.
    Warning { code: Code, text: TextVal },
    /// An error with its code and text.
    Error { code: Code, text: TextVal },
    /// The detail of the error before it.
    Detail(TextVal),
}
