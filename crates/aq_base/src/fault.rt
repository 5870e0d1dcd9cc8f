use crate::text::TextVal;

/// A five-character error code (PostgreSQL manual, appendix "PostgreSQL Error Codes").
#[derive(Clone, Copy, Debug, PartialEq, Eq)]
pub struct Code(pub [u8; 5]);

/// A refusal: its code, its text and, where there is one, its detail.
#[derive(Debug, Drop)]
pub struct SqlFault {
    pub code: Code,
    pub text: TextVal,
    pub detail: Option<TextVal>,
}
