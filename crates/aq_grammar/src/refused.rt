//! Tokens that are refused where they begin.

ghost use Rattle.std.specs.Prelude.{◌≡◌, ◌++◌, ◌∷◌, IfOk};
ghost use Rattle.aq_grammar.specs.Forms.{unsupported, limit};
ghost use Rattle.aq_grammar.specs.Steps.{IsFaultOr};

use crate::fault::ReadFault;
use aq_base::{Code, NoMemory, SqlFault, TextVal};
use aq_lex::Lexed;
use std::alloc::Global;

/// A fault with no detail.
pub(crate) fn plain_fault(alloc: Global, code: &[u8; 5], text: &str) -> Result<SqlFault, NoMemory>
    ensures { IfOk result (λ fault. fault ≡ record { code = record { 0 = code.now }; text = text.now; detail = None }) }
{
    Ok(SqlFault {
        code: Code(*code),
        text: TextVal::new(alloc, text)?,
        detail: None,
    })
}

/// A fault that names something between quotes, with no detail.
pub fn naming_fault(
    alloc: Global,
    code: &[u8; 5],
    before: &str,
    name: &TextVal,
    behind: &str,
) -> Result<SqlFault, NoMemory>
    ensures { IfOk result (λ fault. fault ≡ record { code = record { 0 = code.now }; text = before.now ++ 34 ∷ (name.now ++ 34 ∷ behind.now); detail = None }) }
{
    let mut text = String::from_str(alloc, before)?;
    text.push_str("\"")?;
    text.push_str(name.as_str())?;
    text.push_str("\"")?;
    text.push_str(behind)?;
    Ok(SqlFault {
        code: Code(*code),
        text: TextVal::from_string(text),
        detail: None,
    })
}

/// The tokens are refused where they begin, with a code and a text.
fn refused(alloc: Global, tokens: &Lexed<'_>, code: &[u8; 5], text: &str) -> ReadFault
    ensures { IsFaultOr (record { code = record { 0 = code.now }; text = text.now; detail = None }) tokens.now result }
{
    match plain_fault(alloc, code, text) {
        Ok(fault) => ReadFault::Refused {
            left: tokens.len(),
            fault,
        },
        Err(_) => ReadFault::NoMemory,
    }
}

/// A form that is not supported begins the tokens.
pub fn unsupported(alloc: Global, tokens: &Lexed<'_>, text: &str) -> ReadFault
    ensures { IsFaultOr (unsupported text.now) tokens.now result }
{
    refused(alloc, tokens, b"0A000", text)
}

/// A limit is passed where the tokens begin.
pub fn passes_limit(alloc: Global, tokens: &Lexed<'_>, text: &str) -> ReadFault
    ensures { IsFaultOr (limit text.now) tokens.now result }
{
    refused(alloc, tokens, b"54000", text)
}
