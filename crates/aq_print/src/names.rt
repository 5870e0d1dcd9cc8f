//! Names and texts between quotes, and names that need none.

ghost use Rattle.std.specs.Prelude.{◌≡◌, ◌++◌, ◌∷◌, [], ◌||◌, ◌==◌, OnOk, if◌then◌else◌};
ghost use Rattle.std.specs.List.{list_all};
ghost use Rattle.std.specs.Char.{to_ascii_lowercase};
ghost use Rattle.aq_lex.specs.Tokens.{begins_word, goes_on_in_word, is_word, quoted};
ghost use Rattle.aq_texts.specs.Written.{is_bare, name_text};

use aq_base::{NoMemory, TextVal};
use aq_lex::is_reserved;

fn begins_word(byte: u8) -> bool
    ensures { result ≡ begins_word byte }
{
    byte.is_ascii_alphabetic() || byte == b'_'
}

fn goes_on_in_word(byte: u8) -> bool
    ensures { result ≡ goes_on_in_word byte }
{
    byte.is_ascii_alphanumeric() || byte == b'_' || byte == b'$'
}

fn go_on_in_word(bytes: &[u8]) -> bool
    ensures { result ≡ list_all goes_on_in_word bytes.now }
{
    bytes.iter().all(|byte| goes_on_in_word(*byte))
}

fn is_word(name: &[u8]) -> bool
    ensures { result ≡ is_word name.now }
{
    match name.split_first() {
        None => false,
        Some((first, others)) => begins_word(*first) && go_on_in_word(others),
    }
}

fn is_in_lower_case(name: &[u8]) -> bool
    ensures { result ≡ list_all (λ byte. to_ascii_lowercase byte == byte) name.now }
{
    name.iter().all(|byte| byte.to_ascii_lowercase() == *byte)
}

/// Whether the name reads back as the same unreserved word.
#[tactic(auto, using(crate::proofs::NameTests::same_in_lower_case))]
fn is_bare(name: &[u8]) -> bool
    ensures { result ≡ is_bare name.now }
{
    is_word(name) && is_in_lower_case(name) && !is_reserved(name)
}

fn push_doubled(out: &mut Vec<u8>, quote: u8, byte: u8) -> Result<(), NoMemory>
    ensures { OnOk result (out.new.items ≡ out.old.items ++ (if byte == quote then quote ∷ quote ∷ [] else byte ∷ [])) }
{
    if byte == quote {
        out.push(quote)?;
    }
    Ok(out.push(byte)?)
}

/// A text between quotes, each quote in it written twice.
pub fn push_quoted(out: &mut Vec<u8>, quote: u8, text: &[u8]) -> Result<(), NoMemory>
    ensures { OnOk result (out.new.items ≡ out.old.items ++ quoted quote text.now) }
{
    out.push(quote)?;
    for byte in text {
        push_doubled(out, quote, *byte)?;
    }
    Ok(out.push(quote)?)
}

/// A name: bare where it reads back as the same unreserved word, and else between quotes.
pub fn push_name(out: &mut Vec<u8>, name: &TextVal) -> Result<(), NoMemory>
    ensures { OnOk result (out.new.items ≡ out.old.items ++ name_text name.now) }
{
    if is_bare(name.bytes()) {
        out.extend_from_slice(name.bytes())
    } else {
        push_quoted(out, b'"', name.bytes())
    }
}
