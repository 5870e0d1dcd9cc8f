//! Names and reserved words.

ghost use Rattle.std.specs.Prelude.{◌≡◌};
ghost use Rattle.std.specs.List.{list_all};
ghost use Rattle.aq_base.specs.Names.{same_text, is_between, begins_word, goes_on_in_word, is_word, is_short, is_name};

use aq_base::TextVal;
use aq_lex::is_reserved;

fn begins_word(byte: u8) -> bool
    ensures { result ≡ begins_word byte }
{
    (b'a' <= byte && byte <= b'z') || byte == b'_'
}

fn is_digit(byte: u8) -> bool
    ensures { result ≡ is_between 48 57 byte }
{
    b'0' <= byte && byte <= b'9'
}

fn goes_on_in_word(byte: u8) -> bool
    ensures { result ≡ goes_on_in_word byte }
{
    begins_word(byte) || is_digit(byte) || byte == b'$'
}

/// Whether two texts have the same bytes.
pub fn same_text(a: &[u8], b: &[u8]) -> bool
    ensures { result ≡ same_text a.now b.now }
{
    a == b
}

fn all_go_on(bytes: &[u8]) -> bool
    ensures { result ≡ list_all goes_on_in_word bytes.now }
{
    bytes.iter().all(|byte| goes_on_in_word(*byte))
}

fn is_word(text: &[u8]) -> bool
    ensures { result ≡ is_word text.now }
{
    match text {
        [] => false,
        [first, rest @ ..] => begins_word(*first) && all_go_on(rest),
    }
}

fn is_short(text: &[u8]) -> bool
    ensures { result ≡ is_short text.now }
{
    text.len() <= 63
}

/// Whether a text is an unreserved word of 63 bytes at the most.
pub fn is_name(text: &TextVal) -> bool
    ensures { result ≡ is_name text.now }
{
    let bytes = text.bytes();
    is_word(bytes) && is_short(bytes) && !is_reserved(bytes)
}
