//! Reading one token.

ghost use Rattle.std.specs.Prelude.{◌≡◌, ◌∷◌, [], pos, Option, Some, None, false, not, length, map, nat_le, codes, IfOk, option_map, unwrap_or, if◌then◌else◌};
ghost use Rattle.std.specs.List.{list_any, list_all};
ghost use Rattle.aq_base.specs.Names.{same_text};
ghost use Rattle.aq_lex.specs.Lexemes.{first_text};
ghost use Rattle.aq_grammar.specs.Terminals.{begins, begin_with, Keyword, Sign, Name, NameOf, NameBut, PlainName, Number, Count, Literal, LiteralInCode, Message, StateCode, Heading, text_of, number_of, is_code_byte, is_state_code, holds};
ghost use Rattle.aq_grammar.specs.Rules.{Token};
ghost use Rattle.aq_grammar.specs.Expressions.{literal_in};
ghost use Rattle.aq_grammar.specs.Nonterminals.{reads};
ghost use Rattle.aq_grammar.specs.Forms.{word, says, sign, name, public_name};
ghost use Rattle.aq_grammar.specs.Steps.{Gives, read_text, first_text_of, first_count, first_code};

use crate::fault::{ReadFault, syntax};
use crate::scope::Scope;
use aq_base::{Code, NoMemory, TextVal};
use aq_lex::{Directive, Lexed, Symbol, TokenKind};
use std::alloc::Global;

/// What was read, and the tokens behind it.
pub type Read<'a, X> = Result<(X, Lexed<'a>), ReadFault>;

/// Whether the first token is this word, in lower case.
pub fn is_word(tokens: &Lexed<'_>, text: &[u8]) -> bool
    ensures begins { result ≡ begins (Keyword text.now ∷ []) tokens.now }
    ensures whole { result ≡ begin_with (Keyword text.now ∷ []) tokens.now }
{
    tokens.is_word(text)
}

/// Whether the tokens begin with these two words.
pub fn are_words(tokens: &Lexed<'_>, first: &[u8], second: &[u8]) -> bool
    ensures { result ≡ begin_with (Keyword first.now ∷ Keyword second.now ∷ []) tokens.now }
{
    tokens.is_word(first) && tokens.rest().is_word(second)
}

/// Whether the first token is one of these words.
#[tactic(auto, using(crate::proofs::Tokens::words_begin))]
pub fn is_one_of(tokens: &Lexed<'_>, words: &[&str]) -> bool
    ensures { result ≡ begins (map (λ word. Keyword word.now) words.now) tokens.now }
{
    tokens.is_one_of(words)
}

/// A word that is given, in lower case.
pub fn word<'a>(tokens: &Lexed<'a>, text: &[u8]) -> Read<'a, ()>
    ensures { Gives (λ x. tt) result (reads (word text.now) tokens.now) }
{
    if tokens.is_word(text) {
        Ok(((), tokens.rest()))
    } else {
        Err(syntax(tokens))
    }
}

/// A word that is given, in lower case, with what it says.
pub fn says<'a, X: Drop>(tokens: &Lexed<'a>, text: &[u8], meaning: X) -> Read<'a, X>
    ensures { Gives (λ x. x) result (reads (says text.now meaning) tokens.now) }
{
    if tokens.is_word(text) {
        Ok((meaning, tokens.rest()))
    } else {
        Err(syntax(tokens))
    }
}

/// Whether the first token is this symbol.
pub fn is_symbol(tokens: &Lexed<'_>, symbol: Symbol) -> bool
    ensures begins { result ≡ begins (Sign symbol ∷ []) tokens.now }
    ensures whole { result ≡ begin_with (Sign symbol ∷ []) tokens.now }
{
    match tokens.kind() {
        Some(TokenKind::Symbol(found)) => found == symbol,
        _ => false,
    }
}

/// Whether one of the symbols is the first token.
fn is_sign_among(tokens: &Lexed<'_>, symbols: &[Symbol]) -> bool
    ensures { result ≡ list_any (λ symbol. begins (Sign symbol ∷ []) tokens.now) symbols.now }
{
    symbols.iter().any(|symbol| is_symbol(tokens, *symbol))
}

/// Whether the first token is one of these symbols.
#[tactic(auto, using(crate::proofs::Tokens::signs_begin))]
pub fn is_one_of_signs(tokens: &Lexed<'_>, symbols: &[Symbol]) -> bool
    ensures { result ≡ begins (map (λ symbol. Sign symbol) symbols.now) tokens.now }
{
    is_sign_among(tokens, symbols)
}

/// A symbol that is given.
pub fn sign<'a>(tokens: &Lexed<'a>, symbol: Symbol) -> Read<'a, ()>
    ensures { Gives (λ x. tt) result (reads (sign symbol) tokens.now) }
{
    if is_symbol(tokens, symbol) {
        Ok(((), tokens.rest()))
    } else {
        Err(syntax(tokens))
    }
}

/// Whether the first token is this directive.
#[tactic(auto, using(crate::proofs::Tokens::is_directive))]
pub fn is_heading(tokens: &Lexed<'_>, directive: Directive) -> bool
    ensures { result ≡ begins (Heading directive ∷ []) tokens.now }
{
    match tokens.kind() {
        Some(TokenKind::Directive(found)) => found == directive,
        _ => false,
    }
}

/// A directive that is given.
pub fn heading<'a>(tokens: &Lexed<'a>, directive: Directive) -> Read<'a, ()>
    ensures { Gives (λ x. tt {0}) result (reads (Token (Heading directive) (λ token. tt {0})) tokens.now) }
{
    if is_heading(tokens, directive) {
        Ok(((), tokens.rest()))
    } else {
        Err(syntax(tokens))
    }
}

/// Whether the first token has a text of so many bytes at the most.
fn is_within(tokens: &Lexed<'_>, most: usize) -> bool
    ensures { result ≡ unwrap_or (option_map (λ text. nat_le (length text) most) (first_text tokens.now)) false }
{
    match tokens.text_len() {
        Some(len) => len <= most,
        None => false,
    }
}

/// The number of bytes that a name may have.
pub(crate) const MAX_NAME: usize = 63;

/// Whether the first token is an unreserved word of 63 bytes at the most.
pub fn is_plain_name(tokens: &Lexed<'_>) -> bool
    ensures { result ≡ begins (PlainName ∷ []) tokens.now }
{
    match tokens.kind() {
        Some(TokenKind::Word) => is_within(tokens, MAX_NAME) && !tokens.is_reserved(),
        _ => false,
    }
}

/// Whether the first token is a name: an unreserved word or a quoted name, of 63 bytes at the most.
pub fn is_name(tokens: &Lexed<'_>) -> bool
    ensures { result ≡ begins (Name ∷ []) tokens.now }
{
    match tokens.kind() {
        Some(TokenKind::Word) => is_plain_name(tokens),
        Some(TokenKind::QuotedName) => is_within(tokens, MAX_NAME),
        _ => false,
    }
}

/// The first token's text and the tokens behind it, where the token has passed a test.
fn text_if<'a>(alloc: Global, tokens: &Lexed<'a>, is_there: bool) -> Read<'a, TextVal>
    ensures { Gives (λ x. x) result (read_text is_there tokens.now) }
{
    if !is_there {
        return Err(syntax(tokens));
    }
    match tokens.text(alloc)? {
        Some(text) => Ok((text, tokens.rest())),
        None => Err(syntax(tokens)),
    }
}

/// An unreserved word.
#[tactic(auto, using(crate::proofs::Tokens::plain_name_is_read))]
pub fn plain_name<'a>(alloc: Global, tokens: &Lexed<'a>) -> Read<'a, TextVal>
    ensures { Gives (λ x. x) result (reads (Token PlainName text_of) tokens.now) }
{
    text_if(alloc, tokens, is_plain_name(tokens))
}

/// An unreserved word or a quoted name.
#[tactic(auto, unfolding(crate::specs::Forms::name), using(crate::proofs::Tokens::name_is_read))]
pub fn name<'a>(alloc: Global, tokens: &Lexed<'a>) -> Read<'a, TextVal>
    ensures { Gives (λ x. x) result (reads name tokens.now) }
{
    text_if(alloc, tokens, is_name(tokens))
}

/// The text of the first token, where it is a name.
fn name_text(alloc: Global, tokens: &Lexed<'_>) -> Result<Option<TextVal>, NoMemory>
    ensures { IfOk result (λ text. text ≡ first_text_of Name tokens.now) }
{
    if is_name(tokens) {
        tokens.text(alloc)
    } else {
        Ok(None)
    }
}

/// Whether the first token is a name with this text.
#[tactic(auto, using(crate::proofs::Tokens::name_of_is))]
fn is_this_name(alloc: Global, tokens: &Lexed<'_>, text: &[u8]) -> Result<bool, NoMemory>
    ensures { IfOk result (λ found. found ≡ begins (NameOf text.now ∷ []) tokens.now) }
{
    match name_text(alloc, tokens)? {
        Some(found) => Ok(found.bytes() == text),
        None => Ok(false),
    }
}

/// Whether the first token is a name with this text.
#[tactic(auto, using(crate::proofs::Tokens::one_kind))]
pub fn is_name_of(alloc: Global, tokens: &Lexed<'_>, text: &[u8]) -> Result<bool, NoMemory>
    ensures begins { IfOk result (λ found. found ≡ begins (NameOf text.now ∷ []) tokens.now) }
    ensures whole { IfOk result (λ found. found ≡ begin_with (NameOf text.now ∷ []) tokens.now) }
{
    let found = is_this_name(alloc, tokens, text)?;
    Ok(found)
}

/// Whether the first token is a name with another text.
#[tactic(auto, using(crate::proofs::Tokens::name_but_is))]
fn is_name_but(alloc: Global, tokens: &Lexed<'_>, other: &[u8]) -> Result<bool, NoMemory>
    ensures { IfOk result (λ found. found ≡ begins (NameBut other.now ∷ []) tokens.now) }
{
    match name_text(alloc, tokens)? {
        Some(found) => Ok(found.bytes() != other),
        None => Ok(false),
    }
}

/// A name with this text.
#[tactic(auto, using(crate::proofs::Tokens::name_of_is_read))]
pub fn name_of<'a>(alloc: Global, tokens: &Lexed<'a>, text: &[u8]) -> Read<'a, TextVal>
    ensures { Gives (λ x. x) result (reads (Token (NameOf text.now) text_of) tokens.now) }
{
    let is_there = is_name_of(alloc, tokens, text)?;
    text_if(alloc, tokens, is_there)
}

/// A name with another text.
#[tactic(auto, using(crate::proofs::Tokens::name_but_is_read))]
pub fn name_but<'a>(alloc: Global, tokens: &Lexed<'a>, other: &[u8]) -> Read<'a, TextVal>
    ensures { Gives (λ x. x) result (reads (Token (NameBut other.now) text_of) tokens.now) }
{
    let is_there = is_name_but(alloc, tokens, other)?;
    text_if(alloc, tokens, is_there)
}

/// The name of a table, a function or a constraint, before which `public.` may stand.
#[tactic(auto, unfolding(crate::specs::Forms::public_name, crate::specs::Forms::name))]
pub fn public_name<'a>(alloc: Global, tokens: &Lexed<'a>) -> Read<'a, TextVal>
    ensures { Gives (λ x. x) result (reads public_name tokens.now) }
{
    if !is_name_of(alloc, tokens, b"public")? {
        return name_but(alloc, tokens, b"public");
    }
    let (first, rest) = name_of(alloc, tokens, b"public")?;
    if !is_symbol(&rest, Symbol::Dot) {
        return Ok((first, rest));
    }
    let ((), behind) = sign(&rest, Symbol::Dot)?;
    name(alloc, &behind)
}

/// Whether the first token is a number of 2 ^ 63 - 1 at the most.
#[tactic(auto, using(crate::proofs::Tokens::number_is))]
pub fn is_number(tokens: &Lexed<'_>) -> bool
    ensures { result ≡ begins (Number ∷ []) tokens.now }
{
    tokens.integer().is_some()
}

/// A number of 2 ^ 63 - 1 at the most.
#[tactic(auto, using(crate::proofs::Tokens::number_is_read))]
pub fn number<'a>(tokens: &Lexed<'a>) -> Read<'a, i64>
    ensures { Gives (λ x. x) result (reads (Token Number (λ token. pos (number_of token))) tokens.now) }
{
    match tokens.integer() {
        Some(number) => Ok((number, tokens.rest())),
        None => Err(syntax(tokens)),
    }
}

/// The first token, where it is a number that isn't 0, of 2 ^ 63 - 1 at the most.
#[tactic(auto, using(crate::proofs::Tokens::count_is))]
fn positive(tokens: &Lexed<'_>) -> Option<u64>
    ensures { result ≡ first_count tokens.now }
{
    match tokens.integer() {
        Some(number) if number > 0 => Some(number as u64),
        _ => None,
    }
}

/// A number that isn't 0, of 2 ^ 63 - 1 at the most.
#[tactic(auto, using(crate::proofs::Tokens::count_is_read))]
pub fn count<'a>(tokens: &Lexed<'a>) -> Read<'a, u64>
    ensures { Gives (λ x. x) result (reads (Token Count number_of) tokens.now) }
{
    match positive(tokens) {
        Some(number) => Ok((number, tokens.rest())),
        None => Err(syntax(tokens)),
    }
}

/// Whether the bytes of the one stand in the other.
fn holds(text: &[u8], part: &[u8]) -> bool
    ensures { result ≡ holds part.now text.now }
{
    let mut rest = text;
    'bytes: while let Some((_, behind)) = rest.split_first() {
        if rest.starts_with(part) {
            return true;
        }
        rest = behind;
    }
    false
}

/// The number of bytes that a text may have.
pub(crate) const MAX_TEXT: usize = 1000;

/// Whether the first token is a text between quotes of 1,000 bytes at the most.
fn is_text(tokens: &Lexed<'_>) -> bool
    ensures { result ≡ begins (Literal ∷ []) tokens.now }
{
    match tokens.kind() {
        Some(TokenKind::Text) => is_within(tokens, MAX_TEXT),
        _ => false,
    }
}

/// The first token's text, where it is a text between quotes of 1,000 bytes at the most.
fn literal_text(alloc: Global, tokens: &Lexed<'_>) -> Result<Option<TextVal>, NoMemory>
    ensures { IfOk result (λ text. text ≡ first_text_of Literal tokens.now) }
{
    if is_text(tokens) {
        tokens.text(alloc)
    } else {
        Ok(None)
    }
}

/// Whether the first token is a text between quotes within code, which holds no `$$`.
#[tactic(auto, using(crate::proofs::Tokens::in_code_is))]
fn is_text_in_code(alloc: Global, tokens: &Lexed<'_>) -> Result<bool, NoMemory>
    ensures { IfOk result (λ found. found ≡ begins (LiteralInCode ∷ []) tokens.now) }
{
    match literal_text(alloc, tokens)? {
        Some(found) => Ok(!holds(found.bytes(), b"$$")),
        None => Ok(false),
    }
}

/// Whether the first token is a text between quotes that may stand there.
pub fn is_literal(alloc: Global, tokens: &Lexed<'_>, scope: Scope) -> Result<bool, NoMemory>
    ensures { IfOk result (λ found. found ≡ begins (literal_in scope ∷ []) tokens.now) }
{
    match scope {
        Scope::InStatement | Scope::InCondition => Ok(is_text(tokens)),
        Scope::InCode => is_text_in_code(alloc, tokens),
    }
}

/// A text between quotes that may stand there.
#[tactic(auto, using(crate::proofs::Tokens::literal_is_read))]
pub fn literal<'a>(alloc: Global, tokens: &Lexed<'a>, scope: Scope) -> Read<'a, TextVal>
    ensures { Gives (λ x. x) result (reads (Token (literal_in scope) text_of) tokens.now) }
{
    let is_there = is_literal(alloc, tokens, scope)?;
    text_if(alloc, tokens, is_there)
}

/// A digit or an upper-case letter.
fn is_code_byte(byte: u8) -> bool
    ensures { result ≡ is_code_byte byte }
{
    byte.is_ascii_digit() || byte.is_ascii_uppercase()
}

fn are_code_bytes(text: &[u8]) -> bool
    ensures { result ≡ list_all is_code_byte text.now }
{
    text.iter().all(|byte| is_code_byte(*byte))
}

fn is_three_zeros(text: &[u8]) -> bool
    ensures { result ≡ same_text text.now (codes "000") }
{
    text == b"000".as_slice()
}

/// Whether the text is five digits and upper-case letters that don't end in `000`.
fn is_state_code(text: &[u8]) -> bool
    ensures { result ≡ is_state_code text.now }
{
    if text.len() != 5 {
        return false;
    }
    let (_, ending) = text.split_at(2);
    are_code_bytes(text) && !is_three_zeros(ending)
}

/// The code that a text is.
fn code_of(text: &[u8]) -> Option<Code>
    ensures { result ≡ if is_state_code text.now then Some (record { 0 = text.now }) else None }
{
    if !is_state_code(text) {
        return None;
    }
    let mut code = [0; 5];
    code.copy_from_slice(text);
    Some(Code(code))
}

/// The code that the text of the first token is.
#[tactic(auto, using(crate::proofs::Tokens::code_is))]
fn first_code(alloc: Global, tokens: &Lexed<'_>) -> Result<Option<Code>, NoMemory>
    ensures { IfOk result (λ code. code ≡ first_code tokens.now) }
{
    match literal_text(alloc, tokens)? {
        Some(text) => Ok(code_of(text.bytes())),
        None => Ok(None),
    }
}

/// The code of an error.
#[tactic(auto, using(crate::proofs::Tokens::code_is_read))]
pub fn state_code<'a>(alloc: Global, tokens: &Lexed<'a>) -> Read<'a, Code>
    ensures { Gives (λ x. x) result (reads (Token StateCode (λ token. record { 0 = text_of token })) tokens.now) }
{
    match first_code(alloc, tokens)? {
        Some(code) => Ok((code, tokens.rest())),
        None => Err(syntax(tokens)),
    }
}

/// Whether the first token is a message within code: a text between quotes that holds no `$$` and no `%`.
#[tactic(auto, using(crate::proofs::Tokens::message_is))]
fn is_message(alloc: Global, tokens: &Lexed<'_>) -> Result<bool, NoMemory>
    ensures { IfOk result (λ found. found ≡ begins (Message ∷ []) tokens.now) }
{
    match literal_text(alloc, tokens)? {
        Some(found) => Ok(!holds(found.bytes(), b"$$") && !holds(found.bytes(), b"%")),
        None => Ok(false),
    }
}

/// A message within code.
#[tactic(auto, using(crate::proofs::Tokens::message_is_read))]
pub fn message<'a>(alloc: Global, tokens: &Lexed<'a>) -> Read<'a, TextVal>
    ensures { Gives (λ x. x) result (reads (Token Message text_of) tokens.now) }
{
    let is_there = is_message(alloc, tokens)?;
    text_if(alloc, tokens, is_there)
}
