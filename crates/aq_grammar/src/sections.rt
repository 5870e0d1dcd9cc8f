//! What is refused where a statement of the setup or of a session may begin.

ghost use Rattle.std.specs.Prelude.{◌≡◌, ◌∷◌, ◌||◌, [], codes, map, IfOk};
ghost use Rattle.aq_lex.specs.declared.token.Symbol.TheVariants.{Dot};
ghost use Rattle.aq_grammar.specs.Terminals.{begins, begin_with, Keyword, Name, NameOf, Sign};
ghost use Rattle.aq_grammar.specs.Forms.{refuse_word};
ghost use Rattle.aq_grammar.specs.Statements.{enabling, session_words, refused_in_setup, refused_in_session};
ghost use Rattle.aq_grammar.specs.Steps.{RefusesSo, table_then, alters};

use crate::fault::ReadFault;
use crate::refusal::{refuse_other_objects, refuse_unsupported_statements};
use crate::refused::unsupported;
use crate::terminals::{are_words, is_name, is_name_of, is_one_of, is_symbol, is_word};
use aq_base::NoMemory;
use aq_lex::{Lexed, Symbol};
use std::alloc::Global;

/// Whether the tokens begin with a name and then this word.
#[tactic(auto, using(crate::proofs::Refusing::begin_both))]
fn is_name_then(tokens: &Lexed<'_>, last: &[u8]) -> bool
    ensures { result ≡ begin_with (Name ∷ Keyword last.now ∷ []) tokens.now }
{
    is_name(tokens) && is_word(&tokens.rest(), last)
}

/// Whether the tokens begin with a dot, a name and then this word.
#[tactic(auto, using(crate::proofs::Refusing::begin_both))]
fn is_dot_name_then(tokens: &Lexed<'_>, last: &[u8]) -> bool
    ensures { result ≡ begin_with (Sign Dot ∷ Name ∷ Keyword last.now ∷ []) tokens.now }
{
    is_symbol(tokens, Symbol::Dot) && is_name_then(&tokens.rest(), last)
}

/// Whether the tokens begin with `public.`, a name and then this word.
fn is_public_then(alloc: Global, tokens: &Lexed<'_>, last: &[u8]) -> Result<bool, NoMemory>
    ensures { IfOk result (λ found. found ≡ begin_with (NameOf (codes "public") ∷ Sign Dot ∷ Name ∷ Keyword last.now ∷ []) tokens.now) }
{
    let is_public = is_name_of(alloc, tokens, b"public")?;
    Ok(is_public && is_dot_name_then(&tokens.rest(), last))
}

/// Whether the tokens begin with a table and then this word.
fn is_table_then(alloc: Global, tokens: &Lexed<'_>, last: &[u8]) -> Result<bool, NoMemory>
    ensures { IfOk result (λ found. found ≡ table_then last.now tokens.now) }
{
    let is_public = is_public_then(alloc, tokens, last)?;
    Ok(is_name_then(tokens, last) || is_public)
}

/// Whether the tokens are ALTER TABLE with this word behind the table.
fn alter_with(alloc: Global, tokens: &Lexed<'_>, last: &[u8]) -> Result<bool, NoMemory>
    ensures { IfOk result (λ found. found ≡ alters last.now tokens.now) }
{
    if !are_words(tokens, b"alter", b"table") {
        return Ok(false);
    }
    let behind = tokens.rest().rest();
    let is_table = is_table_then(alloc, &behind, last)?;
    let is_table_only = is_table_then(alloc, &behind.rest(), last)?;
    Ok(is_table || (is_word(&behind, b"only") && is_table_only))
}

/// Whether the tokens enable or disable a trigger.
fn is_enabling(alloc: Global, tokens: &Lexed<'_>) -> Result<bool, NoMemory>
    ensures { IfOk result (λ found. found ≡ (alters (codes "enable") tokens.now || alters (codes "disable") tokens.now)) }
{
    let enables = alter_with(alloc, tokens, b"enable")?;
    let disables = alter_with(alloc, tokens, b"disable")?;
    Ok(enables || disables)
}

/// No trigger is enabled or disabled.
#[tactic(auto, using(crate::proofs::Refusing::refuses_none))]
fn refuse_enabling(alloc: Global, tokens: &Lexed<'_>) -> Result<(), ReadFault>
    ensures { RefusesSo enabling result tokens.now }
{
    if is_enabling(alloc, tokens)? {
        return Err(unsupported(
            alloc,
            tokens,
            "enabling and disabling triggers is not supported",
        ));
    }
    Ok(())
}

/// The words with which a session's statement begins.
const SESSION_WORDS: [&str; 13] = [
    "insert",
    "update",
    "delete",
    "select",
    "set",
    "begin",
    "start",
    "commit",
    "end",
    "rollback",
    "abort",
    "savepoint",
    "release",
];

/// Whether a session's statement begins the tokens.
pub fn is_session_word(tokens: &Lexed<'_>) -> bool
    ensures { result ≡ begins (map (λ text. Keyword text) session_words) tokens.now }
{
    is_one_of(tokens, &SESSION_WORDS)
}

/// No statement of a session stands in setup.
fn refuse_session_statements(alloc: Global, tokens: &Lexed<'_>) -> Result<(), ReadFault>
    ensures { RefusesSo (map (λ text. refuse_word text (codes "data statements in setup are not supported")) session_words) result tokens.now }
{
    if is_session_word(tokens) {
        return Err(unsupported(alloc, tokens, "data statements in setup are not supported"));
    }
    Ok(())
}

/// What is refused where a statement of the setup may begin.
pub fn refuse_in_setup(alloc: Global, tokens: &Lexed<'_>) -> Result<(), ReadFault>
    ensures { RefusesSo refused_in_setup result tokens.now }
{
    refuse_enabling(alloc, tokens)?;
    refuse_other_objects(alloc, tokens)?;
    refuse_unsupported_statements(alloc, tokens)?;
    refuse_session_statements(alloc, tokens)
}

/// What is refused where a statement of a session may begin.
#[tactic(auto, unfolding(crate::specs::Steps::RefusesSo), using(crate::proofs::Refusing::refuses_as, crate::proofs::Refusing::refuses_alike))]
pub fn refuse_in_session(alloc: Global, tokens: &Lexed<'_>) -> Result<(), ReadFault>
    ensures { RefusesSo refused_in_session result tokens.now }
{
    if is_word(tokens, b"create") || is_word(tokens, b"alter") {
        return Err(unsupported(alloc, tokens, "DDL outside setup is not supported"));
    }
    refuse_unsupported_statements(alloc, tokens)
}
