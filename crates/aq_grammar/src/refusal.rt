//! Forms that are known and not supported.
#![tactic(auto, unfolding(crate::specs::Steps::RefusesSo), using(crate::proofs::Refusing::refuses_as))]

ghost use Rattle.std.specs.Prelude.{◌≡◌, ◌∷◌, [], codes};
ghost use Rattle.aq_lex.specs.declared.token.Symbol.TheVariants.{OpenParen};
ghost use Rattle.aq_grammar.specs.Terminals.{begin_with, Keyword, Sign};
ghost use Rattle.aq_grammar.specs.Bodies.{unsupported_statements, refused_in_code};
ghost use Rattle.aq_grammar.specs.Changes.{joins, returning, on_conflict, no_wait};
ghost use Rattle.aq_grammar.specs.Statements.{other_objects};
ghost use Rattle.aq_grammar.specs.Steps.{RefusesSo};
ghost use Rattle.aq_grammar.specs.Tables.{behind_key, other_constraints, other_items, not_valid, partial_match, update_list, behind_items};
ghost use Rattle.aq_grammar.specs.Transactions.{serializable};
ghost use Rattle.aq_grammar.specs.Triggers.{not_after};

use crate::fault::ReadFault;
use crate::refused::{passes_limit, unsupported};
use crate::terminals::{are_words, is_symbol, is_word};
use aq_lex::{Lexed, Symbol};
use std::alloc::Global;

/// One table stands behind FROM.
pub fn refuse_joins(alloc: Global, tokens: &Lexed<'_>) -> Result<(), ReadFault>
    ensures { RefusesSo joins result tokens.now }
{
    if is_symbol(tokens, Symbol::Comma) || is_word(tokens, b"join") {
        return Err(unsupported(alloc, tokens, "joins are not supported"));
    }
    Ok(())
}

/// No RETURNING stands behind a change.
pub fn refuse_returning(alloc: Global, tokens: &Lexed<'_>) -> Result<(), ReadFault>
    ensures { RefusesSo (returning ∷ []) result tokens.now }
{
    if is_word(tokens, b"returning") {
        return Err(unsupported(alloc, tokens, "RETURNING is not supported"));
    }
    Ok(())
}

/// Neither RETURNING nor ON CONFLICT stands behind INSERT.
pub fn refuse_behind_insert(alloc: Global, tokens: &Lexed<'_>) -> Result<(), ReadFault>
    ensures { RefusesSo (returning ∷ on_conflict ∷ []) result tokens.now }
{
    if is_word(tokens, b"returning") {
        return Err(unsupported(alloc, tokens, "RETURNING is not supported"));
    }
    if are_words(tokens, b"on", b"conflict") {
        return Err(unsupported(alloc, tokens, "ON CONFLICT is not supported"));
    }
    Ok(())
}

/// A lock waits for others: neither NOWAIT nor SKIP LOCKED stands behind it.
pub fn refuse_no_wait(alloc: Global, tokens: &Lexed<'_>) -> Result<(), ReadFault>
    ensures { RefusesSo no_wait result tokens.now }
{
    if is_word(tokens, b"nowait") {
        return Err(unsupported(alloc, tokens, "NOWAIT is not supported"));
    }
    if is_word(tokens, b"skip") {
        return Err(unsupported(alloc, tokens, "SKIP LOCKED is not supported"));
    }
    Ok(())
}

/// Statements that stand nowhere.
pub(crate) fn refuse_unsupported_statements(
    alloc: Global,
    tokens: &Lexed<'_>,
) -> Result<(), ReadFault>
    ensures { RefusesSo unsupported_statements result tokens.now }
{
    if is_word(tokens, b"truncate") {
        return Err(unsupported(alloc, tokens, "TRUNCATE is not supported"));
    }
    if is_word(tokens, b"merge") {
        return Err(unsupported(alloc, tokens, "MERGE is not supported"));
    }
    if is_word(tokens, b"prepare") {
        return Err(unsupported(alloc, tokens, "PREPARE TRANSACTION is not supported"));
    }
    Ok(())
}

/// What is refused where a statement of a code may begin, where so many more IFs and blocks may be opened.
#[tactic(auto, unfolding(crate::specs::Steps::RefusesSo), using(crate::proofs::Refusing::refuses_as, crate::proofs::Refusing::refuses_alike))]
pub fn refuse_in_code(alloc: Global, tokens: &Lexed<'_>, room: usize) -> Result<(), ReadFault>
    ensures { RefusesSo (refused_in_code room) result tokens.now }
{
    if room == 0 && (is_word(tokens, b"if") || is_word(tokens, b"begin")) {
        return Err(passes_limit(alloc, tokens, "IF nesting limit of 100 reached"));
    }
    refuse_unsupported_statements(alloc, tokens)
}

/// Whether the tokens begin with ISOLATION LEVEL SERIALIZABLE.
#[tactic(auto, using(crate::proofs::Refusing::begin_both))]
fn is_serializable(tokens: &Lexed<'_>) -> bool
    ensures { result ≡ begin_with serializable.words tokens.now }
{
    is_word(tokens, b"isolation") && are_words(&tokens.rest(), b"level", b"serializable")
}

/// No transaction is serializable.
pub fn refuse_serializable(alloc: Global, tokens: &Lexed<'_>) -> Result<(), ReadFault>
    ensures { RefusesSo (serializable ∷ []) result tokens.now }
{
    if is_serializable(tokens) {
        return Err(unsupported(alloc, tokens, "SERIALIZABLE is not supported"));
    }
    Ok(())
}

/// NOT VALID stands nowhere.
pub fn refuse_not_valid(alloc: Global, tokens: &Lexed<'_>) -> Result<(), ReadFault>
    ensures { RefusesSo (not_valid ∷ []) result tokens.now }
{
    if are_words(tokens, b"not", b"valid") {
        return Err(unsupported(alloc, tokens, "NOT VALID is not supported"));
    }
    Ok(())
}

/// What stands behind no PRIMARY KEY and no UNIQUE.
pub fn refuse_behind_key(alloc: Global, tokens: &Lexed<'_>) -> Result<(), ReadFault>
    ensures { RefusesSo behind_key result tokens.now }
{
    if are_words(tokens, b"not", b"valid") {
        return Err(unsupported(alloc, tokens, "NOT VALID is not supported"));
    }
    if are_words(tokens, b"not", b"deferrable")
        || is_word(tokens, b"deferrable")
        || is_word(tokens, b"initially")
    {
        return Err(unsupported(alloc, tokens, "deferrable unique keys are not supported"));
    }
    Ok(())
}

/// Constraints of kinds that no table has.
pub fn refuse_other_constraints(alloc: Global, tokens: &Lexed<'_>) -> Result<(), ReadFault>
    ensures { RefusesSo other_constraints result tokens.now }
{
    if is_word(tokens, b"check") {
        return Err(unsupported(alloc, tokens, "CHECK constraints are not supported"));
    }
    if is_word(tokens, b"exclude") {
        return Err(unsupported(alloc, tokens, "exclusion constraints are not supported"));
    }
    Ok(())
}

/// NOT VALID, and constraints of kinds that no table has.
pub fn refuse_behind_reference(alloc: Global, tokens: &Lexed<'_>) -> Result<(), ReadFault>
    ensures { RefusesSo (not_valid ∷ other_constraints) result tokens.now }
{
    if are_words(tokens, b"not", b"valid") {
        return Err(unsupported(alloc, tokens, "NOT VALID is not supported"));
    }
    if is_word(tokens, b"check") {
        return Err(unsupported(alloc, tokens, "CHECK constraints are not supported"));
    }
    if is_word(tokens, b"exclude") {
        return Err(unsupported(alloc, tokens, "exclusion constraints are not supported"));
    }
    Ok(())
}

/// Whether the tokens begin an exclusion constraint and no column called `exclude`.
#[tactic(auto, using(crate::proofs::Refusing::begin_both))]
fn is_exclusion_list(tokens: &Lexed<'_>) -> bool
    ensures { result ≡ begin_with (Keyword (codes "exclude") ∷ Sign OpenParen ∷ []) tokens.now }
{
    is_word(tokens, b"exclude") && is_symbol(&tokens.rest(), Symbol::OpenParen)
}

/// Items of kinds that no table has.
pub fn refuse_other_items(alloc: Global, tokens: &Lexed<'_>) -> Result<(), ReadFault>
    ensures { RefusesSo other_items result tokens.now }
{
    if is_word(tokens, b"check") {
        return Err(unsupported(alloc, tokens, "CHECK constraints are not supported"));
    }
    if is_exclusion_list(tokens) || are_words(tokens, b"exclude", b"using") {
        return Err(unsupported(alloc, tokens, "exclusion constraints are not supported"));
    }
    Ok(())
}

/// No reference matches in part.
pub fn refuse_partial_match(alloc: Global, tokens: &Lexed<'_>) -> Result<(), ReadFault>
    ensures { RefusesSo (partial_match ∷ []) result tokens.now }
{
    if are_words(tokens, b"match", b"partial") {
        return Err(unsupported(alloc, tokens, "MATCH PARTIAL is not supported"));
    }
    Ok(())
}

/// A list of columns stands behind ON DELETE alone.
pub fn refuse_update_list(alloc: Global, tokens: &Lexed<'_>, text: &str) -> Result<(), ReadFault>
    ensures { RefusesSo (update_list text.now) result tokens.now }
{
    if is_symbol(tokens, Symbol::OpenParen) {
        return Err(unsupported(alloc, tokens, text));
    }
    Ok(())
}

/// What stands behind the items of no table.
pub fn refuse_behind_items(alloc: Global, tokens: &Lexed<'_>) -> Result<(), ReadFault>
    ensures { RefusesSo behind_items result tokens.now }
{
    if is_word(tokens, b"partition") {
        return Err(unsupported(alloc, tokens, "partitions are not supported"));
    }
    if is_word(tokens, b"inherits") {
        return Err(unsupported(alloc, tokens, "inheritance is not supported"));
    }
    Ok(())
}

/// A trigger fires after its event.
pub fn refuse_not_after(alloc: Global, tokens: &Lexed<'_>) -> Result<(), ReadFault>
    ensures { RefusesSo not_after result tokens.now }
{
    if is_word(tokens, b"before") {
        return Err(unsupported(alloc, tokens, "BEFORE triggers are not supported"));
    }
    if is_word(tokens, b"instead") {
        return Err(unsupported(alloc, tokens, "INSTEAD OF triggers are not supported"));
    }
    Ok(())
}

/// No views and no rules.
pub(crate) fn refuse_other_objects(alloc: Global, tokens: &Lexed<'_>) -> Result<(), ReadFault>
    ensures { RefusesSo other_objects result tokens.now }
{
    if are_words(tokens, b"create", b"view") {
        return Err(unsupported(alloc, tokens, "views are not supported"));
    }
    if are_words(tokens, b"create", b"rule") {
        return Err(unsupported(alloc, tokens, "rules are not supported"));
    }
    Ok(())
}
