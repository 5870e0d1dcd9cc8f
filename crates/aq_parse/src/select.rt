//! SELECT (PostgreSQL manual, page SELECT).

ghost use Rattle.aq_grammar.specs.Nonterminals.{reads};
ghost use Rattle.aq_grammar.specs.Changes.{columns, lock_mode, lock, select};
ghost use Rattle.aq_grammar.specs.Steps.{Gives};

use crate::rows::where_part;
use aq_base::{Columns, LockMode, Select};
use aq_grammar::{
    Read, Scope, is_symbol, is_word, names, public_name, refuse_joins, refuse_no_wait, says, sign,
    word,
};
use aq_lex::{Lexed, Symbol};
use std::alloc::Global;

/// `*`, or names with commas between them.
#[tactic(auto, unfolding(aq_grammar::specs::Changes::columns))]
fn columns<'a>(alloc: Global, tokens: &Lexed<'a>) -> Read<'a, Columns>
    ensures { Gives (λ x. x) result (reads columns tokens.now) }
{
    if is_symbol(tokens, Symbol::Times) {
        let ((), rest) = sign(tokens, Symbol::Times)?;
        return Ok((Columns::All, rest));
    }
    let (names, rest) = names(alloc, tokens)?;
    Ok((Columns::Named(names), rest))
}

/// How rows are locked.
#[tactic(auto, unfolding(aq_grammar::specs::Changes::lock_mode))]
fn lock_mode<'a>(tokens: &Lexed<'a>) -> Read<'a, LockMode>
    ensures { Gives (λ x. x) result (reads lock_mode tokens.now) }
{
    if is_word(tokens, b"update") {
        says(tokens, b"update", LockMode::Update)
    } else if is_word(tokens, b"no") {
        let ((), rest) = word(tokens, b"no")?;
        let ((), rest) = word(&rest, b"key")?;
        says(&rest, b"update", LockMode::NoKeyUpdate)
    } else if is_word(tokens, b"share") {
        says(tokens, b"share", LockMode::Share)
    } else {
        let ((), rest) = word(tokens, b"key")?;
        says(&rest, b"share", LockMode::KeyShare)
    }
}

/// `FOR mode`, which may be left out.
#[tactic(auto, unfolding(aq_grammar::specs::Changes::lock, aq_grammar::specs::Steps::RefusesSo))]
fn lock<'a>(alloc: Global, tokens: &Lexed<'a>) -> Read<'a, Option<LockMode>>
    ensures { Gives (λ x. x) result (reads lock tokens.now) }
{
    if !is_word(tokens, b"for") {
        return Ok((None, tokens.copied()));
    }
    let ((), rest) = word(tokens, b"for")?;
    let (mode, rest) = lock_mode(&rest)?;
    refuse_no_wait(alloc, &rest)?;
    Ok((Some(mode), rest))
}

/// `SELECT columns FROM table WHERE expression FOR mode`
#[tactic(auto, unfolding(aq_grammar::specs::Changes::select, aq_grammar::specs::Steps::RefusesSo))]
pub(crate) fn select<'a>(alloc: Global, scope: Scope, tokens: &Lexed<'a>) -> Read<'a, Select>
    ensures { Gives (λ x. x) result (reads (select scope) tokens.now) }
{
    let ((), rest) = word(tokens, b"select")?;
    let (columns, rest) = columns(alloc, &rest)?;
    let ((), rest) = word(&rest, b"from")?;
    let (table, rest) = public_name(alloc, &rest)?;
    refuse_joins(alloc, &rest)?;
    let (condition, rest) = where_part(alloc, scope, &rest)?;
    let (lock, rest) = lock(alloc, &rest)?;
    Ok((
        Select {
            columns,
            table,
            condition,
            lock,
        },
        rest,
    ))
}
