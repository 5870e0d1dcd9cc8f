//! Columns of a table: their kinds and constraints (PostgreSQL manual, page CREATE TABLE).

ghost use Rattle.aq_grammar.specs.Nonterminals.{reads};
ghost use Rattle.aq_grammar.specs.Steps.{Gives};
ghost use Rattle.aq_grammar.specs.Tables.{kind, constant, negative};

use aq_base::{Kind, Value};
use aq_grammar::{Read, Scope, is_literal, is_symbol, is_word, literal, number, says, sign};
use aq_lex::{Lexed, Symbol};
use std::alloc::Global;

/// The kind of a column's values.
#[tactic(auto, unfolding(aq_grammar::specs::Tables::kind))]
pub(crate) fn kind<'a>(tokens: &Lexed<'a>) -> Read<'a, Kind>
    ensures { Gives (λ x. x) result (reads kind tokens.now) }
{
    if is_word(tokens, b"integer") {
        says(tokens, b"integer", Kind::Integer)
    } else if is_word(tokens, b"int") {
        says(tokens, b"int", Kind::Integer)
    } else if is_word(tokens, b"int4") {
        says(tokens, b"int4", Kind::Integer)
    } else if is_word(tokens, b"bigint") {
        says(tokens, b"bigint", Kind::Bigint)
    } else if is_word(tokens, b"int8") {
        says(tokens, b"int8", Kind::Bigint)
    } else if is_word(tokens, b"boolean") {
        says(tokens, b"boolean", Kind::Boolean)
    } else if is_word(tokens, b"bool") {
        says(tokens, b"bool", Kind::Boolean)
    } else {
        says(tokens, b"text", Kind::Text)
    }
}

/// A number with a minus sign before it.
fn negative<'a>(tokens: &Lexed<'a>) -> Read<'a, Value>
    ensures { Gives (λ x. x) result (reads negative tokens.now) }
{
    let ((), rest) = sign(tokens, Symbol::Minus)?;
    let (number, rest) = number(&rest)?;
    Ok((Value::Int(-number), rest))
}

/// The value of a DEFAULT.
#[tactic(auto, unfolding(aq_grammar::specs::Tables::constant))]
pub(crate) fn constant<'a>(alloc: Global, tokens: &Lexed<'a>) -> Read<'a, Value>
    ensures { Gives (λ x. x) result (reads constant tokens.now) }
{
    if is_word(tokens, b"null") {
        says(tokens, b"null", Value::Null)
    } else if is_word(tokens, b"true") {
        says(tokens, b"true", Value::Bool(true))
    } else if is_word(tokens, b"false") {
        says(tokens, b"false", Value::Bool(false))
    } else if is_literal(alloc, tokens, Scope::InStatement)? {
        let (text, rest) = literal(alloc, tokens, Scope::InStatement)?;
        Ok((Value::Text(text), rest))
    } else if is_symbol(tokens, Symbol::Minus) {
        negative(tokens)
    } else {
        let (number, rest) = number(tokens)?;
        Ok((Value::Int(number), rest))
    }
}
