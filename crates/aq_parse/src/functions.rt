//! CREATE FUNCTION (PostgreSQL manual, page CREATE FUNCTION).

ghost use Rattle.aq_grammar.specs.Nonterminals.{reads};
ghost use Rattle.aq_grammar.specs.Steps.{Gives};
ghost use Rattle.aq_grammar.specs.Triggers.{no_arguments, language, create_function};
ghost use Rattle.aq_parse.specs.Functions.{function_head, function_body};

use crate::bodies::code;
use aq_base::{Body, CreateFunction, Statement, TextVal};
use aq_grammar::{Read, is_word, public_name, sign, word};
use aq_lex::{Lexed, Symbol};
use std::alloc::Global;

/// `()`
#[tactic(auto, unfolding(aq_grammar::specs::Triggers::no_arguments))]
pub(crate) fn no_arguments<'a>(tokens: &Lexed<'a>) -> Read<'a, ()>
    ensures { Gives (λ x. tt) result (reads no_arguments tokens.now) }
{
    let ((), rest) = sign(tokens, Symbol::OpenParen)?;
    sign(&rest, Symbol::CloseParen)
}

/// `LANGUAGE plpgsql`
fn language<'a>(tokens: &Lexed<'a>) -> Read<'a, ()>
    ensures { Gives (λ x. tt) result (reads language tokens.now) }
{
    let ((), rest) = word(tokens, b"language")?;
    word(&rest, b"plpgsql")
}

/// The name of a function with what it takes and gives.
fn function_head<'a>(alloc: Global, tokens: &Lexed<'a>) -> Read<'a, TextVal>
    ensures { Gives (λ x. x) result (reads function_head tokens.now) }
{
    let (name, rest) = public_name(alloc, tokens)?;
    let ((), rest) = no_arguments(&rest)?;
    let ((), rest) = word(&rest, b"returns")?;
    let ((), rest) = word(&rest, b"trigger")?;
    Ok((name, rest))
}

/// The code of a function, with its language before or behind it.
fn function_body<'a>(alloc: Global, tokens: &Lexed<'a>) -> Read<'a, Body>
    ensures { Gives (λ x. x) result (reads function_body tokens.now) }
{
    if is_word(tokens, b"language") {
        let ((), rest) = language(tokens)?;
        let ((), rest) = word(&rest, b"as")?;
        code(alloc, &rest)
    } else {
        let ((), rest) = word(tokens, b"as")?;
        let (body, rest) = code(alloc, &rest)?;
        let ((), rest) = language(&rest)?;
        Ok((body, rest))
    }
}

/// CREATE FUNCTION, behind CREATE.
#[tactic(auto, unfolding(aq_grammar::specs::Triggers::create_function))]
pub(crate) fn create_function<'a>(alloc: Global, tokens: &Lexed<'a>) -> Read<'a, Statement>
    ensures { Gives (λ x. x) result (reads create_function tokens.now) }
{
    let ((), rest) = word(tokens, b"function")?;
    let (name, rest) = function_head(alloc, &rest)?;
    let (body, rest) = function_body(alloc, &rest)?;
    Ok((
        Statement::CreateFunction(CreateFunction { name, body }),
        rest,
    ))
}
