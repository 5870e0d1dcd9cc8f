//! The parts of an expression that have no parentheses: constants and columns.

ghost use Rattle.std.specs.Prelude.{◌≡◌};
ghost use Rattle.aq_grammar.specs.Nonterminals.{reads};
ghost use Rattle.aq_grammar.specs.Expressions.{behind_dot, behind_public, column_or_qualified, column_of_public, column, operation_or_column, old_column, new_column, column_of_row_or, named, word_or_named, plain_atom};
ghost use Rattle.aq_grammar.specs.Steps.{Gives};

use aq_base::{Expr, TextVal, Value};
use aq_grammar::{
    Read, Scope, is_literal, is_name_of, is_number, is_symbol, is_word, literal, name, name_but,
    name_of, number, says, sign, word,
};
use aq_lex::{Lexed, Symbol};
use std::alloc::Global;

/// The name behind a dot, if there is a dot.
#[tactic(auto, unfolding(aq_grammar::specs::Expressions::behind_dot))]
fn behind_dot<'a>(alloc: Global, tokens: &Lexed<'a>) -> Read<'a, Option<TextVal>>
    ensures { Gives (λ x. x) result (reads behind_dot tokens.now) }
{
    if !is_symbol(tokens, Symbol::Dot) {
        return Ok((None, tokens.copied()));
    }
    let ((), rest) = sign(tokens, Symbol::Dot)?;
    let (name, rest) = name(alloc, &rest)?;
    Ok((Some(name), rest))
}

/// One name or two behind `public`.
#[tactic(auto, unfolding(aq_grammar::specs::Expressions::behind_public))]
fn behind_public<'a>(
    alloc: Global,
    tokens: &Lexed<'a>,
) -> Read<'a, Option<(TextVal, Option<TextVal>)>>
    ensures { Gives (λ x. x) result (reads behind_public tokens.now) }
{
    if !is_symbol(tokens, Symbol::Dot) {
        return Ok((None, tokens.copied()));
    }
    let ((), rest) = sign(tokens, Symbol::Dot)?;
    let (first, rest) = name(alloc, &rest)?;
    let (second, rest) = behind_dot(alloc, &rest)?;
    Ok((Some((first, second)), rest))
}

fn column_or_qualified(first: TextVal, second: Option<TextVal>) -> Expr
    ensures { result ≡ column_or_qualified first second }
{
    match second {
        None => Expr::Column(first),
        Some(column) => Expr::Qualified {
            table: first,
            column,
        },
    }
}

fn column_of_public(public: TextVal, others: Option<(TextVal, Option<TextVal>)>) -> Expr
    ensures { result ≡ column_of_public public others }
{
    match others {
        None => Expr::Column(public),
        Some((first, second)) => match second {
            None => Expr::Qualified {
                table: public,
                column: first,
            },
            Some(column) => Expr::Qualified {
                table: first,
                column,
            },
        },
    }
}

/// A column, before whose table `public.` may stand.
#[tactic(auto, unfolding(aq_grammar::specs::Expressions::column))]
fn column<'a>(alloc: Global, tokens: &Lexed<'a>) -> Read<'a, Expr>
    ensures { Gives (λ x. x) result (reads column tokens.now) }
{
    if is_name_of(alloc, tokens, b"public")? {
        let (first, rest) = name_of(alloc, tokens, b"public")?;
        let (others, rest) = behind_public(alloc, &rest)?;
        return Ok((column_of_public(first, others), rest));
    }
    let (first, rest) = name_but(alloc, tokens, b"public")?;
    let (second, rest) = behind_dot(alloc, &rest)?;
    Ok((column_or_qualified(first, second), rest))
}

/// `TG_OP`, or a column.
#[tactic(auto, unfolding(aq_grammar::specs::Expressions::operation_or_column))]
fn operation_or_column<'a>(alloc: Global, tokens: &Lexed<'a>) -> Read<'a, Expr>
    ensures { Gives (λ x. x) result (reads operation_or_column tokens.now) }
{
    if is_word(tokens, b"tg_op") {
        let ((), rest) = word(tokens, b"tg_op")?;
        return Ok((Expr::Operation, rest));
    }
    column(alloc, tokens)
}

/// `OLD.column`
#[tactic(auto, unfolding(aq_grammar::specs::Expressions::old_column))]
fn old_column<'a>(alloc: Global, tokens: &Lexed<'a>) -> Read<'a, Expr>
    ensures { Gives (λ x. x) result (reads old_column tokens.now) }
{
    let ((), rest) = word(tokens, b"old")?;
    let ((), rest) = sign(&rest, Symbol::Dot)?;
    let (column, rest) = name(alloc, &rest)?;
    Ok((Expr::Old(column), rest))
}

/// `NEW.column`
#[tactic(auto, unfolding(aq_grammar::specs::Expressions::new_column))]
fn new_column<'a>(alloc: Global, tokens: &Lexed<'a>) -> Read<'a, Expr>
    ensures { Gives (λ x. x) result (reads new_column tokens.now) }
{
    let ((), rest) = word(tokens, b"new")?;
    let ((), rest) = sign(&rest, Symbol::Dot)?;
    let (column, rest) = name(alloc, &rest)?;
    Ok((Expr::New(column), rest))
}

/// What an expression may name, where it has the rows before and after a change.
fn column_of_row_or_column<'a>(alloc: Global, tokens: &Lexed<'a>) -> Read<'a, Expr>
    ensures { Gives (λ x. x) result (reads (column_of_row_or column) tokens.now) }
{
    if is_word(tokens, b"old") {
        return old_column(alloc, tokens);
    }
    if is_word(tokens, b"new") {
        return new_column(alloc, tokens);
    }
    column(alloc, tokens)
}

/// What an expression may name in code.
fn column_of_row_or_operation<'a>(alloc: Global, tokens: &Lexed<'a>) -> Read<'a, Expr>
    ensures { Gives (λ x. x) result (reads (column_of_row_or operation_or_column) tokens.now) }
{
    if is_word(tokens, b"old") {
        return old_column(alloc, tokens);
    }
    if is_word(tokens, b"new") {
        return new_column(alloc, tokens);
    }
    operation_or_column(alloc, tokens)
}

/// What an expression may name.
#[tactic(auto, unfolding(aq_grammar::specs::Expressions::named))]
fn named<'a>(alloc: Global, scope: Scope, tokens: &Lexed<'a>) -> Read<'a, Expr>
    ensures { Gives (λ x. x) result (reads (named scope) tokens.now) }
{
    match scope {
        Scope::InStatement => column(alloc, tokens),
        Scope::InCondition => column_of_row_or_column(alloc, tokens),
        Scope::InCode => column_of_row_or_operation(alloc, tokens),
    }
}

/// A constant that is a word, or what an expression may name.
#[tactic(auto, unfolding(aq_grammar::specs::Expressions::word_or_named))]
fn word_or_named<'a>(alloc: Global, scope: Scope, tokens: &Lexed<'a>) -> Read<'a, Expr>
    ensures { Gives (λ x. x) result (reads (word_or_named scope) tokens.now) }
{
    if is_word(tokens, b"null") {
        return says(tokens, b"null", Expr::Constant(Value::Null));
    }
    if is_word(tokens, b"true") {
        return says(tokens, b"true", Expr::Constant(Value::Bool(true)));
    }
    if is_word(tokens, b"false") {
        return says(tokens, b"false", Expr::Constant(Value::Bool(false)));
    }
    named(alloc, scope, tokens)
}

/// An operand without parentheses.
#[tactic(auto, unfolding(aq_grammar::specs::Expressions::plain_atom))]
pub(crate) fn plain_atom<'a>(alloc: Global, scope: Scope, tokens: &Lexed<'a>) -> Read<'a, Expr>
    ensures { Gives (λ x. x) result (reads (plain_atom scope) tokens.now) }
{
    if is_number(tokens) {
        let (number, rest) = number(tokens)?;
        return Ok((Expr::Constant(Value::Int(number)), rest));
    }
    if is_literal(alloc, tokens, scope)? {
        let (text, rest) = literal(alloc, tokens, scope)?;
        return Ok((Expr::Constant(Value::Text(text)), rest));
    }
    word_or_named(alloc, scope, tokens)
}
