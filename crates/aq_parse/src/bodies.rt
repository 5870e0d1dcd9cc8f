//! The code of a trigger's function (PostgreSQL manual, chapter "PL/pgSQL").

ghost use Rattle.std.specs.Prelude.{◌≡◌};
ghost use Rattle.aq_grammar.specs.Bodies.{body, body_words, body_statement, code, else_if, handler, handlers, if_statement, less_room, otherwise, raise, return_};
ghost use Rattle.aq_grammar.specs.Nonterminals.{reads, reads_called};
ghost use Rattle.aq_grammar.specs.Rules.{Block};
ghost use Rattle.aq_grammar.specs.Steps.{Gives};
ghost use Rattle.aq_grammar.specs.Terminals.{begins};
ghost use Rattle.aq_parse.specs.Bodies.{returned, insert_in_body, update_in_body, delete_in_body, set_in_body, plain_statement, block_in_body, ended_statement, else_ifs, condition_then, some_handlers, semicolon};

use crate::conditions::conditions_then;
use crate::delete::delete;
use crate::insert::insert;
use crate::update::update;
use aq_base::{Body, BodyStatement, ElseIf, Expr, Handler, List, Returned};
use aq_grammar::{
    Read, Scope, is_one_of, is_symbol, is_word, message, refuse_in_code, says, sign, word,
};
use aq_lex::{Lexed, Symbol};
use aq_parse_expressions::whole_expression;
use aq_parse_transactions::set_constraints;
use std::alloc::Global;

/// `RAISE EXCEPTION text`
#[tactic(auto, unfolding(aq_grammar::specs::Bodies::raise))]
fn raise<'a>(alloc: Global, tokens: &Lexed<'a>) -> Read<'a, BodyStatement>
    ensures { Gives (λ x. x) result (reads raise tokens.now) }
{
    let ((), rest) = word(tokens, b"raise")?;
    let ((), rest) = word(&rest, b"exception")?;
    let (text, rest) = message(alloc, &rest)?;
    Ok((BodyStatement::Raise(text), rest))
}

/// `NULL`, `NEW` or `OLD`
fn returned<'a>(tokens: &Lexed<'a>) -> Read<'a, Returned>
    ensures { Gives (λ x. x) result (reads returned tokens.now) }
{
    if is_word(tokens, b"null") {
        says(tokens, b"null", Returned::Null)
    } else if is_word(tokens, b"new") {
        says(tokens, b"new", Returned::New)
    } else {
        says(tokens, b"old", Returned::Old)
    }
}

/// `RETURN NULL`, `RETURN NEW` or `RETURN OLD`
#[tactic(auto, unfolding(aq_grammar::specs::Bodies::return_))]
fn return_row<'a>(tokens: &Lexed<'a>) -> Read<'a, BodyStatement>
    ensures { Gives (λ x. x) result (reads return_ tokens.now) }
{
    let ((), rest) = word(tokens, b"return")?;
    let (row, rest) = returned(&rest)?;
    Ok((BodyStatement::Return(row), rest))
}

/// INSERT in a code.
fn insert_in_body<'a>(alloc: Global, tokens: &Lexed<'a>) -> Read<'a, BodyStatement>
    ensures { Gives (λ x. x) result (reads insert_in_body tokens.now) }
{
    let (insert, rest) = insert(alloc, Scope::InCode, tokens)?;
    Ok((BodyStatement::Insert(insert), rest))
}

/// UPDATE in a code.
fn update_in_body<'a>(alloc: Global, tokens: &Lexed<'a>) -> Read<'a, BodyStatement>
    ensures { Gives (λ x. x) result (reads update_in_body tokens.now) }
{
    let (update, rest) = update(alloc, Scope::InCode, tokens)?;
    Ok((BodyStatement::Update(update), rest))
}

/// DELETE in a code.
fn delete_in_body<'a>(alloc: Global, tokens: &Lexed<'a>) -> Read<'a, BodyStatement>
    ensures { Gives (λ x. x) result (reads delete_in_body tokens.now) }
{
    let (delete, rest) = delete(alloc, Scope::InCode, tokens)?;
    Ok((BodyStatement::Delete(delete), rest))
}

/// SET CONSTRAINTS in a code.
fn set_in_body<'a>(alloc: Global, tokens: &Lexed<'a>) -> Read<'a, BodyStatement>
    ensures { Gives (λ x. x) result (reads set_in_body tokens.now) }
{
    let (set, rest) = set_constraints(alloc, tokens)?;
    Ok((BodyStatement::SetConstraints(set), rest))
}

/// A statement of a code but IF and a block.
fn plain_statement<'a>(alloc: Global, tokens: &Lexed<'a>) -> Read<'a, BodyStatement>
    ensures { Gives (λ x. x) result (reads plain_statement tokens.now) }
{
    if is_word(tokens, b"raise") {
        raise(alloc, tokens)
    } else if is_word(tokens, b"return") {
        return_row(tokens)
    } else if is_word(tokens, b"insert") {
        insert_in_body(alloc, tokens)
    } else if is_word(tokens, b"update") {
        update_in_body(alloc, tokens)
    } else if is_word(tokens, b"delete") {
        delete_in_body(alloc, tokens)
    } else {
        set_in_body(alloc, tokens)
    }
}

/// Whether a statement of a code begins here.
fn begins_statement(tokens: &Lexed<'_>) -> bool
    ensures { result ≡ begins body_words tokens.now }
{
    is_one_of(
        tokens,
        &[
            "if", "begin", "raise", "return", "insert", "update", "delete", "set",
        ],
    )
}

/// How many IFs and blocks may be opened within one more.
fn less_room(room: usize) -> usize
    ensures { result ≡ less_room room }
{
    room.saturating_sub(1)
}

/// The condition of an IF or an ELSIF, and THEN.
fn condition_then<'a>(alloc: Global, tokens: &Lexed<'a>) -> Read<'a, Expr>
    ensures { Gives (λ x. x) result (reads condition_then tokens.now) }
{
    let (condition, rest) = whole_expression(alloc, Scope::InCode, tokens)?;
    let ((), rest) = word(&rest, b"then")?;
    Ok((condition, rest))
}

/// A semicolon, where it is there.
fn semicolon<'a>(tokens: &Lexed<'a>) -> Read<'a, Option<()>>
    ensures { Gives (λ x. x) result (reads semicolon tokens.now) }
{
    if !is_symbol(tokens, Symbol::Semicolon) {
        return Ok((None, tokens.copied()));
    }
    let ((), rest) = sign(tokens, Symbol::Semicolon)?;
    Ok((Some(()), rest))
}

/// How many IFs and blocks may be open.
const MAX_OPEN: usize = 100;

/// A statement of a code in which so many more IFs and blocks may be opened.
#[cycle(code)]
#[tactic(auto, unfolding(aq_grammar::specs::Bodies::body_statement))]
fn body_statement<'a>(alloc: Global, room: usize, tokens: &Lexed<'a>) -> Read<'a, BodyStatement>
    ensures { Gives (λ x. x) result (reads (body_statement room) tokens.now) }
{
    if is_word(tokens, b"if") {
        if_statement(alloc, room, tokens)
    } else if is_word(tokens, b"begin") {
        block_in_body(alloc, room, tokens)
    } else {
        plain_statement(alloc, tokens)
    }
}

/// A statement of a code, with its semicolon.
#[cycle(code)]
fn ended_statement<'a>(alloc: Global, room: usize, tokens: &Lexed<'a>) -> Read<'a, BodyStatement>
    ensures { Gives (λ x. x) result (reads (ended_statement room) tokens.now) }
{
    let (statement, rest) = body_statement(alloc, room, tokens)?;
    let ((), rest) = sign(&rest, Symbol::Semicolon)?;
    Ok((statement, rest))
}

/// Statements of a code in which so many more IFs and blocks may be opened.
#[cycle(code)]
fn block<'a>(alloc: Global, room: usize, tokens: &Lexed<'a>) -> Read<'a, List<BodyStatement>>
    ensures { Gives (λ x. x) result (reads_called (Block room) tokens.now) }
{
    let mut statements = List::new(alloc);
    let mut rest = tokens.copied();
    refuse_in_code(alloc, &rest, room)?;
    'statements: while begins_statement(&rest) {
        let (next, after) = ended_statement(alloc, room, &rest)?;
        statements.push(next)?;
        refuse_in_code(alloc, &after, room)?;
        rest = after;
    }
    Ok((statements, rest))
}

/// `ELSIF condition THEN` and its statements.
#[cycle(code)]
#[tactic(auto, unfolding(aq_grammar::specs::Bodies::else_if))]
fn else_if<'a>(alloc: Global, room: usize, tokens: &Lexed<'a>) -> Read<'a, ElseIf>
    ensures { Gives (λ x. x) result (reads (else_if room) tokens.now) }
{
    let ((), rest) = word(tokens, b"elsif")?;
    let (condition, rest) = condition_then(alloc, &rest)?;
    let (then, rest) = block(alloc, less_room(room), &rest)?;
    Ok((ElseIf { condition, then }, rest))
}

/// The ELSIFs of an IF.
#[cycle(code)]
fn else_ifs<'a>(alloc: Global, room: usize, tokens: &Lexed<'a>) -> Read<'a, List<ElseIf>>
    ensures { Gives (λ x. x) result (reads (else_ifs room) tokens.now) }
{
    let mut branches = List::new(alloc);
    let mut rest = tokens.copied();
    'branches: while is_word(&rest, b"elsif") {
        let (next, after) = else_if(alloc, room, &rest)?;
        branches.push(next)?;
        rest = after;
    }
    Ok((branches, rest))
}

/// ELSE and its statements, where it is said.
#[cycle(code)]
#[tactic(auto, unfolding(aq_grammar::specs::Bodies::otherwise))]
fn otherwise<'a>(
    alloc: Global,
    room: usize,
    tokens: &Lexed<'a>,
) -> Read<'a, Option<List<BodyStatement>>>
    ensures { Gives (λ x. x) result (reads (otherwise room) tokens.now) }
{
    if !is_word(tokens, b"else") {
        return Ok((None, tokens.copied()));
    }
    let ((), rest) = word(tokens, b"else")?;
    let (statements, rest) = block(alloc, less_room(room), &rest)?;
    Ok((Some(statements), rest))
}

/// IF with its branches.
#[cycle(code)]
#[tactic(auto, unfolding(aq_grammar::specs::Bodies::if_statement))]
fn if_statement<'a>(alloc: Global, room: usize, tokens: &Lexed<'a>) -> Read<'a, BodyStatement>
    ensures { Gives (λ x. x) result (reads (if_statement room) tokens.now) }
{
    let ((), rest) = word(tokens, b"if")?;
    let (condition, rest) = condition_then(alloc, &rest)?;
    let (then, rest) = block(alloc, less_room(room), &rest)?;
    let (else_ifs, rest) = else_ifs(alloc, room, &rest)?;
    let (otherwise, rest) = otherwise(alloc, room, &rest)?;
    let ((), rest) = word(&rest, b"end")?;
    let ((), rest) = word(&rest, b"if")?;
    Ok((
        BodyStatement::If {
            condition,
            then,
            else_ifs,
            otherwise,
        },
        rest,
    ))
}

/// `WHEN conditions THEN` and its statements.
#[cycle(code)]
#[tactic(auto, unfolding(aq_grammar::specs::Bodies::handler))]
fn handler<'a>(alloc: Global, room: usize, tokens: &Lexed<'a>) -> Read<'a, Handler>
    ensures { Gives (λ x. x) result (reads (handler room) tokens.now) }
{
    let ((), rest) = word(tokens, b"when")?;
    let (conditions, rest) = conditions_then(alloc, &rest)?;
    let (statements, rest) = block(alloc, less_room(room), &rest)?;
    Ok((
        Handler {
            conditions,
            statements,
        },
        rest,
    ))
}

/// One handler or more.
#[cycle(code)]
fn some_handlers<'a>(alloc: Global, room: usize, tokens: &Lexed<'a>) -> Read<'a, List<Handler>>
    ensures { Gives (λ x. x) result (reads (some_handlers room) tokens.now) }
{
    let mut found = List::new(alloc);
    let (first, mut rest) = handler(alloc, room, tokens)?;
    found.push(first)?;
    'handlers: while is_word(&rest, b"when") {
        let (next, after) = handler(alloc, room, &rest)?;
        found.push(next)?;
        rest = after;
    }
    Ok((found, rest))
}

/// EXCEPTION and the handlers, where they are there.
#[cycle(code)]
#[tactic(auto, unfolding(aq_grammar::specs::Bodies::handlers))]
fn handlers<'a>(alloc: Global, room: usize, tokens: &Lexed<'a>) -> Read<'a, List<Handler>>
    ensures { Gives (λ x. x) result (reads (handlers room) tokens.now) }
{
    if !is_word(tokens, b"exception") {
        return Ok((List::new(alloc), tokens.copied()));
    }
    let ((), rest) = word(tokens, b"exception")?;
    some_handlers(alloc, room, &rest)
}

/// A block, with which so many more IFs and blocks may be opened.
#[cycle(code)]
#[tactic(auto, unfolding(aq_grammar::specs::Bodies::body))]
fn body<'a>(alloc: Global, room: usize, tokens: &Lexed<'a>) -> Read<'a, Body>
    ensures { Gives (λ x. x) result (reads (body room) tokens.now) }
{
    let ((), rest) = word(tokens, b"begin")?;
    let (statements, rest) = block(alloc, less_room(room), &rest)?;
    let (handlers, rest) = handlers(alloc, room, &rest)?;
    let ((), rest) = word(&rest, b"end")?;
    Ok((
        Body {
            statements,
            handlers,
        },
        rest,
    ))
}

/// A block as a statement.
#[cycle(code)]
fn block_in_body<'a>(alloc: Global, room: usize, tokens: &Lexed<'a>) -> Read<'a, BodyStatement>
    ensures { Gives (λ x. x) result (reads (block_in_body room) tokens.now) }
{
    let (found, rest) = body(alloc, room, tokens)?;
    Ok((
        BodyStatement::Block {
            statements: found.statements,
            handlers: found.handlers,
        },
        rest,
    ))
}

/// The code of a function, between `$$`.
#[tactic(auto, unfolding(aq_grammar::specs::Bodies::code))]
pub(crate) fn code<'a>(alloc: Global, tokens: &Lexed<'a>) -> Read<'a, Body>
    ensures { Gives (λ x. x) result (reads code tokens.now) }
{
    let ((), rest) = sign(tokens, Symbol::DollarQuote)?;
    let (found, rest) = body(alloc, MAX_OPEN, &rest)?;
    let (_, rest) = semicolon(&rest)?;
    let ((), rest) = sign(&rest, Symbol::DollarQuote)?;
    Ok((found, rest))
}
