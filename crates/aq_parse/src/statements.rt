//! The statements of the setup section and those of a session.

ghost use Rattle.aq_grammar.specs.Nonterminals.{reads};
ghost use Rattle.aq_grammar.specs.Statements.{created, supported_in_setup, setup_statement, block_statement, supported_in_session, session_statement};
ghost use Rattle.aq_grammar.specs.Steps.{Gives};
ghost use Rattle.aq_parse.specs.Statements.{insert_statement, update_statement, delete_statement, select_statement, set_statement, statement_of};

use crate::delete::delete;
use crate::functions::create_function;
use crate::insert::insert;
use crate::select::select;
use crate::triggers::{create_constraint_trigger, create_trigger};
use crate::update::update;
use aq_base::Statement;
use aq_grammar::{Read, Scope, is_word, refuse_in_session, refuse_in_setup, word};
use aq_lex::Lexed;
use aq_parse_tables::{alter_table, create_table};
use aq_parse_transactions::{
    abort, begin, commit, end, release, rollback, savepoint, set_constraints, start_transaction,
};
use std::alloc::Global;

/// Where a statement stands.
#[derive(Clone, Copy)]
pub enum Place {
    /// In the setup section.
    Setup,
    /// In a session.
    Session,
}

/// What is created, behind CREATE.
#[tactic(auto, unfolding(aq_grammar::specs::Statements::created))]
fn created<'a>(alloc: Global, tokens: &Lexed<'a>) -> Read<'a, Statement>
    ensures { Gives (λ x. x) result (reads created tokens.now) }
{
    if is_word(tokens, b"table") {
        create_table(alloc, tokens)
    } else if is_word(tokens, b"function") {
        create_function(alloc, tokens)
    } else if is_word(tokens, b"trigger") {
        create_trigger(alloc, tokens)
    } else {
        create_constraint_trigger(alloc, tokens)
    }
}

/// A statement of the setup section that is not refused.
#[tactic(auto, unfolding(aq_grammar::specs::Statements::supported_in_setup))]
fn supported_in_setup<'a>(alloc: Global, tokens: &Lexed<'a>) -> Read<'a, Statement>
    ensures { Gives (λ x. x) result (reads supported_in_setup tokens.now) }
{
    if is_word(tokens, b"create") {
        let ((), rest) = word(tokens, b"create")?;
        created(alloc, &rest)
    } else {
        alter_table(alloc, tokens)
    }
}

/// A statement of the setup section.
#[tactic(auto, unfolding(aq_grammar::specs::Statements::setup_statement, aq_grammar::specs::Steps::RefusesSo))]
fn setup_statement<'a>(alloc: Global, tokens: &Lexed<'a>) -> Read<'a, Statement>
    ensures { Gives (λ x. x) result (reads setup_statement tokens.now) }
{
    refuse_in_setup(alloc, tokens)?;
    supported_in_setup(alloc, tokens)
}

/// COMMIT, ROLLBACK and the other statements on the transaction block and its savepoints.
#[tactic(auto, unfolding(aq_grammar::specs::Statements::block_statement))]
fn block_statement<'a>(alloc: Global, tokens: &Lexed<'a>) -> Read<'a, Statement>
    ensures { Gives (λ x. x) result (reads block_statement tokens.now) }
{
    if is_word(tokens, b"begin") {
        begin(alloc, tokens)
    } else if is_word(tokens, b"start") {
        start_transaction(alloc, tokens)
    } else if is_word(tokens, b"commit") {
        commit(tokens)
    } else if is_word(tokens, b"end") {
        end(tokens)
    } else if is_word(tokens, b"rollback") {
        rollback(alloc, tokens)
    } else if is_word(tokens, b"abort") {
        abort(tokens)
    } else if is_word(tokens, b"savepoint") {
        savepoint(alloc, tokens)
    } else {
        release(alloc, tokens)
    }
}

/// INSERT as a statement.
fn insert_statement<'a>(alloc: Global, tokens: &Lexed<'a>) -> Read<'a, Statement>
    ensures { Gives (λ x. x) result (reads insert_statement tokens.now) }
{
    let (insert, rest) = insert(alloc, Scope::InStatement, tokens)?;
    Ok((Statement::Insert(insert), rest))
}

/// UPDATE as a statement.
fn update_statement<'a>(alloc: Global, tokens: &Lexed<'a>) -> Read<'a, Statement>
    ensures { Gives (λ x. x) result (reads update_statement tokens.now) }
{
    let (update, rest) = update(alloc, Scope::InStatement, tokens)?;
    Ok((Statement::Update(update), rest))
}

/// DELETE as a statement.
fn delete_statement<'a>(alloc: Global, tokens: &Lexed<'a>) -> Read<'a, Statement>
    ensures { Gives (λ x. x) result (reads delete_statement tokens.now) }
{
    let (delete, rest) = delete(alloc, Scope::InStatement, tokens)?;
    Ok((Statement::Delete(delete), rest))
}

/// SELECT as a statement.
fn select_statement<'a>(alloc: Global, tokens: &Lexed<'a>) -> Read<'a, Statement>
    ensures { Gives (λ x. x) result (reads select_statement tokens.now) }
{
    let (select, rest) = select(alloc, Scope::InStatement, tokens)?;
    Ok((Statement::Select(select), rest))
}

/// SET CONSTRAINTS as a statement.
fn set_statement<'a>(alloc: Global, tokens: &Lexed<'a>) -> Read<'a, Statement>
    ensures { Gives (λ x. x) result (reads set_statement tokens.now) }
{
    let (set, rest) = set_constraints(alloc, tokens)?;
    Ok((Statement::SetConstraints(set), rest))
}

/// A statement of a session that is not refused.
#[tactic(auto, unfolding(aq_grammar::specs::Statements::supported_in_session))]
fn supported_in_session<'a>(alloc: Global, tokens: &Lexed<'a>) -> Read<'a, Statement>
    ensures { Gives (λ x. x) result (reads supported_in_session tokens.now) }
{
    if is_word(tokens, b"insert") {
        insert_statement(alloc, tokens)
    } else if is_word(tokens, b"update") {
        update_statement(alloc, tokens)
    } else if is_word(tokens, b"delete") {
        delete_statement(alloc, tokens)
    } else if is_word(tokens, b"select") {
        select_statement(alloc, tokens)
    } else if is_word(tokens, b"set") {
        set_statement(alloc, tokens)
    } else {
        block_statement(alloc, tokens)
    }
}

/// A statement of a session.
#[tactic(auto, unfolding(aq_grammar::specs::Statements::session_statement, aq_grammar::specs::Steps::RefusesSo))]
fn session_statement<'a>(alloc: Global, tokens: &Lexed<'a>) -> Read<'a, Statement>
    ensures { Gives (λ x. x) result (reads session_statement tokens.now) }
{
    refuse_in_session(alloc, tokens)?;
    supported_in_session(alloc, tokens)
}

/// Reads one statement, which ends before its semicolon, by the rules of its place.
pub fn statement<'a>(alloc: Global, place: Place, tokens: &Lexed<'a>) -> Read<'a, Statement>
    ensures { Gives (λ x. x) result (reads (statement_of place) tokens.now) }
{
    match place {
        Place::Setup => setup_statement(alloc, tokens),
        Place::Session => session_statement(alloc, tokens),
    }
}
