//! Transaction blocks and savepoints (PostgreSQL manual, pages BEGIN, START TRANSACTION, COMMIT, ROLLBACK, SAVEPOINT, RELEASE SAVEPOINT, ROLLBACK TO SAVEPOINT).

ghost use Rattle.std.specs.Prelude.{codes};
ghost use Rattle.aq_base.specs.declared.statement.Statement.TheVariants.{Commit, Rollback};
ghost use Rattle.aq_grammar.specs.Nonterminals.{reads};
ghost use Rattle.aq_grammar.specs.Steps.{Gives};
ghost use Rattle.aq_grammar.specs.Transactions.{work, isolation_level, isolation, begin, start_transaction, ends_block, savepoint_name, rollback, savepoint, release};

use aq_base::{Isolation, Statement, TextVal};
use aq_grammar::{Read, is_one_of, is_word, name, refuse_serializable, says, word};
use aq_lex::Lexed;
use std::alloc::Global;

/// WORK or TRANSACTION, which say nothing.
#[tactic(auto, unfolding(aq_grammar::specs::Transactions::work))]
fn work<'a>(tokens: &Lexed<'a>) -> Read<'a, Option<()>>
    ensures { Gives (λ x. x) result (reads work tokens.now) }
{
    if !is_one_of(tokens, &["work", "transaction"]) {
        return Ok((None, tokens.copied()));
    }
    let ((), rest) = if is_word(tokens, b"work") {
        word(tokens, b"work")?
    } else {
        word(tokens, b"transaction")?
    };
    Ok((Some(()), rest))
}

/// Which isolation level. READ UNCOMMITTED is READ COMMITTED.
#[tactic(auto, unfolding(aq_grammar::specs::Transactions::isolation_level))]
fn isolation_level<'a>(tokens: &Lexed<'a>) -> Read<'a, Isolation>
    ensures { Gives (λ x. x) result (reads isolation_level tokens.now) }
{
    if is_word(tokens, b"read") {
        let ((), rest) = word(tokens, b"read")?;
        if is_word(&rest, b"committed") {
            says(&rest, b"committed", Isolation::ReadCommitted)
        } else {
            says(&rest, b"uncommitted", Isolation::ReadCommitted)
        }
    } else {
        let ((), rest) = word(tokens, b"repeatable")?;
        says(&rest, b"read", Isolation::RepeatableRead)
    }
}

/// The isolation level, where one is given.
#[tactic(auto, unfolding(aq_grammar::specs::Transactions::isolation, aq_grammar::specs::Steps::RefusesSo))]
fn isolation<'a>(alloc: Global, tokens: &Lexed<'a>) -> Read<'a, Isolation>
    ensures { Gives (λ x. x) result (reads isolation tokens.now) }
{
    refuse_serializable(alloc, tokens)?;
    if !is_word(tokens, b"isolation") {
        return Ok((Isolation::ReadCommitted, tokens.copied()));
    }
    let ((), rest) = word(tokens, b"isolation")?;
    let ((), rest) = word(&rest, b"level")?;
    isolation_level(&rest)
}

/// `BEGIN WORK ISOLATION LEVEL isolation`
#[tactic(auto, unfolding(aq_grammar::specs::Transactions::begin))]
pub fn begin<'a>(alloc: Global, tokens: &Lexed<'a>) -> Read<'a, Statement>
    ensures { Gives (λ x. x) result (reads begin tokens.now) }
{
    let ((), rest) = word(tokens, b"begin")?;
    let (_, rest) = work(&rest)?;
    let (isolation, rest) = isolation(alloc, &rest)?;
    Ok((Statement::Begin(isolation), rest))
}

/// `START TRANSACTION ISOLATION LEVEL isolation`
#[tactic(auto, unfolding(aq_grammar::specs::Transactions::start_transaction))]
pub fn start_transaction<'a>(alloc: Global, tokens: &Lexed<'a>) -> Read<'a, Statement>
    ensures { Gives (λ x. x) result (reads start_transaction tokens.now) }
{
    let ((), rest) = word(tokens, b"start")?;
    let ((), rest) = word(&rest, b"transaction")?;
    let (isolation, rest) = isolation(alloc, &rest)?;
    Ok((Statement::StartTransaction(isolation), rest))
}

/// `COMMIT WORK`
pub fn commit<'a>(tokens: &Lexed<'a>) -> Read<'a, Statement>
    ensures { Gives (λ x. x) result (reads (ends_block (codes "commit") Commit) tokens.now) }
{
    let ((), rest) = word(tokens, b"commit")?;
    let (_, rest) = work(&rest)?;
    Ok((Statement::Commit, rest))
}

/// `END WORK`, which is COMMIT.
pub fn end<'a>(tokens: &Lexed<'a>) -> Read<'a, Statement>
    ensures { Gives (λ x. x) result (reads (ends_block (codes "end") Commit) tokens.now) }
{
    let ((), rest) = word(tokens, b"end")?;
    let (_, rest) = work(&rest)?;
    Ok((Statement::Commit, rest))
}

/// `ABORT WORK`, which is ROLLBACK.
pub fn abort<'a>(tokens: &Lexed<'a>) -> Read<'a, Statement>
    ensures { Gives (λ x. x) result (reads (ends_block (codes "abort") Rollback) tokens.now) }
{
    let ((), rest) = word(tokens, b"abort")?;
    let (_, rest) = work(&rest)?;
    Ok((Statement::Rollback, rest))
}

/// The name of a savepoint, before which SAVEPOINT may stand.
#[tactic(auto, unfolding(aq_grammar::specs::Transactions::savepoint_name))]
fn savepoint_name<'a>(alloc: Global, tokens: &Lexed<'a>) -> Read<'a, TextVal>
    ensures { Gives (λ x. x) result (reads savepoint_name tokens.now) }
{
    if is_word(tokens, b"savepoint") {
        let ((), rest) = word(tokens, b"savepoint")?;
        name(alloc, &rest)
    } else {
        name(alloc, tokens)
    }
}

/// `ROLLBACK WORK TO SAVEPOINT name`
#[tactic(auto, unfolding(aq_grammar::specs::Transactions::rollback))]
pub fn rollback<'a>(alloc: Global, tokens: &Lexed<'a>) -> Read<'a, Statement>
    ensures { Gives (λ x. x) result (reads rollback tokens.now) }
{
    let ((), rest) = word(tokens, b"rollback")?;
    let (_, rest) = work(&rest)?;
    if !is_word(&rest, b"to") {
        return Ok((Statement::Rollback, rest));
    }
    let ((), rest) = word(&rest, b"to")?;
    let (name, rest) = savepoint_name(alloc, &rest)?;
    Ok((Statement::RollbackTo(name), rest))
}

/// `SAVEPOINT name`
#[tactic(auto, unfolding(aq_grammar::specs::Transactions::savepoint))]
pub fn savepoint<'a>(alloc: Global, tokens: &Lexed<'a>) -> Read<'a, Statement>
    ensures { Gives (λ x. x) result (reads savepoint tokens.now) }
{
    let ((), rest) = word(tokens, b"savepoint")?;
    let (name, rest) = name(alloc, &rest)?;
    Ok((Statement::Savepoint(name), rest))
}

/// `RELEASE SAVEPOINT name`
#[tactic(auto, unfolding(aq_grammar::specs::Transactions::release))]
pub fn release<'a>(alloc: Global, tokens: &Lexed<'a>) -> Read<'a, Statement>
    ensures { Gives (λ x. x) result (reads release tokens.now) }
{
    let ((), rest) = word(tokens, b"release")?;
    let (name, rest) = savepoint_name(alloc, &rest)?;
    Ok((Statement::Release(name), rest))
}
