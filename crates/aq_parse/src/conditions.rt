//! The conditions of a handler (PostgreSQL manual, chapter "PL/pgSQL", "Trapping Errors").

ghost use Rattle.aq_grammar.specs.Bodies.{condition, conditions, condition_word};
ghost use Rattle.aq_grammar.specs.Nonterminals.{reads};
ghost use Rattle.aq_grammar.specs.Steps.{Gives};
ghost use Rattle.aq_parse.specs.Bodies.{or_condition, conditions_then};

use aq_base::{Condition, List};
use aq_grammar::{Read, is_word, says, state_code, word};
use aq_lex::Lexed;
use std::alloc::Global;

/// A condition.
#[tactic(auto, unfolding(aq_grammar::specs::Bodies::condition))]
fn condition<'a>(alloc: Global, tokens: &Lexed<'a>) -> Read<'a, Condition>
    ensures { Gives (λ x. x) result (reads condition tokens.now) }
{
    if is_word(tokens, b"others") {
        says(tokens, b"others", Condition::Others)
    } else if is_word(tokens, b"sqlstate") {
        let ((), rest) = word(tokens, b"sqlstate")?;
        let (code, rest) = state_code(alloc, &rest)?;
        Ok((Condition::SqlState(code), rest))
    } else if is_word(tokens, b"unique_violation") {
        says(tokens, b"unique_violation", Condition::UniqueViolation)
    } else if is_word(tokens, b"foreign_key_violation") {
        says(
            tokens,
            b"foreign_key_violation",
            Condition::ForeignKeyViolation,
        )
    } else if is_word(tokens, b"not_null_violation") {
        says(tokens, b"not_null_violation", Condition::NotNullViolation)
    } else if is_word(tokens, b"raise_exception") {
        says(tokens, b"raise_exception", Condition::RaiseException)
    } else if is_word(tokens, b"serialization_failure") {
        says(
            tokens,
            b"serialization_failure",
            Condition::SerializationFailure,
        )
    } else {
        says(tokens, b"deadlock_detected", Condition::DeadlockDetected)
    }
}

/// `OR condition`
fn or_condition<'a>(alloc: Global, tokens: &Lexed<'a>) -> Read<'a, Condition>
    ensures { Gives (λ x. x) result (reads or_condition tokens.now) }
{
    let ((), rest) = word(tokens, b"or")?;
    condition(alloc, &rest)
}

/// Conditions with OR between them.
fn conditions<'a>(alloc: Global, tokens: &Lexed<'a>) -> Read<'a, List<Condition>>
    ensures { Gives (λ x. x) result (reads conditions tokens.now) }
{
    let mut found = List::new(alloc);
    let (first, mut rest) = condition(alloc, tokens)?;
    found.push(first)?;
    'conditions: while is_word(&rest, b"or") {
        let (next, after) = or_condition(alloc, &rest)?;
        found.push(next)?;
        rest = after;
    }
    Ok((found, rest))
}

/// The conditions of a handler, and THEN.
pub(crate) fn conditions_then<'a>(alloc: Global, tokens: &Lexed<'a>) -> Read<'a, List<Condition>>
    ensures { Gives (λ x. x) result (reads conditions_then tokens.now) }
{
    let (found, rest) = conditions(alloc, tokens)?;
    let ((), rest) = word(&rest, b"then")?;
    Ok((found, rest))
}
