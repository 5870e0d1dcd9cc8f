//! CREATE TRIGGER (PostgreSQL manual, page CREATE TRIGGER).

ghost use Rattle.aq_grammar.specs.Nonterminals.{reads};
ghost use Rattle.aq_grammar.specs.Steps.{Gives};
ghost use Rattle.aq_grammar.specs.Triggers.{when_part, executes, fired, create_trigger, create_constraint_trigger};
ghost use Rattle.aq_parse.specs.Triggers.{function_word, fired_view};

use crate::functions::no_arguments;
use aq_base::{CreateConstraintTrigger, CreateTrigger, Expr, Statement, TextVal};
use aq_grammar::{Read, Scope, is_word, name, public_name, sign, word};
use aq_lex::{Lexed, Symbol};
use aq_parse_expressions::whole_expression;
use aq_parse_tables::timing;
use aq_parse_triggers::{Watch, fires_for, for_each_row, referencing, watched};
use std::alloc::Global;

/// The condition under which a trigger fires.
#[tactic(auto, unfolding(aq_grammar::specs::Triggers::when_part))]
fn when_part<'a>(alloc: Global, tokens: &Lexed<'a>) -> Read<'a, Option<Expr>>
    ensures { Gives (λ x. x) result (reads when_part tokens.now) }
{
    if !is_word(tokens, b"when") {
        return Ok((None, tokens.copied()));
    }
    let ((), rest) = word(tokens, b"when")?;
    let ((), rest) = sign(&rest, Symbol::OpenParen)?;
    let (condition, rest) = whole_expression(alloc, Scope::InCondition, &rest)?;
    let ((), rest) = sign(&rest, Symbol::CloseParen)?;
    Ok((Some(condition), rest))
}

/// `FUNCTION` or `PROCEDURE`
fn function_word<'a>(tokens: &Lexed<'a>) -> Read<'a, ()>
    ensures { Gives (λ x. tt) result (reads function_word tokens.now) }
{
    if is_word(tokens, b"function") {
        word(tokens, b"function")
    } else {
        word(tokens, b"procedure")
    }
}

/// The function that a trigger calls.
#[tactic(auto, unfolding(aq_grammar::specs::Triggers::executes))]
fn executes<'a>(alloc: Global, tokens: &Lexed<'a>) -> Read<'a, TextVal>
    ensures { Gives (λ x. x) result (reads executes tokens.now) }
{
    let ((), rest) = word(tokens, b"execute")?;
    let ((), rest) = function_word(&rest)?;
    let (function, rest) = public_name(alloc, &rest)?;
    let ((), rest) = no_arguments(&rest)?;
    Ok((function, rest))
}

/// What a trigger does, and where.
#[derive(Drop)]
struct Action {
    condition: Option<Expr>,
    function: TextVal,
}

/// The condition of a trigger and its function.
#[tactic(auto, unfolding(aq_grammar::specs::Triggers::fired))]
fn fired<'a>(alloc: Global, tokens: &Lexed<'a>) -> Read<'a, Action>
    ensures { Gives fired_view result (reads fired tokens.now) }
{
    let (condition, rest) = when_part(alloc, tokens)?;
    let (function, rest) = executes(alloc, &rest)?;
    Ok((
        Action {
            condition,
            function,
        },
        rest,
    ))
}

/// CREATE TRIGGER, behind CREATE.
#[tactic(auto, unfolding(aq_grammar::specs::Triggers::create_trigger))]
pub(crate) fn create_trigger<'a>(alloc: Global, tokens: &Lexed<'a>) -> Read<'a, Statement>
    ensures { Gives (λ x. x) result (reads create_trigger tokens.now) }
{
    let ((), rest) = word(tokens, b"trigger")?;
    let (name, rest) = name(alloc, &rest)?;
    let (Watch { events, table }, rest) = watched(alloc, &rest)?;
    let (transitions, rest) = referencing(alloc, &rest)?;
    let (each, rest) = fires_for(&rest)?;
    let (
        Action {
            condition,
            function,
        },
        rest,
    ) = fired(alloc, &rest)?;
    let trigger = CreateTrigger {
        name,
        events,
        table,
        transitions,
        each,
        condition,
        function,
    };
    Ok((Statement::CreateTrigger(trigger), rest))
}

/// CREATE CONSTRAINT TRIGGER, behind CREATE.
#[tactic(auto, unfolding(aq_grammar::specs::Triggers::create_constraint_trigger))]
pub(crate) fn create_constraint_trigger<'a>(
    alloc: Global,
    tokens: &Lexed<'a>,
) -> Read<'a, Statement>
    ensures { Gives (λ x. x) result (reads create_constraint_trigger tokens.now) }
{
    let ((), rest) = word(tokens, b"constraint")?;
    let ((), rest) = word(&rest, b"trigger")?;
    let (name, rest) = name(alloc, &rest)?;
    let (Watch { events, table }, rest) = watched(alloc, &rest)?;
    let (timing, rest) = timing(&rest)?;
    let ((), rest) = for_each_row(&rest)?;
    let (
        Action {
            condition,
            function,
        },
        rest,
    ) = fired(alloc, &rest)?;
    let trigger = CreateConstraintTrigger {
        name,
        events,
        table,
        timing,
        condition,
        function,
    };
    Ok((Statement::CreateConstraintTrigger(trigger), rest))
}
