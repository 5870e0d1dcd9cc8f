//! The rows that a statement reads or changes.

ghost use Rattle.aq_grammar.specs.Nonterminals.{reads};
ghost use Rattle.aq_grammar.specs.Changes.{where_part, given, from_table};
ghost use Rattle.aq_grammar.specs.Steps.{Gives};

use aq_base::{Expr, Given, TextVal};
use aq_grammar::{Read, Scope, is_word, public_name, refuse_joins, says, word};
use aq_lex::Lexed;
use aq_parse_expressions::whole_expression;
use std::alloc::Global;

/// `WHERE expression`, which may be left out.
#[tactic(auto, unfolding(aq_grammar::specs::Changes::where_part))]
pub(crate) fn where_part<'a>(
    alloc: Global,
    scope: Scope,
    tokens: &Lexed<'a>,
) -> Read<'a, Option<Expr>>
    ensures { Gives (λ x. x) result (reads (where_part scope) tokens.now) }
{
    if !is_word(tokens, b"where") {
        return Ok((None, tokens.copied()));
    }
    let ((), rest) = word(tokens, b"where")?;
    let (condition, rest) = whole_expression(alloc, scope, &rest)?;
    Ok((Some(condition), rest))
}

/// What a column is given: an expression, or DEFAULT.
#[tactic(auto, unfolding(aq_grammar::specs::Changes::given))]
pub(crate) fn given<'a>(alloc: Global, scope: Scope, tokens: &Lexed<'a>) -> Read<'a, Given>
    ensures { Gives (λ x. x) result (reads (given scope) tokens.now) }
{
    if is_word(tokens, b"default") {
        return says(tokens, b"default", Given::Default);
    }
    let (value, rest) = whole_expression(alloc, scope, tokens)?;
    Ok((Given::Value(value), rest))
}

/// `FROM table WHERE expression`
#[tactic(auto, unfolding(aq_grammar::specs::Changes::from_table, aq_grammar::specs::Steps::RefusesSo))]
pub(crate) fn from_table<'a>(
    alloc: Global,
    scope: Scope,
    tokens: &Lexed<'a>,
) -> Read<'a, (TextVal, Option<Expr>)>
    ensures { Gives (λ x. x) result (reads (from_table scope) tokens.now) }
{
    let ((), rest) = word(tokens, b"from")?;
    let (table, rest) = public_name(alloc, &rest)?;
    refuse_joins(alloc, &rest)?;
    let (condition, rest) = where_part(alloc, scope, &rest)?;
    Ok(((table, condition), rest))
}
