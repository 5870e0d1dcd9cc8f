//! Expressions, a function for each level of operators (PostgreSQL manual, section "Lexical Structure", "Operator Precedence").

ghost use Rattle.aq_grammar.specs.Rules.{Expression};
ghost use Rattle.aq_grammar.specs.Nonterminals.{reads, reads_called};
ghost use Rattle.aq_grammar.specs.Expressions.{atom, signed, product, sum, comparison, null_or_distinct, test, negation, conjunction};
ghost use Rattle.aq_grammar.specs.Steps.{Gives};

use crate::atom::plain_atom;
use crate::operators::{
    binary, comparison_sign, is_comparison, is_sum_sign, negated, sum_sign, tested,
};
use aq_base::{BinaryOperator, Expr, UnaryOperator};
use aq_grammar::{Read, Scope, behind, is_symbol, is_word, nots, sign, signs, word};
use aq_lex::{Lexed, Symbol};
use std::alloc::Global;

/// An expression in parentheses, or an atom with none.
#[cycle(expression)]
#[tactic(auto, unfolding(aq_grammar::specs::Expressions::atom))]
fn atom<'a>(alloc: Global, scope: Scope, tokens: &Lexed<'a>) -> Read<'a, Expr>
    ensures { Gives (λ x. x) result (reads (atom scope) tokens.now) }
{
    if !is_symbol(tokens, Symbol::OpenParen) {
        return plain_atom(alloc, scope, tokens);
    }
    let ((), rest) = sign(tokens, Symbol::OpenParen)?;
    let (inside, rest) = expression(alloc, scope, &rest)?;
    let ((), rest) = sign(&rest, Symbol::CloseParen)?;
    Ok((inside, rest))
}

/// An atom with its signs.
#[cycle(expression)]
#[tactic(auto, unfolding(aq_grammar::specs::Expressions::signed))]
fn signed<'a>(alloc: Global, scope: Scope, tokens: &Lexed<'a>) -> Read<'a, Expr>
    ensures { Gives (λ x. x) result (reads (signed scope) tokens.now) }
{
    let (count, rest) = signs(tokens)?;
    let (operand, rest) = atom(alloc, scope, &rest)?;
    Ok((behind(alloc, UnaryOperator::Negate, count, operand)?, rest))
}

/// Factors with `*` between them.
#[cycle(expression)]
#[tactic(auto, unfolding(aq_grammar::specs::Expressions::product))]
fn product<'a>(alloc: Global, scope: Scope, tokens: &Lexed<'a>) -> Read<'a, Expr>
    ensures { Gives (λ x. x) result (reads (product scope) tokens.now) }
{
    let (mut left, mut rest) = signed(alloc, scope, tokens)?;
    'factors: while is_symbol(&rest, Symbol::Times) {
        let behind = rest.rest();
        let (right, after) = signed(alloc, scope, &behind)?;
        left = binary(alloc, left, BinaryOperator::Multiply, right)?;
        rest = after;
    }
    Ok((left, rest))
}

/// Products with `+` or `-` between them.
#[cycle(expression)]
#[tactic(auto, unfolding(aq_grammar::specs::Expressions::sum))]
fn sum<'a>(alloc: Global, scope: Scope, tokens: &Lexed<'a>) -> Read<'a, Expr>
    ensures { Gives (λ x. x) result (reads (sum scope) tokens.now) }
{
    let (mut left, mut rest) = product(alloc, scope, tokens)?;
    'summands: while is_sum_sign(&rest) {
        let (operator, behind) = sum_sign(&rest)?;
        let (right, after) = product(alloc, scope, &behind)?;
        left = binary(alloc, left, operator, right)?;
        rest = after;
    }
    Ok((left, rest))
}

/// A sum, or two that are compared.
#[cycle(expression)]
#[tactic(auto, unfolding(aq_grammar::specs::Expressions::comparison))]
fn comparison<'a>(alloc: Global, scope: Scope, tokens: &Lexed<'a>) -> Read<'a, Expr>
    ensures { Gives (λ x. x) result (reads (comparison scope) tokens.now) }
{
    let (left, rest) = sum(alloc, scope, tokens)?;
    if !is_comparison(&rest) {
        return Ok((left, rest));
    }
    let (comparison, rest) = comparison_sign(&rest)?;
    let (right, rest) = sum(alloc, scope, &rest)?;
    let operator = BinaryOperator::Compare(comparison);
    Ok((binary(alloc, left, operator, right)?, rest))
}

/// NULL, or what an operand is distinct from.
#[cycle(expression)]
#[tactic(auto, unfolding(aq_grammar::specs::Expressions::null_or_distinct))]
fn null_or_distinct<'a>(alloc: Global, scope: Scope, tokens: &Lexed<'a>) -> Read<'a, Option<Expr>>
    ensures { Gives (λ x. x) result (reads (null_or_distinct scope) tokens.now) }
{
    if is_word(tokens, b"null") {
        let ((), rest) = word(tokens, b"null")?;
        return Ok((None, rest));
    }
    let ((), rest) = word(tokens, b"distinct")?;
    let ((), rest) = word(&rest, b"from")?;
    let (right, rest) = comparison(alloc, scope, &rest)?;
    Ok((Some(right), rest))
}

/// A comparison, of which something is told behind IS.
#[cycle(expression)]
fn test<'a>(alloc: Global, scope: Scope, tokens: &Lexed<'a>) -> Read<'a, Expr>
    ensures { Gives (λ x. x) result (reads (test scope) tokens.now) }
{
    let (mut operand, mut rest) = comparison(alloc, scope, tokens)?;
    'tests: while is_word(&rest, b"is") {
        let behind = rest.rest();
        let (is_negated, behind) = negated(&behind)?;
        let (right, after) = null_or_distinct(alloc, scope, &behind)?;
        operand = tested(alloc, operand, is_negated, right)?;
        rest = after;
    }
    Ok((operand, rest))
}

/// A test with its NOTs.
#[cycle(expression)]
#[tactic(auto, unfolding(aq_grammar::specs::Expressions::negation))]
fn negation<'a>(alloc: Global, scope: Scope, tokens: &Lexed<'a>) -> Read<'a, Expr>
    ensures { Gives (λ x. x) result (reads (negation scope) tokens.now) }
{
    let (count, rest) = nots(tokens)?;
    let (operand, rest) = test(alloc, scope, &rest)?;
    Ok((behind(alloc, UnaryOperator::Not, count, operand)?, rest))
}

/// Negations with AND between them.
#[cycle(expression)]
#[tactic(auto, unfolding(aq_grammar::specs::Expressions::conjunction))]
fn conjunction<'a>(alloc: Global, scope: Scope, tokens: &Lexed<'a>) -> Read<'a, Expr>
    ensures { Gives (λ x. x) result (reads (conjunction scope) tokens.now) }
{
    let (mut left, mut rest) = negation(alloc, scope, tokens)?;
    'negations: while is_word(&rest, b"and") {
        let behind = rest.rest();
        let (right, after) = negation(alloc, scope, &behind)?;
        left = binary(alloc, left, BinaryOperator::And, right)?;
        rest = after;
    }
    Ok((left, rest))
}

/// An expression: conjunctions with OR between them.
#[cycle(expression)]
#[tactic(auto, unfolding(aq_grammar::specs::Expressions::expression))]
pub(crate) fn expression<'a>(alloc: Global, scope: Scope, tokens: &Lexed<'a>) -> Read<'a, Expr>
    ensures { Gives (λ x. x) result (reads_called (Expression scope) tokens.now) }
{
    let (mut left, mut rest) = conjunction(alloc, scope, tokens)?;
    'conjunctions: while is_word(&rest, b"or") {
        let behind = rest.rest();
        let (right, after) = conjunction(alloc, scope, &behind)?;
        left = binary(alloc, left, BinaryOperator::Or, right)?;
        rest = after;
    }
    Ok((left, rest))
}
