//! The operators of expressions.

ghost use Rattle.std.specs.Prelude.{◌≡◌, ◌∷◌, [], IfOk};
ghost use Rattle.aq_base.specs.declared.expr.Expr.TheVariants.{Unary, Binary};
ghost use Rattle.aq_lex.specs.declared.token.Symbol.TheVariants.{Plus, Minus};
ghost use Rattle.aq_grammar.specs.Terminals.{begins, Sign};
ghost use Rattle.aq_grammar.specs.Nonterminals.{reads};
ghost use Rattle.aq_grammar.specs.Forms.{word};
ghost use Rattle.aq_grammar.specs.Expressions.{sum_sign, comparison_sign, comparison_signs, compares, negated, tested};
ghost use Rattle.aq_grammar.specs.Steps.{Gives};

use aq_base::{BinaryOperator, Boxed, Comparison, Expr, NoMemory, UnaryOperator};
use aq_grammar::{Read, is_one_of_signs, is_symbol, is_word, sign, word};
use aq_lex::{Lexed, Symbol};
use std::alloc::Global;

/// Whether `+` or `-` stands there.
pub(crate) fn is_sum_sign(tokens: &Lexed<'_>) -> bool
    ensures { result ≡ begins (Sign Plus ∷ Sign Minus ∷ []) tokens.now }
{
    is_one_of_signs(tokens, &[Symbol::Plus, Symbol::Minus])
}

/// `+` or `-`.
#[tactic(auto, unfolding(aq_grammar::specs::Expressions::sum_sign))]
pub(crate) fn sum_sign<'a>(tokens: &Lexed<'a>) -> Read<'a, BinaryOperator>
    ensures { Gives (λ x. x) result (reads sum_sign tokens.now) }
{
    if is_symbol(tokens, Symbol::Plus) {
        let ((), rest) = sign(tokens, Symbol::Plus)?;
        return Ok((BinaryOperator::Add, rest));
    }
    let ((), rest) = sign(tokens, Symbol::Minus)?;
    Ok((BinaryOperator::Subtract, rest))
}

/// Whether a comparison stands there.
pub(crate) fn is_comparison(tokens: &Lexed<'_>) -> bool
    ensures { result ≡ begins comparison_signs tokens.now }
{
    is_one_of_signs(
        tokens,
        &[
            Symbol::Equal,
            Symbol::Unequal,
            Symbol::Less,
            Symbol::AtMost,
            Symbol::Greater,
            Symbol::AtLeast,
        ],
    )
}

fn compares<'a>(tokens: &Lexed<'a>, symbol: Symbol, comparison: Comparison) -> Read<'a, Comparison>
    ensures { Gives (λ x. x) result (reads (compares symbol comparison) tokens.now) }
{
    let ((), rest) = sign(tokens, symbol)?;
    Ok((comparison, rest))
}

/// A comparison.
#[tactic(auto, unfolding(aq_grammar::specs::Expressions::comparison_sign))]
pub(crate) fn comparison_sign<'a>(tokens: &Lexed<'a>) -> Read<'a, Comparison>
    ensures { Gives (λ x. x) result (reads comparison_sign tokens.now) }
{
    if is_symbol(tokens, Symbol::Equal) {
        return compares(tokens, Symbol::Equal, Comparison::Equal);
    }
    if is_symbol(tokens, Symbol::Unequal) {
        return compares(tokens, Symbol::Unequal, Comparison::Unequal);
    }
    if is_symbol(tokens, Symbol::Less) {
        return compares(tokens, Symbol::Less, Comparison::Less);
    }
    if is_symbol(tokens, Symbol::AtMost) {
        return compares(tokens, Symbol::AtMost, Comparison::AtMost);
    }
    if is_symbol(tokens, Symbol::Greater) {
        return compares(tokens, Symbol::Greater, Comparison::Greater);
    }
    compares(tokens, Symbol::AtLeast, Comparison::AtLeast)
}

/// Whether NOT stands there.
#[tactic(auto, unfolding(aq_grammar::specs::Expressions::negated))]
pub(crate) fn negated<'a>(tokens: &Lexed<'a>) -> Read<'a, bool>
    ensures { Gives (λ x. x) result (reads negated tokens.now) }
{
    if !is_word(tokens, b"not") {
        return Ok((false, tokens.copied()));
    }
    let ((), rest) = word(tokens, b"not")?;
    Ok((true, rest))
}

/// Two operands with an operator between them.
pub(crate) fn binary(
    alloc: Global,
    left: Expr,
    operator: BinaryOperator,
    right: Expr,
) -> Result<Expr, NoMemory>
    ensures { IfOk result (λ e. e ≡ Binary left operator right) }
{
    let left = Boxed::new(alloc, left)?;
    let right = Boxed::new(alloc, right)?;
    Ok(Expr::Binary {
        left,
        operator,
        right,
    })
}

/// An operand with an operator that stands behind it.
fn unary(alloc: Global, operator: UnaryOperator, operand: Expr) -> Result<Expr, NoMemory>
    ensures { IfOk result (λ e. e ≡ Unary operator operand) }
{
    let operand = Boxed::new(alloc, operand)?;
    Ok(Expr::Unary { operator, operand })
}

/// An operand with what is told of it behind IS.
pub(crate) fn tested(
    alloc: Global,
    operand: Expr,
    negated: bool,
    right: Option<Expr>,
) -> Result<Expr, NoMemory>
    ensures { IfOk result (λ e. e ≡ tested operand (negated, right)) }
{
    match right {
        None if negated => unary(alloc, UnaryOperator::IsNotNull, operand),
        None => unary(alloc, UnaryOperator::IsNull, operand),
        Some(right) if negated => binary(alloc, operand, BinaryOperator::IsNotDistinct, right),
        Some(right) => binary(alloc, operand, BinaryOperator::IsDistinct, right),
    }
}
