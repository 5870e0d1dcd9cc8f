//! Whole expressions, which are bounded.

ghost use Rattle.std.specs.Prelude.{drop, codes};
ghost use Rattle.aq_grammar.specs.Forms.{limit};
ghost use Rattle.aq_grammar.specs.Nonterminals.{reads};
ghost use Rattle.aq_grammar.specs.Expressions.{whole_expression};
ghost use Rattle.aq_grammar.specs.Steps.{Gives, IsFaultOr};

use crate::expression::expression;
use aq_base::Expr;
use aq_grammar::{Read, ReadFault, Scope, passes_limit};
use aq_lex::Lexed;
use std::alloc::Global;

/// The number of tokens that an expression may have.
const MAX_TOKENS: usize = 1000;

/// The token that is one too many is refused.
fn too_long(alloc: Global, tokens: &Lexed<'_>) -> ReadFault
    ensures { IsFaultOr (limit (codes "expression limit of 1000 tokens reached")) (drop 1000 tokens.now) result }
{
    passes_limit(
        alloc,
        &tokens.behind(MAX_TOKENS),
        "expression limit of 1000 tokens reached",
    )
}

/// A whole expression, of 1,000 tokens at the most. No more than one token behind these is looked at.
#[tactic(auto, unfolding(aq_grammar::specs::Expressions::whole_expression))]
pub fn whole_expression<'a>(alloc: Global, scope: Scope, tokens: &Lexed<'a>) -> Read<'a, Expr>
    ensures { Gives (λ x. x) result (reads (whole_expression scope) tokens.now) }
{
    let front = tokens.front(MAX_TOKENS + 1);
    match expression(alloc, scope, &front) {
        Ok((found, rest)) => {
            let used = front.len().saturating_sub(rest.len());
            if used > MAX_TOKENS {
                return Err(too_long(alloc, tokens));
            }
            Ok((found, tokens.behind(used)))
        }
        Err(ReadFault::NoMemory) => Err(ReadFault::NoMemory),
        Err(ReadFault::Syntax { left }) => {
            let used = front.len().saturating_sub(left);
            if used > MAX_TOKENS {
                return Err(too_long(alloc, tokens));
            }
            let left = tokens.behind(used).len();
            Err(ReadFault::Syntax { left })
        }
        Err(ReadFault::Refused { left, fault }) => {
            let used = front.len().saturating_sub(left);
            if used > MAX_TOKENS {
                return Err(too_long(alloc, tokens));
            }
            let left = tokens.behind(used).len();
            Err(ReadFault::Refused { left, fault })
        }
    }
}
