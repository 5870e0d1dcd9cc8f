//! Operators before an operand.

ghost use Rattle.std.specs.Prelude.{◌≡◌, [], ◌∷◌, codes, replicate, IfOk};
ghost use Rattle.aq_lex.specs.declared.token.Symbol.TheVariants.{Minus};
ghost use Rattle.aq_grammar.specs.Terminals.{Keyword, Sign};
ghost use Rattle.aq_grammar.specs.Forms.{word, sign};
ghost use Rattle.aq_grammar.specs.Expressions.{before};
ghost use Rattle.aq_grammar.specs.Nonterminals.{reads};
ghost use Rattle.aq_grammar.specs.Reading.{read_many};
ghost use Rattle.aq_grammar.specs.Steps.{Gives};

use crate::terminals::{Read, is_symbol, is_word};
use aq_base::{Boxed, Expr, NoMemory, UnaryOperator};
use aq_lex::{Lexed, Symbol};
use std::alloc::Global;

/// The number of signs that stand there.
#[tactic(auto, using(crate::proofs::Loops::count_begins, crate::proofs::Loops::count_goes_on, crate::proofs::Loops::count_ends))]
pub fn signs<'a>(tokens: &Lexed<'a>) -> Read<'a, u64>
    ensures { Gives (λ n. replicate n tt) result (read_many (Sign Minus ∷ []) [] (λ signs. signs) (reads (sign Minus)) tokens.now) }
{
    let mut rest = tokens.copied();
    'signs: while is_symbol(&rest, Symbol::Minus) {
        rest = rest.rest();
    }
    let count = (tokens.len() - rest.len()) as u64;
    Ok((count, rest))
}

/// The number of NOTs that stand there.
#[tactic(auto, using(crate::proofs::Loops::count_begins, crate::proofs::Loops::count_goes_on, crate::proofs::Loops::count_ends))]
pub fn nots<'a>(tokens: &Lexed<'a>) -> Read<'a, u64>
    ensures { Gives (λ n. replicate n tt) result (read_many (Keyword (codes "not") ∷ []) [] (λ words. words) (reads (word (codes "not"))) tokens.now) }
{
    let mut rest = tokens.copied();
    'nots: while is_word(&rest, b"not") {
        rest = rest.rest();
    }
    let count = (tokens.len() - rest.len()) as u64;
    Ok((count, rest))
}

/// An expression behind so many of an operator.
#[tactic(auto, using(crate::proofs::Loops::one_before))]
pub fn behind(alloc: Global, operator: UnaryOperator, count: u64, e: Expr) -> Result<Expr, NoMemory>
    ensures { IfOk result (λ made. made ≡ before operator (replicate count tt) e) }
{
    let mut made = e;
    let mut left = count;
    'operators: while left > 0 {
        made = Expr::Unary {
            operator,
            operand: Boxed::new(alloc, made)?,
        };
        left -= 1;
    }
    Ok(made)
}
