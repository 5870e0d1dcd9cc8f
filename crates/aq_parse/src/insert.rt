//! INSERT (PostgreSQL manual, page INSERT).

ghost use Rattle.aq_grammar.specs.Nonterminals.{reads};
ghost use Rattle.aq_grammar.specs.Changes.{row_values, source, insert};
ghost use Rattle.aq_grammar.specs.Steps.{Gives};

use crate::rows::{from_table, given};
use aq_base::{Expr, Given, Insert, List, Source, TextVal};
use aq_grammar::{
    Form, Read, Scope, column_list, is_word, listed, public_name, refuse_behind_insert, sign, word,
};
use aq_lex::{Lexed, Symbol};
use aq_parse_expressions::whole_expression;
use std::alloc::Global;

#[derive(Drop)]
struct GivenForm {
    alloc: Global,
    scope: Scope,
}

impl Form for GivenForm {
    ghost use Rattle.aq_grammar.specs.Changes.{given};
    ghost use Rattle.aq_grammar.specs.Nonterminals.{reads};
    ghost use Rattle.aq_parse.specs.Shorter.{given_is_shorter};

    type Tree = Given;

    ghost reading = { λ form tokens. reads (given form.scope) tokens };

    ghost shortens = { λ form. given_is_shorter form.scope };

    fn read<'a>(&self, tokens: &Lexed<'a>) -> Read<'a, Given> {
        given(self.alloc, self.scope, tokens)
    }
}

/// `(given, given)`
#[tactic(auto, unfolding(aq_grammar::specs::Changes::row_values, aq_grammar::specs::Steps::read_listed))]
fn row_values<'a>(alloc: Global, scope: Scope, tokens: &Lexed<'a>) -> Read<'a, List<Given>>
    ensures { Gives (λ x. x) result (reads (row_values scope) tokens.now) }
{
    let ((), rest) = sign(tokens, Symbol::OpenParen)?;
    let (values, rest) = listed(alloc, &GivenForm { alloc, scope }, &rest)?;
    let ((), rest) = sign(&rest, Symbol::CloseParen)?;
    Ok((values, rest))
}

#[derive(Drop)]
struct RowForm {
    alloc: Global,
    scope: Scope,
}

impl Form for RowForm {
    ghost use Rattle.aq_grammar.specs.Changes.{row_values};
    ghost use Rattle.aq_grammar.specs.Nonterminals.{reads};
    ghost use Rattle.aq_parse.specs.Shorter.{row_is_shorter};

    type Tree = List<Given>;

    ghost reading = { λ form tokens. reads (row_values form.scope) tokens };

    ghost shortens = { λ form. row_is_shorter form.scope };

    fn read<'a>(&self, tokens: &Lexed<'a>) -> Read<'a, List<Given>> {
        row_values(self.alloc, self.scope, tokens)
    }
}

#[derive(Drop)]
struct ExpressionForm {
    alloc: Global,
    scope: Scope,
}

impl Form for ExpressionForm {
    ghost use Rattle.aq_grammar.specs.Expressions.{whole_expression};
    ghost use Rattle.aq_grammar.specs.Nonterminals.{reads};
    ghost use Rattle.aq_parse.specs.Shorter.{expression_is_shorter};

    type Tree = Expr;

    ghost reading = { λ form tokens. reads (whole_expression form.scope) tokens };

    ghost shortens = { λ form. expression_is_shorter form.scope };

    fn read<'a>(&self, tokens: &Lexed<'a>) -> Read<'a, Expr> {
        whole_expression(self.alloc, self.scope, tokens)
    }
}

/// `VALUES (given, given), (given, given)`, or `SELECT expression, expression FROM table WHERE expression`.
#[tactic(auto, unfolding(aq_grammar::specs::Changes::source, aq_grammar::specs::Steps::read_listed))]
fn source<'a>(alloc: Global, scope: Scope, tokens: &Lexed<'a>) -> Read<'a, Source>
    ensures { Gives (λ x. x) result (reads (source scope) tokens.now) }
{
    if is_word(tokens, b"values") {
        let ((), rest) = word(tokens, b"values")?;
        let (rows, rest) = listed(alloc, &RowForm { alloc, scope }, &rest)?;
        return Ok((Source::Values(rows), rest));
    }
    let ((), rest) = word(tokens, b"select")?;
    let (values, rest) = listed(alloc, &ExpressionForm { alloc, scope }, &rest)?;
    let ((table, condition), rest) = from_table(alloc, scope, &rest)?;
    Ok((
        Source::Query {
            values,
            table,
            condition,
        },
        rest,
    ))
}

/// `INSERT INTO table (column, column) source`
#[tactic(auto, unfolding(aq_grammar::specs::Changes::insert, aq_grammar::specs::Steps::RefusesSo))]
pub(crate) fn insert<'a>(alloc: Global, scope: Scope, tokens: &Lexed<'a>) -> Read<'a, Insert>
    ensures { Gives (λ x. x) result (reads (insert scope) tokens.now) }
{
    let ((), rest) = word(tokens, b"insert")?;
    let ((), rest) = word(&rest, b"into")?;
    let (table, rest) = public_name(alloc, &rest)?;
    let (columns, rest) = column_list(alloc, &rest)?;
    let (source, rest) = source(alloc, scope, &rest)?;
    refuse_behind_insert(alloc, &rest)?;
    Ok((
        Insert {
            table,
            columns,
            source,
        },
        rest,
    ))
}
