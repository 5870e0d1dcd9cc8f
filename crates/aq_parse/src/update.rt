//! UPDATE (PostgreSQL manual, page UPDATE).

ghost use Rattle.aq_grammar.specs.Nonterminals.{reads};
ghost use Rattle.aq_grammar.specs.Changes.{assignment, update};
ghost use Rattle.aq_grammar.specs.Forms.{listed};
ghost use Rattle.aq_grammar.specs.Steps.{Gives};

use crate::rows::{given, where_part};
use aq_base::{Assignment, List, Update};
use aq_grammar::{Form, Read, Scope, listed, name, public_name, refuse_returning, sign, word};
use aq_lex::{Lexed, Symbol};
use std::alloc::Global;

/// `column = given`
#[tactic(auto, unfolding(aq_grammar::specs::Changes::assignment))]
fn assignment<'a>(alloc: Global, scope: Scope, tokens: &Lexed<'a>) -> Read<'a, Assignment>
    ensures { Gives (λ x. x) result (reads (assignment scope) tokens.now) }
{
    let (column, rest) = name(alloc, tokens)?;
    let ((), rest) = sign(&rest, Symbol::Equal)?;
    let (value, rest) = given(alloc, scope, &rest)?;
    Ok((Assignment { column, value }, rest))
}

#[derive(Drop)]
struct AssignmentForm {
    alloc: Global,
    scope: Scope,
}

impl Form for AssignmentForm {
    ghost use Rattle.aq_grammar.specs.Changes.{assignment};
    ghost use Rattle.aq_grammar.specs.Nonterminals.{reads};
    ghost use Rattle.aq_parse.specs.Shorter.{assignment_is_shorter};

    type Tree = Assignment;

    ghost reading = { λ form tokens. reads (assignment form.scope) tokens };

    ghost shortens = { λ form. assignment_is_shorter form.scope };

    fn read<'a>(&self, tokens: &Lexed<'a>) -> Read<'a, Assignment> {
        assignment(self.alloc, self.scope, tokens)
    }
}

/// Assignments with commas between them.
#[tactic(auto, unfolding(aq_grammar::specs::Steps::read_listed))]
fn assignments<'a>(alloc: Global, scope: Scope, tokens: &Lexed<'a>) -> Read<'a, List<Assignment>>
    ensures { Gives (λ x. x) result (reads (listed (assignment scope)) tokens.now) }
{
    listed(alloc, &AssignmentForm { alloc, scope }, tokens)
}

/// `UPDATE table SET assignment, assignment WHERE expression`
#[tactic(auto, unfolding(aq_grammar::specs::Changes::update, aq_grammar::specs::Steps::RefusesSo))]
pub(crate) fn update<'a>(alloc: Global, scope: Scope, tokens: &Lexed<'a>) -> Read<'a, Update>
    ensures { Gives (λ x. x) result (reads (update scope) tokens.now) }
{
    let ((), rest) = word(tokens, b"update")?;
    let (table, rest) = public_name(alloc, &rest)?;
    let ((), rest) = word(&rest, b"set")?;
    let (assignments, rest) = assignments(alloc, scope, &rest)?;
    let (condition, rest) = where_part(alloc, scope, &rest)?;
    refuse_returning(alloc, &rest)?;
    Ok((
        Update {
            table,
            assignments,
            condition,
        },
        rest,
    ))
}
