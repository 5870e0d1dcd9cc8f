//! DELETE (PostgreSQL manual, page DELETE).

ghost use Rattle.aq_grammar.specs.Nonterminals.{reads};
ghost use Rattle.aq_grammar.specs.Changes.{delete};
ghost use Rattle.aq_grammar.specs.Steps.{Gives};

use crate::rows::from_table;
use aq_base::Delete;
use aq_grammar::{Read, Scope, refuse_returning, word};
use aq_lex::Lexed;
use std::alloc::Global;

/// `DELETE FROM table WHERE expression`
#[tactic(auto, unfolding(aq_grammar::specs::Changes::delete, aq_grammar::specs::Steps::RefusesSo))]
pub(crate) fn delete<'a>(alloc: Global, scope: Scope, tokens: &Lexed<'a>) -> Read<'a, Delete>
    ensures { Gives (λ x. x) result (reads (delete scope) tokens.now) }
{
    let ((), rest) = word(tokens, b"delete")?;
    let ((table, condition), rest) = from_table(alloc, scope, &rest)?;
    refuse_returning(alloc, &rest)?;
    Ok((Delete { table, condition }, rest))
}
