//! What a trigger watches.

ghost use Rattle.aq_grammar.specs.Nonterminals.{reads};
ghost use Rattle.aq_grammar.specs.Steps.{Gives};
ghost use Rattle.aq_grammar.specs.Triggers.{watched};
ghost use Rattle.aq_parse_triggers.specs.Triggers.{watched_after, watched_view};

use crate::events::events;
use aq_base::{List, TextVal, TriggerEvent};
use aq_grammar::{Read, public_name, refuse_not_after, word};
use aq_lex::Lexed;
use std::alloc::Global;

/// The events of a trigger and its table.
#[derive(Drop)]
pub struct Watch {
    pub events: List<TriggerEvent>,
    pub table: TextVal,
}

/// The events of an AFTER trigger and its table.
fn watched_after<'a>(alloc: Global, tokens: &Lexed<'a>) -> Read<'a, Watch>
    ensures { Gives watched_view result (reads watched_after tokens.now) }
{
    let ((), rest) = word(tokens, b"after")?;
    let (events, rest) = events(alloc, &rest)?;
    let ((), rest) = word(&rest, b"on")?;
    let (table, rest) = public_name(alloc, &rest)?;
    Ok((Watch { events, table }, rest))
}

/// The events of a trigger and its table. No trigger but an AFTER trigger is supported.
#[tactic(auto, unfolding(aq_grammar::specs::Triggers::watched, aq_grammar::specs::Steps::RefusesSo))]
pub fn watched<'a>(alloc: Global, tokens: &Lexed<'a>) -> Read<'a, Watch>
    ensures { Gives watched_view result (reads watched tokens.now) }
{
    refuse_not_after(alloc, tokens)?;
    watched_after(alloc, tokens)
}
