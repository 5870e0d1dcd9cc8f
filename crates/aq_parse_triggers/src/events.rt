//! The events of a trigger.

ghost use Rattle.std.specs.Prelude.{◌≡◌, ◌∷◌, IfOk};
ghost use Rattle.aq_grammar.specs.Nonterminals.{reads};
ghost use Rattle.aq_grammar.specs.Steps.{Gives};
ghost use Rattle.aq_grammar.specs.Triggers.{insert_event, delete_event, update_event, last_event, more_events, events};
ghost use Rattle.aq_parse_triggers.specs.Triggers.{event_rule, event_word, two_events, events_from};

use aq_base::{List, NoMemory, TriggerEvent};
use aq_grammar::{Read, is_word, names, says, word};
use aq_lex::Lexed;
use std::alloc::Global;

/// What an event of a trigger is, apart from its columns.
#[derive(Clone, Copy)]
enum EventKind {
    Insert,
    Delete,
    Update,
}

/// The word of an event.
fn event_word(kind: EventKind) -> &'static [u8]
    ensures { result.now ≡ event_word kind }
{
    match kind {
        EventKind::Insert => b"insert",
        EventKind::Delete => b"delete",
        EventKind::Update => b"update",
    }
}

/// `INSERT`
#[tactic(auto, unfolding(aq_grammar::specs::Triggers::insert_event))]
fn insert_event<'a>(tokens: &Lexed<'a>) -> Read<'a, TriggerEvent>
    ensures { Gives (λ x. x) result (reads insert_event tokens.now) }
{
    says(tokens, b"insert", TriggerEvent::Insert)
}

/// `DELETE`
#[tactic(auto, unfolding(aq_grammar::specs::Triggers::delete_event))]
fn delete_event<'a>(tokens: &Lexed<'a>) -> Read<'a, TriggerEvent>
    ensures { Gives (λ x. x) result (reads delete_event tokens.now) }
{
    says(tokens, b"delete", TriggerEvent::Delete)
}

/// `UPDATE`, perhaps with columns.
#[tactic(auto, unfolding(aq_grammar::specs::Triggers::update_event))]
fn update_event<'a>(alloc: Global, tokens: &Lexed<'a>) -> Read<'a, TriggerEvent>
    ensures { Gives (λ x. x) result (reads update_event tokens.now) }
{
    let ((), rest) = word(tokens, b"update")?;
    if !is_word(&rest, b"of") {
        return Ok((TriggerEvent::Update { columns: None }, rest));
    }
    let ((), rest) = word(&rest, b"of")?;
    let (columns, rest) = names(alloc, &rest)?;
    Ok((
        TriggerEvent::Update {
            columns: Some(columns),
        },
        rest,
    ))
}

/// An event.
fn event<'a>(alloc: Global, kind: EventKind, tokens: &Lexed<'a>) -> Read<'a, TriggerEvent>
    ensures { Gives (λ x. x) result (reads (event_rule kind) tokens.now) }
{
    match kind {
        EventKind::Insert => insert_event(tokens),
        EventKind::Delete => delete_event(tokens),
        EventKind::Update => update_event(alloc, tokens),
    }
}

/// An event before others.
fn with_events(
    alloc: Global,
    first: TriggerEvent,
    others: List<TriggerEvent>,
) -> Result<List<TriggerEvent>, NoMemory>
    ensures { IfOk result (λ all. all ≡ first ∷ others) }
{
    let mut all = List::new(alloc);
    all.push(first)?;
    all.append(others)?;
    Ok(all)
}

/// Perhaps one more event.
fn last_event<'a>(
    alloc: Global,
    kind: EventKind,
    tokens: &Lexed<'a>,
) -> Read<'a, List<TriggerEvent>>
    ensures { Gives (λ x. x) result (reads (last_event (event_rule kind)) tokens.now) }
{
    if !is_word(tokens, b"or") {
        return Ok((List::new(alloc), tokens.copied()));
    }
    let ((), rest) = word(tokens, b"or")?;
    let (last, rest) = event(alloc, kind, &rest)?;
    let all = with_events(alloc, last, List::new(alloc))?;
    Ok((all, rest))
}

/// An event, and perhaps another.
fn two_events<'a>(
    alloc: Global,
    first: EventKind,
    second: EventKind,
    tokens: &Lexed<'a>,
) -> Read<'a, List<TriggerEvent>>
    ensures { Gives (λ x. x) result (reads (two_events (event_rule first) (event_rule second)) tokens.now) }
{
    let (next, rest) = event(alloc, first, tokens)?;
    let (others, rest) = last_event(alloc, second, &rest)?;
    let all = with_events(alloc, next, others)?;
    Ok((all, rest))
}

/// Perhaps more events, out of two.
fn more_events<'a>(
    alloc: Global,
    first: EventKind,
    second: EventKind,
    tokens: &Lexed<'a>,
) -> Read<'a, List<TriggerEvent>>
    ensures { Gives (λ x. x) result (reads (more_events (event_word first) (event_rule first) (event_rule second)) tokens.now) }
{
    if !is_word(tokens, b"or") {
        return Ok((List::new(alloc), tokens.copied()));
    }
    let ((), rest) = word(tokens, b"or")?;
    if is_word(&rest, event_word(first)) {
        two_events(alloc, first, second, &rest)
    } else {
        two_events(alloc, second, first, &rest)
    }
}

/// An event, and perhaps more out of two others.
fn events_from<'a>(
    alloc: Global,
    first: EventKind,
    second: EventKind,
    third: EventKind,
    tokens: &Lexed<'a>,
) -> Read<'a, List<TriggerEvent>>
    ensures { Gives (λ x. x) result (reads (events_from (event_rule first) (event_word second) (event_rule second) (event_rule third)) tokens.now) }
{
    let (next, rest) = event(alloc, first, tokens)?;
    let (others, rest) = more_events(alloc, second, third, &rest)?;
    let all = with_events(alloc, next, others)?;
    Ok((all, rest))
}

/// The events of a trigger, each once at the most.
#[tactic(auto, unfolding(aq_grammar::specs::Triggers::events))]
pub(crate) fn events<'a>(alloc: Global, tokens: &Lexed<'a>) -> Read<'a, List<TriggerEvent>>
    ensures { Gives (λ x. x) result (reads events tokens.now) }
{
    if is_word(tokens, b"insert") {
        events_from(
            alloc,
            EventKind::Insert,
            EventKind::Delete,
            EventKind::Update,
            tokens,
        )
    } else if is_word(tokens, b"delete") {
        events_from(
            alloc,
            EventKind::Delete,
            EventKind::Insert,
            EventKind::Update,
            tokens,
        )
    } else {
        events_from(
            alloc,
            EventKind::Update,
            EventKind::Insert,
            EventKind::Delete,
            tokens,
        )
    }
}
