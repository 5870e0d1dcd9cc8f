ghost use Rattle.std.specs.Prelude.{◌≡◌, ◌+◌, ◌≤◌, [], ◌++◌, filter, OnOk, OnErr, IfOk};
ghost use Rattle.std.specs.List.{list_any};
ghost use Rattle.std.specs.VecDeque.{deque_len, deque_capacity};
ghost use Rattle.aq_first_outcomes.specs.Rows.{is_deferred, is_immediate};
ghost use Rattle.aq_first_run.specs.States.{last_database};
ghost use Rattle.aq_first_run.specs.States.Task.{Rounds, Committing};
ghost use Rattle.aq_first_machine.specs.Orders.{IsOrdered};
ghost use Rattle.aq_first_machine.specs.Shown.{answer_shown, in_level, in_drain};
ghost use Rattle.aq_first_machine.specs.Advances.{Advances, FiresFirst};

use crate::catalog::Catalog;
use crate::checks::{Fault, event_fault};
use crate::session::{Answer, Work};
use crate::world::World;
use crate::writes::Event;
use aq_base::NoMemory;
use std::collections::VecDeque;
use std::mem::swap;

/// What a step of a statement in progress came to.
#[derive(Drop)]
pub(crate) enum Advanced<'a> {
    /// The statement is still in progress.
    Further,
    /// The statement is refused.
    Refused(Fault<'a>),
    /// The statement's level is to close.
    Closes(Answer),
    /// The transaction is to commit.
    Commits(Answer),
}

/// Whether an event waits for the commit.
fn waits(catalog: &Catalog, event: &Event) -> bool
    ensures { result ≡ is_deferred catalog.now event.now }
{
    match catalog.triggers.get(event.trigger) {
        None => false,
        Some(trigger) => trigger.decl.deferrable && trigger.decl.deferred,
    }
}

/// Whether one of the events fires at the end of the statement.
fn has_immediate(catalog: &Catalog, events: &VecDeque<Event>) -> bool
    ensures { result ≡ list_any (is_immediate catalog.now) events.now.items }
{
    events.iter().any(|event| !waits(catalog, event))
}

/// Takes all queued events: those that wait for the commit go behind the deferred ones, the others to the end of the round.
pub(crate) fn sort_events(
    catalog: &Catalog,
    queued: &mut VecDeque<Event>,
    deferred: &mut VecDeque<Event>,
    round: &mut VecDeque<Event>,
)
    requires deferred_room { deque_len deferred.old + deque_len queued.old ≤ deque_capacity deferred.old }
    requires round_room { deque_len round.old + deque_len queued.old ≤ deque_capacity round.old }
    ensures queued { queued.new.items ≡ [] }
    ensures deferred { deferred.new.items ≡ deferred.old.items ++ filter (is_deferred catalog.now) queued.old.items }
    ensures round { round.new.items ≡ round.old.items ++ filter (is_immediate catalog.now) queued.old.items }
{
    'events: while let Some(event) = queued.pop_front() {
        if waits(catalog, &event) {
            deferred.push_back_reserved(event);
        } else {
            round.push_back_reserved(event);
        }
    }
}

/// Takes the queued events: the immediate ones are the next round, and the others wait for the commit.
fn take_round(catalog: &Catalog, work: &mut Work) -> Result<(), NoMemory>
    ensures ok { OnOk result (work.new ≡ record work.old {
      deferred = work.old.deferred ++ filter (is_deferred catalog.now) work.old.queued;
      queued = [];
      round = work.old.round ++ filter (is_immediate catalog.now) work.old.queued;
    }) }
    ensures err { OnErr result (work.new ≡ work.old) }
{
    work.deferred.reserve(work.queued.len())?;
    work.round.reserve(work.queued.len())?;
    sort_events(
        catalog,
        &mut work.queued,
        &mut work.deferred,
        &mut work.round,
    );
    Ok(())
}

/// The first event of the round fires: it is done, or refused.
fn fire<'a>(
    catalog: &'a Catalog,
    world: &World,
    work: &mut Work,
) -> Result<Option<Fault<'a>>, NoMemory>
    requires { IsOrdered (last_database world.now) work.old.writes world.now.rows }
    ensures ok { IfOk result (FiresFirst catalog.now world.now work.old work.new) }
    ensures writes { work.new.writes ≡ work.old.writes }
    ensures err { OnErr result (work.new ≡ work.old) }
{
    let Some(event) = work.round.front() else {
        return Ok(None);
    };
    if let Some(fault) = event_fault(catalog, event, world, work.writes.as_slice())? {
        return Ok(Some(fault));
    }
    work.round.pop_front();
    Ok(None)
}

/// A step of the rounds of a statement's level: the first event of the round in progress, or the events queued since
/// as the next round. A round that would take nothing closes the level.
pub(crate) fn level_step<'a>(
    catalog: &'a Catalog,
    world: &World,
    work: &mut Work,
    answer: Answer,
) -> Result<Advanced<'a>, NoMemory>
    requires { IsOrdered (last_database world.now) work.old.writes world.now.rows }
    ensures ok { IfOk result (Advances catalog.now world.now (in_level work.old (Rounds (answer_shown answer))) world.now (in_level work.new (Rounds (answer_shown answer)))) }
    ensures err { OnErr result (work.new ≡ work.old) }
{
    if !work.round.is_empty() {
        return match fire(catalog, world, work)? {
            None => Ok(Advanced::Further),
            Some(fault) => Ok(Advanced::Refused(fault)),
        };
    }
    if !has_immediate(catalog, &work.queued) {
        return Ok(Advanced::Closes(answer));
    }
    take_round(catalog, work)?;
    Ok(Advanced::Further)
}

/// A step of the drain: the first event of the round in progress, or all events that wait as the next round.
/// Where there is none the transaction commits.
pub(crate) fn drain_step<'a>(
    catalog: &'a Catalog,
    world: &World,
    work: &mut Work,
    answer: Answer,
) -> Result<Advanced<'a>, NoMemory>
    requires { IsOrdered (last_database world.now) work.old.writes world.now.rows }
    ensures ok { IfOk result (Advances catalog.now world.now (in_drain work.old (Committing (answer_shown answer))) world.now (in_drain work.new (Committing (answer_shown answer)))) }
    ensures err { OnErr result (work.new ≡ work.old) }
{
    if !work.round.is_empty() {
        return match fire(catalog, world, work)? {
            None => Ok(Advanced::Further),
            Some(fault) => Ok(Advanced::Refused(fault)),
        };
    }
    if work.deferred.is_empty() {
        return Ok(Advanced::Commits(answer));
    }
    swap(&mut work.deferred, &mut work.round);
    Ok(Advanced::Further)
}
