ghost use Rattle.std.specs.Prelude.{◌≡◌, ◌++◌, ◌∷◌, [], None, false, map, OnOk, OnErr, IfOk, slice_get};
ghost use Rattle.aq_first_run.specs.States.{latest_view, last_database};
ghost use Rattle.aq_first_machine.specs.Givens.{given_shown};
ghost use Rattle.aq_first_machine.specs.Orders.{IsOrdered, view_with};
ghost use Rattle.aq_first_run.specs.Effects.{given};
ghost use Rattle.aq_first_run.specs.Replies.{answer_lines, error_lines};
ghost use Rattle.aq_first_run.specs.Steps.{after_error};
ghost use Rattle.aq_first_run.specs.States.Block.{Idle};
ghost use Rattle.aq_first_run.specs.States.Task.{Rounds, Committing};
ghost use Rattle.aq_first_machine.specs.Found.{fault_shown};
ghost use Rattle.aq_first_machine.specs.Shown.{answer_shown, block_shown, waiting, in_drain, closed, has_no_task};
ghost use Rattle.aq_first_machine.specs.Runnings.{StepsTo, Stands, IsInOrder};
ghost use Rattle.aq_first_machine.specs.Advances.{Advances};

use crate::catalog::Catalog;
use crate::checks::Fault;
use crate::replies::{Given, answer_reply, fault_lines, given_lines};
use crate::rounds::{Advanced, drain_step, level_step, sort_events};
use crate::rows::{delete_step, insert_step};
use crate::session::{Answer, Block, Session, Task, Transaction, Work};
use crate::start::start;
use crate::world::World;
use aq_base::{List, NoMemory, ReplyLine};
use aq_first_base::Bound;
use aq_xids::SessNo;
use std::alloc::Global;

/// A step of a transaction in progress.
fn advance<'a>(
    alloc: Global,
    catalog: &'a Catalog,
    world: &mut World,
    transaction: &mut Transaction,
) -> Result<Advanced<'a>, NoMemory>
    requires order { IsInOrder world.old transaction.old }
    requires some { transaction.old.tasks ≡ [] → ⊥ }
    ensures ok { IfOk result (Advances catalog.now world.old transaction.old world.new transaction.new) }
    ensures err { OnErr result ((world.new ≡ world.old) × (transaction.new ≡ transaction.old)) }
{
    let work = &mut transaction.work;
    match &mut transaction.task {
        Task::Between => Ok(Advanced::Further),
        Task::Inserting(rows) if rows.left.is_empty() => {
            transaction.task = Task::Rounds(Answer::Inserted(rows.done));
            Ok(Advanced::Further)
        }
        Task::Inserting(rows) => insert_step(alloc, catalog, world, work, rows),
        Task::Deleting(rows) if rows.left.is_empty() => {
            transaction.task = Task::Rounds(Answer::Deleted(rows.done));
            Ok(Advanced::Further)
        }
        Task::Deleting(rows) => delete_step(alloc, catalog, world, work, rows),
        Task::Rounds(answer) => level_step(catalog, world, work, *answer),
        Task::Committing(answer) => drain_step(catalog, world, work, *answer),
    }
}

/// Gives the lines as the reply of a statement.
pub(crate) fn give(
    alloc: Global,
    s: SessNo,
    statement: u32,
    world: &mut World,
    lines: Vec<ReplyLine>,
) -> Result<(), NoMemory>
    ensures ok { OnOk result (world.new ≡ record world.old { replies = world.old.replies ++ given s.0 statement lines.items }) }
    ensures err { OnErr result (world.new ≡ world.old) }
{
    world.give(given_lines(alloc, s, statement, lines)?)
}

/// Gives a refusal as the reply of the statement.
fn refuse(
    alloc: Global,
    catalog: &Catalog,
    s: SessNo,
    statement: u32,
    world: &mut World,
    fault: Fault,
) -> Result<(), NoMemory>
    ensures ok { OnOk result (world.new ≡ record world.old { replies = world.old.replies ++ given s.0 statement (error_lines catalog.now (fault_shown fault.entry)) }) }
    ensures err { OnErr result (world.new ≡ world.old) }
{
    let lines = fault_lines(alloc, catalog, &fault)?;
    give(alloc, s, statement, world, lines)
}

/// What a transaction has written is the next database. The lines are added to the replies.
fn commit_writes(world: &mut World, work: &mut Work, lines: List<Given>) -> Result<(), NoMemory>
    requires { IsOrdered (last_database world.old) work.old.writes world.old.rows }
    ensures ok { OnOk result (world.new ≡ record world.old {
      history = world.old.history ++ view_with world.old work.old.writes ∷ [];
      replies = world.old.replies ++ map given_shown lines;
    }) }
    ensures err { OnErr result ((world.new ≡ world.old) × (work.new ≡ work.old)) }
{
    world.commit(&mut work.writes, lines)?;
    Ok(())
}

/// Commits the transaction of a statement, and gives the answer as its reply.
fn commit(
    alloc: Global,
    s: SessNo,
    statement: u32,
    world: &mut World,
    transaction: &mut Transaction,
    answer: Answer,
) -> Result<(), NoMemory>
    requires { IsInOrder world.old transaction.old }
    ensures ok { OnOk result (world.new ≡ record world.old {
      history = world.old.history ++ latest_view world.old transaction.old.transaction.work ∷ [];
      replies = world.old.replies ++ given s.0 statement (answer_lines (answer_shown answer));
    }) }
    ensures err { OnErr result ((world.new ≡ world.old) × (transaction.new ≡ transaction.old)) }
{
    let lines = given_lines(alloc, s, statement, answer_reply(alloc, answer)?)?;
    commit_writes(world, &mut transaction.work, lines)?;
    Ok(())
}

/// The state of a block after an error.
fn failed(block: Block) -> Block
    ensures { block_shown result ≡ after_error (block_shown block) }
{
    match block {
        Block::Idle => Block::Idle,
        Block::Open | Block::Failed => Block::Failed,
    }
}

/// Outside a block: the level closes, and the drain is opened.
fn open_drain(
    catalog: &Catalog,
    transaction: &mut Transaction,
    answer: Answer,
) -> Result<(), NoMemory>
    requires { transaction.old.tasks ≡ Rounds (answer_shown answer) ∷ [] }
    ensures ok { OnOk result (transaction.new ≡ in_drain (closed catalog.now transaction.old) (Committing (answer_shown answer))) }
    ensures err { OnErr result (transaction.new ≡ transaction.old) }
{
    let work = &mut transaction.work;
    work.deferred.reserve(work.queued.len())?;
    work.round.reserve(work.queued.len())?;
    sort_events(
        catalog,
        &mut work.queued,
        &mut work.deferred,
        &mut work.round,
    );
    work.round.clear();
    transaction.task = Task::Committing(answer);
    Ok(())
}

/// In a block: the level closes, and the answer is given.
fn close_level(
    alloc: Global,
    catalog: &Catalog,
    s: SessNo,
    statement: u32,
    world: &mut World,
    transaction: &mut Transaction,
    answer: Answer,
) -> Result<(), NoMemory>
    requires { transaction.old.tasks ≡ Rounds (answer_shown answer) ∷ [] }
    ensures world { OnOk result (world.new ≡ record world.old { replies = world.old.replies ++ given s.0 statement (answer_lines (answer_shown answer)) }) }
    ensures transaction { OnOk result (transaction.new ≡ waiting (closed catalog.now transaction.old)) }
    ensures err { OnErr result ((world.new ≡ world.old) × (transaction.new ≡ transaction.old)) }
{
    let work = &mut transaction.work;
    let lines = answer_reply(alloc, answer)?;
    work.deferred.reserve(work.queued.len())?;
    work.round.reserve(work.queued.len())?;
    give(alloc, s, statement, world, lines)?;
    sort_events(
        catalog,
        &mut work.queued,
        &mut work.deferred,
        &mut work.round,
    );
    work.round.clear();
    transaction.task = Task::Between;
    Ok(())
}

/// A step of a session that has a statement in progress.
fn go_on(
    alloc: Global,
    catalog: &Catalog,
    s: SessNo,
    world: &mut World,
    session: &mut Session,
) -> Result<(), NoMemory>
    requires stands { Stands world.old session.old }
    requires some { session.old.tasks ≡ [] → ⊥ }
    ensures ok { OnOk result (StepsTo catalog.now s.0 None world.old session.old world.new session.new) }
    ensures stands { OnOk result (Stands world.new session.new) }
    ensures err { OnErr result ((world.new ≡ world.old) × (session.new ≡ session.old)) }
{
    let statement = session.next;
    let Some(transaction) = &mut session.transaction else {
        return Ok(());
    };
    match advance(alloc, catalog, world, transaction)? {
        Advanced::Further => Ok(()),
        Advanced::Refused(fault) => {
            refuse(alloc, catalog, s, statement, world, fault)?;
            session.transaction = None;
            session.block = failed(session.block);
            Ok(())
        }
        Advanced::Closes(answer) => {
            match session.block {
                Block::Idle => open_drain(catalog, transaction, answer)?,
                Block::Open => {
                    close_level(alloc, catalog, s, statement, world, transaction, answer)?
                }
                Block::Failed => {
                    close_level(alloc, catalog, s, statement, world, transaction, answer)?
                }
            }
            Ok(())
        }
        Advanced::Commits(answer) => {
            commit(alloc, s, statement, world, transaction, answer)?;
            session.transaction = None;
            Ok(())
        }
    }
}

/// Whether nothing is in progress in a transaction.
fn is_between(transaction: &Option<Transaction>) -> bool
    ensures { result ≡ has_no_task transaction.now }
{
    match transaction {
        None => true,
        Some(transaction) => matches!(transaction.task, Task::Between),
    }
}

/// One step of a session: the session takes its next statement, or the one in progress goes on.
/// The error is want of memory, or a counter at its end.
pub(crate) fn step_session(
    alloc: Global,
    catalog: &Catalog,
    statements: &List<Bound>,
    s: SessNo,
    world: &mut World,
    session: &mut Session,
) -> Result<(), NoMemory>
    requires stands { Stands world.old session.old }
    requires live { session.old.ended ≡ false }
    ensures ok { OnOk result (StepsTo catalog.now s.0 (slice_get statements.now session.old.next) world.old session.old world.new session.new) }
    ensures stands { OnOk result (Stands world.new session.new) }
    ensures err { OnErr result ((world.new ≡ world.old) × (session.new ≡ session.old)) }
{
    if is_between(&session.transaction) {
        let statement = statements.get(session.next as usize);
        start(alloc, catalog, statement, s, world, session)?;
        return Ok(());
    }
    go_on(alloc, catalog, s, world, session)?;
    Ok(())
}
