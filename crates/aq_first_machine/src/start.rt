ghost use Rattle.std.specs.Prelude.{◌≡◌, ◌+◌, ◌++◌, [], List, Some, None, false, map, OnOk, OnErr, IfOk, option_copied};
ghost use Rattle.aq_first_base.specs.Catalogs.{Catalog as Catalog_value};
ghost use Rattle.aq_first_run.specs.Effects.{given};
ghost use Rattle.aq_first_run.specs.States.{last_database};
ghost use Rattle.aq_first_machine.specs.Orders.{IsOrdered, writes_of};
ghost use Rattle.aq_first_run.specs.Steps.{rows_start, begin_plan, commit_plan, rollback_plan, start_plan, view_of};
ghost use Rattle.aq_first_machine.specs.Runnings.{Stands, HasTransaction};
ghost use Rattle.aq_first_run.specs.Replies.{answer_lines, error_lines};
ghost use Rattle.aq_first_run.specs.States.Answer.{Rolled_back};
ghost use Rattle.aq_first_run.specs.States.Block.{Idle};
ghost use Rattle.aq_first_outcomes.specs.Faults.Fault.{In_failed_block};
ghost use Rattle.aq_first_run.specs.States.{Operation, Target};
ghost use Rattle.aq_first_base.specs.Databases.{rows_of};
ghost use Rattle.aq_first_machine.specs.Shown.{nothing_held, progress_shown, transaction_of};
ghost use Rattle.aq_first_machine.specs.Runnings.{with_progress};
ghost use Rattle.aq_first_machine.specs.Starts.{CarriesOut, BeginsRows, Resumes, taken};

use crate::catalog::Catalog;
use crate::replies::{answer_reply, begun_before, failed_block_lines, no_block};
use crate::session::{Answer, Block, NewRows, OldRows, Session, Task, Transaction, Work};
use crate::step::give;
use crate::view::rows_in_view;
use crate::world::World;
use aq_base::{Copies, NoMemory, ReplyLine, Row, RowNo, TabNo};
use aq_first_base::Bound;
use aq_xids::SessNo;
use std::alloc::Global;
use std::collections::VecDeque;

/// The rows of a VALUES, to be taken one by one.
fn queue_of(alloc: Global, rows: &[Row]) -> Result<VecDeque<Row>, NoMemory>
    ensures { IfOk result (λ queue. queue.items ≡ rows.now) }
{
    let mut queue = VecDeque::new(alloc);
    'rows: for row in rows {
        queue.push_back(row.copy()?)?;
    }
    Ok(queue)
}

/// Takes the next statement, and gives its reply.
fn take(
    alloc: Global,
    s: SessNo,
    world: &mut World,
    session: &mut Session,
    lines: Vec<ReplyLine>,
) -> Result<(), NoMemory>
    ensures world { OnOk result (world.new ≡ record world.old { replies = world.old.replies ++ given s.0 (session.old.next + 1) lines.items }) }
    ensures session { OnOk result (session.new ≡ taken session.old) }
    ensures err { OnErr result ((world.new ≡ world.old) × (session.new ≡ session.old)) }
{
    let next = session.next.checked_add(1).ok_or(NoMemory)?;
    give(alloc, s, next, world, lines)?;
    session.next = next;
    Ok(())
}

/// Refuses a statement of a failed block.
fn refuse_in_failed_block(
    alloc: Global,
    catalog: &Catalog,
    s: SessNo,
    world: &mut World,
    session: &mut Session,
) -> Result<(), NoMemory>
    ensures world { OnOk result (world.new ≡ record world.old { replies = world.old.replies ++ given s.0 (session.old.next + 1) (error_lines catalog.now In_failed_block) }) }
    ensures session { OnOk result (session.new ≡ record (taken session.old) { transaction = None; tasks = [] }) }
    ensures err { OnErr result ((world.new ≡ world.old) × (session.new ≡ session.old)) }
{
    let lines = failed_block_lines(alloc, catalog)?;
    take(alloc, s, world, session, lines)?;
    session.transaction = None;
    Ok(())
}

/// Takes the block's statement, which opens its level or the drain.
fn open_task(session: &mut Session, task: Task) -> Result<(), NoMemory>
    requires { session.old.tasks ≡ [] }
    ensures ok { OnOk result (Resumes session.old task session.new) }
    ensures err { OnErr result (session.new ≡ session.old) }
{
    let next = session.next.checked_add(1).ok_or(NoMemory)?;
    if let Some(transaction) = &mut session.transaction {
        transaction.work.queued.clear();
        transaction.work.round.clear();
        transaction.task = task;
    }
    session.next = next;
    Ok(())
}

/// Takes a statement, which begins a transaction of its own and opens its level.
fn open_alone(alloc: Global, session: &mut Session, task: Task) -> Result<(), NoMemory>
    ensures ok { OnOk result (session.new ≡ with_progress (progress_shown nothing_held task) (taken session.old)) }
    ensures err { OnErr result (session.new ≡ session.old) }
{
    let next = session.next.checked_add(1).ok_or(NoMemory)?;
    session.transaction = Some(Transaction {
        work: Work::new(alloc),
        task,
    });
    session.next = next;
    Ok(())
}

/// Takes a statement on rows.
fn start_rows(
    alloc: Global,
    catalog: &Catalog,
    s: SessNo,
    world: &mut World,
    session: &mut Session,
    task: Task,
) -> Result<(), NoMemory>
    requires transaction { HasTransaction session.old.block session.old.transaction session.old.tasks }
    requires none { session.old.tasks ≡ [] }
    ensures ok { OnOk result ((operation : Operation) (targets : List Target) → BeginsRows task operation targets →
        CarriesOut catalog.now s.0 (rows_start session.old.block operation targets) world.old session.old world.new session.new) }
    ensures err { OnErr result ((world.new ≡ world.old) × (session.new ≡ session.old)) }
{
    match session.block {
        Block::Idle => {
            open_alone(alloc, session, task)?;
            Ok(())
        }
        Block::Open => {
            open_task(session, task)?;
            Ok(())
        }
        Block::Failed => {
            refuse_in_failed_block(alloc, catalog, s, world, session)?;
            Ok(())
        }
    }
}

/// Takes a BEGIN.
fn begin(
    alloc: Global,
    catalog: &Catalog,
    s: SessNo,
    world: &mut World,
    session: &mut Session,
) -> Result<(), NoMemory>
    requires { session.old.tasks ≡ [] }
    ensures ok { OnOk result (CarriesOut catalog.now s.0 (begin_plan session.old.block) world.old session.old world.new session.new) }
    ensures err { OnErr result ((world.new ≡ world.old) × (session.new ≡ session.old)) }
{
    match session.block {
        Block::Idle => {
            let lines = answer_reply(alloc, Answer::Began)?;
            take(alloc, s, world, session, lines)?;
            session.transaction = Some(Transaction::begin(alloc));
            session.block = Block::Open;
            Ok(())
        }
        Block::Open => {
            let lines = begun_before(alloc)?;
            take(alloc, s, world, session, lines)?;
            Ok(())
        }
        Block::Failed => {
            refuse_in_failed_block(alloc, catalog, s, world, session)?;
            Ok(())
        }
    }
}

/// Takes the statement that ends a block by dropping its transaction.
fn drop_block(
    alloc: Global,
    s: SessNo,
    world: &mut World,
    session: &mut Session,
) -> Result<(), NoMemory>
    ensures world { OnOk result (world.new ≡ record world.old { replies = world.old.replies ++ given s.0 (session.old.next + 1) (answer_lines Rolled_back) }) }
    ensures session { OnOk result (session.new ≡ record (taken session.old) { block = Idle; transaction = None; tasks = [] }) }
    ensures err { OnErr result ((world.new ≡ world.old) × (session.new ≡ session.old)) }
{
    let lines = answer_reply(alloc, Answer::RolledBack)?;
    take(alloc, s, world, session, lines)?;
    session.transaction = None;
    session.block = Block::Idle;
    Ok(())
}

/// Takes a COMMIT.
fn commit_block(
    alloc: Global,
    s: SessNo,
    world: &mut World,
    session: &mut Session,
) -> Result<(), NoMemory>
    requires transaction { HasTransaction session.old.block session.old.transaction session.old.tasks }
    requires none { session.old.tasks ≡ [] }
    ensures ok { OnOk result ((cat : Catalog_value) → CarriesOut cat s.0 (commit_plan session.old.block) world.old session.old world.new session.new) }
    ensures err { OnErr result ((world.new ≡ world.old) × (session.new ≡ session.old)) }
{
    match session.block {
        Block::Idle => {
            let lines = no_block(alloc, Answer::Committed)?;
            take(alloc, s, world, session, lines)?;
            Ok(())
        }
        Block::Open => {
            open_task(session, Task::Committing(Answer::Committed))?;
            session.block = Block::Idle;
            Ok(())
        }
        Block::Failed => {
            drop_block(alloc, s, world, session)?;
            Ok(())
        }
    }
}

/// Takes a ROLLBACK.
fn roll_back(
    alloc: Global,
    s: SessNo,
    world: &mut World,
    session: &mut Session,
) -> Result<(), NoMemory>
    requires { session.old.tasks ≡ [] }
    ensures ok { OnOk result ((cat : Catalog_value) → CarriesOut cat s.0 (rollback_plan session.old.block) world.old session.old world.new session.new) }
    ensures err { OnErr result ((world.new ≡ world.old) × (session.new ≡ session.old)) }
{
    match session.block {
        Block::Idle => {
            let lines = no_block(alloc, Answer::RolledBack)?;
            take(alloc, s, world, session, lines)?;
            Ok(())
        }
        Block::Open => {
            drop_block(alloc, s, world, session)?;
            Ok(())
        }
        Block::Failed => {
            drop_block(alloc, s, world, session)?;
            Ok(())
        }
    }
}

/// The rows of a table that a session sees, to be taken one by one.
fn rows_seen(
    alloc: Global,
    world: &World,
    transaction: &Option<Transaction>,
    table: TabNo,
) -> Result<VecDeque<RowNo>, NoMemory>
    requires { IsOrdered (last_database world.now) (writes_of (transaction_of transaction.now)) world.now.rows }
    ensures { IfOk result (λ rows. rows.items ≡ map (λ entry. entry.0) (rows_of table (view_of world.now (transaction_of transaction.now)))) }
{
    match transaction {
        None => rows_in_view(alloc, world, &[], table),
        Some(transaction) => {
            rows_in_view(alloc, world, transaction.work.writes.as_slice(), table)
        }
    }
}

/// Takes a session's next statement. With none left an open transaction is rolled back, and the session ends.
pub(crate) fn start(
    alloc: Global,
    catalog: &Catalog,
    statement: Option<&Bound>,
    s: SessNo,
    world: &mut World,
    session: &mut Session,
) -> Result<(), NoMemory>
    requires stands { Stands world.old session.old }
    requires live { session.old.ended ≡ false }
    requires none { session.old.tasks ≡ [] }
    ensures ok { OnOk result (CarriesOut catalog.now s.0 (start_plan world.old session.old (option_copied statement.entry)) world.old session.old world.new session.new) }
    ensures err { OnErr result ((world.new ≡ world.old) × (session.new ≡ session.old)) }
{
    match statement {
        None => {
            session.transaction = None;
            session.ended = true;
            Ok(())
        }
        Some(Bound::InsertRows { table, rows }) => {
            let left = queue_of(alloc, rows.as_slice())?;
            let rows = NewRows {
                table: *table,
                left,
                done: 0,
            };
            start_rows(alloc, catalog, s, world, session, Task::Inserting(rows))?;
            Ok(())
        }
        Some(Bound::DeleteRows { table }) => {
            let left = rows_seen(alloc, world, &session.transaction, *table)?;
            let rows = OldRows {
                table: *table,
                left,
                done: 0,
            };
            start_rows(alloc, catalog, s, world, session, Task::Deleting(rows))?;
            Ok(())
        }
        Some(Bound::BeginBlock) => {
            begin(alloc, catalog, s, world, session)?;
            Ok(())
        }
        Some(Bound::CommitBlock) => {
            commit_block(alloc, s, world, session)?;
            Ok(())
        }
        Some(Bound::RollbackBlock) => {
            roll_back(alloc, s, world, session)?;
            Ok(())
        }
    }
}
