ghost use Rattle.std.specs.Prelude.{◌≡◌, true, ◌≤◌, length, map, OnOk, OnErr, IfOk};
ghost use Rattle.aq_first_base.specs.Scripts.{fits_first_language};
ghost use Rattle.aq_first_base.specs.Setup.{program_of, catalog_of, bound_statements};
ghost use Rattle.aq_first_run.specs.States.{opening, session_at, last_database};
ghost use Rattle.aq_first_run.specs.Steps.{step, is_enabled};
ghost use Rattle.aq_first_run.specs.Texts.{table_rows};
ghost use Rattle.aq_first_machine.specs.Givens.{given_shown};
ghost use Rattle.aq_first_machine.specs.Machines.{OpensSessions};

use crate::catalog::{Catalog, catalog_for, statements_for};
use crate::replies::Given;
use crate::session::Session;
use crate::step::step_session;
use crate::world::World;
use aq_base::{List, NoMemory, Row, TabNo};
use aq_first_base::{Bound, SimpleScript, SimpleSession, Table};
use aq_xids::SessNo;
use std::alloc::Global;
use std::marker::Model;

/// A script, and the state of its run so far.
#[derive(Drop)]
pub struct Machine {
    alloc: Global,
    script: SimpleScript,
    catalog: Catalog,
    /// The session's statements; the language has one session at the most.
    statements: List<Bound>,
    world: World,
    session: Option<Session>,
}

impl Model for Machine {
    ghost use Rattle.std.specs.Option.{option_to_list};
    ghost use Rattle.aq_first_run.specs.States.{Standing};
    ghost use Rattle.aq_first_machine.specs.Machines.{IsMachine};

    ghost Value = { Standing };

    ghost view = { λ m. record { script = m.script; state = record { world = m.world; sessions = option_to_list m.session } } };

    ghost invariant = { λ m. IsMachine m.script m.catalog m.statements m.world m.session };
}

/// The statements of the one session, and the session before them.
fn opened(
    alloc: Global,
    catalog: &Catalog,
    sessions: &[SimpleSession],
) -> Result<(List<Bound>, Option<Session>), NoMemory>
    requires { length sessions.now ≤ 1 }
    ensures { IfOk result (λ made. OpensSessions (map (bound_statements catalog.now) sessions.now) made.0 made.1) }
{
    match sessions.split_first() {
        None => Ok((List::new(alloc), None)),
        Some((session, _)) => Ok((
            statements_for(alloc, catalog, session)?,
            Some(Session::at_start()),
        )),
    }
}

impl Machine {
    /// The machine before the first step. The error is want of memory.
    pub fn open(alloc: Global, script: SimpleScript) -> Result<Machine, NoMemory>
        requires { fits_first_language script ≡ true }
        ensures { IfOk result (λ m. m ≡ record { script = script; state = opening (program_of script) }) }
    {
        let catalog = catalog_for(alloc, &script)?;
        let (statements, session) = opened(alloc, &catalog, script.sessions.as_slice())?;
        Ok(Machine {
            alloc,
            script,
            catalog,
            statements,
            world: World::new(alloc),
            session,
        })
    }

    /// How many sessions the script has.
    pub fn sessions(&self) -> u8
        ensures { result ≡ length self.now.state.sessions }
    {
        if self.session.is_some() { 1 } else { 0 }
    }

    /// Whether the session is there and may step.
    pub fn enabled(&self, s: SessNo) -> bool
        ensures { result ≡ is_enabled self.now.state s.0 }
    {
        match &self.session {
            Some(session) if s.0 == 0 => !session.ended,
            _ => false,
        }
    }

    /// Whether the session has ended. One that isn't there has.
    pub fn ended(&self, s: SessNo) -> bool
        ensures { result ≡ (session_at self.now.state s.0).ended }
    {
        match &self.session {
            Some(session) if s.0 == 0 => session.ended,
            _ => true,
        }
    }

    /// One step of the session. The error is want of memory, or a counter at its end.
    pub fn step(&mut self, s: SessNo) -> Result<(), NoMemory>
        requires { is_enabled self.old.state s.0 ≡ true }
        ensures ok { OnOk result (self.new ≡ record self.old { state = step (program_of self.old.script) self.old.state s.0 }) }
        ensures err { OnErr result (self.new ≡ self.old) }
    {
        match &mut self.session {
            None => Ok(()),
            Some(session) => {
                step_session(
                    self.alloc,
                    &self.catalog,
                    &self.statements,
                    s,
                    &mut self.world,
                    session,
                )?;
                Ok(())
            }
        }
    }

    /// The replies so far, in the order of their steps.
    pub fn replies(&self) -> &List<Given>
        ensures { map given_shown result.now ≡ self.now.state.world.replies }
    {
        &self.world.replies
    }

    /// The committed rows of a table, in the order of their row numbers. The error is want of memory.
    pub fn table_rows(&self, t: TabNo) -> Result<List<Row>, NoMemory>
        ensures { IfOk result (λ rows. rows ≡ table_rows t (last_database self.now.state.world)) }
    {
        self.world.table_rows(self.alloc, t)
    }

    /// The script.
    pub fn script(&self) -> &SimpleScript
        ensures { result.now ≡ self.now.script }
    {
        &self.script
    }

    /// The tables that the setup made, in creation order.
    pub fn tables(&self) -> &List<Table>
        ensures { result.now ≡ (catalog_of self.now.script).tables }
    {
        &self.catalog.tables
    }
}
