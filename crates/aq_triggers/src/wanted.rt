//! What CREATE TRIGGER and CREATE CONSTRAINT TRIGGER ask for (PostgreSQL manual, page CREATE TRIGGER).

ghost use Rattle.std.specs.Prelude.{◌≡◌, [], ◌++◌, map, unwrap_or, IfOk, OnOk};
ghost use Rattle.std.specs.Option.{option_copied};
ghost use Rattle.std.specs.List.{list_any};
ghost use Rattle.aq_setup.specs.Triggers as triggers;
ghost use Rattle.aq_triggers.specs.Transitions.{olds, news};

use aq_base::{
    Copies, CreateConstraintTrigger, CreateTrigger, Decl, Each, Expr, List, Op, TextVal,
    Transition, TransitionTable, TriggerEvent,
};
use std::alloc::{AllocError, Global};
use std::marker::Model;

/// A trigger as one of both statements asks for it. One of a constraint trigger has a timing.
#[derive(Drop)]
pub struct Wanted<'a> {
    pub(crate) name: &'a TextVal,
    pub(crate) events: &'a [TriggerEvent],
    pub(crate) table: &'a TextVal,
    pub(crate) transitions: &'a [TransitionTable],
    pub(crate) level: Each,
    pub(crate) condition: &'a Option<Expr>,
    pub(crate) function: &'a TextVal,
    pub(crate) timing: Option<Decl>,
}

impl<'a> Model for Wanted<'a> {
    ghost use Rattle.aq_setup.specs.Triggers.{Wanted as Of};
    ghost use Rattle.std.specs.Coded.{codes};
    ghost use Rattle.aq_base.specs.contracts.expr.Expr as expr;

    ghost Value = { Of };

    ghost coded = { Prim.hlevel (codes, expr.the_row.coded) };

    ghost view = { λ w. record { name = w.name.now; events = w.events.now; table = w.table.now; transitions = w.transitions.now; level = w.level; condition = w.condition.now; function = w.function.now; timing = w.timing } };
}

pub fn plain_trigger(s: &CreateTrigger) -> Wanted<'_>
    ensures { result ≡ triggers.plain_trigger s.now }
{
    Wanted {
        name: &s.name,
        events: s.events.as_slice(),
        table: &s.table,
        transitions: transitions_of(&s.transitions),
        level: s.each,
        condition: &s.condition,
        function: &s.function,
        timing: None,
    }
}

fn transitions_of(transitions: &Option<List<TransitionTable>>) -> &[TransitionTable]
    ensures { result.now ≡ unwrap_or transitions.now [] }
{
    match transitions {
        None => &[],
        Some(transitions) => transitions.as_slice(),
    }
}

pub fn constraint_trigger(s: &CreateConstraintTrigger) -> Wanted<'_>
    ensures { result ≡ triggers.constraint_trigger s.now }
{
    Wanted {
        name: &s.name,
        events: s.events.as_slice(),
        table: &s.table,
        transitions: &[],
        level: Each::Row,
        condition: &s.condition,
        function: &s.function,
        timing: Some(s.timing),
    }
}

fn is_insert(event: &TriggerEvent) -> bool
    ensures { result ≡ triggers.is_insert event.now }
{
    matches!(event, TriggerEvent::Insert)
}

fn is_delete(event: &TriggerEvent) -> bool
    ensures { result ≡ triggers.is_delete event.now }
{
    matches!(event, TriggerEvent::Delete)
}

fn is_update(event: &TriggerEvent) -> bool
    ensures { result ≡ triggers.is_update event.now }
{
    matches!(event, TriggerEvent::Update { .. })
}

fn op_of(event: &TriggerEvent) -> Op
    ensures { result ≡ triggers.op_of event.now }
{
    match event {
        TriggerEvent::Insert => Op::Insert,
        TriggerEvent::Delete => Op::Delete,
        TriggerEvent::Update { .. } => Op::Update,
    }
}

/// The columns of UPDATE OF; none where there is no list.
fn event_columns(event: &TriggerEvent) -> &[TextVal]
    ensures { result.now ≡ triggers.event_columns event.now }
{
    match event {
        TriggerEvent::Insert => &[],
        TriggerEvent::Delete => &[],
        TriggerEvent::Update { columns } => match columns {
            None => &[],
            Some(columns) => columns.as_slice(),
        },
    }
}

fn push_copies(made: &mut List<TextVal>, names: &[TextVal]) -> Result<(), AllocError>
    ensures { OnOk result (made.new ≡ made.old ++ names.now) }
{
    for name in names {
        made.push(name.copy()?)?;
    }
    Ok(())
}

impl<'a> Wanted<'a> {
    pub(crate) fn on_insert(&self) -> bool
        ensures { result ≡ list_any triggers.is_insert self.now.events }
    {
        self.events.iter().any(|event| is_insert(event))
    }

    pub(crate) fn on_delete(&self) -> bool
        ensures { result ≡ list_any triggers.is_delete self.now.events }
    {
        self.events.iter().any(|event| is_delete(event))
    }

    pub(crate) fn on_update(&self) -> bool
        ensures { result ≡ list_any triggers.is_update self.now.events }
    {
        self.events.iter().any(|event| is_update(event))
    }

    pub(crate) fn is_statement(&self) -> bool
        ensures { result ≡ triggers.is_statement self.now.level }
    {
        matches!(self.level, Each::Statement)
    }

    /// The operations that fire it.
    pub(crate) fn ops(&self, alloc: Global) -> Result<List<Op>, AllocError>
        ensures { IfOk result (λ made. made ≡ map triggers.op_of self.now.events) }
    {
        let mut made = List::new(alloc);
        for event in self.events {
            made.push(op_of(event))?;
        }
        Ok(made)
    }

    /// The columns of its UPDATE OF, none where there is no list.
    pub(crate) fn update_columns(&self, alloc: Global) -> Result<List<TextVal>, AllocError>
        ensures { IfOk result (λ made. made ≡ triggers.update_columns self.now) }
    {
        let mut made = List::new(alloc);
        for event in self.events {
            push_copies(&mut made, event_columns(event))?;
        }
        Ok(made)
    }

    /// The name of its OLD TABLE.
    pub(crate) fn old_table(&self) -> Option<&'a TextVal>
        ensures { option_copied result ≡ triggers.first_text (triggers.old_tables self.now) }
    {
        first_old(self.transitions)
    }

    /// The name of its NEW TABLE.
    pub(crate) fn new_table(&self) -> Option<&'a TextVal>
        ensures { option_copied result ≡ triggers.first_text (triggers.new_tables self.now) }
    {
        first_new(self.transitions)
    }
}

fn first_old<'a>(transitions: &'a [TransitionTable]) -> Option<&'a TextVal>
    ensures { option_copied result ≡ triggers.first_text (olds transitions.now) }
{
    for table in transitions {
        if table.transition == Transition::Old {
            return Some(&table.name);
        }
    }
    None
}

fn first_new<'a>(transitions: &'a [TransitionTable]) -> Option<&'a TextVal>
    ensures { option_copied result ≡ triggers.first_text (news transitions.now) }
{
    for table in transitions {
        if table.transition == Transition::New {
            return Some(&table.name);
        }
    }
    None
}
