ghost use Rattle.std.specs.Prelude.{◌≡◌, IfOk};

use aq_base::{Copies, EventNo, NoMemory, Op, Row, RowNo, TabNo, TrigNo, WriteNo};
use std::marker::Model;

/// What a change of a row, or a statement, has queued for a trigger.
#[derive(Drop)]
pub struct Event {
    pub no: EventNo,
    pub trig: TrigNo,
    pub table: TabNo,
    pub op: Op,
    /// `None` at an event of a statement.
    pub row: Option<RowNo>,
    /// The number of the change.
    pub write: Option<WriteNo>,
    pub old: Option<Row>,
    pub new: Option<Row>,
    /// The transition set of the table and the operation.
    pub set: u32,
}

impl Model for Event {
    ghost use Rattle.aq_base.specs.Events.{Event as Queued};

    ghost Value = { Queued };

    ghost view = { λ e. record { number = e.no; trigger = e.trig; table = e.table; op = e.op; row = e.row; write = e.write; old = e.old; new = e.new; set = e.set } };
}

impl Copies for Event {
    fn copy(&self) -> Result<Self, NoMemory> {
        Ok(Event {
            no: self.no,
            trig: self.trig,
            table: self.table,
            op: self.op,
            row: self.row,
            write: self.write,
            old: self.old.copy()?,
            new: self.new.copy()?,
            set: self.set,
        })
    }
}
