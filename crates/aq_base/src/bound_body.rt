use crate::body::{Condition, Returned};
use crate::bound_data::{BoundDelete, BoundInsert, BoundUpdate};
use crate::bound_expr::BoundExpr;
use crate::list::List;
use crate::modes::SetConstraints;
use crate::text::TextVal;

/// A statement of a trigger function's body. The names of a SET CONSTRAINTS are looked up when it runs.
#[derive(Drop)]
#[cycle(bodies)]
pub enum BoundBodyStatement {
    If {
        condition: BoundExpr,
        then: List<BoundBodyStatement>,
        else_ifs: List<BoundElseIf>,
        otherwise: Option<List<BoundBodyStatement>>,
    },
    Raise(TextVal),
    Return(Returned),
    Insert(BoundInsert),
    Update(BoundUpdate),
    Delete(BoundDelete),
    SetConstraints(SetConstraints),
    /// A block: its statements, and the handlers that are tried in order when one of them fails. A block without
    /// handlers catches nothing and is no savepoint.
    Block {
        statements: List<BoundBodyStatement>,
        handlers: List<BoundHandler>,
    },
}

/// What is done where an error meets one of the conditions.
#[derive(Drop)]
#[cycle(bodies)]
pub struct BoundHandler {
    pub conditions: List<Condition>,
    pub statements: List<BoundBodyStatement>,
}

/// ELSIF: a condition, and what is done where it holds.
#[derive(Drop)]
#[cycle(bodies)]
pub struct BoundElseIf {
    pub condition: BoundExpr,
    pub then: List<BoundBodyStatement>,
}

/// The body of a trigger function: its outermost block.
#[derive(Drop)]
pub struct BoundBody {
    pub statements: List<BoundBodyStatement>,
    pub handlers: List<BoundHandler>,
}
