//! What an expression may name.

/// Where an expression stands, which says what it may name.
#[derive(Clone, Copy)]
pub enum Scope {
    /// In a statement of a session: the columns of the statement's table.
    InStatement,
    /// In the condition of a trigger: those of OLD and NEW too.
    InCondition,
    /// In the code of a function: TG_OP too. A text holds no `$$` there.
    InCode,
}
