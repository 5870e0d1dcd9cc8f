//! The use of OLD and NEW in an expression.

ghost use Rattle.std.specs.Prelude.{◌≡◌};
ghost use Rattle.aq_setup.specs.Triggers as triggers;

use aq_base::Expr;

/// Whether an expression has a column of OLD.
pub(crate) fn uses_old(e: &Expr) -> bool
    ensures { result ≡ triggers.uses_old e.now }
{
    match e {
        Expr::Old(_) => true,
        Expr::Unary { operand, .. } => uses_old(operand.get()),
        Expr::Binary { left, right, .. } => uses_old(left.get()) || uses_old(right.get()),
        Expr::Constant(_)
        | Expr::Column(_)
        | Expr::Qualified { .. }
        | Expr::New(_)
        | Expr::Operation => false,
    }
}

/// Whether an expression has a column of NEW.
pub(crate) fn uses_new(e: &Expr) -> bool
    ensures { result ≡ triggers.uses_new e.now }
{
    match e {
        Expr::New(_) => true,
        Expr::Unary { operand, .. } => uses_new(operand.get()),
        Expr::Binary { left, right, .. } => uses_new(left.get()) || uses_new(right.get()),
        Expr::Constant(_)
        | Expr::Column(_)
        | Expr::Qualified { .. }
        | Expr::Old(_)
        | Expr::Operation => false,
    }
}
