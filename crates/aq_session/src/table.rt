ghost use Rattle.std.specs.Prelude.{◌≡◌};
ghost use Rattle.aq_session.specs.Table.{judged};
ghost use Rattle.aq_session.specs.declared.block.Block.TheVariants.{Idle, Open, Failed};

use crate::block::{Block, Judge, StmtKind};
use aq_base::Code;

fn idle(kind: StmtKind) -> Judge
    ensures { result ≡ judged Idle kind }
{
    match kind {
        StmtKind::Begin
        | StmtKind::Insert
        | StmtKind::Update
        | StmtKind::Delete
        | StmtKind::Select => Judge::Run,
        StmtKind::Commit | StmtKind::Rollback | StmtKind::SetConstraints => {
            Judge::Warn(Code(*b"25P01"))
        }
        StmtKind::Savepoint | StmtKind::Release | StmtKind::RollbackTo => {
            Judge::Refuse(Code(*b"25P01"))
        }
    }
}

fn open(kind: StmtKind) -> Judge
    ensures { result ≡ judged Open kind }
{
    match kind {
        StmtKind::Begin => Judge::Warn(Code(*b"25001")),
        _ => Judge::Run,
    }
}

fn failed(kind: StmtKind) -> Judge
    ensures { result ≡ judged Failed kind }
{
    match kind {
        StmtKind::Commit | StmtKind::Rollback | StmtKind::RollbackTo => Judge::Run,
        _ => Judge::Refuse(Code(*b"25P02")),
    }
}

/// What comes of a statement of this kind in a block of this state, before its names are looked up.
pub fn judge(block: Block, kind: StmtKind) -> Judge
    ensures { result ≡ judged block kind }
{
    match block {
        Block::Idle => idle(kind),
        Block::Open => open(kind),
        Block::Failed => failed(kind),
    }
}
