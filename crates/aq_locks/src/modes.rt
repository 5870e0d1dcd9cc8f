//! How strong the modes are.

ghost use Rattle.std.specs.Prelude.{◌≡◌};
ghost use Rattle.aq_base.specs.LockModes.{strength, conflict, conflicts_with};
ghost use Rattle.aq_locks.specs.Logs.{covers as covers_mode};

use aq_base::LockMode;

fn strength_of(mode: LockMode) -> u8
    ensures { result ≡ strength mode }
{
    match mode {
        LockMode::KeyShare => 0,
        LockMode::Share => 1,
        LockMode::NoKeyUpdate => 2,
        LockMode::Update => 3,
    }
}

/// Whether what is held, if anything, conflicts with a mode.
pub fn conflicts(held: Option<LockMode>, mode: LockMode) -> bool
    ensures { result ≡ conflicts_with mode held }
{
    match held {
        None => false,
        Some(held) => strength_of(held) + strength_of(mode) >= 3,
    }
}

/// Whether what is held, if anything, is as strong as a mode.
pub fn covers(held: Option<LockMode>, mode: LockMode) -> bool
    ensures { result ≡ covers_mode held mode }
{
    match held {
        None => false,
        Some(held) => strength_of(mode) <= strength_of(held),
    }
}
