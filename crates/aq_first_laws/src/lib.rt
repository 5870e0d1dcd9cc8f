//! Laws over every run, whatever its schedule. Each is the contract of a function that does nothing.
#![tactic(auto)]

ghost use Rattle.aq_first_laws.specs.Committed.{CommittedDatabasesStand};
ghost use Rattle.aq_first_run.specs.Told.{ScheduleIsTold};
ghost use Rattle.aq_first_laws.specs.Finite.{RunsAreFinite};
ghost use Rattle.aq_first_laws.specs.Default.{DefaultScheduleIsUnique, DefaultScheduleExists};

/// With one session, at each moment of each run: in every committed database each reference has its parent row, no
/// two rows of a table have the same unique key, and no row has a null in a column that holds none.
pub fn committed_databases_stand()
    ensures { CommittedDatabasesStand }
{}

/// The last line of a text tells one schedule at the most.
pub fn schedule_is_told()
    ensures { ScheduleIsTold }
{}

/// Every run ends: a program has a number of steps that no schedule of it exceeds.
pub fn runs_are_finite()
    ensures { RunsAreFinite }
{}

/// A program has one default schedule at the most.
pub fn default_schedule_is_unique()
    ensures { DefaultScheduleIsUnique }
{}

/// Every program has a default schedule.
pub fn default_schedule_exists()
    ensures { DefaultScheduleExists }
{}
