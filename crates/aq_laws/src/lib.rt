//! Laws over every run, whatever its schedule. Each is the contract of a function that does nothing.
#![tactic(auto)]

ghost use Rattle.aq_laws.specs.Judged.{BlocksAreJudged};
ghost use Rattle.aq_laws.specs.Locks.{HoldingsAreApart};
ghost use Rattle.aq_laws.specs.Writes.{WritesAreApart, WrittenRowsAreHeld};
ghost use Rattle.aq_laws.specs.Waits.{WaitsAreRanked, NoWaitIsCircular};
ghost use Rattle.aq_laws.specs.Commits.{CommitsAreNumbered};
ghost use Rattle.aq_laws.specs.Told.{ScheduleIsTold, TextTellsSchedule};
ghost use Rattle.aq_laws.specs.Default.{DefaultScheduleIsUnique};
ghost use Rattle.aq_laws.specs.Stacks.{StacksFit};
ghost use Rattle.aq_laws.specs.Finite.{EveryStepFalls, RunsAreFinite};
ghost use Rattle.aq_laws.specs.Progress.{SomebodyMayStep, DefaultScheduleExists};
ghost use Rattle.aq_laws.specs.Refusals.{RefusalsHaveCauses};

/// The plan with which a statement starts does what the table of block states says of it.
pub fn blocks_are_judged()
    ensures { BlocksAreJudged }
{}

/// At each moment of each run, no two sessions hold a row in modes that conflict.
pub fn holdings_are_apart()
    ensures { HoldingsAreApart }
{}

/// At each moment of each run, no two sessions have written one row.
pub fn writes_are_apart()
    ensures { WritesAreApart }
{}

/// At each moment of each run, each session holds what it has written of the last database in the mode of a writer.
pub fn written_rows_are_held()
    ensures { WrittenRowsAreHeld }
{}

/// At each moment of each run, the sessions have ranks, and each waits for sessions of a lower rank alone.
pub fn waits_are_ranked()
    ensures { WaitsAreRanked }
{}

/// At each moment of each run, no session waits for itself, by however many others.
pub fn no_wait_is_circular()
    ensures { NoWaitIsCircular }
{}

/// At each moment of each run, all sessions have ended, or one may step.
pub fn somebody_may_step()
    ensures { SomebodyMayStep }
{}

/// The commits that the trace tells of are numbered from 1 on, up to the number of the last database.
pub fn commits_are_numbered()
    ensures { CommitsAreNumbered }
{}

/// At each moment of each run, what is in progress in a session fits what its transaction has opened and saved; a session
/// that has ended has neither tasks nor a transaction.
pub fn stacks_fit()
    ensures { StacksFit }
{}

/// Each step of an enabled session makes the measure of the state smaller.
pub fn every_step_falls()
    ensures { EveryStepFalls }
{}

/// No run goes on for ever.
pub fn runs_are_finite()
    ensures { RunsAreFinite }
{}

/// A program has a default schedule.
pub fn default_schedule_exists()
    ensures { DefaultScheduleExists }
{}

/// A program has one default schedule at the most.
pub fn default_schedule_is_unique()
    ensures { DefaultScheduleIsUnique }
{}

/// A schedule that is refused has the cause that is told, at the place that is told; one that isn't runs all sessions to their ends.
pub fn refusals_have_causes()
    ensures { RefusalsHaveCauses }
{}

/// The last line of a text tells one schedule at the most.
pub fn schedule_is_told()
    ensures { ScheduleIsTold }
{}

/// The text of a run tells the run's schedule and no other, with its trace and without, however many sessions there are.
pub fn text_tells_schedule()
    ensures { TextTellsSchedule }
{}
