//! Facts of all scripts, and of all schedules.

ghost use Rattle.aq_canon.specs.Laws.{ReadsBack, OneScript, OneText};
ghost use Rattle.aq_canon.specs.ScheduleLines.{ScheduleReadsBack};

/// The canonical text of a script that was read is read as the same script, but for the lines of its statements.
/// The one exception is a text that is refused for a limit, as where its parentheses bring an expression above 1,000 tokens.
pub fn reads_back()
    ensures { ReadsBack }
{}

/// Two scripts that were read and have one canonical text are the same, but for the lines of their statements.
pub fn one_script_a_text()
    ensures { OneScript }
{}

/// Scripts that are the same but for the lines of their statements have one canonical text, so what was printed and read is printed as it stands.
pub fn one_text_a_script()
    ensures { OneText }
{}

/// The line in which a run tells its schedule is, with a `\` before it, a script of a schedule section alone, whose items stand for that schedule.
/// The names of the sessions differ, each step is of one of them, and there are fewer steps than 2 ^ 63.
pub fn schedule_reads_back()
    ensures { ScheduleReadsBack }
{}
