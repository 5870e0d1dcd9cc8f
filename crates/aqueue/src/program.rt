//! The top call: all that the program does.

ghost use Rattle.std.specs.Prelude.{◌≡◌, ℕ, ◌<◌, ◌≤◌, List, [], ◌∷◌, true, false, length, Some, None, IfOk, IfErr, IfSome};
ghost use Rattle.std.specs.Io.KnownBytes.{Keeps, Appends};
ghost use Rattle.aq_causes.specs.Counts.{Rose};
ghost use Rattle.aqueue.specs.Answers.{task_of, is_task, script_limit, usage_line, too_long_line, refusal_line, CanBeDone, CannotBeDone, IsDone, WroteDone, WroteRefusal, WroteBeginning, is_one_of};
ghost use Rattle.aqueue.specs.declared.task.Task.{Task};
ghost use Rattle.aq_base.specs.Names.{Text};
ghost use Rattle.aqueue.specs.Answers.{IsRefusal};
ghost use Rattle.aqueue.specs.Faults.{IfScript};
ghost use Rattle.aqueue.specs.Outcomes.{OutcomeCases};

use crate::check::check_script;
use crate::fault::RunFault;
use crate::replay::replay_script;
use crate::task::Task;
use aq_base::{List, NoMemory, SqlFault, TextVal};
use aq_causes::{Gathered, Sink, Source, Written, read_all, write_all};
use aq_words::{Command, command_of};
use itoa::Buffer;
use std::alloc::Global;

/// The most bytes that a script may have.
pub const SCRIPT_LIMIT: usize = 16777216;

const USAGE: &[u8] =
    b"aqueue: usage: aqueue run [--trace] | replay [--trace] | check | drill --rows N\n";

const TOO_LONG: &[u8] = b"aqueue: script longer than 16777216 bytes\n";

// What the words and the input come to, before anything is written.
#[derive(Drop)]
enum Outcome {
    // The status, with what is to be written.
    Writes { status: u8, text: List<u8> },
    // The source failed.
    ReadFailed,
}

// What the words ask for, `None` where they are no list that is built.
fn task(alloc: Global, words: &List<TextVal>) -> Result<Option<Task>, NoMemory>
    ensures { IfOk result (λ found. found ≡ task_of words.now) }
{
    match command_of(alloc, words)? {
        Some(Command::Replay { trace: false }) => Ok(Some(Task::Replay)),
        Some(Command::Check) => Ok(Some(Task::Check)),
        _ => Ok(None),
    }
}

fn line_of(alloc: Global, text: &[u8]) -> Result<List<u8>, NoMemory>
    ensures { IfOk result (λ made. made ≡ text.now) }
{
    Ok(List::from_vec(Vec::from_slice(alloc, text)?))
}

fn refusal(alloc: Global, line: u64, fault: &SqlFault) -> Result<List<u8>, NoMemory>
    ensures { IfOk result (λ made. made ≡ refusal_line line fault.now) }
{
    let mut out = Vec::from_slice(alloc, b"aqueue: line ")?;
    out.extend_from_slice(Buffer::new().format(line).as_bytes())?;
    out.extend_from_slice(b": ")?;
    out.extend_from_slice(&fault.code.0)?;
    out.push(b' ')?;
    out.extend_from_slice(fault.text.bytes())?;
    out.push(b'\n')?;
    Ok(List::from_vec(out))
}

fn text_of(alloc: Global, task: Task, bytes: &[u8]) -> Result<List<u8>, RunFault>
    ensures done { IfOk result (IsDone task bytes.now) }
    ensures refused { IfErr result (λ fault. IfScript fault (IsRefusal bytes.now task)) }
    ensures none { IfErr result (λ fault. IfScript fault (λ line why. CannotBeDone task bytes.now)) }
{
    match task {
        Task::Replay => replay_script(alloc, bytes),
        Task::Check => check_script(alloc, bytes),
    }
}

fn done(alloc: Global, task: Task, bytes: &[u8]) -> Result<Outcome, NoMemory>
    requires { length bytes.now ≤ script_limit }
    ensures { (words : List Text) (before now : ℕ) → task_of words ≡ Some task → IfOk result (OutcomeCases words (Some bytes.now) before now) }
{
    match text_of(alloc, task, bytes) {
        Ok(text) => Ok(Outcome::Writes { status: 0, text }),
        Err(RunFault::NoMemory) => Err(NoMemory),
        Err(RunFault::Script { line, fault }) => Ok(Outcome::Writes {
            status: 2,
            text: refusal(alloc, line, &fault)?,
        }),
    }
}

fn prepared<S: Source>(
    alloc: Global,
    words: &List<TextVal>,
    input: &mut S,
) -> Result<Outcome, NoMemory>
    ensures cases { IfOk result (OutcomeCases words.now (S.left input.old) (S.faults input.old) (S.faults input.new)) }
    ensures count { S.faults input.old ≤ S.faults input.new }
    ensures unread { task_of words.now ≡ None → Keeps (S.left input.old) (S.left input.new) }
{
    let Some(task) = task(alloc, words)? else {
        return Ok(Outcome::Writes {
            status: 1,
            text: line_of(alloc, USAGE)?,
        });
    };
    match read_all(alloc, input, SCRIPT_LIMIT)? {
        Gathered::All(bytes) => done(alloc, task, bytes.as_slice()),
        Gathered::Failed => Ok(Outcome::ReadFailed),
        Gathered::TooLong => Ok(Outcome::Writes {
            status: 7,
            text: line_of(alloc, TOO_LONG)?,
        }),
    }
}

/// Does all that the program does, and answers its exit status.
///
/// | Status | Meaning |
/// |---|---|
/// | 0 | the text of the run, or the canonical text, was written |
/// | 1 | the words are no list of words that is built; the usage line was written |
/// | 2 | the bytes are no script, a statement of its setup is refused, or it is not run yet; a line with the place and the cause was written |
/// | 4 | the source failed; nothing was written |
/// | 5 | the sink failed; a beginning of the text or line was written |
/// | 6 | want of memory, which may come at any growth before the first byte is written; nothing was written |
/// | 7 | the source gave more than 16,777,216 bytes; a line was written |
pub fn aqueue<S: Source, K: Sink>(
    alloc: Global,
    words: &List<TextVal>,
    input: &mut S,
    output: &mut K,
) -> u8
    // 0: all bytes were read, and what was written is what the words ask for of the script that they are.
    ensures done { result ≡ 0 → WroteDone words.now (S.left input.old) (K.written output.old) (K.written output.new) }
    // 1: exactly where the words are no list that is built.
    ensures usage { result ≡ 1 → (task_of words.now ≡ None) × Keeps (S.left input.old) (S.left input.new) × Appends (K.written output.old) (K.written output.new) usage_line }
    ensures usage_comes { task_of words.now ≡ None → is_one_of (1 ∷ 5 ∷ 6 ∷ []) result ≡ true }
    // 2: exactly where it cannot be done. The line that is refused was written.
    ensures refused { result ≡ 2 → WroteRefusal words.now (S.left input.old) (K.written output.old) (K.written output.new) }
    ensures refused_comes { (task : Task) → task_of words.now ≡ Some task → IfSome (S.left input.old) (λ bytes. length bytes ≤ script_limit → CannotBeDone task bytes → is_one_of (2 ∷ 4 ∷ 5 ∷ 6 ∷ []) result ≡ true) }
    // 4: only where the source's count of faults rose.
    ensures read_failed { result ≡ 4 → (is_task words.now ≡ true) × Rose (S.faults input.old) (S.faults input.new) × Keeps (K.written output.old) (K.written output.new) }
    // 5: only where the sink's count of faults rose; what it took begins an answer.
    ensures write_failed { result ≡ 5 → Rose (K.faults output.old) (K.faults output.new) × WroteBeginning words.now (S.left input.old) (K.written output.old) (K.written output.new) }
    // 6: nothing was written.
    ensures no_memory { result ≡ 6 → Keeps (K.written output.old) (K.written output.new) }
    // 7: exactly where more bytes came than a script may have.
    ensures too_long { result ≡ 7 → (is_task words.now ≡ true) × IfSome (S.left input.old) (λ bytes. script_limit < length bytes) × Appends (K.written output.old) (K.written output.new) too_long_line }
    ensures too_long_comes { is_task words.now ≡ true → IfSome (S.left input.old) (λ bytes. script_limit < length bytes → is_one_of (4 ∷ 5 ∷ 6 ∷ 7 ∷ []) result ≡ true) }
    // There is no other status, and where no cause is met it is 0 or 6.
    ensures statuses { is_one_of (0 ∷ 1 ∷ 2 ∷ 4 ∷ 5 ∷ 6 ∷ 7 ∷ []) result ≡ true }
    ensures complete { (task : Task) → task_of words.now ≡ Some task → IfSome (S.left input.old) (λ bytes. length bytes ≤ script_limit → CanBeDone task bytes →
        ¬ Rose (S.faults input.old) (S.faults input.new) → ¬ Rose (K.faults output.old) (K.faults output.new) → is_one_of (0 ∷ 6 ∷ []) result ≡ true) }
    ensures source_count { S.faults input.old ≤ S.faults input.new }
    ensures sink_count { K.faults output.old ≤ K.faults output.new }
{
    match prepared(alloc, words, input) {
        Err(NoMemory) => 6,
        Ok(Outcome::ReadFailed) => 4,
        Ok(Outcome::Writes { status, text }) => match write_all(output, text.as_slice()) {
            Written::Done => status,
            Written::Failed => 5,
        },
    }
}
