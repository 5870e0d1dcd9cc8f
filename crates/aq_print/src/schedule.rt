//! The sessions that stepped, and the line that tells them.

ghost use Rattle.std.specs.Prelude.{◌≡◌, ℕ, ◌<◌, [], ◌∷◌, ◌++◌, map, length, codes, IfOk, OnOk, OnErr};
ghost use Rattle.std.specs.List.{flat_map};
ghost use Rattle.std.specs.Fmt.{decimal};
ghost use Rattle.aq_texts.specs.Schedules.{name_at, run_item, runs_of, schedule_line};

use crate::numbers::push_number;
use aq_base::{List, NoMemory, TextVal};
use aq_first_base::SimpleSession;
use aq_xids::SessNo;
use std::alloc::Global;
use std::marker::Model;

/// The sessions that stepped, in order. Contracts see it as the list of their numbers.
#[derive(Drop)]
pub struct Runs {
    steps: Vec<u8>,
}

impl Model for Runs {
    ghost use Rattle.std.specs.Prelude.{ℕ, List};
    ghost use Rattle.std.specs.Coded.{coded_list, coded_ℕ};

    ghost Value = { List ℕ };

    ghost coded = { coded_list coded_ℕ };

    ghost view = { λ r. r.steps.items };
}

impl Runs {
    /// No step yet.
    pub fn new(alloc: Global) -> Runs
        ensures { result ≡ [] }
    {
        Runs {
            steps: Vec::new(alloc),
        }
    }

    /// One step more. The error is want of memory.
    pub fn push(&mut self, s: SessNo) -> Result<(), NoMemory>
        ensures ok { OnOk result (self.new ≡ self.old ++ s.0 ∷ []) }
        ensures err { OnErr result (self.new ≡ self.old) }
    {
        self.steps.push(s.0)?;
        Ok(())
    }

    /// Takes the last step back.
    pub fn pop(&mut self)
        requires { 0 < length self.old }
        ensures { (last : ℕ) × (self.old ≡ self.new ++ last ∷ []) }
    {
        let _last = self.steps.pop();
    }

    /// How many steps there are.
    pub fn len(&self) -> u64
        ensures { result ≡ length self.now }
    {
        self.steps.len() as u64
    }

    /// The sessions' numbers.
    pub fn as_slice(&self) -> &[u8]
        ensures { result.now ≡ self.now }
    {
        self.steps.as_slice()
    }
}

/// What goes by a name.
pub trait Named {
    ghost use Rattle.aq_base.specs.Names.{Text};

    ghost name_of: { Self → Text };

    /// Its name.
    fn name(&self) -> &str
        ensures { result.now ≡ name_of self.now };
}

impl Named for TextVal {
    ghost name_of = { λ name. name };

    fn name(&self) -> &str {
        self.as_str()
    }
}

impl Named for SimpleSession {
    ghost name_of = { λ session. session.name };

    fn name(&self) -> &str {
        self.name.as_str()
    }
}

/// The name of a session, by its number.
fn name_at<N: Named>(sessions: &[N], session: u8) -> &str
    ensures { result.now ≡ name_at (map N.name_of sessions.now) session }
{
    match sessions.get(usize::from(session)) {
        None => "",
        Some(found) => found.name(),
    }
}

/// One run of steps of a session.
fn push_run(out: &mut Vec<u8>, name: &str, steps: u64) -> Result<(), NoMemory>
    ensures { OnOk result (out.new.items ≡ out.old.items ++ (codes " " ++ name.now ++ codes "*" ++ decimal steps)) }
{
    out.push(b' ')?;
    out.extend_from_slice(name.as_bytes())?;
    out.push(b'*')?;
    push_number(out, steps)
}

fn push_item<N: Named>(
    out: &mut Vec<u8>,
    sessions: &[N],
    session: u8,
    steps: u64,
) -> Result<(), NoMemory>
    ensures { OnOk result (out.new.items ≡ out.old.items ++ run_item (map N.name_of sessions.now) (session, steps)) }
{
    push_run(out, name_at(sessions, session), steps)
}

fn push_items<N: Named>(out: &mut Vec<u8>, sessions: &[N], steps: &[u8]) -> Result<(), NoMemory>
    ensures { OnOk result (out.new.items ≡ out.old.items ++ flat_map (run_item (map N.name_of sessions.now)) (runs_of steps.now)) }
{
    let Some((first, others)) = steps.split_first() else {
        return Ok(());
    };
    let mut session = *first;
    let mut count: u64 = 1;
    let mut left = others;
    'items: while let Some((next, rest)) = left.split_first() {
        if *next == session {
            count += 1;
        } else {
            push_item(out, sessions, session, count)?;
            session = *next;
            count = 1;
        }
        left = rest;
    }
    push_item(out, sessions, session, count)?;
    Ok(())
}

/// Puts the schedule's line at the end: each longest run of steps of one session. A session that has no name is printed as
/// one with an empty name. The error is want of memory, and then a part of the line may stand there.
pub fn push_schedule<N: Named>(
    out: &mut Vec<u8>,
    sessions: &[N],
    steps: &[u8],
) -> Result<(), NoMemory>
    ensures { OnOk result (out.new.items ≡ out.old.items ++ schedule_line (map N.name_of sessions.now) steps.now) }
{
    out.extend_from_slice(b"schedule")?;
    push_items(out, sessions, steps)?;
    Ok(out.push(b'\n')?)
}

/// The schedule's line: each longest run of steps of one session. A session that has no name is printed as one with an
/// empty name. The error is want of memory.
pub fn print_schedule(
    alloc: Global,
    runs: &Runs,
    names: &List<TextVal>,
) -> Result<List<u8>, NoMemory>
    ensures { IfOk result (λ text. text ≡ schedule_line names.now runs.now) }
{
    let mut out = Vec::new(alloc);
    push_schedule(&mut out, names.as_slice(), runs.as_slice())?;
    Ok(List::from_vec(out))
}
