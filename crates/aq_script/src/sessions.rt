//! The sessions of a script.

ghost use Rattle.std.specs.Prelude.{◌≡◌, ◌&&◌, [], ◌∷◌, nat_le, IfOk};
ghost use Rattle.aq_lex.specs.declared.token.Directive.TheVariants.{Session};
ghost use Rattle.aq_grammar.specs.Terminals.{Heading, begins};
ghost use Rattle.aq_grammar.specs.Steps.{Gives, RefusesSo};
ghost use Rattle.aq_script.specs.Sections.{session_limit, refused_names, refused_sessions, repeated_name, names_of};
ghost use Rattle.aq_script.specs.Parsing.{read_name, read_session, read_all_sessions};

use crate::section::statements;
use aq_base::{List, NoMemory, SessionText, SqlFault, TextVal};
use aq_grammar::{
    Read, ReadFault, heading, is_heading, is_word, naming_fault, passes_limit, plain_name,
};
use aq_lex::{Directive, Lexed};
use aq_parse::Place;
use std::alloc::Global;

/// The number of sessions that a script may have.
const MAX_SESSIONS: usize = 16;

/// `session "NAME" already exists`
fn repeated_name(alloc: Global, name: &TextVal) -> Result<SqlFault, NoMemory>
    ensures { IfOk result (λ fault. fault ≡ repeated_name name.now) }
{
    naming_fault(alloc, b"42710", "session ", name, " already exists")
}

/// No session has the name of one before it.
#[tactic(auto, using(aq_grammar::proofs::Refusing::refuses_none))]
fn refuse_names(
    alloc: Global,
    sessions: &[SessionText],
    tokens: &Lexed<'_>,
) -> Result<(), ReadFault>
    ensures { RefusesSo (refused_names (names_of sessions.now)) result tokens.now }
{
    'sessions: for session in sessions {
        if is_word(tokens, session.name.bytes()) {
            let fault = repeated_name(alloc, &session.name)?;
            return Err(ReadFault::Refused {
                left: tokens.len(),
                fault,
            });
        }
    }
    Ok(())
}

/// The heading of a session behind others.
#[tactic(auto, unfolding(aq_grammar::specs::Steps::RefusesSo))]
fn name<'a>(alloc: Global, sessions: &[SessionText], tokens: &Lexed<'a>) -> Read<'a, TextVal>
    ensures { Gives (λ x. x) result (read_name (names_of sessions.now) tokens.now) }
{
    let ((), rest) = heading(tokens, Directive::Session)?;
    refuse_names(alloc, sessions, &rest)?;
    plain_name(alloc, &rest)
}

/// A session behind others, and behind so many statements.
fn session<'a>(
    alloc: Global,
    sessions: &[SessionText],
    before: usize,
    tokens: &Lexed<'a>,
) -> Read<'a, SessionText>
    ensures { Gives (λ x. x) result (read_session before (names_of sessions.now) tokens.now) }
{
    let (name, rest) = name(alloc, sessions, tokens)?;
    let (statements, rest) = statements(alloc, Place::Session, before, &rest)?;
    Ok((SessionText { name, statements }, rest))
}

/// Whether the tokens begin one session more than there may be, behind so many.
fn passes_sessions(sessions: usize, tokens: &Lexed<'_>) -> bool
    ensures { result ≡ (nat_le session_limit sessions && begins (Heading Session ∷ []) tokens.now) }
{
    sessions >= MAX_SESSIONS && is_heading(tokens, Directive::Session)
}

/// No session comes behind as many as a script may have.
fn refuse_sessions(alloc: Global, sessions: usize, tokens: &Lexed<'_>) -> Result<(), ReadFault>
    ensures { RefusesSo (refused_sessions sessions) result tokens.now }
{
    if passes_sessions(sessions, tokens) {
        return Err(passes_limit(alloc, tokens, "more than 16 sessions"));
    }
    Ok(())
}

/// The sessions of a script, as many as stand there, behind so many statements.
pub(crate) fn sessions<'a>(
    alloc: Global,
    before: usize,
    tokens: &Lexed<'a>,
) -> Read<'a, List<SessionText>>
    ensures { Gives (λ x. x) result (read_all_sessions before tokens.now) }
{
    let mut found = List::new(alloc);
    let mut count = before;
    let mut rest = tokens.copied();
    'sessions: loop {
        refuse_sessions(alloc, found.len(), &rest)?;
        if !is_heading(&rest, Directive::Session) {
            return Ok((found, rest));
        }
        let (next, behind) = session(alloc, found.as_slice(), count, &rest)?;
        count += next.statements.len();
        found.push(next)?;
        rest = behind;
    }
}
