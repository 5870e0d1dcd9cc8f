//! The sections of a script.

ghost use Rattle.std.specs.Prelude.{◌≡◌, [], IfOk, IfErr};
ghost use Rattle.aq_grammar.specs.Reading.{Read};
ghost use Rattle.aq_grammar.specs.Steps.{Gives, Fails};
ghost use Rattle.aq_script.specs.Parsing.{read_setup, read_script, whole_script};

use crate::items::schedule;
use crate::section::statements;
use crate::sessions::sessions;
use aq_base::{List, Placed, Script};
use aq_grammar::{Read, ReadFault, heading, is_heading};
use aq_lex::{Directive, Lexed};
use aq_parse::Place;
use std::alloc::Global;

/// The setup section, which may be left out.
fn setup<'a>(alloc: Global, tokens: &Lexed<'a>) -> Read<'a, List<Placed>>
    ensures { Gives (λ x. x) result (read_setup tokens.now) }
{
    if !is_heading(tokens, Directive::Setup) {
        return Ok((List::new(alloc), tokens.copied()));
    }
    let ((), rest) = heading(tokens, Directive::Setup)?;
    statements(alloc, Place::Setup, 0, &rest)
}

/// A script, and the tokens with which it doesn't go on.
fn script<'a>(alloc: Global, tokens: &Lexed<'a>) -> Read<'a, Script>
    ensures { Gives (λ x. x) result (read_script tokens.now) }
{
    let (setup, rest) = setup(alloc, tokens)?;
    let (sessions, rest) = sessions(alloc, setup.len(), &rest)?;
    let (schedule, rest) = schedule(alloc, &rest)?;
    let script = Script {
        setup,
        sessions,
        schedule,
    };
    Ok((script, rest))
}

/// The script that all of the tokens are.
pub(crate) fn whole_script(alloc: Global, tokens: &Lexed<'_>) -> Result<Script, ReadFault>
    ensures read { IfOk result (λ found. whole_script tokens.now ≡ Read found []) }
    ensures fault { IfErr result (λ fault. Fails fault (whole_script tokens.now)) }
{
    let (found, rest) = script(alloc, tokens)?;
    if rest.is_empty() {
        return Ok(found);
    }
    Err(ReadFault::Syntax { left: rest.len() })
}
