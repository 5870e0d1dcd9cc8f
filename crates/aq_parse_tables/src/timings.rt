//! When a constraint is checked (PostgreSQL manual, page CREATE TABLE, DEFERRABLE).

ghost use Rattle.std.specs.Prelude.{◌≡◌, [], ◌∷◌};
ghost use Rattle.aq_grammar.specs.Terminals.{begins};
ghost use Rattle.aq_grammar.specs.Nonterminals.{reads};
ghost use Rattle.aq_grammar.specs.Steps.{Gives};
ghost use Rattle.aq_grammar.specs.Tables.{initially, behind_deferrable, behind_not_deferrable, initially_alone, deferring, given_timing, timing_begins, perhaps_timing, timing_without, not_valid};

use aq_base::Decl;
use aq_grammar::{Read, is_one_of, is_word, refuse_not_valid, says, word};
use aq_lex::Lexed;
use std::alloc::Global;

/// It is checked behind each statement, and no mode changes that.
pub(crate) const IMMEDIATE: Decl = Decl {
    deferrable: false,
    deferred: false,
};

/// INITIALLY with what it says: whether the check waits for the commit.
#[tactic(auto, unfolding(aq_grammar::specs::Tables::initially))]
fn initially<'a>(tokens: &Lexed<'a>) -> Read<'a, bool>
    ensures { Gives (λ x. x) result (reads initially tokens.now) }
{
    let ((), rest) = word(tokens, b"initially")?;
    if is_word(&rest, b"immediate") {
        says(&rest, b"immediate", false)
    } else {
        says(&rest, b"deferred", true)
    }
}

/// What stands behind DEFERRABLE.
#[tactic(auto, unfolding(aq_grammar::specs::Tables::behind_deferrable))]
fn behind_deferrable<'a>(tokens: &Lexed<'a>) -> Read<'a, Decl>
    ensures { Gives (λ x. x) result (reads behind_deferrable tokens.now) }
{
    let deferrable = true;
    if is_word(tokens, b"initially") {
        let (deferred, rest) = initially(tokens)?;
        Ok((
            Decl {
                deferrable,
                deferred,
            },
            rest,
        ))
    } else {
        let deferred = false;
        Ok((
            Decl {
                deferrable,
                deferred,
            },
            tokens.copied(),
        ))
    }
}

/// What stands behind NOT DEFERRABLE.
#[tactic(auto, unfolding(aq_grammar::specs::Tables::behind_not_deferrable))]
fn behind_not_deferrable<'a>(tokens: &Lexed<'a>) -> Read<'a, Decl>
    ensures { Gives (λ x. x) result (reads behind_not_deferrable tokens.now) }
{
    if is_word(tokens, b"initially") {
        let ((), rest) = word(tokens, b"initially")?;
        let ((), rest) = word(&rest, b"immediate")?;
        Ok((IMMEDIATE, rest))
    } else {
        Ok((IMMEDIATE, tokens.copied()))
    }
}

/// INITIALLY with neither DEFERRABLE nor NOT DEFERRABLE before it.
#[tactic(auto, unfolding(aq_grammar::specs::Tables::initially_alone))]
fn initially_alone<'a>(tokens: &Lexed<'a>) -> Read<'a, Decl>
    ensures { Gives (λ x. x) result (reads initially_alone tokens.now) }
{
    let (deferred, rest) = initially(tokens)?;
    Ok((
        Decl {
            deferrable: deferred,
            deferred,
        },
        rest,
    ))
}

#[tactic(auto, unfolding(aq_grammar::specs::Tables::deferring))]
fn deferring<'a>(tokens: &Lexed<'a>) -> Read<'a, Decl>
    ensures { Gives (λ x. x) result (reads deferring tokens.now) }
{
    if is_word(tokens, b"deferrable") {
        let ((), rest) = word(tokens, b"deferrable")?;
        behind_deferrable(&rest)
    } else {
        initially_alone(tokens)
    }
}

#[tactic(auto, unfolding(aq_grammar::specs::Tables::given_timing))]
fn given_timing<'a>(tokens: &Lexed<'a>) -> Read<'a, Decl>
    ensures { Gives (λ x. x) result (reads given_timing tokens.now) }
{
    if is_word(tokens, b"not") {
        let ((), rest) = word(tokens, b"not")?;
        let ((), rest) = word(&rest, b"deferrable")?;
        behind_not_deferrable(&rest)
    } else {
        deferring(tokens)
    }
}

fn begins_timing(tokens: &Lexed<'_>) -> bool
    ensures { result ≡ begins timing_begins tokens.now }
{
    is_one_of(tokens, &["not", "deferrable", "initially"])
}

/// When a constraint trigger fires.
#[tactic(auto, unfolding(aq_grammar::specs::Tables::timing_without, aq_grammar::specs::Tables::perhaps_timing))]
pub fn timing<'a>(tokens: &Lexed<'a>) -> Read<'a, Decl>
    ensures { Gives (λ x. x) result (reads (timing_without []) tokens.now) }
{
    if begins_timing(tokens) {
        given_timing(tokens)
    } else {
        Ok((IMMEDIATE, tokens.copied()))
    }
}

/// A timing, behind which NOT VALID may not stand.
#[tactic(auto, unfolding(aq_grammar::specs::Tables::perhaps_timing, aq_grammar::specs::Steps::RefusesSo))]
pub(crate) fn valid_timing<'a>(alloc: Global, tokens: &Lexed<'a>) -> Read<'a, Decl>
    ensures { Gives (λ x. x) result (reads (perhaps_timing (not_valid ∷ [])) tokens.now) }
{
    if !begins_timing(tokens) {
        return Ok((IMMEDIATE, tokens.copied()));
    }
    let (timing, rest) = given_timing(tokens)?;
    refuse_not_valid(alloc, &rest)?;
    Ok((timing, rest))
}

/// When a table's foreign key is checked.
#[tactic(auto, unfolding(aq_grammar::specs::Tables::timing_without, aq_grammar::specs::Steps::RefusesSo))]
pub(crate) fn foreign_key_timing<'a>(alloc: Global, tokens: &Lexed<'a>) -> Read<'a, Decl>
    ensures { Gives (λ x. x) result (reads (timing_without (not_valid ∷ [])) tokens.now) }
{
    refuse_not_valid(alloc, tokens)?;
    valid_timing(alloc, tokens)
}
