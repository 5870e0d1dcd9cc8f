//! SET CONSTRAINTS (PostgreSQL manual, page SET CONSTRAINTS).

ghost use Rattle.aq_grammar.specs.Nonterminals.{reads};
ghost use Rattle.aq_grammar.specs.Changes.{constraints, constraint_mode, set_constraints};
ghost use Rattle.aq_grammar.specs.Steps.{Gives};

use aq_base::{ConstraintMode, Constraints, SetConstraints, TextVal};
use aq_grammar::{Form, Read, is_word, listed, public_name, says, word};
use aq_lex::Lexed;
use std::alloc::Global;

#[derive(Drop)]
struct PublicNameForm {
    alloc: Global,
}

impl Form for PublicNameForm {
    ghost use Rattle.aq_grammar.specs.Forms.{public_name};
    ghost use Rattle.aq_grammar.specs.Nonterminals.{reads};
    ghost use Rattle.aq_parse_transactions.specs.Shorter.{public_name_is_shorter};

    type Tree = TextVal;

    ghost reading = { λ form tokens. reads public_name tokens };

    ghost shortens = { λ form. public_name_is_shorter };

    fn read<'a>(&self, tokens: &Lexed<'a>) -> Read<'a, TextVal> {
        public_name(self.alloc, tokens)
    }
}

/// ALL, or names with commas between them.
#[tactic(auto, unfolding(aq_grammar::specs::Changes::constraints, aq_grammar::specs::Steps::read_listed))]
fn constraints<'a>(alloc: Global, tokens: &Lexed<'a>) -> Read<'a, Constraints>
    ensures { Gives (λ x. x) result (reads constraints tokens.now) }
{
    if is_word(tokens, b"all") {
        return says(tokens, b"all", Constraints::All);
    }
    let (names, rest) = listed(alloc, &PublicNameForm { alloc }, tokens)?;
    Ok((Constraints::Named(names), rest))
}

/// DEFERRED or IMMEDIATE.
#[tactic(auto, unfolding(aq_grammar::specs::Changes::constraint_mode))]
fn constraint_mode<'a>(tokens: &Lexed<'a>) -> Read<'a, ConstraintMode>
    ensures { Gives (λ x. x) result (reads constraint_mode tokens.now) }
{
    if is_word(tokens, b"deferred") {
        says(tokens, b"deferred", ConstraintMode::Deferred)
    } else {
        says(tokens, b"immediate", ConstraintMode::Immediate)
    }
}

/// `SET CONSTRAINTS constraints mode`
#[tactic(auto, unfolding(aq_grammar::specs::Changes::set_constraints))]
pub fn set_constraints<'a>(alloc: Global, tokens: &Lexed<'a>) -> Read<'a, SetConstraints>
    ensures { Gives (λ x. x) result (reads set_constraints tokens.now) }
{
    let ((), rest) = word(tokens, b"set")?;
    let ((), rest) = word(&rest, b"constraints")?;
    let (constraints, rest) = constraints(alloc, &rest)?;
    let (mode, rest) = constraint_mode(&rest)?;
    Ok((SetConstraints { constraints, mode }, rest))
}
