//! Constraints of a column (PostgreSQL manual, page CREATE TABLE).

ghost use Rattle.std.specs.Prelude.{◌≡◌, false};
ghost use Rattle.aq_grammar.specs.Terminals.{begins};
ghost use Rattle.aq_grammar.specs.Rules.{ColumnConstraints};
ghost use Rattle.aq_grammar.specs.Nonterminals.{reads, reads_called};
ghost use Rattle.aq_grammar.specs.Steps.{Gives};
ghost use Rattle.aq_grammar.specs.Tables.{constraint_begins, constraint_name};
ghost use Rattle.aq_parse_tables.specs.ColumnConstraints.{read_column_timing, read_column_reference, primary_key, unique, read_named, read_with_name, not_null, with_default, read_constraint, read_next, has_default_with};

use crate::columns::constant;
use crate::references::target;
use crate::timings::{IMMEDIATE, valid_timing};
use aq_base::{ColumnConstraint, Decl, List, Reference, TextVal};
use aq_grammar::{
    Read, are_words, is_one_of, is_word, name, refuse_behind_key, refuse_behind_reference,
    refuse_other_constraints, word,
};
use aq_lex::Lexed;
use std::alloc::Global;

/// When a column's reference is checked. A NOT NULL behind it is a constraint of its own.
#[tactic(auto, unfolding(crate::specs::ColumnConstraints::read_column_timing, aq_grammar::specs::Steps::RefusesSo))]
fn column_timing<'a>(alloc: Global, tokens: &Lexed<'a>) -> Read<'a, Decl>
    ensures { Gives (λ x. x) result (read_column_timing tokens.now) }
{
    refuse_behind_reference(alloc, tokens)?;
    if are_words(tokens, b"not", b"null") {
        Ok((IMMEDIATE, tokens.copied()))
    } else {
        valid_timing(alloc, tokens)
    }
}

#[tactic(auto, unfolding(crate::specs::ColumnConstraints::read_column_reference))]
fn column_reference<'a>(alloc: Global, tokens: &Lexed<'a>) -> Read<'a, Reference>
    ensures { Gives (λ x. x) result (read_column_reference tokens.now) }
{
    let (target, rest) = target(alloc, tokens)?;
    let (timing, rest) = column_timing(alloc, &rest)?;
    Ok((target.checked(timing), rest))
}

#[tactic(auto, unfolding(aq_grammar::specs::Steps::RefusesSo))]
fn primary_key<'a>(
    alloc: Global,
    key: Option<TextVal>,
    tokens: &Lexed<'a>,
) -> Read<'a, ColumnConstraint>
    ensures { Gives (λ x. x) result (reads (primary_key key) tokens.now) }
{
    let ((), rest) = word(tokens, b"primary")?;
    let ((), rest) = word(&rest, b"key")?;
    refuse_behind_key(alloc, &rest)?;
    Ok((ColumnConstraint::PrimaryKey { name: key }, rest))
}

#[tactic(auto, unfolding(aq_grammar::specs::Steps::RefusesSo))]
fn unique<'a>(alloc: Global, key: Option<TextVal>, tokens: &Lexed<'a>) -> Read<'a, ColumnConstraint>
    ensures { Gives (λ x. x) result (reads (unique key) tokens.now) }
{
    let ((), rest) = word(tokens, b"unique")?;
    refuse_behind_key(alloc, &rest)?;
    Ok((ColumnConstraint::Unique { name: key }, rest))
}

/// A constraint that may have a name, behind its name.
#[tactic(auto, unfolding(crate::specs::ColumnConstraints::read_named))]
fn named_constraint<'a>(
    alloc: Global,
    constraint: Option<TextVal>,
    tokens: &Lexed<'a>,
) -> Read<'a, ColumnConstraint>
    ensures { Gives (λ x. x) result (read_named constraint tokens.now) }
{
    if is_word(tokens, b"primary") {
        primary_key(alloc, constraint, tokens)
    } else if is_word(tokens, b"unique") {
        unique(alloc, constraint, tokens)
    } else {
        let (reference, rest) = column_reference(alloc, tokens)?;
        Ok((
            ColumnConstraint::References {
                name: constraint,
                reference,
            },
            rest,
        ))
    }
}

/// CONSTRAINT with a name.
pub(crate) fn constraint_name<'a>(alloc: Global, tokens: &Lexed<'a>) -> Read<'a, TextVal>
    ensures { Gives (λ x. x) result (reads constraint_name tokens.now) }
{
    let ((), rest) = word(tokens, b"constraint")?;
    name(alloc, &rest)
}

#[tactic(auto, unfolding(crate::specs::ColumnConstraints::read_with_name, aq_grammar::specs::Steps::RefusesSo))]
fn constraint_with_name<'a>(alloc: Global, tokens: &Lexed<'a>) -> Read<'a, ColumnConstraint>
    ensures { Gives (λ x. x) result (read_with_name tokens.now) }
{
    let (constraint, rest) = constraint_name(alloc, tokens)?;
    refuse_other_constraints(alloc, &rest)?;
    named_constraint(alloc, Some(constraint), &rest)
}

fn not_null<'a>(tokens: &Lexed<'a>) -> Read<'a, ColumnConstraint>
    ensures { Gives (λ x. x) result (reads not_null tokens.now) }
{
    let ((), rest) = word(tokens, b"not")?;
    let ((), rest) = word(&rest, b"null")?;
    Ok((ColumnConstraint::NotNull, rest))
}

fn with_default<'a>(alloc: Global, tokens: &Lexed<'a>) -> Read<'a, ColumnConstraint>
    ensures { Gives (λ x. x) result (reads with_default tokens.now) }
{
    let ((), rest) = word(tokens, b"default")?;
    let (value, rest) = constant(alloc, &rest)?;
    Ok((ColumnConstraint::Default(value), rest))
}

#[tactic(auto, unfolding(crate::specs::ColumnConstraints::read_constraint))]
fn column_constraint<'a>(
    alloc: Global,
    has_default: bool,
    tokens: &Lexed<'a>,
) -> Read<'a, ColumnConstraint>
    ensures { Gives (λ x. x) result (read_constraint has_default tokens.now) }
{
    if is_word(tokens, b"not") {
        not_null(tokens)
    } else if !has_default && is_word(tokens, b"default") {
        with_default(alloc, tokens)
    } else if is_word(tokens, b"constraint") {
        constraint_with_name(alloc, tokens)
    } else {
        named_constraint(alloc, None, tokens)
    }
}

/// Whether a constraint begins the tokens. A column has one DEFAULT at the most.
fn begins_constraint(has_default: bool, tokens: &Lexed<'_>) -> bool
    ensures { result ≡ begins (constraint_begins has_default) tokens.now }
{
    if has_default {
        is_one_of(
            tokens,
            &["not", "constraint", "primary", "unique", "references"],
        )
    } else {
        is_one_of(
            tokens,
            &[
                "not",
                "default",
                "constraint",
                "primary",
                "unique",
                "references",
            ],
        )
    }
}

/// The next constraint, or none where they end.
#[tactic(auto, unfolding(crate::specs::ColumnConstraints::read_next, aq_grammar::specs::Steps::RefusesSo))]
fn next_constraint<'a>(
    alloc: Global,
    has_default: bool,
    tokens: &Lexed<'a>,
) -> Read<'a, Option<ColumnConstraint>>
    ensures { Gives (λ x. x) result (read_next has_default tokens.now) }
{
    refuse_other_constraints(alloc, tokens)?;
    if !begins_constraint(has_default, tokens) {
        return Ok((None, tokens.copied()));
    }
    let (constraint, rest) = column_constraint(alloc, has_default, tokens)?;
    Ok((Some(constraint), rest))
}

fn has_default_with(has_default: bool, constraint: &ColumnConstraint) -> bool
    ensures { result ≡ has_default_with has_default constraint.now }
{
    match constraint {
        ColumnConstraint::Default(_) => true,
        _ => has_default,
    }
}

/// The constraints of a column, as many as stand there.
pub(crate) fn column_constraints<'a>(
    alloc: Global,
    tokens: &Lexed<'a>,
) -> Read<'a, List<ColumnConstraint>>
    ensures { Gives (λ x. x) result (reads_called (ColumnConstraints false) tokens.now) }
{
    let mut constraints = List::new(alloc);
    let mut has_default = false;
    let mut rest = tokens.copied();
    'constraints: loop {
        let (next, after) = next_constraint(alloc, has_default, &rest)?;
        rest = after;
        let Some(constraint) = next else {
            return Ok((constraints, rest));
        };
        has_default = has_default_with(has_default, &constraint);
        constraints.push(constraint)?;
    }
}
