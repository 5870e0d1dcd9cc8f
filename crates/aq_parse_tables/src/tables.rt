//! CREATE TABLE and ALTER TABLE (PostgreSQL manual, pages of these names).

ghost use Rattle.aq_grammar.specs.Forms.{mapped, in_parentheses, names};
ghost use Rattle.aq_grammar.specs.Nonterminals.{reads};
ghost use Rattle.aq_grammar.specs.Steps.{Gives};
ghost use Rattle.aq_grammar.specs.Tables.{column_item, table_primary_key, table_unique, table_foreign_key, bare_table_constraint, table_constraint, item, items, create_table, added, perhaps_only, alter_table};

use crate::column_constraints::{column_constraints, constraint_name};
use crate::columns::kind;
use crate::references::target;
use crate::timings::foreign_key_timing;
use aq_base::{AlterTable, CreateTable, List, Statement, TableConstraint, TableItem, TextVal};
use aq_grammar::{
    Form, Read, is_one_of, is_word, listed, name, names, public_name, refuse_behind_items,
    refuse_behind_key, refuse_other_constraints, refuse_other_items, sign, word,
};
use aq_lex::{Lexed, Symbol};
use std::alloc::Global;

/// A column with its kind and its constraints.
#[tactic(auto, unfolding(aq_grammar::specs::Tables::column_item))]
fn column_item<'a>(alloc: Global, tokens: &Lexed<'a>) -> Read<'a, TableItem>
    ensures { Gives (λ x. x) result (reads column_item tokens.now) }
{
    let (column, rest) = name(alloc, tokens)?;
    let (kind, rest) = kind(&rest)?;
    let (constraints, rest) = column_constraints(alloc, &rest)?;
    Ok((
        TableItem::Column {
            name: column,
            kind,
            constraints,
        },
        rest,
    ))
}

/// The columns of a key.
fn key_columns<'a>(alloc: Global, tokens: &Lexed<'a>) -> Read<'a, List<TextVal>>
    ensures { Gives (λ x. x) result (reads (in_parentheses names) tokens.now) }
{
    let ((), rest) = sign(tokens, Symbol::OpenParen)?;
    let (columns, rest) = names(alloc, &rest)?;
    let ((), rest) = sign(&rest, Symbol::CloseParen)?;
    Ok((columns, rest))
}

#[tactic(auto, unfolding(aq_grammar::specs::Tables::table_primary_key, aq_grammar::specs::Steps::RefusesSo))]
fn primary_key<'a>(
    alloc: Global,
    constraint: Option<TextVal>,
    tokens: &Lexed<'a>,
) -> Read<'a, TableConstraint>
    ensures { Gives (λ x. x) result (reads (mapped (λ named. named constraint) table_primary_key) tokens.now) }
{
    let ((), rest) = word(tokens, b"primary")?;
    let ((), rest) = word(&rest, b"key")?;
    let (columns, rest) = key_columns(alloc, &rest)?;
    refuse_behind_key(alloc, &rest)?;
    Ok((
        TableConstraint::PrimaryKey {
            name: constraint,
            columns,
        },
        rest,
    ))
}

#[tactic(auto, unfolding(aq_grammar::specs::Tables::table_unique, aq_grammar::specs::Steps::RefusesSo))]
fn unique<'a>(
    alloc: Global,
    constraint: Option<TextVal>,
    tokens: &Lexed<'a>,
) -> Read<'a, TableConstraint>
    ensures { Gives (λ x. x) result (reads (mapped (λ named. named constraint) table_unique) tokens.now) }
{
    let ((), rest) = word(tokens, b"unique")?;
    let (columns, rest) = key_columns(alloc, &rest)?;
    refuse_behind_key(alloc, &rest)?;
    Ok((
        TableConstraint::Unique {
            name: constraint,
            columns,
        },
        rest,
    ))
}

#[tactic(auto, unfolding(aq_grammar::specs::Tables::table_foreign_key))]
fn foreign_key<'a>(
    alloc: Global,
    constraint: Option<TextVal>,
    tokens: &Lexed<'a>,
) -> Read<'a, TableConstraint>
    ensures { Gives (λ x. x) result (reads (mapped (λ named. named constraint) table_foreign_key) tokens.now) }
{
    let ((), rest) = word(tokens, b"foreign")?;
    let ((), rest) = word(&rest, b"key")?;
    let (columns, rest) = key_columns(alloc, &rest)?;
    let (target, rest) = target(alloc, &rest)?;
    let (timing, rest) = foreign_key_timing(alloc, &rest)?;
    Ok((
        TableConstraint::ForeignKey {
            name: constraint,
            columns,
            reference: target.checked(timing),
        },
        rest,
    ))
}

/// A constraint of a table behind its name.
#[tactic(auto, unfolding(aq_grammar::specs::Tables::bare_table_constraint))]
fn bare_table_constraint<'a>(
    alloc: Global,
    constraint: Option<TextVal>,
    tokens: &Lexed<'a>,
) -> Read<'a, TableConstraint>
    ensures { Gives (λ x. x) result (reads (mapped (λ named. named constraint) bare_table_constraint) tokens.now) }
{
    if is_word(tokens, b"primary") {
        primary_key(alloc, constraint, tokens)
    } else if is_word(tokens, b"unique") {
        unique(alloc, constraint, tokens)
    } else {
        foreign_key(alloc, constraint, tokens)
    }
}

/// A constraint of a table, with a name or without one.
#[tactic(auto, unfolding(aq_grammar::specs::Tables::table_constraint, aq_grammar::specs::Steps::RefusesSo))]
fn table_constraint<'a>(alloc: Global, tokens: &Lexed<'a>) -> Read<'a, TableConstraint>
    ensures { Gives (λ x. x) result (reads table_constraint tokens.now) }
{
    if !is_word(tokens, b"constraint") {
        return bare_table_constraint(alloc, None, tokens);
    }
    let (constraint, rest) = constraint_name(alloc, tokens)?;
    refuse_other_constraints(alloc, &rest)?;
    bare_table_constraint(alloc, Some(constraint), &rest)
}

/// A column or a constraint.
#[tactic(auto, unfolding(aq_grammar::specs::Tables::item, aq_grammar::specs::Steps::RefusesSo))]
fn item<'a>(alloc: Global, tokens: &Lexed<'a>) -> Read<'a, TableItem>
    ensures { Gives (λ x. x) result (reads item tokens.now) }
{
    refuse_other_items(alloc, tokens)?;
    if is_one_of(tokens, &["constraint", "primary", "unique", "foreign"]) {
        let (constraint, rest) = table_constraint(alloc, tokens)?;
        Ok((TableItem::Constraint(constraint), rest))
    } else {
        column_item(alloc, tokens)
    }
}

#[derive(Drop)]
struct ItemForm {
    alloc: Global,
}

impl Form for ItemForm {
    ghost use Rattle.aq_grammar.specs.Nonterminals.{reads};
    ghost use Rattle.aq_grammar.specs.Tables.{item};
    ghost use Rattle.aq_parse_tables.specs.ShorterItems.{item_is_shorter};

    type Tree = TableItem;

    ghost reading = { λ form tokens. reads item tokens };

    ghost shortens = { λ form. item_is_shorter };

    fn read<'a>(&self, tokens: &Lexed<'a>) -> Read<'a, TableItem> {
        item(self.alloc, tokens)
    }
}

/// The items of a table, with commas between them.
#[tactic(auto, unfolding(aq_grammar::specs::Tables::items, aq_grammar::specs::Steps::read_listed))]
fn items<'a>(alloc: Global, tokens: &Lexed<'a>) -> Read<'a, List<TableItem>>
    ensures { Gives (λ x. x) result (reads items tokens.now) }
{
    listed(alloc, &ItemForm { alloc }, tokens)
}

/// CREATE TABLE, behind CREATE.
#[tactic(auto, unfolding(aq_grammar::specs::Tables::create_table, aq_grammar::specs::Steps::RefusesSo))]
pub fn create_table<'a>(alloc: Global, tokens: &Lexed<'a>) -> Read<'a, Statement>
    ensures { Gives (λ x. x) result (reads create_table tokens.now) }
{
    let ((), rest) = word(tokens, b"table")?;
    let (table, rest) = public_name(alloc, &rest)?;
    let ((), rest) = sign(&rest, Symbol::OpenParen)?;
    let (items, rest) = items(alloc, &rest)?;
    let ((), rest) = sign(&rest, Symbol::CloseParen)?;
    refuse_behind_items(alloc, &rest)?;
    Ok((Statement::CreateTable(CreateTable { table, items }), rest))
}

/// ONLY, which may be left out.
fn only<'a>(tokens: &Lexed<'a>) -> Read<'a, ()>
    ensures { Gives (λ x. x) result (reads perhaps_only tokens.now) }
{
    if is_word(tokens, b"only") {
        word(tokens, b"only")
    } else {
        Ok(((), tokens.copied()))
    }
}

/// ADD with a constraint.
#[tactic(auto, unfolding(aq_grammar::specs::Tables::added, aq_grammar::specs::Steps::RefusesSo))]
fn added<'a>(alloc: Global, tokens: &Lexed<'a>) -> Read<'a, TableConstraint>
    ensures { Gives (λ x. x) result (reads added tokens.now) }
{
    let ((), rest) = word(tokens, b"add")?;
    refuse_other_constraints(alloc, &rest)?;
    table_constraint(alloc, &rest)
}

/// ALTER TABLE.
#[tactic(auto, unfolding(aq_grammar::specs::Tables::alter_table))]
pub fn alter_table<'a>(alloc: Global, tokens: &Lexed<'a>) -> Read<'a, Statement>
    ensures { Gives (λ x. x) result (reads alter_table tokens.now) }
{
    let ((), rest) = word(tokens, b"alter")?;
    let ((), rest) = word(&rest, b"table")?;
    let ((), rest) = only(&rest)?;
    let (table, rest) = public_name(alloc, &rest)?;
    let (constraint, rest) = added(alloc, &rest)?;
    Ok((
        Statement::AlterTable(AlterTable { table, constraint }),
        rest,
    ))
}
