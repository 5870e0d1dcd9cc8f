//! The faults of statements and of setups, with their codes and texts (PostgreSQL manual, appendix "PostgreSQL Error Codes").

ghost use Rattle.std.specs.Prelude.{◌≡◌, [], ◌∷◌, ◌++◌, IfOk, OnOk, string_bytes};
ghost use Rattle.aq_refusals.specs.Faults as faults;
ghost use Rattle.aq_refusals.specs.Answers.{IsFault};
ghost use Rattle.aq_refusals.specs.Pieces.{piece_text, text_of};

use crate::fault::CatFault;
use Piece::{Name, OfKind, Quoted, Words};
use aq_base::{Code, Kind, SqlFault, TextVal};
use std::alloc::{AllocError, Global};

/// A part of the text of a fault.
#[derive(Drop)]
enum Piece<'a> {
    Words(&'a str),
    Name(&'a TextVal),
    /// A name between quotes.
    Quoted(&'a TextVal),
    OfKind(Kind),
}

fn kind_name(kind: Kind) -> &'static str
    ensures { result.now ≡ faults.kind_name kind }
{
    match kind {
        Kind::Integer => "integer",
        Kind::Bigint => "bigint",
        Kind::Boolean => "boolean",
        Kind::Text => "text",
    }
}

fn push_quoted(text: &mut String, name: &TextVal) -> Result<(), AllocError>
    ensures { OnOk result (string_bytes text.new ≡ string_bytes text.old ++ faults.quoted name.now) }
{
    text.push_str("\"")?;
    text.push_str(name.as_str())?;
    text.push_str("\"")
}

fn push_piece(text: &mut String, piece: &Piece<'_>) -> Result<(), AllocError>
    ensures { OnOk result (string_bytes text.new ≡ string_bytes text.old ++ piece_text piece.now) }
{
    match piece {
        Words(words) => text.push_str(words),
        Name(name) => text.push_str(name.as_str()),
        Quoted(name) => push_quoted(text, name),
        OfKind(kind) => text.push_str(kind_name(*kind)),
    }
}

fn text_of(alloc: Global, pieces: &[Piece<'_>]) -> Result<TextVal, AllocError>
    ensures { IfOk result (λ made. made ≡ text_of pieces.now) }
{
    let mut text = String::new(alloc);
    'pieces: for piece in pieces {
        push_piece(&mut text, piece)?;
    }
    Ok(TextVal::from_string(text))
}

#[tactic(auto, using(crate::proofs::Telling::memory_ran_out, crate::proofs::Telling::fault_is_told))]
fn refusal(alloc: Global, code: &[u8; 5], pieces: &[Piece<'_>]) -> CatFault
    ensures { IsFault (faults.fault code.now (text_of pieces.now) ∷ []) result }
{
    match text_of(alloc, pieces) {
        Ok(text) => CatFault::Sql(SqlFault {
            code: Code(*code),
            text,
            detail: None,
        }),
        Err(_) => CatFault::NoMemory,
    }
}

pub fn no_relation(alloc: Global, table: &TextVal) -> CatFault
    ensures { IsFault (faults.no_relation table.now ∷ []) result }
{
    refusal(
        alloc,
        b"42P01",
        &[Words("relation "), Quoted(table), Words(" does not exist")],
    )
}

pub fn no_target<'a>(alloc: Global, table: &'a TextVal, column: &'a TextVal) -> CatFault
    ensures { IsFault (faults.no_target table.now column.now ∷ []) result }
{
    refusal(
        alloc,
        b"42703",
        &[
            Words("column "),
            Quoted(column),
            Words(" of relation "),
            Quoted(table),
            Words(" does not exist"),
        ],
    )
}

pub fn no_column(alloc: Global, column: &TextVal) -> CatFault
    ensures { IsFault (faults.no_column column.now ∷ []) result }
{
    refusal(
        alloc,
        b"42703",
        &[Words("column "), Quoted(column), Words(" does not exist")],
    )
}

pub fn column_twice(alloc: Global, column: &TextVal) -> CatFault
    ensures { IsFault (faults.column_twice column.now ∷ []) result }
{
    refusal(
        alloc,
        b"42701",
        &[
            Words("column "),
            Quoted(column),
            Words(" specified more than once"),
        ],
    )
}

pub fn assigned_twice(alloc: Global, column: &TextVal) -> CatFault
    ensures { IsFault (faults.assigned_twice column.now ∷ []) result }
{
    refusal(
        alloc,
        b"42601",
        &[
            Words("multiple assignments to same column "),
            Quoted(column),
        ],
    )
}

pub fn unequal_rows(alloc: Global) -> CatFault
    ensures { IsFault (faults.unequal_rows ∷ []) result }
{
    refusal(
        alloc,
        b"42601",
        &[Words("VALUES lists must all be the same length")],
    )
}

pub fn many_values(alloc: Global) -> CatFault
    ensures { IsFault (faults.many_values ∷ []) result }
{
    refusal(
        alloc,
        b"42601",
        &[Words("INSERT has more expressions than target columns")],
    )
}

pub fn few_values(alloc: Global) -> CatFault
    ensures { IsFault (faults.few_values ∷ []) result }
{
    refusal(
        alloc,
        b"42601",
        &[Words("INSERT has more target columns than expressions")],
    )
}

pub fn wrong_value(alloc: Global, column: &TextVal, wanted: Kind, found: Kind) -> CatFault
    ensures { IsFault (faults.wrong_value column.now wanted found ∷ []) result }
{
    refusal(
        alloc,
        b"42804",
        &[
            Words("column "),
            Quoted(column),
            Words(" is of type "),
            OfKind(wanted),
            Words(" but expression is of type "),
            OfKind(found),
        ],
    )
}

pub fn no_boolean(alloc: Global, word: &str, found: Kind) -> CatFault
    ensures { IsFault (faults.no_boolean word.now found ∷ []) result }
{
    refusal(
        alloc,
        b"42804",
        &[
            Words("argument of "),
            Words(word),
            Words(" must be type boolean, not type "),
            OfKind(found),
        ],
    )
}

pub fn no_operator(alloc: Global, left: Kind, sign: &str, right: Kind) -> CatFault
    ensures { IsFault (faults.no_operator left sign.now right ∷ []) result }
{
    refusal(
        alloc,
        b"42883",
        &[
            Words("operator does not exist: "),
            OfKind(left),
            Words(" "),
            Words(sign),
            Words(" "),
            OfKind(right),
        ],
    )
}

pub fn no_negation(alloc: Global, operand: Kind) -> CatFault
    ensures { IsFault (faults.no_negation operand ∷ []) result }
{
    refusal(
        alloc,
        b"42883",
        &[Words("operator does not exist: - "), OfKind(operand)],
    )
}

pub fn no_constraint(alloc: Global, name: &TextVal) -> CatFault
    ensures { IsFault (faults.no_constraint name.now ∷ []) result }
{
    refusal(
        alloc,
        b"42704",
        &[Words("constraint "), Quoted(name), Words(" does not exist")],
    )
}

pub fn not_deferrable(alloc: Global, name: &TextVal) -> CatFault
    ensures { IsFault (faults.not_deferrable name.now ∷ []) result }
{
    refusal(
        alloc,
        b"42809",
        &[
            Words("constraint "),
            Quoted(name),
            Words(" is not deferrable"),
        ],
    )
}

pub fn over_limit(alloc: Global, text: &str) -> CatFault
    ensures { IsFault (faults.over_limit text.now ∷ []) result }
{
    refusal(alloc, b"54000", &[Words("more than "), Words(text)])
}

pub fn long_name(alloc: Global, name: &TextVal) -> CatFault
    ensures { IsFault (faults.long_name name.now ∷ []) result }
{
    refusal(
        alloc,
        b"42622",
        &[Words("name "), Quoted(name), Words(" is too long")],
    )
}

pub fn relation_exists(alloc: Global, table: &TextVal) -> CatFault
    ensures { IsFault (faults.relation_exists table.now ∷ []) result }
{
    refusal(
        alloc,
        b"42P07",
        &[Words("relation "), Quoted(table), Words(" already exists")],
    )
}

pub fn function_exists(alloc: Global, name: &TextVal) -> CatFault
    ensures { IsFault (faults.function_exists name.now ∷ []) result }
{
    refusal(
        alloc,
        b"42723",
        &[
            Words("function "),
            Quoted(name),
            Words(" already exists with same argument types"),
        ],
    )
}

pub fn trigger_exists<'a>(alloc: Global, table: &'a TextVal, name: &'a TextVal) -> CatFault
    ensures { IsFault (faults.trigger_exists table.now name.now ∷ []) result }
{
    refusal(
        alloc,
        b"42710",
        &[
            Words("trigger "),
            Quoted(name),
            Words(" for relation "),
            Quoted(table),
            Words(" already exists"),
        ],
    )
}

pub fn constraint_exists<'a>(alloc: Global, table: &'a TextVal, name: &'a TextVal) -> CatFault
    ensures { IsFault (faults.constraint_exists table.now name.now ∷ []) result }
{
    refusal(
        alloc,
        b"42710",
        &[
            Words("constraint "),
            Quoted(name),
            Words(" for relation "),
            Quoted(table),
            Words(" already exists"),
        ],
    )
}

pub fn many_primary_keys(alloc: Global, table: &TextVal) -> CatFault
    ensures { IsFault (faults.many_primary_keys table.now ∷ []) result }
{
    refusal(
        alloc,
        b"42P16",
        &[
            Words("multiple primary keys for table "),
            Quoted(table),
            Words(" are not allowed"),
        ],
    )
}

pub fn no_function(alloc: Global, name: &TextVal) -> CatFault
    ensures { IsFault (faults.no_function name.now ∷ []) result }
{
    refusal(
        alloc,
        b"42883",
        &[Words("function "), Name(name), Words("() does not exist")],
    )
}

pub fn unequal_columns(alloc: Global) -> CatFault
    ensures { IsFault (faults.unequal_columns ∷ []) result }
{
    refusal(
        alloc,
        b"42830",
        &[Words("number of referencing and referenced columns for foreign key disagree")],
    )
}

pub fn no_such_key(alloc: Global, table: &TextVal) -> CatFault
    ensures { IsFault (faults.no_such_key table.now ∷ []) result }
{
    refusal(
        alloc,
        b"42830",
        &[
            Words("there is no unique constraint matching given keys for referenced table "),
            Quoted(table),
        ],
    )
}

pub fn no_primary_key(alloc: Global, table: &TextVal) -> CatFault
    ensures { IsFault (faults.no_primary_key table.now ∷ []) result }
{
    refusal(
        alloc,
        b"42704",
        &[
            Words("there is no primary key for referenced table "),
            Quoted(table),
        ],
    )
}

pub fn no_key_column(alloc: Global, column: &TextVal) -> CatFault
    ensures { IsFault (faults.no_key_column column.now ∷ []) result }
{
    refusal(
        alloc,
        b"42P10",
        &[
            Words("column "),
            Quoted(column),
            Words(" referenced in ON DELETE SET action must be part of foreign key"),
        ],
    )
}

pub fn unequal_kinds(alloc: Global, name: &TextVal) -> CatFault
    ensures { IsFault (faults.unequal_kinds name.now ∷ []) result }
{
    refusal(
        alloc,
        b"42804",
        &[
            Words("foreign key constraint "),
            Quoted(name),
            Words(" cannot be implemented"),
        ],
    )
}

pub fn wrong_default(alloc: Global, column: &TextVal, wanted: Kind, found: Kind) -> CatFault
    ensures { IsFault (faults.wrong_default column.now wanted found ∷ []) result }
{
    refusal(
        alloc,
        b"42804",
        &[
            Words("column "),
            Quoted(column),
            Words(" is of type "),
            OfKind(wanted),
            Words(" but default expression is of type "),
            OfKind(found),
        ],
    )
}

pub fn transition_events(alloc: Global) -> CatFault
    ensures { IsFault (faults.transition_events ∷ []) result }
{
    refusal(
        alloc,
        b"0A000",
        &[Words("transition tables cannot be specified for triggers with more than one event")],
    )
}

pub fn transition_columns(alloc: Global) -> CatFault
    ensures { IsFault (faults.transition_columns ∷ []) result }
{
    refusal(
        alloc,
        b"0A000",
        &[Words("transition tables cannot be specified for triggers with column lists")],
    )
}

pub fn no_old_table(alloc: Global) -> CatFault
    ensures { IsFault (faults.no_old_table ∷ []) result }
{
    refusal(
        alloc,
        b"42P17",
        &[Words("OLD TABLE can only be specified for a DELETE or UPDATE trigger")],
    )
}

pub fn no_new_table(alloc: Global) -> CatFault
    ensures { IsFault (faults.no_new_table ∷ []) result }
{
    refusal(
        alloc,
        b"42P17",
        &[Words("NEW TABLE can only be specified for an INSERT or UPDATE trigger")],
    )
}

pub fn no_old_or_new(alloc: Global, trigger: &TextVal) -> CatFault
    ensures { IsFault (faults.no_old_or_new trigger.now ∷ []) result }
{
    refusal(
        alloc,
        b"42P17",
        &[
            Words("trigger "),
            Quoted(trigger),
            Words(" cannot use OLD or NEW here"),
        ],
    )
}

pub fn native_misused(alloc: Global, check: &TextVal) -> CatFault
    ensures { IsFault (faults.native_misused check.now ∷ []) result }
{
    refusal(
        alloc,
        b"42P17",
        &[
            Words("native check "),
            Quoted(check),
            Words(" cannot be used here"),
        ],
    )
}

pub fn trigger_reserved(alloc: Global, name: &TextVal) -> CatFault
    ensures { IsFault (faults.trigger_reserved name.now ∷ []) result }
{
    refusal(
        alloc,
        b"42939",
        &[Words("trigger name "), Quoted(name), Words(" is reserved")],
    )
}
