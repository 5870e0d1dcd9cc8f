//! Values of expressions, and what a column keeps.

use crate::binding::bound_over;
use crate::table::{Subject, first_wrong};
use aq_base::{
    Bound, BoundExpr, BoundGiven, BoundInsert, BoundSource, ColNo, Kind, List, NoMemory, Op, Row,
    Value, copy_bound,
};
use aq_expr::{Env, EvalFault, eval, store, truth};
use std::alloc::Global;
use std::test::Fail;

const SETUP: &str = "\\setup CREATE TABLE e (t boolean, n bigint, v text);";

const NOWHERE: Env<'static> = Env {
    row: None,
    old: None,
    new: None,
    op: None,
};

fn kind_told(kind: Kind) -> &'static str {
    match kind {
        Kind::Integer => "integer out of range",
        Kind::Bigint => "bigint out of range",
        Kind::Boolean => "boolean out of range",
        Kind::Text => "text out of range",
    }
}

fn truth_told(known: Option<bool>) -> &'static str {
    match known {
        Some(true) => "true",
        Some(false) => "false",
        None => "null",
    }
}

fn value_told(alloc: Global, value: &Value) -> Result<String, NoMemory> {
    match value {
        Value::Null => "null".to_string(alloc),
        Value::Bool(b) => truth_told(Some(*b)).to_string(alloc),
        Value::Int(n) => format!(in alloc; "{n}"),
        Value::Text(text) => text.as_str().to_string(alloc),
    }
}

fn outcome_told(alloc: Global, outcome: Result<Value, EvalFault>) -> Result<String, NoMemory> {
    match outcome {
        Ok(value) => value_told(alloc, &value),
        Err(EvalFault::OutOfRange { kind }) => kind_told(kind).to_string(alloc),
        Err(EvalFault::NoMemory) => Err(NoMemory),
    }
}

// The truth of a condition, of a copy of it.
fn truth_of(alloc: Global, condition: &BoundExpr) -> Result<String, NoMemory> {
    let copy = copy_bound(alloc, condition)?;
    match truth(alloc, &copy, &NOWHERE) {
        Ok(known) => truth_told(known).to_string(alloc),
        Err(EvalFault::OutOfRange { kind }) => kind_told(kind).to_string(alloc),
        Err(EvalFault::NoMemory) => Err(NoMemory),
    }
}

fn first_given(insert: &BoundInsert) -> Option<&BoundExpr> {
    let BoundSource::Values(rows) = &insert.source else {
        return None;
    };
    match rows.as_slice().first()?.as_slice().first()? {
        BoundGiven::Value(value) => Some(value),
        BoundGiven::Default => None,
    }
}

fn value_of(alloc: Global, insert: &BoundInsert) -> Result<String, NoMemory> {
    match first_given(insert) {
        Some(value) => outcome_told(alloc, eval(alloc, value, &NOWHERE)),
        None => "no value".to_string(alloc),
    }
}

fn condition_of(alloc: Global, condition: &Option<BoundExpr>) -> Result<String, NoMemory> {
    match condition {
        Some(condition) => truth_of(alloc, condition),
        None => "no condition".to_string(alloc),
    }
}

// The truth of a SELECT's condition, the first value of an INSERT.
fn bound_told(alloc: Global, bound: &Bound) -> Result<String, NoMemory> {
    match bound {
        Bound::Select(select) => condition_of(alloc, &select.condition),
        Bound::Insert(insert) => value_of(alloc, insert),
        _ => "another form".to_string(alloc),
    }
}

struct Values;

impl Subject for Values {
    fn answer(&self, alloc: Global, question: &str) -> Result<String, NoMemory> {
        let Some(answer) = bound_over(alloc, SETUP, question) else {
            return "no statement".to_string(alloc);
        };
        match answer {
            Ok(bound) => bound_told(alloc, &bound),
            Err(_) => "refused".to_string(alloc),
        }
    }
}

const VALUES: &str = "\
==== SELECT * FROM e WHERE TRUE AND TRUE
---- true
==== SELECT * FROM e WHERE TRUE OR TRUE
---- true
==== SELECT * FROM e WHERE FALSE AND TRUE
---- false
==== SELECT * FROM e WHERE TRUE OR FALSE
---- true
==== SELECT * FROM e WHERE TRUE AND NULL
---- null
==== SELECT * FROM e WHERE NULL OR TRUE
---- true
==== SELECT * FROM e WHERE FALSE AND NULL
---- false
==== SELECT * FROM e WHERE NULL OR FALSE
---- null
==== SELECT * FROM e WHERE NULL AND NULL
---- null
==== SELECT * FROM e WHERE NULL OR NULL
---- null
==== SELECT * FROM e WHERE NULL = 1
---- null
==== SELECT * FROM e WHERE (NULL = 1) IS NULL
---- true
==== SELECT * FROM e WHERE 'ab' < 'b'
---- true
==== INSERT INTO e (n) VALUES (9223372036854775807 + 1)
---- bigint out of range
==== INSERT INTO e (t) VALUES (FALSE AND (9223372036854775807 + 1) IS NULL)
---- bigint out of range
";

// A column of the old or the new row, or the operation.
fn leaf_of(question: &str) -> BoundExpr {
    match question {
        "NEW 0" => BoundExpr::New(ColNo::new(0)),
        "NEW 1" => BoundExpr::New(ColNo::new(1)),
        "OLD 0" => BoundExpr::Old(ColNo::new(0)),
        _ => BoundExpr::Operation,
    }
}

fn in_update(row: &Row) -> Env<'_> {
    Env {
        row: None,
        old: None,
        new: Some(row),
        op: Some(Op::Update),
    }
}

// What an UPDATE has whose new row is `(7)`, with no old row.
struct Leaves;

impl Subject for Leaves {
    fn answer(&self, alloc: Global, question: &str) -> Result<String, NoMemory> {
        let mut row = List::new(alloc);
        row.push(Value::Int(7))?;
        let leaf = leaf_of(question);
        outcome_told(alloc, eval(alloc, &leaf, &in_update(&row)))
    }
}

const LEAVES: &str = "\
==== NEW 0
---- 7
==== NEW 1
---- null
==== OLD 0
---- null
==== TG_OP
---- UPDATE
";

// What a column of a kind keeps of a number.
struct Stored;

impl Subject for Stored {
    fn answer(&self, alloc: Global, question: &str) -> Result<String, NoMemory> {
        let Some((kind, number)) = question.split_once(' ') else {
            return "no question".to_string(alloc);
        };
        let Ok(number) = number.parse::<i64>() else {
            return "no number".to_string(alloc);
        };
        let kind = if kind == "integer" {
            Kind::Integer
        } else {
            Kind::Bigint
        };
        outcome_told(alloc, store(Value::Int(number), kind))
    }
}

const STORED: &str = "\
==== integer 2147483648
---- integer out of range
==== integer 2147483647
---- 2147483647
==== bigint 2147483648
---- 2147483648
";

#[test]
fn values_of_expressions(rt: HostRuntime) -> Result<(), Fail> {
    assert_eq!(rt; first_wrong(rt.alloc(), &Values, VALUES)?, None);
    assert_eq!(rt; first_wrong(rt.alloc(), &Leaves, LEAVES)?, None);
    assert_eq!(rt; first_wrong(rt.alloc(), &Stored, STORED)?, None);
    Ok(())
}
