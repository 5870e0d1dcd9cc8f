//! Scripts read and refused, and what the machine runs of them.

use crate::table::{Subject, first_wrong};
use aq_base::{Code, NoMemory, Script, SqlFault};
use aq_script::{ScriptFault, read_script};
use aq_simple::{SimpleFault, simple_script};
use std::alloc::Global;
use std::test::Fail;

fn code_told(alloc: Global, code: &Code) -> Result<String, NoMemory> {
    let mut told = String::new(alloc);
    for byte in code.0 {
        told.push(char::from(byte))?;
    }
    Ok(told)
}

fn refusal_told(alloc: Global, line: u64, fault: &SqlFault) -> Result<String, NoMemory> {
    let code = code_told(alloc, &fault.code)?;
    let detail = if fault.detail.is_some() {
        ", with a detail"
    } else {
        ""
    };
    format!(in alloc;
        "line {line}: {} {}{detail}",
        code.as_str(),
        fault.text.as_str()
    )
}

// How many statements the setup and each session have, and how many items the schedule.
fn counts_told(alloc: Global, script: &Script) -> Result<String, NoMemory> {
    let mut told = format!(in alloc; "{}", script.setup.len())?;
    for session in script.sessions.as_slice() {
        told.push_str(format!(in alloc; " {}", session.statements.len())?.as_str())?;
    }
    match &script.schedule {
        Some(items) => told.push_str(format!(in alloc; " schedule {}", items.len())?.as_str())?,
        None => told.push_str(" no schedule")?,
    }
    Ok(told)
}

struct Reading;

impl Subject for Reading {
    fn answer(&self, alloc: Global, question: &str) -> Result<String, NoMemory> {
        match read_script(alloc, question.as_bytes()) {
            Ok(script) => counts_told(alloc, &script),
            Err(ScriptFault::Refused { line, fault }) => refusal_told(alloc, line, &fault),
            Err(ScriptFault::NoMemory) => Err(NoMemory),
        }
    }
}

const READING: &str = "\
==== \\setup
CREATE TABLE t (id integer);
CREATE TRIGGER x BEFORE INSERT ON t FOR EACH ROW EXECUTE FUNCTION f();
---- line 3: 0A000 BEFORE triggers are not supported
==== \\session a
select * from t where a = (select
---- line 2: 0A000 subqueries are not supported
==== \\setup INSERT INTO t VALUES (1);
---- line 1: 0A000 data statements in setup are not supported
==== \\session a CREATE TABLE t (id integer);
---- line 1: 0A000 DDL outside setup is not supported
==== \\session a
CREATE TABLE t (id integer);
@
---- line 2: 0A000 DDL outside setup is not supported
==== \\session a
INSERT INTO t VALUES ('a
---- line 2: 42601 syntax error
==== \\session a
@
---- line 2: 42601 syntax error
==== \\session a
DELETE FROM t

---- line 3: 42601 syntax error
==== \\schedule a*0
---- line 1: 42601 syntax error
==== \\session a
\\session a
---- line 2: 42710 session \"a\" already exists
==== \\session abcdefghijabcdefghijabcdefghijabcdefghijabcdefghijabcdefghijabcd
---- line 1: 42622 name \"abcdefghijabcdefghijabcdefghijabcdefghijabcdefghijabcdefghijabcd\" is too long
==== 
---- 0 no schedule
==== \\setup
CREATE TABLE c (id integer PRIMARY KEY, a int8 NOT NULL DEFAULT -1, b text REFERENCES p (k) ON DELETE CASCADE DEFERRABLE, UNIQUE (a, b));
ALTER TABLE ONLY c ADD CONSTRAINT f FOREIGN KEY (a, b) REFERENCES p MATCH FULL;
CREATE FUNCTION f() RETURNS trigger AS $$ BEGIN IF TG_OP = 'INSERT' THEN RETURN NEW; ELSE RAISE EXCEPTION 'no'; END IF; END; $$ LANGUAGE plpgsql;
CREATE TRIGGER x AFTER INSERT OR UPDATE OF a ON t FOR EACH ROW WHEN (NEW.a > 0) EXECUTE FUNCTION f();
CREATE CONSTRAINT TRIGGER x AFTER DELETE ON t DEFERRABLE FOR EACH ROW EXECUTE PROCEDURE f();
\\session a
INSERT INTO t (a, b) VALUES (1, DEFAULT), (NULL, 'x'); INSERT INTO t SELECT a, b FROM u WHERE a IS NOT NULL;
UPDATE t SET a = a + 1, b = DEFAULT WHERE NOT a = 1; DELETE FROM public.t; SELECT * FROM t FOR NO KEY UPDATE;
SET CONSTRAINTS ALL DEFERRED; BEGIN TRANSACTION ISOLATION LEVEL REPEATABLE READ; START TRANSACTION;
SAVEPOINT s; ROLLBACK WORK TO s; RELEASE s; END;
\\session b
COMMIT;
\\schedule a*2 b
---- 5 12 1 schedule 2
";

// How many statements of the setup and how many sessions run, or the line that is not built.
struct Running;

impl Subject for Running {
    fn answer(&self, alloc: Global, question: &str) -> Result<String, NoMemory> {
        let Ok(script) = read_script(alloc, question.as_bytes()) else {
            return "no script".to_string(alloc);
        };
        match simple_script(alloc, &script) {
            Ok(simple) => format!(in alloc;
                "runs {} {}",
                simple.setup.len(),
                simple.sessions.len()
            ),
            Err(SimpleFault::NotBuilt { line }) => format!(in alloc; "not built at line {line}"),
            Err(SimpleFault::NoMemory) => Err(NoMemory),
        }
    }
}

const RUNNING: &str = "\
==== \\setup
CREATE TABLE t (id integer PRIMARY KEY);
\\session a
DELETE FROM t;
---- runs 1 1
==== \\setup
CREATE TABLE t (id integer PRIMARY KEY);
\\session a
SAVEPOINT s;
---- not built at line 4
";

#[test]
fn scripts(rt: HostRuntime) -> Result<(), Fail> {
    assert_eq!(rt; first_wrong(rt.alloc(), &Reading, READING)?, None);
    assert_eq!(rt; first_wrong(rt.alloc(), &Running, RUNNING)?, None);
    Ok(())
}
