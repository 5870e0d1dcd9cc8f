//! Names of tables read, and statements refused in a setup.

use crate::table::{Subject, first_wrong};
use aq_base::NoMemory;
use aq_grammar::{ReadFault, public_name, refuse_in_setup};
use aq_lex::{Lexed, lex};
use std::alloc::Global;
use std::test::Fail;

// The name of a table with which bytes begin, and how many tokens stand behind it.
struct Names;

impl Subject for Names {
    fn answer(&self, alloc: Global, question: &str) -> Result<String, NoMemory> {
        let Ok(tokens) = lex(alloc, question.as_bytes()) else {
            return "no tokens".to_string(alloc);
        };
        match public_name(alloc, &Lexed::new(question.as_bytes(), tokens.as_slice())) {
            Ok((name, rest)) => format!(in alloc; "{} {}", name.as_str(), rest.len()),
            Err(_) => "none".to_string(alloc),
        }
    }
}

const NAMES: &str = "\
==== t
---- t 0
==== public.T (
---- t 1
==== \"Select\"
---- Select 0
==== select
---- none
==== 1
---- none
==== 't'
---- none
==== \n\
---- none
";

// How a statement that begins with bytes is refused in the setup: the text, and the token that is refused, counted from 0.
struct Refused;

impl Subject for Refused {
    fn answer(&self, alloc: Global, question: &str) -> Result<String, NoMemory> {
        let Ok(tokens) = lex(alloc, question.as_bytes()) else {
            return "no tokens".to_string(alloc);
        };
        match refuse_in_setup(alloc, &Lexed::new(question.as_bytes(), tokens.as_slice())) {
            Err(ReadFault::Refused { left, fault }) => {
                let at = tokens.len().saturating_sub(left);
                format!(in alloc; "at {at}: {}", fault.text.as_str())
            }
            _ => "not refused".to_string(alloc),
        }
    }
}

const REFUSED: &str = "\
==== ALTER TABLE ONLY public.t DISABLE
---- at 0: enabling and disabling triggers is not supported
==== CREATE VIEW
---- at 0: views are not supported
==== TRUNCATE t
---- at 0: TRUNCATE is not supported
==== INSERT
---- at 0: data statements in setup are not supported
";

#[test]
fn names_and_refused_statements(rt: HostRuntime) -> Result<(), Fail> {
    assert_eq!(rt; first_wrong(rt.alloc(), &Names, NAMES)?, None);
    assert_eq!(rt; first_wrong(rt.alloc(), &Refused, REFUSED)?, None);
    Ok(())
}
