//! Lists of words.

use crate::table::{Subject, first_wrong};
use aq_base::{List, NoMemory, TextVal};
use aq_words::{Command, command_of};
use std::alloc::Global;
use std::test::Fail;

// Behind each word of a list stands a comma.
fn list_of(alloc: Global, texts: &str) -> Result<List<TextVal>, NoMemory> {
    let mut words = List::new(alloc);
    for text in texts.split_terminator(',') {
        words.push(TextVal::new(alloc, text)?)?;
    }
    Ok(words)
}

struct Words;

impl Subject for Words {
    fn answer(&self, alloc: Global, question: &str) -> Result<String, NoMemory> {
        let words = list_of(alloc, question)?;
        match command_of(alloc, &words)? {
            Some(Command::Run { trace }) => format!(in alloc; "run, trace {trace}"),
            Some(Command::Replay { trace }) => format!(in alloc; "replay, trace {trace}"),
            Some(Command::Check) => "check".to_string(alloc),
            Some(Command::Drill { rows }) => format!(in alloc; "drill, rows {rows}"),
            None => "none".to_string(alloc),
        }
    }
}

const WORDS: &str = "\
==== run,
---- run, trace false
==== run,--trace,
---- run, trace true
==== replay,
---- replay, trace false
==== replay,--trace,
---- replay, trace true
==== check,
---- check
==== drill,--rows,1,
---- drill, rows 1
==== drill,--rows,2000,
---- drill, rows 2000
==== drill,--rows=375,
---- drill, rows 375
==== \n\
---- none
==== ,
---- none
==== Check,
---- none
==== check,--trace,
---- none
==== check,--,
---- none
==== replay,--trace,--trace,
---- none
==== replay,--tr,
---- none
==== --trace,replay,
---- none
==== --help,
---- none
==== help,
---- none
==== drill,
---- none
==== drill,--rows,
---- none
==== drill,--rows,0,
---- none
==== drill,--rows,007,
---- none
==== drill,--rows,+7,
---- none
==== drill,--rows,2001,
---- none
==== drill,--rows=-1,
---- none
==== drill,--rows,7,--rows,7,
---- none
";

#[test]
fn lists_of_words(rt: HostRuntime) -> Result<(), Fail> {
    assert_eq!(rt; first_wrong(rt.alloc(), &Words, WORDS)?, None);
    Ok(())
}
