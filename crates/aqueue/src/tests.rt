//! The whole program, from bytes to bytes, and the journal that it stands on.
//!
//! A table of cases is one text. A case begins with `==== ` and a list of words, or several lists with `|` between them; then
//! come the script, a line with `---- ` and the status, and what is written. So a case more costs no proof.

use crate::cases::{CASES, ITS_TEXT, PARENT_AND_CHILD};
use crate::examples::EXAMPLES;
use crate::program::aqueue;
use aq_base::{List, NoMemory, TextVal};
use aq_causes::{MemorySink, MemorySource};
use aq_first_journal::Shared;
use aq_first_machine::Machine;
use aq_script::read_script;
use aq_simple::simple_script;
use aq_xids::SessNo;
use std::alloc::Global;
use std::test::Fail;

const TOO_LONG: &str = "aqueue: script longer than 16777216 bytes\n";

fn words_of(alloc: Global, texts: &str) -> Result<List<TextVal>, NoMemory> {
    let mut words = List::new(alloc);
    for text in texts.split_whitespace() {
        words.push(TextVal::new(alloc, text)?)?;
    }
    Ok(words)
}

fn bytes_of(alloc: Global, text: &str) -> Result<List<u8>, NoMemory> {
    Ok(List::from_vec(Vec::from_slice(alloc, text.as_bytes())?))
}

fn numbers_of(alloc: Global, numbers: &[u64]) -> Result<List<u64>, NoMemory> {
    Ok(List::from_vec(Vec::from_slice(alloc, numbers)?))
}

// The status and the sink behind a call whose source gives at most `piece` bytes at once and fails at the calls `fail`, and whose sink has `room`.
fn answer_of(
    alloc: Global,
    words: &str,
    bytes: List<u8>,
    piece: usize,
    fail: &[u64],
    room: usize,
) -> Result<(u8, MemorySink), NoMemory> {
    let words = words_of(alloc, words)?;
    let piece = if piece < 1 { 1 } else { piece };
    let mut source = MemorySource::new(bytes, piece, numbers_of(alloc, fail)?);
    let mut sink = MemorySink::new(alloc, room, List::new(alloc))?;
    let status = aqueue(alloc, &words, &mut source, &mut sink);
    Ok((status, sink))
}

// Whether a call over such bytes, in pieces of a length, ends with this status and has written this text.
fn gives(
    alloc: Global,
    words: &str,
    bytes: List<u8>,
    piece: usize,
    status: u8,
    text: &str,
) -> Result<bool, NoMemory> {
    let (found, sink) = answer_of(alloc, words, bytes, piece, &[], 65536)?;
    Ok(found == status && sink.bytes() == text.as_bytes())
}

fn gives_in_any_pieces(
    alloc: Global,
    words: &str,
    script: &str,
    status: u8,
    text: &str,
) -> Result<bool, NoMemory> {
    for piece in [1usize, 2, 7, 16, 4096] {
        if !gives(alloc, words, bytes_of(alloc, script)?, piece, status, text)? {
            return Ok(false);
        }
    }
    Ok(true)
}

// The parts of a case: the lists of words, the script, the status and the text.
fn parts_of(case: &str) -> Option<(&str, &str, u8, &str)> {
    let (lists, rest) = case.split_once('\n')?;
    let (script, rest) = rest.split_once("\n---- ")?;
    let (status, text) = rest.split_once('\n')?;
    Some((lists, script, status.parse::<u8>().ok()?, text))
}

fn is_right(alloc: Global, case: &str) -> Result<bool, NoMemory> {
    let Some((lists, script, status, text)) = parts_of(case) else {
        return Ok(false);
    };
    for words in lists.split('|') {
        if !gives_in_any_pieces(alloc, words, script, status, text)? {
            return Ok(false);
        }
    }
    Ok(true)
}

// The number of the first case that is answered otherwise, counted from 1; 0 where there is no case.
fn first_wrong(alloc: Global, table: &str) -> Result<Option<usize>, NoMemory> {
    let mut last = 0;
    for (number, case) in table.split("==== ").enumerate().skip(1) {
        if !is_right(alloc, case)? {
            return Ok(Some(number));
        }
        last = number;
    }
    Ok(if last == 0 { Some(0) } else { None })
}

#[test]
fn each_script_has_its_answer(rt: HostRuntime) -> Result<(), Fail> {
    assert_eq!(rt; first_wrong(rt.alloc(), CASES)?, None, "of the cases");
    assert_eq!(rt; first_wrong(rt.alloc(), EXAMPLES)?, None, "of the examples");
    Ok(())
}

// Whether a source that gives 16 bytes at once and fails at a call has this status, and nothing is written by a failure.
fn fails_at(alloc: Global, call: u64, status: u8) -> Result<bool, NoMemory> {
    let bytes = bytes_of(alloc, PARENT_AND_CHILD)?;
    let (found, sink) = answer_of(alloc, "replay", bytes, 16, &[call], 4096)?;
    Ok(found == status && sink.bytes().is_empty() == (status == 4))
}

// In pieces of 16 the script takes 12 calls, and the one that finds its end is the 13th.
fn first_call_that_is_wrong(alloc: Global) -> Result<Option<u64>, NoMemory> {
    for call in 1..15u64 {
        if !fails_at(alloc, call, if call < 14 { 4 } else { 0 })? {
            return Ok(Some(call));
        }
    }
    Ok(None)
}

// The status and the sink behind a call whose sink has room for so many bytes.
fn written_in(alloc: Global, room: usize) -> Result<(u8, MemorySink), NoMemory> {
    let bytes = bytes_of(alloc, PARENT_AND_CHILD)?;
    answer_of(alloc, "replay", bytes, 4096, &[], room)
}

// Whether a sink is filled with the beginning of the text, and the status is 5 where there is more of it.
fn fills(alloc: Global, room: usize) -> Result<bool, NoMemory> {
    let (found, sink) = written_in(alloc, room)?;
    let status = if room < ITS_TEXT.len() { 5 } else { 0 };
    Ok(found == status && Some(sink.bytes()) == ITS_TEXT.as_bytes().get(..room))
}

fn ends_in_a_line(alloc: Global) -> Result<bool, NoMemory> {
    let (found, sink) = written_in(alloc, 40)?;
    Ok(found == 5 && sink.bytes().ends_with(b"a.3: ERR"))
}

fn first_room_that_is_wrong(alloc: Global) -> Result<Option<usize>, NoMemory> {
    for room in 0..=ITS_TEXT.len() {
        if !fills(alloc, room)? {
            return Ok(Some(room));
        }
    }
    Ok(None)
}

fn blanks(alloc: Global, length: usize) -> Result<List<u8>, NoMemory> {
    Ok(List::from_vec(vec![in alloc; b' '; length]?))
}

#[test]
fn sources_and_sinks_at_their_ends(rt: HostRuntime) -> Result<(), Fail> {
    let alloc = rt.alloc();
    assert_eq!(rt; first_call_that_is_wrong(alloc)?, None);
    assert_eq!(rt; first_room_that_is_wrong(alloc)?, None);
    assert!(rt; ends_in_a_line(alloc)?);
    let longest = blanks(alloc, 16777216)?;
    assert!(rt; gives(alloc, "replay", longest, 65536, 0, "schedule\n")?);
    let longer = blanks(alloc, 16777217)?;
    assert!(rt; gives(alloc, "replay", longer, 65536, 7, TOO_LONG)?);
    Ok(())
}

// The journal of the script, in which nothing was done yet.
fn opened(alloc: Global) -> Result<Shared, Fail> {
    let script = read_script(alloc, PARENT_AND_CHILD.as_bytes())
        .ok()
        .ok_or("it is a script")?;
    let simple = simple_script(alloc, &script).ok().ok_or("it runs")?;
    Ok(Shared::new(alloc, Machine::open(alloc, simple)?))
}

// Whether so many steps can be taken, and leave some.
fn advances(shared: &mut Shared, steps: u64) -> Result<bool, NoMemory> {
    for _ in 0..steps {
        if !shared.machine().enabled(SessNo(0)) {
            return Ok(false);
        }
        shared.advance(SessNo(0))?;
    }
    Ok(shared.schedule().len() == steps && !shared.machine().ended(SessNo(0)))
}

// Whether the journal goes on to the end and the text of the whole run.
fn finishes(shared: &mut Shared) -> Result<bool, NoMemory> {
    shared.finish()?;
    Ok(
        shared.schedule().len() == 18
            && shared.machine().ended(SessNo(0))
            && shared.text()?.as_slice() == ITS_TEXT.as_bytes(),
    )
}

#[test]
fn a_journal_steps_and_goes_on_to_the_end(rt: HostRuntime) -> Result<(), Fail> {
    for taken in 0..18u64 {
        let mut shared = opened(rt.alloc())?;
        assert!(rt;
            advances(&mut shared, taken)? && finishes(&mut shared)?,
            "behind {taken} steps"
        );
    }
    Ok(())
}
