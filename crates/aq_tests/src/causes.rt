//! Sources and sinks in memory and over readers and writers of std, and a whole input read and written.

use crate::table::{Subject, first_wrong};
use aq_base::{List, NoMemory};
use aq_causes::{
    Gathered, MemorySink, MemorySource, Put, Sink, Source, StdSink, StdSource, Taken, Written,
    read_all, write_all,
};
use std::alloc::Global;
use std::io::{self, Read};
use std::test::Fail;

// Numbers with commas between them.
fn numbers_of(alloc: Global, text: &str) -> Result<List<u64>, NoMemory> {
    let mut numbers = List::new(alloc);
    for number in text.split(',') {
        if let Ok(number) = number.parse::<u64>() {
            numbers.push(number)?;
        }
    }
    Ok(numbers)
}

// A number that a text is, or 0.
fn number_of(text: &str) -> usize {
    match text.parse::<usize>() {
        Ok(number) => number,
        Err(_) => 0,
    }
}

fn abcdefg(alloc: Global) -> Result<List<u8>, NoMemory> {
    Ok(List::from_vec(Vec::from_slice(alloc, b"abcdefg")?))
}

// A source of seven bytes in pieces of such a length, which fails at some calls.
fn source_of(alloc: Global, piece: &str, fail: &str) -> Result<MemorySource, NoMemory> {
    let piece = number_of(piece);
    let piece = if piece < 1 { 1 } else { piece };
    Ok(MemorySource::new(abcdefg(alloc)?, piece, numbers_of(alloc, fail)?))
}

// What four bytes hold, a dot for each byte that is 0.
fn four_told(alloc: Global, buf: &[u8; 4]) -> Result<String, NoMemory> {
    let mut told = String::new(alloc);
    for byte in buf.as_slice() {
        told.push(if *byte == 0 { '.' } else { char::from(*byte) })?;
    }
    Ok(told)
}

fn taken_told(alloc: Global, taken: Taken) -> Result<String, NoMemory> {
    match taken {
        Taken::Got(count) => format!(in alloc; "{count}"),
        Taken::End => "end".to_string(alloc),
        Taken::Failed => "failed".to_string(alloc),
    }
}

// What so many calls of read give, with four bytes of room, and what then stands there.
struct Reads;

impl Subject for Reads {
    fn answer(&self, alloc: Global, question: &str) -> Result<String, NoMemory> {
        let Some((piece, rest)) = question.split_once(' ') else {
            return "no question".to_string(alloc);
        };
        let Some((fail, calls)) = rest.split_once(' ') else {
            return "no question".to_string(alloc);
        };
        let mut source = source_of(alloc, piece, fail)?;
        let mut told = String::new(alloc);
        let mut buf = [0; 4];
        for _ in 0..number_of(calls) {
            let taken = source.read(&mut buf);
            told.push_str(taken_told(alloc, taken)?.as_str())?;
            told.push(' ')?;
            told.push_str(four_told(alloc, &buf)?.as_str())?;
            told.push(';')?;
        }
        Ok(told)
    }
}

const READS: &str = "\
==== 2 2,6 7
---- 2 ab..;failed ab..;2 cd..;2 ef..;1 gf..;failed gf..;end gf..;
==== 7 no 1
---- 4 abcd;
";

fn gathered_told(gathered: &Gathered) -> &'static str {
    match gathered {
        Gathered::All(bytes) => {
            if bytes.as_slice() == b"abcdefg".as_slice() {
                "all"
            } else {
                "other bytes"
            }
        }
        Gathered::Failed => "failed",
        Gathered::TooLong => "long",
    }
}

// A whole input read: the length of the pieces, the call that fails, the limit.
struct Gathers;

impl Subject for Gathers {
    fn answer(&self, alloc: Global, question: &str) -> Result<String, NoMemory> {
        let Some((piece, rest)) = question.split_once(' ') else {
            return "no question".to_string(alloc);
        };
        let Some((fail, limit)) = rest.split_once(' ') else {
            return "no question".to_string(alloc);
        };
        let mut source = source_of(alloc, piece, fail)?;
        let gathered = read_all(alloc, &mut source, number_of(limit))?;
        gathered_told(&gathered).to_string(alloc)
    }
}

const GATHERS: &str = "\
==== 1 0 7
---- all
==== 2 0 7
---- all
==== 7 0 8
---- all
==== 7 0 6
---- long
==== 1 0 6
---- long
==== 2 4 7
---- failed
==== 7 1 7
---- failed
==== 7 2 7
---- failed
==== 7 3 7
---- all
";

// A sink with room, which fails at some calls.
fn sink_of(alloc: Global, room: &str, fail: &str) -> Result<MemorySink, NoMemory> {
    MemorySink::new(alloc, number_of(room), numbers_of(alloc, fail)?)
}

// A sink is given no piece without bytes.
fn put_into(sink: &mut MemorySink, piece: &[u8]) -> Put {
    if piece.is_empty() {
        Put::Failed
    } else {
        sink.write(piece)
    }
}

fn put_told(alloc: Global, put: Put) -> Result<String, NoMemory> {
    match put {
        Put::Took(count) => format!(in alloc; "{count} "),
        Put::Failed => "failed ".to_string(alloc),
    }
}

fn written_told(written: Written) -> &'static str {
    match written {
        Written::Done => "done ",
        Written::Failed => "failed ",
    }
}

// What a sink takes of texts with commas between them, and all that it has then.
struct Takes;

impl Subject for Takes {
    fn answer(&self, alloc: Global, question: &str) -> Result<String, NoMemory> {
        let Some((room, rest)) = question.split_once(' ') else {
            return "no question".to_string(alloc);
        };
        let Some((fail, texts)) = rest.split_once(' ') else {
            return "no question".to_string(alloc);
        };
        let mut sink = sink_of(alloc, room, fail)?;
        let mut told = String::new(alloc);
        for text in texts.split(',') {
            told.push_str(put_told(alloc, put_into(&mut sink, text.as_bytes()))?.as_str())?;
        }
        told.push_str(String::from_utf8_lossy(alloc, sink.bytes())?.as_str())?;
        Ok(told)
    }
}

const TAKES: &str = "\
==== 5 2 abc,defg,defg,fg
---- 3 failed 2 failed abcde
";

// How texts are written whole to a sink with room, and all that it has then.
struct Writes;

impl Subject for Writes {
    fn answer(&self, alloc: Global, question: &str) -> Result<String, NoMemory> {
        let Some((room, texts)) = question.split_once(' ') else {
            return "no question".to_string(alloc);
        };
        let mut sink = sink_of(alloc, room, "no")?;
        let mut told = String::new(alloc);
        for text in texts.split(',') {
            told.push_str(written_told(write_all(&mut sink, text.as_bytes())))?;
        }
        told.push_str(String::from_utf8_lossy(alloc, sink.bytes())?.as_str())?;
        Ok(told)
    }
}

const WRITES: &str = "\
==== 7 ,abcde,fgh
---- done done failed abcdefg
";

#[derive(Drop)]
struct Broken;

impl Read for Broken {
    fn read(&mut self, _buf: &mut [u8]) -> io::Result<usize> {
        Err(io::Error::from(io::ErrorKind::Other))
    }
}

fn reads_a_slice(alloc: Global) -> Result<bool, NoMemory> {
    let mut source = StdSource::new(b"abcdefg".as_slice());
    Ok(gathered_told(&read_all(alloc, &mut source, 7)?) == "all")
}

fn fails_on_a_broken_reader() -> bool {
    let mut buf = [0; 4];
    StdSource::new(Broken).read(&mut buf) == Taken::Failed
}

fn writes_to_a_vector(alloc: Global) -> bool {
    let mut sink = StdSink::new(Vec::new(alloc));
    write_all(&mut sink, b"abc") == Written::Done
        && sink.into_inner().as_slice() == b"abc".as_slice()
}

fn fills_a_slice() -> bool {
    let mut room = [0; 2];
    let mut full = StdSink::new(room.as_mut_slice());
    full.write(b"abc") == Put::Took(2) && full.write(b"c") == Put::Failed
}

#[test]
fn sources_and_sinks(rt: HostRuntime) -> Result<(), Fail> {
    let alloc = rt.alloc();
    assert_eq!(rt; first_wrong(alloc, &Reads, READS)?, None);
    assert_eq!(rt; first_wrong(alloc, &Gathers, GATHERS)?, None);
    assert_eq!(rt; first_wrong(alloc, &Takes, TAKES)?, None);
    assert_eq!(rt; first_wrong(alloc, &Writes, WRITES)?, None);
    assert!(rt; reads_a_slice(alloc)?);
    assert!(rt; fails_on_a_broken_reader());
    assert!(rt; writes_to_a_vector(alloc));
    assert!(rt; fills_a_slice());
    Ok(())
}
