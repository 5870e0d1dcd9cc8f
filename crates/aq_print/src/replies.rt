//! The lines of replies.

ghost use Rattle.std.specs.Prelude.{◌≡◌, ◌++◌, codes, IfOk, OnOk};
ghost use Rattle.std.specs.Fmt.{decimal};
ghost use Rattle.aq_texts.specs.Replies.{reply_text, reply_line};

use crate::numbers::push_number;
use crate::rows::push_row;
use aq_base::{Code, List, NoMemory, ReplyLine, TextVal};
use std::alloc::Global;

fn push_coded(out: &mut Vec<u8>, code: &Code, text: &TextVal) -> Result<(), NoMemory>
    ensures { OnOk result (out.new.items ≡ out.old.items ++ (code.now.0 ++ codes " " ++ text.now)) }
{
    out.extend_from_slice(&code.0)?;
    out.push(b' ')?;
    out.extend_from_slice(text.bytes())
}

fn push_text(out: &mut Vec<u8>, reply: &ReplyLine) -> Result<(), NoMemory>
    ensures { OnOk result (out.new.items ≡ out.old.items ++ reply_text reply.now) }
{
    match reply {
        ReplyLine::Row(row) => push_row(out, row),
        ReplyLine::Tag(text) => out.extend_from_slice(text.bytes()),
        ReplyLine::Warning { code, text } => {
            out.extend_from_slice(b"WARNING ")?;
            push_coded(out, code, text)
        }
        ReplyLine::Error { code, text } => {
            out.extend_from_slice(b"ERROR ")?;
            push_coded(out, code, text)
        }
        ReplyLine::Detail(text) => {
            out.extend_from_slice(b"DETAIL ")?;
            out.extend_from_slice(text.bytes())
        }
    }
}

/// What stands before a reply: the session's name and the statement's number.
fn push_place(out: &mut Vec<u8>, name: &str, statement: u32) -> Result<(), NoMemory>
    ensures { OnOk result (out.new.items ≡ out.old.items ++ name.now ++ codes "." ++ decimal statement ++ codes ": ") }
{
    out.extend_from_slice(name.as_bytes())?;
    out.push(b'.')?;
    push_number(out, u64::from(statement))?;
    out.extend_from_slice(b": ")
}

/// Puts a line of a reply at the end. The error is want of memory, and then a part of the line may stand there.
pub fn push_reply(
    out: &mut Vec<u8>,
    name: &str,
    statement: u32,
    reply: &ReplyLine,
) -> Result<(), NoMemory>
    ensures { OnOk result (out.new.items ≡ out.old.items ++ reply_line name.now statement reply.now) }
{
    push_place(out, name, statement)?;
    push_text(out, reply)?;
    Ok(out.push(b'\n')?)
}

/// A line of a reply to the statement with this number of the session with this name. The error is want of memory.
pub fn print_reply(
    alloc: Global,
    name: &TextVal,
    statement: u32,
    reply: &ReplyLine,
) -> Result<List<u8>, NoMemory>
    ensures { IfOk result (λ text. text ≡ reply_line name.now statement reply.now) }
{
    let mut out = Vec::new(alloc);
    push_reply(&mut out, name.as_str(), statement, reply)?;
    Ok(List::from_vec(out))
}
