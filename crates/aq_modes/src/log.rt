//! What changes of the settings have replaced, so that a return can put it back without memory.

ghost use Rattle.std.specs.Prelude.{◌≡◌, ◌∷◌, ◌++◌, ◌<◌, [], IfOk, OnErr, length, vec_len, vec_capacity};
ghost use Rattle.aq_modes.specs.Log.{modes_of, own_with, put_back, put_back_all, saved_from};

use aq_base::ConNo;
use std::alloc::{AllocError, Global};
use std::collections::BTreeMap;

/// The settings that hold: that of ALL, and those of single constraints. True stands for deferred.
#[derive(Drop)]
pub(crate) struct Present {
    pub(crate) all: Option<bool>,
    pub(crate) own: BTreeMap<u16, bool>,
}

/// What a constraint had before it was set: nothing, or a setting of its own.
#[derive(Clone, Copy)]
pub(crate) struct Before {
    con: u16,
    setting: Option<bool>,
}

/// An entry of the log: a mark, the settings that ALL replaced, or those of single constraints, each with
/// its constraint.
#[derive(Drop)]
pub(crate) enum Entry {
    Mark,
    All(Present),
    Each(Vec<Before>),
}

fn put_back(own: &mut BTreeMap<u16, bool>, before: Before)
    ensures { own.new.entries ≡ put_back before own.old.entries }
{
    match before.setting {
        None => {
            let _ = own.remove(&before.con);
        }
        Some(setting) => {
            if let Some(held) = own.get_mut(&before.con) {
                *held = setting;
            }
        }
    }
}

fn put_back_all(own: &mut BTreeMap<u16, bool>, before: Vec<Before>)
    ensures { own.new.entries ≡ put_back_all before.items own.old.entries }
{
    let mut left = before;
    'left: while let Some(last) = left.pop() {
        put_back(own, last);
    }
}

/// Sets each of the constraints, and answers what they had. The error is want of memory, and changes nothing.
pub(crate) fn replace_each(
    alloc: Global,
    own: &mut BTreeMap<u16, bool>,
    cons: &[ConNo],
    deferred: bool,
) -> Result<Vec<Before>, AllocError>
    ensures set { IfOk result (λ _. own.new.entries ≡ own_with cons.now deferred own.old.entries) }
    ensures before { IfOk result (λ before. put_back_all before.items own.new.entries ≡ own.old.entries) }
    ensures err { OnErr result (own.new.entries ≡ own.old.entries) }
{
    let mut before = Vec::with_capacity(alloc, cons.len())?;
    'cons: for con in cons {
        let con = con.get();
        match own.insert(con, deferred) {
            Ok(setting) => before.push_reserved(Before { con, setting }),
            Err(_) => {
                put_back_all(own, before);
                return Err(AllocError);
            }
        }
    }
    Ok(before)
}

/// Takes back what was changed since the last mark, and the mark, where there is one.
pub(crate) fn back_to_last_mark(present: &mut Present, log: &mut Vec<Entry>)
    requires { 0 < length (saved_from log.old.items (modes_of present.old)) }
    ensures saved { saved_from log.old.items (modes_of present.old) ≡ saved_from log.new.items (modes_of present.new) ++ modes_of present.new ∷ [] }
    ensures room { vec_len log.new < vec_capacity log.new }
{
    'entries: while let Some(entry) = log.pop() {
        match entry {
            Entry::Mark => return,
            Entry::All(replaced) => *present = replaced,
            Entry::Each(before) => put_back_all(&mut present.own, before),
        }
    }
}
