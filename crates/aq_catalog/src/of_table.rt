//! The numbers of what a table has, kept so that a look takes no memory.

ghost use Rattle.std.specs.Prelude.{◌≡◌, ◌<◌, ◌≤◌, OnOk, OnErr, length, position, vec_len, vec_capacity};
ghost use Rattle.std.specs.List.{list_any};
ghost use Rattle.aq_catalog.specs.Catalogs.{same_op, stands_before};
ghost use Rattle.aq_catalog.specs.Listed.{nothing_listed, listed_on, with_key_listed, with_trigger_listed, with_number, goes_before, place_among, below, listed_below};

use aq_base::{KeyNo, Op, TextVal, TrigNo, Trigger};
use std::alloc::{AllocError, Global};
use std::marker::Model;

/// The numbers of a table's keys, and those of the triggers that its changes fire, in byte order of their names.
#[derive(Drop)]
pub(crate) struct OfTable {
    keys: Vec<KeyNo>,
    inserts: Vec<TrigNo>,
    updates: Vec<TrigNo>,
    deletes: Vec<TrigNo>,
}

impl Model for OfTable {
    ghost use Rattle.aq_catalog.specs.Listed.{Listed};

    ghost Value = { Listed };

    ghost view = { λ t. record { keys = t.keys.items; inserts = t.inserts.items; updates = t.updates.items; deletes = t.deletes.items } };
}

fn is_op(a: Op, b: Op) -> bool
    ensures { result ≡ same_op a b }
{
    match (a, b) {
        (Op::Insert, Op::Insert) => true,
        (Op::Update, Op::Update) => true,
        (Op::Delete, Op::Delete) => true,
        _ => false,
    }
}

fn has_op(ops: &[Op], op: Op) -> bool
    ensures { result ≡ list_any (same_op op) ops.now }
{
    ops.iter().any(|other| is_op(op, *other))
}

fn stands_before(a: &TextVal, b: &TextVal) -> bool
    ensures { result ≡ stands_before a.now b.now }
{
    a < b
}

fn goes_before(triggers: &[Trigger], name: &TextVal, number: TrigNo) -> bool
    ensures { result ≡ goes_before triggers.now name.now number }
{
    match triggers.get(usize::from(number.get())) {
        None => false,
        Some(trigger) => stands_before(name, &trigger.name),
    }
}

fn first_behind(triggers: &[Trigger], name: &TextVal, numbers: &[TrigNo]) -> Option<usize>
    ensures { result ≡ position (goes_before triggers.now name.now) numbers.now }
{
    numbers
        .iter()
        .position(|number| goes_before(triggers, name, *number))
}

#[tactic(auto, using(crate::proofs::Places::place_or_end))]
fn place_among(triggers: &[Trigger], name: &TextVal, numbers: &[TrigNo]) -> usize
    ensures place { result ≡ place_among triggers.now name.now numbers.now }
    ensures within { result ≤ length numbers.now }
{
    first_behind(triggers, name, numbers).unwrap_or(numbers.len())
}

fn put(numbers: &mut Vec<TrigNo>, triggers: &[Trigger], trigger: &Trigger, op: Op, number: TrigNo)
    requires { vec_len numbers.old < vec_capacity numbers.old }
    ensures { numbers.new.items ≡ with_number triggers.now trigger.now op number numbers.old.items }
{
    if has_op(trigger.ops.as_slice(), op) {
        let place = place_among(triggers, &trigger.name, numbers.as_slice());
        let _ = numbers.insert(place, number);
    }
}

fn keep_keys(numbers: &mut Vec<KeyNo>, bound: usize)
    ensures { numbers.new.items ≡ below bound numbers.old.items }
{
    numbers.retain(|number| usize::from(number.get()) < bound);
}

fn keep_triggers(numbers: &mut Vec<TrigNo>, bound: usize)
    ensures { numbers.new.items ≡ below bound numbers.old.items }
{
    numbers.retain(|number| usize::from(number.get()) < bound);
}

impl OfTable {
    pub(crate) fn new(alloc: Global) -> OfTable
        ensures { result ≡ nothing_listed }
    {
        OfTable {
            keys: Vec::new(alloc),
            inserts: Vec::new(alloc),
            updates: Vec::new(alloc),
            deletes: Vec::new(alloc),
        }
    }

    pub(crate) fn keys(&self) -> &[KeyNo]
        ensures { result.now ≡ self.now.keys }
    {
        self.keys.as_slice()
    }

    pub(crate) fn triggers(&self, op: Op) -> &[TrigNo]
        ensures { result.now ≡ listed_on op self.now }
    {
        match op {
            Op::Insert => self.inserts.as_slice(),
            Op::Update => self.updates.as_slice(),
            Op::Delete => self.deletes.as_slice(),
        }
    }

    /// One key more. The error is want of memory.
    pub(crate) fn push_key(&mut self, key: KeyNo) -> Result<(), AllocError>
        ensures ok { OnOk result (self.new ≡ with_key_listed key self.old) }
        ensures err { OnErr result (self.new ≡ self.old) }
    {
        self.keys.push(key)?;
        Ok(())
    }

    /// One trigger more, behind all others of the catalog. The error is want of memory.
    pub(crate) fn put_trigger(
        &mut self,
        triggers: &[Trigger],
        trigger: &Trigger,
        number: TrigNo,
    ) -> Result<(), AllocError>
        ensures ok { OnOk result (self.new ≡ with_trigger_listed triggers.now trigger.now number self.old) }
        ensures err { OnErr result (self.new ≡ self.old) }
    {
        self.inserts.reserve(1)?;
        self.updates.reserve(1)?;
        self.deletes.reserve(1)?;
        put(&mut self.inserts, triggers, trigger, Op::Insert, number);
        put(&mut self.updates, triggers, trigger, Op::Update, number);
        put(&mut self.deletes, triggers, trigger, Op::Delete, number);
        Ok(())
    }

    /// The keys and triggers of a catalog that has so many. It takes no memory.
    pub(crate) fn keep(&mut self, keys: usize, triggers: usize)
        ensures { self.new ≡ listed_below keys triggers self.old }
    {
        keep_keys(&mut self.keys, keys);
        keep_triggers(&mut self.inserts, triggers);
        keep_triggers(&mut self.updates, triggers);
        keep_triggers(&mut self.deletes, triggers);
    }
}
