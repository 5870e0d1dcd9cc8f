ghost use Rattle.std.specs.Prelude.{◌≤◌, IfOk, IfSome, OnErr};
ghost use Rattle.aq_causes.specs.Gathered.{GatheredCases, Gave, ToldCases};

use crate::source::{Source, Taken};
use aq_base::{List, NoMemory};
use std::alloc::Global;

/// What reading a source to its end answers.
#[derive(Drop)]
pub enum Gathered {
    /// All the bytes.
    All(List<u8>),
    /// A fault came first.
    Failed,
    /// More bytes came than the limit.
    TooLong,
}

/// Reads until the source ends, or a fault comes, or more than `limit` bytes came. The error is want
/// of memory.
pub fn read_all<S: Source>(alloc: Global, input: &mut S, limit: usize) -> Result<Gathered, NoMemory>
    ensures cases { IfOk result (GatheredCases limit (S.faults input.old) (S.faults input.new)
        (S.left input.old) (S.left input.new)) }
    ensures told { IfSome (S.left input.old) (λ left.
        IfOk result (ToldCases limit left (S.left input.new))) }
    ensures count { S.faults input.old ≤ S.faults input.new }
    ensures err { OnErr result (Gave (S.left input.old) (S.left input.new) (λ n. 1 ≤ n)) }
{
    let mut bytes = Vec::new(alloc);
    let mut piece = [0; 4096];
    'pieces: while bytes.len() <= limit {
        match input.read(&mut piece) {
            Taken::Got(count) => bytes.extend_from_slice(&piece[..count])?,
            Taken::End => return Ok(Gathered::All(List::from_vec(bytes))),
            Taken::Failed => return Ok(Gathered::Failed),
        }
    }
    Ok(Gathered::TooLong)
}
