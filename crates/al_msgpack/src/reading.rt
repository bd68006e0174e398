//! The decoder.
ghost use Rattle.std.specs.Prelude.{◌≡◌, ◌<◌, ◌^◌, [], None, Result, IfOk, IsTrue, length};
ghost use Rattle.al_msgpack.specs.Reading.{Gives, Answers, value_at, all_of, entries_of, verdict};
ghost use Rattle.al_msgpack.specs.Places.{Means, MeansUnless};
ghost use Rattle.al_msgpack.specs.Rising.{canonical};
ghost use Rattle.al_msgpack.specs.declared.val.Val.{Val};
ghost use Rattle.al_msgpack.specs.declared.fault.DecodeFault.{DecodeFault};

use crate::fault::{DecodeFault, Fault, ReadError};
use crate::head::{Head, head_of};
use crate::key::{key, size_of, string};
use crate::val::{Entry, Val};
use al_base::Bytes;
use sqlite_items::Items;
use std::alloc::{AllocError, Global};

/// How deep containers nest.
pub(crate) const DEPTH: u8 = 16;

/// The most members that room is made for before they are read.
const FIRST_ROOM: u64 = 16;

/// An empty list with room for the first of so many members.
fn with_room<T>(alloc: Global, count: u64) -> Result<Items<T>, AllocError>
    ensures { IfOk result (λ items. items ≡ []) }
{
    let items = Vec::with_capacity(alloc, count.min(FIRST_ROOM) as usize)?;
    Ok(Items::from_vec(items))
}

/// A value, and the bytes after it. Containers nest at most `depth` deep.
#[tactic(auto, unfolding(crate::specs::Reading::value_at))]
#[cycle(value)]
fn value(alloc: Global, bytes: &[u8], depth: u8) -> Result<(Val, &[u8]), ReadError>
    ensures { Gives (λ x. (x.0, x.1.now)) result (value_at depth bytes.now) }
{
    let Some((first, rest)) = bytes.split_first() else {
        return Err(ReadError::Fault(Fault::Short));
    };
    let Some(head) = head_of(*first) else {
        return Err(ReadError::Fault(Fault::Bad(bytes.len())));
    };
    if !head.is_open(depth) {
        return Err(ReadError::Fault(Fault::Bad(bytes.len())));
    }
    match head {
        Head::Num(size) => {
            let (n, rest) = size_of(size, rest)?;
            Ok((Val::Num(n), rest))
        }
        Head::Flag(b) => Ok((Val::Flag(b), rest)),
        Head::Str(size) => {
            let (text, rest) = string(size, rest)?;
            Ok((Val::Str(Bytes::of(alloc, text)?), rest))
        }
        Head::Bin(size) => {
            let (bytes, rest) = string(size, rest)?;
            Ok((Val::Bin(Bytes::of(alloc, bytes)?), rest))
        }
        Head::List(size) => {
            let (count, rest) = size_of(size, rest)?;
            let (items, rest) = values(alloc, rest, count, depth - 1)?;
            Ok((Val::List(items), rest))
        }
        Head::Map(size) => {
            let (count, rest) = size_of(size, rest)?;
            let (entries, rest) = entries(alloc, rest, count, depth - 1)?;
            Ok((Val::Map(entries), rest))
        }
    }
}

/// So many values, and the bytes after them.
#[cycle(value)]
fn values(
    alloc: Global,
    bytes: &[u8],
    count: u64,
    depth: u8,
) -> Result<(Items<Val>, &[u8]), ReadError>
    ensures { Gives (λ x. (x.0, x.1.now)) result (all_of depth count bytes.now) }
{
    let mut items = with_room(alloc, count)?;
    let mut rest = bytes;
    for _ in 0..count {
        let (item, after) = value(alloc, rest, depth)?;
        items.push(item)?;
        rest = after;
    }
    Ok((items, rest))
}

/// So many entries whose keys rise, and the bytes after them.
#[cycle(value)]
fn entries(
    alloc: Global,
    bytes: &[u8],
    count: u64,
    depth: u8,
) -> Result<(Items<Entry>, &[u8]), ReadError>
    ensures { Gives (λ x. (x.0, x.1.now)) result (entries_of depth None count bytes.now) }
{
    let mut items = with_room(alloc, count)?;
    let mut rest = bytes;
    let mut before = None;
    for _ in 0..count {
        let (name, after) = key(before, rest)?;
        let (val, after) = value(alloc, after, depth)?;
        items.push(Entry {
            key: Bytes::of(alloc, name)?,
            val,
        })?;
        before = Some(name);
        rest = after;
    }
    Ok((items, rest))
}

/// The verdict on an input.
fn judge(alloc: Global, input: &[u8]) -> Result<Val, DecodeFault>
    ensures { Answers result (verdict input.now) }
{
    match value(alloc, input, DEPTH) {
        Ok((val, rest)) => {
            if rest.is_empty() {
                Ok(val)
            } else {
                Err(DecodeFault::Trailing {
                    at: input.len().saturating_sub(rest.len()),
                })
            }
        }
        Err(ReadError::Fault(Fault::Short)) => Err(DecodeFault::Truncated { at: input.len() }),
        Err(ReadError::Fault(Fault::Bad(left))) => Err(DecodeFault::Malformed {
            at: input.len().saturating_sub(left),
        }),
        Err(ReadError::Memory) => Err(DecodeFault::Memory),
    }
}

/// The value whose spelling the input is, or the first fault and its place. All or nothing: a
/// value followed by more bytes is refused.
///
/// - `Truncated` exactly where the input is a proper prefix of a spelling; its place is the
///   input's length.
/// - `Malformed` at the least place such that no spelling begins with the bytes up to and with
///   it, where no whole spelling stands in front.
/// - `Trailing` exactly where a spelling stands in front and more bytes follow; its place is that
///   spelling's length.
/// - `Memory`: the value does not fit into memory.
pub fn decode(alloc: Global, input: &[u8]) -> Result<Val, DecodeFault>
    requires { length input.now < 2 ^ 31 }
    // Each answer is right, by the relation alone.
    ensures right { MeansUnless input.now result }
    // What is right is answered, unless memory runs out.
    ensures only { (r : Result Val DecodeFault) → Means input.now r → Answers result r }
    // The keys of each map rise strictly, at every level.
    ensures rising { IfOk result (λ v. IsTrue (canonical v)) }
{
    judge(alloc, input)
}
