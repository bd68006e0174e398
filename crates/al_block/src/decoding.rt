//! Blocks from bytes, and bytes of blocks.
ghost use Rattle.std.specs.Prelude.{◌≡◌, ◌++◌, ◌<◌, ◌^◌, ℕ, List, Result, length, IsTrue, OnErr, OnOk};
ghost use Rattle.al_msgpack.specs.declared.val.Val.TheVariants as values;
ghost use Rattle.al_msgpack.specs.Rising.{canonical};
ghost use Rattle.al_msgpack.specs.Spelled.{spelled};
ghost use Rattle.al_block.specs.Block.{block, BlockAnswers, BlockMeans, BlockMeansUnless, IsBlock, ReadsSized};
ghost use Rattle.al_block.specs.declared.block.Block.{Block};
ghost use Rattle.al_block.specs.declared.decoding.BlockFault.{BlockFault};

use crate::Block;
use al_base::Bytes;
use al_msgpack::{DecodeFault, Val, decode};
use al_record::{Fault, ReadError, encode_record, range, read_member};
use std::alloc::{AllocError, Global};

/// The most bytes of a block's spelling.
pub const MOST_BYTES: usize = 5_242_880;

/// Why an input is no block.
#[derive(Debug, Drop)]
pub enum BlockFault {
    /// It is the spelling of no value.
    Decode(DecodeFault),
    /// A field that is unknown, of the wrong family, or present with its zero value.
    Field { name: Bytes },
    /// A field outside its range.
    Range { name: Bytes },
    /// Want of memory.
    Memory,
}

/// The block whose record the input spells, or the first fault.
///
/// - `Decode` exactly where the input is the spelling of no value.
/// - `Field` and `Range` exactly where it spells a value whose record has that first fault. All
///   outer fields are checked for `Field` first; then the header `b` (absent: as the empty map),
///   and then the entries of `t` one by one. A value that is no map is `Field` of the empty name.
/// - `Range` of `t` where the input has more than 5,242,880 bytes and no other fault.
/// - `Memory`: the block does not fit into memory.
pub fn decode_block(alloc: Global, input: &[u8]) -> Result<Block, BlockFault>
    requires { length input.now < 2 ^ 31 }
    // Each answer is right, by the format alone.
    ensures right { BlockMeansUnless input.now result }
    // What is right is answered, unless memory runs out.
    ensures only { (r : Result Block BlockFault) → BlockMeans input.now r → BlockAnswers result r }
{
    judge(alloc, input)
}

/// The verdict on an input.
fn judge(alloc: Global, input: &[u8]) -> Result<Block, BlockFault>
    requires { length input.now < 2 ^ 31 }
    ensures { BlockMeansUnless input.now result }
{
    let v = match decode(alloc, input) {
        Ok(v) => v,
        Err(DecodeFault::Memory) => return Err(BlockFault::Memory),
        Err(fault) => return Err(BlockFault::Decode(fault)),
    };
    match read_sized(alloc, &v, input.len()) {
        Ok(block) => Ok(block),
        Err(ReadError::Fault(Fault::Field { name })) => Err(BlockFault::Field { name }),
        Err(ReadError::Fault(Fault::Range { name })) => Err(BlockFault::Range { name }),
        Err(ReadError::Memory) => Err(BlockFault::Memory),
    }
}

/// The block of a value that is spelled in so many bytes.
fn read_sized(alloc: Global, v: &Val, size: usize) -> Result<Block, ReadError>
    requires { IsTrue (canonical v.now) }
    ensures { ReadsSized size v.now result }
{
    let block = read_member::<Block>(alloc, v)?;
    if size > MOST_BYTES {
        return Err(range(alloc, "t"));
    }
    Ok(block)
}

/// Appends the spelling of a block's record: the very bytes that it was decoded from. Nothing is
/// appended where memory is short.
pub fn encode_block(b: &Block, out: &mut Vec<u8>) -> Result<(), AllocError>
    ensures bytes { OnOk result (out.new.items ≡ out.old.items ++ spelled (values.Map (block.write b.now))) }
    ensures back { (input : List ℕ) → IsBlock input b.now → OnOk result (out.new.items ≡ out.old.items ++ input) }
    ensures err { OnErr result (out.new.items ≡ out.old.items) }
{
    encode_record(b, out)
}
