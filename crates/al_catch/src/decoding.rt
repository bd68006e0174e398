//! Records of files from bytes.
ghost use Rattle.std.specs.Prelude.{◌≡◌, ◌<◌, ◌^◌, Result, length};
ghost use Rattle.al_catch.specs.Decoding.{FileAnswers, FileMeans, FileMeansUnless};
ghost use Rattle.al_catch.specs.Records.{chunk, info};
ghost use Rattle.al_catch.specs.declared.chunk.Chunk.{Chunk};
ghost use Rattle.al_catch.specs.declared.decoding.FileFault.{FileFault};
ghost use Rattle.al_catch.specs.declared.info.CatchInfo.{CatchInfo};

use crate::{CatchInfo, Chunk};
use al_base::Bytes;
use al_msgpack::{DecodeFault, decode};
use al_record::{Fault, ReadError, Record, read_member};
use std::alloc::Global;

/// Why an input is not the record of a file.
#[derive(Debug, Drop)]
pub enum FileFault {
    /// It is the spelling of no value.
    Decode(DecodeFault),
    /// A field that is unknown, of the wrong family, or present with its zero value.
    Field { name: Bytes },
    /// A field outside its range.
    Range { name: Bytes },
    /// Want of memory.
    Memory,
}

/// The chunk whose record the input spells, or the first fault: `Decode` exactly where it is the
/// spelling of no value, `Field` and `Range` exactly where it spells a value whose record has that
/// first fault. A value that is no map is `Field` of the empty name.
pub fn decode_chunk(alloc: Global, input: &[u8]) -> Result<Chunk, FileFault>
    requires { length input.now < 2 ^ 31 }
    // Each answer is right, by the format alone.
    ensures right { FileMeansUnless chunk input.now result }
    // What is right is answered, unless memory runs out.
    ensures only { (r : Result Chunk FileFault) → FileMeans chunk input.now r → FileAnswers result r }
{
    judge::<Chunk>(alloc, input)
}

/// What a catchpoint says of itself, or the first fault, as of [`decode_chunk`].
pub fn decode_info(alloc: Global, input: &[u8]) -> Result<CatchInfo, FileFault>
    requires { length input.now < 2 ^ 31 }
    // Each answer is right, by the format alone.
    ensures right { FileMeansUnless info input.now result }
    // What is right is answered, unless memory runs out.
    ensures only { (r : Result CatchInfo FileFault) → FileMeans info input.now r → FileAnswers result r }
{
    judge::<CatchInfo>(alloc, input)
}

/// The verdict on an input.
fn judge<R: Record>(alloc: Global, input: &[u8]) -> Result<R, FileFault>
    requires { length input.now < 2 ^ 31 }
    ensures { FileMeansUnless R.format input.now result }
{
    let v = match decode(alloc, input) {
        Ok(v) => v,
        Err(DecodeFault::Memory) => return Err(FileFault::Memory),
        Err(fault) => return Err(FileFault::Decode(fault)),
    };
    match read_member::<R>(alloc, &v) {
        Ok(value) => Ok(value),
        Err(ReadError::Fault(Fault::Field { name })) => Err(FileFault::Field { name }),
        Err(ReadError::Fault(Fault::Range { name })) => Err(FileFault::Range { name }),
        Err(ReadError::Memory) => Err(FileFault::Memory),
    }
}
