//! Rows from bytes, and bytes of rows.
ghost use Rattle.std.specs.Prelude.{◌≡◌, ◌++◌, ◌<◌, ◌^◌, ℕ, List, Result, length, IfOk, OnErr, OnOk};
ghost use Rattle.al_base.specs.declared.key.Key.{Key};
ghost use Rattle.al_msgpack.specs.declared.val.Val.TheVariants as values;
ghost use Rattle.al_msgpack.specs.Spelled.{spelled};
ghost use Rattle.al_row_records.specs.RowRecords.{FitsKey, FitsRow, IsRow, RowAnswers, RowMeans, RowMeansUnless, row_written};
ghost use Rattle.al_row_records.specs.declared.decoding.RowFault.{RowFault};
ghost use Rattle.al_rows.specs.declared.row.Row.{Row};
ghost use Rattle.al_rows.specs.Rows.{AssetParamsInRange, HoldingInRange, IsKept};

use crate::row_record::{read_row, write_row};
use al_base::{AssetParams, Bytes, Key};
use al_msgpack::{DecodeFault, decode};
use al_record::{Fault, ReadError};
use al_rows::{Holding, Row};
use std::alloc::{AllocError, Global};
use thiserror::Error;

/// Why an input is no row.
#[derive(Debug, Drop, Error)]
pub enum RowFault {
    /// It is the spelling of no value.
    #[error("{0}")]
    Decode(DecodeFault),
    /// A field that is unknown, of the wrong family, or present with its zero value.
    #[error("a field is unknown, of another family, or zero: {name:?}")]
    Field { name: Bytes },
    /// A field outside its range.
    #[error("a field is outside its range: {name:?}")]
    Range { name: Bytes },
    /// It says nothing, and such a row is not kept.
    #[error("the row is zero")]
    ZeroRow,
    /// Want of memory.
    #[error("out of memory")]
    Memory,
}

/// The row of the key's kind whose record the input spells, or the first fault.
///
/// - `Decode` exactly where the input is the spelling of no value.
/// - `Field` and `Range` exactly where it spells a value whose record has that first fault. A value
///   that is no map is `Field` of the empty name. Of an asset or an application `x` is checked
///   before all others, and the fields of a part whose flag is not true are unknown.
/// - `ZeroRow` exactly where it spells the record of a row that is zero: an account row of which
///   all but the reward base is zero, or a resource row without a part.
/// - `Memory`: the row does not fit into memory.
pub fn decode_row(alloc: Global, key: &Key, input: &[u8]) -> Result<Row, RowFault>
    requires { length input.now < 2 ^ 31 }
    // Each answer is right, by the format alone.
    ensures right { RowMeansUnless key.now input.now result }
    // What is right is answered, unless memory runs out.
    ensures only { (r : Result Row RowFault) → RowMeans key.now input.now r → RowAnswers result r }
    // The row may be kept under the key.
    ensures kept { IfOk result (λ r. IsKept key.now r) }
{
    match judge(alloc, key, input) {
        Ok(row) => {
            key_fits(key);
            row_fits(&row);
            Ok(row)
        }
        Err(fault) => Err(fault),
    }
}

/// No effect at run time. The proof reads that the key's number has 64 bits.
fn key_fits(key: &Key)
    ensures { FitsKey key.now }
{
    match key {
        Key::Account(_) => {}
        Key::Resource(_, id) => {
            let _id = *id;
        }
        Key::Box(app, _) => {
            let _app = *app;
        }
    }
}

/// The same of the numbers of an asset row.
fn row_fits(row: &Row)
    ensures { FitsRow row.now }
{
    if let Row::Asset(a) = row {
        params_fit(&a.params);
        holding_fits(&a.holding);
    }
}

/// The same of parameters.
fn params_fit(params: &Option<AssetParams>)
    ensures { AssetParamsInRange params.now }
{
    if let Some(p) = params {
        number_fits(p.total);
        number_fits(p.decimals);
    }
}

/// The same of a holding.
fn holding_fits(holding: &Option<Holding>)
    ensures { HoldingInRange holding.now }
{
    if let Some(h) = holding {
        number_fits(h.amount);
    }
}

/// The same of a number.
fn number_fits(n: u64)
    ensures { n < 2 ^ 64 }
{}

/// The verdict on an input.
fn judge(alloc: Global, key: &Key, input: &[u8]) -> Result<Row, RowFault>
    requires { length input.now < 2 ^ 31 }
    ensures { RowMeansUnless key.now input.now result }
{
    let v = match decode(alloc, input) {
        Ok(v) => v,
        Err(DecodeFault::Memory) => return Err(RowFault::Memory),
        Err(fault) => return Err(RowFault::Decode(fault)),
    };
    let row = match read_row(alloc, key, &v) {
        Ok(row) => row,
        Err(ReadError::Fault(Fault::Field { name })) => return Err(RowFault::Field { name }),
        Err(ReadError::Fault(Fault::Range { name })) => return Err(RowFault::Range { name }),
        Err(ReadError::Memory) => return Err(RowFault::Memory),
    };
    if row.is_zero() {
        return Err(RowFault::ZeroRow);
    }
    Ok(row)
}

/// Appends the spelling of a row's record. Nothing is appended where memory is short.
pub fn encode_row(row: &Row, out: &mut Vec<u8>) -> Result<(), AllocError>
    ensures bytes { OnOk result (out.new.items ≡ out.old.items ++ spelled (values.Map (row_written row.now))) }
    // The bytes that it was decoded from.
    ensures back { (key : Key) (input : List ℕ) → IsRow key input row.now → OnOk result (out.new.items ≡ out.old.items ++ input) }
    ensures err { OnErr result (out.new.items ≡ out.old.items) }
{
    let start = out.len();
    match write_row(row, out) {
        Ok(()) => Ok(()),
        Err(error) => {
            out.truncate(start);
            Err(error)
        }
    }
}
