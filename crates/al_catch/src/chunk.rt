//! The record of a chunk of rows.
ghost use Rattle.std.specs.Prelude.{◌≡◌, ◌≤◌, ◌++◌, ◌∷◌, [], ℕ, List, length, map, OnErr, OnOk};
ghost use Rattle.al_msgpack.specs.declared.val.Val.TheVariants as values;
ghost use Rattle.al_msgpack.specs.Spelled.{spelled};
ghost use Rattle.al_record.specs.Code.{count_some, put_of};
ghost use Rattle.al_record.specs.Columns.{number_put, put};
ghost use Rattle.al_catch.specs.Decoding.{Holds};
ghost use Rattle.al_catch.specs.Records.{chunk, row_fields, rows_put};

use al_base::Bytes;
use al_msgpack::{Entry, write_map_head};
use al_record::{
    ANY_BYTES, Column, Content, ReadError, Record, Shape, bytes, check, check_fields,
    encode_record, list, number, read_all, write_field, write_listed, write_records,
};
use sqlite_items::Items;
use std::alloc::{AllocError, Global};

/// A row in a file.
#[derive(Debug, Drop)]
pub struct ChunkRow {
    /// The bytes of its key.
    pub key: Bytes,
    /// Its spelling.
    pub spelling: Bytes,
    /// The round that changed it last.
    pub changed: u64,
}

/// Rows in a file.
pub type ChunkRows = Items<ChunkRow>;

/// A chunk of rows.
#[derive(Debug, Drop)]
pub struct Chunk {
    /// Its number, from 0 on.
    pub number: u64,
    /// Its rows, at most 512 of them.
    pub rows: ChunkRows,
}

const ROW: [Column; 3] = [
    Column("k", ANY_BYTES),
    Column("r", ANY_BYTES),
    Column("u", Shape::Number),
];

const CHUNK: [Column; 2] = [Column("k", Shape::Number), Column("rows", Shape::List)];

impl Record for ChunkRow {
    ghost use Rattle.al_catch.specs.Decoding.{Holds};
    ghost use Rattle.al_catch.specs.Records.{row};

    ghost format = { row };

    fn read(alloc: Global, entries: &[Entry]) -> Result<ChunkRow, ReadError> {
        check(alloc, entries, &ROW)?;
        Ok(ChunkRow {
            key: bytes(alloc, entries, "k")?,
            spelling: bytes(alloc, entries, "r")?,
            changed: number(entries, "u"),
        })
    }

    fn write(&self, out: &mut Vec<u8>) -> Result<(), AllocError> {
        write_listed(&ROW, &contents(self), out)
    }
}

/// What stands under each name.
fn contents<'a>(r: &'a ChunkRow) -> [Content<'a>; 3]
    ensures { map put_of result ≡ map (λ f. put f r.now) row_fields }
{
    [
        Content::Bytes(&r.key),
        Content::Bytes(&r.spelling),
        Content::Number(r.changed),
    ]
}

impl Record for Chunk {
    ghost format = { chunk };

    fn read(alloc: Global, entries: &[Entry]) -> Result<Chunk, ReadError> {
        check_fields(alloc, entries, &CHUNK)?;
        let rows = read_all::<ChunkRow>(alloc, list(entries, "rows"))?;
        Ok(Chunk {
            number: number(entries, "k"),
            rows,
        })
    }

    fn write(&self, out: &mut Vec<u8>) -> Result<(), AllocError> {
        write_map_head(count_fields(self), out)?;
        write_field("k", &Content::Number(self.number), out)?;
        write_records("rows", self.rows.as_slice(), out)
    }
}

/// How many fields the record has.
fn count_fields(c: &Chunk) -> usize
    ensures { result ≡ length (chunk.write c.now) }
{
    count_number(c.number) + count_rows(c.rows.as_slice())
}

fn count_number(n: u64) -> usize
    ensures value { result ≡ count_some (number_put n ∷ []) }
    ensures most { result ≤ 1 }
{
    if n == 0 {
        return 0;
    }
    1
}

fn count_rows(rows: &[ChunkRow]) -> usize
    ensures value { result ≡ count_some (rows_put rows.now ∷ []) }
    ensures most { result ≤ 1 }
{
    if rows.is_empty() {
        return 0;
    }
    1
}

/// Appends the spelling of a chunk's record: its number `k` and its rows `rows`, of each its key
/// `k`, its spelling `r` and the round `u` that changed it last, each exactly where it is not zero
/// or empty. Nothing is appended where memory is short.
pub fn encode_chunk(c: &Chunk, out: &mut Vec<u8>) -> Result<(), AllocError>
    ensures bytes { OnOk result (out.new.items ≡ out.old.items ++ spelled (values.Map (chunk.write c.now))) }
    // The bytes that it was decoded from.
    ensures back { (input : List ℕ) → Holds chunk input c.now → OnOk result (out.new.items ≡ out.old.items ++ input) }
    ensures err { OnErr result (out.new.items ≡ out.old.items) }
{
    encode_record(c, out)
}
