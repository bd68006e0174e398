//! The record of a block.
ghost use Rattle.std.specs.Prelude.{◌≡◌, ◌≤◌, ◌∷◌, [], length, IsTrue};
ghost use Rattle.al_record.specs.Canonical.{are_canonical};
ghost use Rattle.al_record.specs.Columns.{map_put};
ghost use Rattle.al_record.specs.Code.{count_some};
ghost use Rattle.al_block.specs.Block.{block, items_put};
ghost use Rattle.al_block.specs.Header.{header};

use crate::header_record::read_header;
use crate::{Block, Header};
use al_msgpack::{Entry, write_map_head};
use al_record::{
    Column, InnerRecord, ReadError, Record, Shape, check_fields, list, map, read_all, write_record,
    write_records,
};
use al_txn::Item;
use std::alloc::{AllocError, Global};

const BLOCK: [Column; 2] = [Column("b", Shape::Map), Column("t", Shape::List)];

impl Record for Block {
    ghost format = { block };

    fn read(alloc: Global, entries: &[Entry]) -> Result<Block, ReadError> {
        check_fields(alloc, entries, &BLOCK)?;
        let header = read_header(alloc, map(entries, "b"))?;
        let items = read_all::<Item>(alloc, list(entries, "t"))?;
        Ok(Block { header, items })
    }

    fn write(&self, out: &mut Vec<u8>) -> Result<(), AllocError> {
        write_map_head(count_fields(self), out)?;
        write_record("b", &self.header, out)?;
        write_records("t", self.items.as_slice(), out)
    }
}

/// How many fields the record has.
fn count_fields(b: &Block) -> usize
    ensures { result ≡ length (block.write b.now) }
{
    count_header(&b.header) + count_items(b.items.as_slice())
}

fn count_header(h: &Header) -> usize
    ensures value { result ≡ count_some (map_put (header.write h.now) ∷ []) }
    ensures most { result ≤ 1 }
{
    if h.is_empty() {
        return 0;
    }
    1
}

fn count_items(items: &[Item]) -> usize
    ensures value { result ≡ count_some (items_put items.now ∷ []) }
    ensures most { result ≤ 1 }
{
    if items.is_empty() {
        return 0;
    }
    1
}
