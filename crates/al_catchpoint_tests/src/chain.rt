// A chain of empty blocks over 513 rows, with a catchpoint each 640 rounds: that of
// `tools/plain_chain.py FOLDER 511 640 0 640`.
use al_base::{Address, Addresses, Bytes, Files, Hash, MemFolder, MemSink, MemSource, NamedFile};
use al_block::{Block, Header, encode_block, header_hash, payset_hash};
use al_digest::{Prefix, digest};
use al_session::{Words, run};
use al_txn::Items;
use std::alloc::{AllocError, Global};

/// The label of round 640, which an independent program computed.
pub(crate) const LABEL: &[u8] = b"640#KTLEUWUJBIY5U6PP72566YCI3VRM3BH2BDZK7X6GMX4VCMWZLR3Q\n";

const SINK: Address = Address([1; 32]);

const POOL: Address = Address([2; 32]);

/// The records of rows: a user's with 1,000,000,000 microAlgos, the sink's and the pool's.
const USER_ROW: &[u8] = b"\x81\xa1b\xce\x3b\x9a\xca\x00";

const SINK_ROW: &[u8] = b"\x81\xa1a\x02";

const POOL_ROW: &[u8] = b"\x82\xa1a\x02\xa1b\xce\x00\x01\x86\xa0";

fn put_account(out: &mut Vec<u8>, who: &[u8; 32], row: &[u8]) -> Result<(), AllocError> {
    out.extend_from_slice(b"\x82\xa4addr\xc4 ")?;
    out.extend_from_slice(who)?;
    out.extend_from_slice(b"\xa3row")?;
    out.extend_from_slice(row)
}

// Users of these numbers.
fn put_users(out: &mut Vec<u8>, from: u16, to: u16) -> Result<(), AllocError> {
    for user in from..to {
        let mut who = [7; 32];
        let number = user.to_be_bytes();
        who[0] = number[0];
        who[1] = number[1];
        put_account(out, &who, USER_ROW)?;
    }
    Ok(())
}

/// The genesis: 511 users, the sink and the pool, in the order of their addresses.
pub(crate) fn genesis(alloc: Global) -> Result<Vec<u8>, AllocError> {
    let mut out = Vec::new(alloc);
    out.extend_from_slice(b"\x85\xa5alloc\xdc\x02\x01")?;
    put_users(&mut out, 1, 257)?;
    put_account(&mut out, &SINK.0, SINK_ROW)?;
    put_users(&mut out, 257, 512)?;
    put_account(&mut out, &POOL.0, POOL_ROW)?;
    out.extend_from_slice(b"\xa3cpi\xcd\x02\x80\xa4fees\xc4 ")?;
    out.extend_from_slice(&SINK.0)?;
    out.extend_from_slice(b"\xa2id\xa5bench\xa3rwd\xc4 ")?;
    out.extend_from_slice(&POOL.0)?;
    Ok(out)
}

fn header(alloc: Global, round: u64, prev: Hash, genesis_hash: Hash, recalc: u64) -> Header {
    Header {
        round,
        prev,
        ts: 0,
        genesis_hash,
        sink: SINK,
        pool: POOL,
        level: 0,
        rate: 0,
        residue: 0,
        recalc,
        counter: 0,
        payset: [0; 32],
        expired: Addresses::new(alloc),
    }
}

/// The first blocks of the chain of a genesis, one after the other.
pub(crate) fn blocks(alloc: Global, genesis: &[u8], count: u64) -> Result<Vec<u8>, AllocError> {
    let hash = digest(Prefix::Genesis, genesis);
    let mut out = Vec::new(alloc);
    let mut prev = header_hash(alloc, &header(alloc, 0, [0; 32], hash, 1))?;
    for i in 0..count {
        let mut block = Block {
            header: header(alloc, i + 1, prev, hash, 500_001),
            items: Items::new(alloc),
        };
        block.header.payset = payset_hash(alloc, &block)?;
        prev = header_hash(alloc, &block.header)?;
        encode_block(&block, &mut out)?;
    }
    Ok(out)
}

fn put(alloc: Global, files: &mut Files, name: &[u8], bytes: &[u8]) -> Result<(), AllocError> {
    let name = Bytes::of(alloc, name)?;
    let bytes = Bytes::of(alloc, bytes)?;
    files.push(NamedFile { name, bytes })?;
    Ok(())
}

/// A folder with the genesis `g`, the blocks `b`, and `odd`, which is neither.
pub(crate) fn folder(
    alloc: Global,
    genesis: &[u8],
    blocks: &[u8],
    fails: &[u64],
) -> Result<MemFolder, AllocError> {
    let mut files = Files::new(alloc);
    put(alloc, &mut files, b"g", genesis)?;
    put(alloc, &mut files, b"b", blocks)?;
    put(alloc, &mut files, b"odd", b"\xc0")?;
    MemFolder::new(alloc, files, fails)
}

/// The status of a command, and what it wrote. The calls of the sink of these numbers fail.
pub(crate) fn ran(
    alloc: Global,
    texts: &[&str],
    folder: &mut MemFolder,
    fails: &[u64],
) -> Result<(u8, Vec<u8>), AllocError> {
    let mut words = Words::new(alloc);
    for text in texts {
        words.push(alloc, text)?;
    }
    let mut source = MemSource::new(alloc, b"", &[])?;
    let mut sink = MemSink::new(alloc, b"", fails)?;
    let status = run(alloc, &words, &mut source, &mut sink, folder);
    Ok((status.0, sink.bytes().to_vec(alloc)?))
}
