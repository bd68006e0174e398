//! The records of files. Their bytes come from tools/labels.py.

use al_base::Bytes;
use al_catch::{
    CatchInfo, Chunk, ChunkRow, ChunkRows, FileFault, decode_chunk, decode_info, encode_chunk,
    encode_info,
};
use al_rewards::Totals;
use std::alloc::{AllocError, Global};
use std::test::*;

const FIRST: &[u8] =
    b"\x81\xa4\x72\x6f\x77\x73\x92\x82\xa1\x6b\xc4\x02\x00\x01\xa1\x72\xc4\x01\x81\x83\xa1\x6b\xc4\x01\x02\xa1\x72\xc4\x01\x80\xa1\x75\xcd\x01\x2c";

const FOURTH: &[u8] =
    b"\x82\xa1\x6b\x03\xa4\x72\x6f\x77\x73\x91\x83\xa1\x6b\xc4\x01\x07\xa1\x72\xc4\x01\x09\xa1\x75\x01";

const INFO: &[u8] =
    b"\x83\xa1\x63\x02\xa1\x64\xcd\x01\x40\xa1\x74\x83\xa2\x66\x6d\xce\x00\x4c\x4b\x40\xa1\x6c\x07\xa2\x6e\x75\xcd\x01\x2c";

const EMPTY: &[u8] = b"\x82\xa1\x63\x01\xa1\x64\x01";

/// A row.
fn row(alloc: Global, key: &[u8], spelling: &[u8], changed: u64) -> Result<ChunkRow, AllocError> {
    Ok(ChunkRow {
        key: Bytes::of(alloc, key)?,
        spelling: Bytes::of(alloc, spelling)?,
        changed,
    })
}

#[test]
fn chunks(rt: HostRuntime) -> Result<(), Fail> {
    let alloc = rt.alloc();
    let mut rows = ChunkRows::new(alloc);
    rows.push(row(alloc, &[0, 1], &[0x81], 0)?)?;
    rows.push(row(alloc, &[2], &[0x80], 300)?)?;
    let mut out = Vec::new(alloc);
    encode_chunk(&Chunk { number: 0, rows }, &mut out)?;
    assert!(rt; out.as_slice() == FIRST);
    let Ok(chunk) = decode_chunk(alloc, FOURTH) else {
        return Err(Fail::from("no chunk"));
    };
    assert_eq!(rt; chunk.number, 3);
    assert_eq!(rt; chunk.rows.as_slice().len(), 1);
    assert_eq!(rt; chunk.rows.as_slice()[0].changed, 1);
    Ok(())
}

#[test]
fn infos(rt: HostRuntime) -> Result<(), Fail> {
    let alloc = rt.alloc();
    let mut totals = Totals::new(7);
    totals.offline.money = 5_000_000;
    totals.online.units = 300;
    let full = CatchInfo {
        chunks: 2,
        round: 320,
        totals,
    };
    let bare = CatchInfo {
        chunks: 1,
        round: 1,
        totals: Totals::new(0),
    };
    for (info, bytes) in [(full, INFO), (bare, EMPTY)] {
        let mut out = Vec::new(alloc);
        encode_info(&info, &mut out)?;
        assert!(rt; out.as_slice() == bytes);
        assert!(rt; is_info(decode_info(alloc, bytes), &info));
    }
    Ok(())
}

/// Whether this was read.
fn is_info(read: Result<CatchInfo, FileFault>, info: &CatchInfo) -> bool {
    match read {
        Ok(found) => found == *info,
        Err(_) => false,
    }
}
