use al_generator::generated_genesis;
use al_genesis::Genesis;
use std::alloc::{AllocError, Global};
use std::test::*;

// Appends an account whose address is 32 bytes alike.
fn put_account(byte: u8, row: &[u8], out: &mut Vec<u8>) -> Result<(), AllocError> {
    out.extend_from_slice(b"\x82\xa4addr\xc4\x20")?;
    out.extend_from_slice(&[byte; 32])?;
    out.extend_from_slice(b"\xa3row")?;
    out.extend_from_slice(row)
}

// The genesis record, spelled by hand.
fn spelled(alloc: Global) -> Result<Vec<u8>, AllocError> {
    let mut out = Vec::new(alloc);
    out.extend_from_slice(b"\x86\xa5alloc\xdc\x00\x22")?;
    put_account(1, b"\x82\xa1a\x02\xa1b\xce\x00\x0f\x42\x40", &mut out)?;
    put_account(2, b"\x82\xa1a\x02\xa1b\xce\x3b\x9a\xca\x00", &mut out)?;
    for user in 16..48 {
        put_account(
            user,
            b"\x81\xa1b\xcf\x00\x00\x00\xe8\xd4\xa5\x10\x00",
            &mut out,
        )?;
    }
    out.extend_from_slice(b"\xa3cpi\xcd\x03\x20\xa4fees\xc4\x20")?;
    out.extend_from_slice(&[1; 32])?;
    out.extend_from_slice(b"\xa2id\xa3gen\xa4intv\x64\xa3rwd\xc4\x20")?;
    out.extend_from_slice(&[2; 32])?;
    Ok(out)
}

#[test]
fn is_decoded(rt: HostRuntime) -> Result<(), Fail> {
    let bytes = spelled(rt.alloc())?;
    assert_eq!(rt; bytes.len(), 2009);
    let decoded = Genesis::decode(rt.alloc(), bytes.as_slice())
        .ok()
        .ok_or("a genesis")?;
    let made = generated_genesis(rt.alloc())?;
    assert_eq!(rt; made.chain.hash, decoded.chain.hash);
    assert_eq!(rt; made.chain.special, decoded.chain.special);
    assert_eq!(rt; made.chain.id, decoded.chain.id);
    assert_eq!(rt; made.chain.interval, decoded.chain.interval);
    assert_eq!(rt; made.chain.catch_interval, decoded.chain.catch_interval);
    assert_eq!(rt; made.header.genesis_hash, decoded.header.genesis_hash);
    assert_eq!(rt; made.header.recalc, decoded.header.recalc);
    assert!(rt; made.accounts.as_slice() == decoded.accounts.as_slice());
    Ok(())
}
