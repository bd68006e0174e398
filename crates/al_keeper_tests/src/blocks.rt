//! Blocks in memory.
use al_keeper::{BlockKeeper, KeepFault, MemBlocks, SureBlocks};
use std::process::Abort;
use std::test::*;

/// Whether the blocks have this one of a round, or none.
fn has<R: Abort, B: BlockKeeper>(rt: &R, blocks: &mut B, round: u64, wanted: Option<&[u8]>) {
    match blocks.get(round) {
        Ok(Some(bytes)) => assert!(rt; wanted == Some(bytes.as_slice()), "{round}"),
        Ok(None) => assert!(rt; wanted.is_none(), "{round}"),
        Err(_) => assert!(rt; false),
    }
}

#[test]
fn blocks_of_rounds(rt: HostRuntime) -> Result<(), Fail> {
    let mut blocks = SureBlocks::new(rt.alloc());
    assert_eq!(rt; blocks.span(), Ok(None));
    assert!(rt; blocks.append(5, &[7]).is_ok());
    assert!(rt; blocks.append(6, &[]).is_ok());
    assert_eq!(rt; blocks.span(), Ok(Some((5, 6))));
    has(&rt, &mut blocks, 4, None);
    has(&rt, &mut blocks, 5, Some(&[7]));
    has(&rt, &mut blocks, 6, Some(&[]));
    has(&rt, &mut blocks, 7, None);
    assert!(rt; blocks.clear().is_ok());
    assert_eq!(rt; blocks.span(), Ok(None));
    assert!(rt; blocks.append(1 << 62, &[1, 2]).is_ok());
    assert_eq!(rt; blocks.span(), Ok(Some((1 << 62, 1 << 62))));
    has(&rt, &mut blocks, 1 << 62, Some(&[1, 2]));
    has(&rt, &mut blocks, 5, None);
    Ok(())
}

#[test]
fn calls_that_fail(rt: HostRuntime) -> Result<(), Fail> {
    let mut blocks = MemBlocks::new(rt.alloc(), &[1, 3, 5, 7, 8])?;
    assert_eq!(rt; blocks.append(5, &[7]), Err(KeepFault::Failed));
    assert!(rt; blocks.append(5, &[7]).is_ok());
    assert_eq!(rt; blocks.span(), Err(KeepFault::Failed));
    assert_eq!(rt; blocks.span(), Ok(Some((5, 5))));
    assert_eq!(rt; blocks.clear(), Err(KeepFault::Failed));
    has(&rt, &mut blocks, 5, Some(&[7]));
    assert!(rt; blocks.get(5).is_err());
    let mut blocks = blocks.mend();
    has(&rt, &mut blocks, 5, Some(&[7]));
    assert!(rt; blocks.clear().is_ok());
    has(&rt, &mut blocks, 5, None);
    Ok(())
}
