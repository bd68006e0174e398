// How the command `catchpoint` ends.
use crate::chain::{LABEL, blocks, folder, genesis, ran};
use std::test::*;

/// The round, how many blocks are in the file, which call of the folder fails, and what is written
/// with which status. The first two calls read, the others write: two files of rows, what the
/// catchpoint says of itself, 640 blocks, and the label.
const ENDINGS: [(&str, u64, u64, &[u8], u8); 17] = [
    ("640", 640, 0, LABEL, 0),
    ("640", 700, 0, LABEL, 0),
    ("0", 640, 0, b"catchpoint: 2\n", 6),
    ("320", 640, 0, b"catchpoint: 2\n", 6),
    ("641", 640, 0, b"catchpoint: 2\n", 6),
    ("1280", 640, 0, b"catchpoint: 6\n", 6),
    ("640", 639, 0, b"catchpoint: 6\n", 6),
    ("640", 319, 0, b"catchpoint: 6\n", 6),
    ("640", 0, 0, b"catchpoint: 6\n", 6),
    ("640", 640, 1, b"folder: g\n", 4),
    ("640", 640, 2, b"folder: b\n", 4),
    ("640", 640, 3, b"folder: cp-640-rows-0\n", 4),
    ("640", 640, 4, b"folder: cp-640-rows-1\n", 4),
    ("640", 640, 5, b"folder: cp-640-info\n", 4),
    ("640", 640, 6, b"folder: cp-640-block-1\n", 4),
    ("640", 640, 645, b"folder: cp-640-block-640\n", 4),
    ("640", 640, 646, b"folder: cp-640-label\n", 4),
];

#[test]
fn endings(rt: HostRuntime) -> Result<(), Fail> {
    let alloc = rt.alloc();
    let genesis = genesis(alloc)?;
    for (round, count, fails, text, status) in ENDINGS {
        let file = blocks(alloc, &genesis, count)?;
        let mut folder = folder(alloc, &genesis, &file, &[fails])?;
        let (got, written) = ran(alloc, &["catchpoint", "g", "b", round], &mut folder, &[])?;
        assert!(rt;
            got == status && written.as_slice() == text,
            "{round} {count} {fails}: {got}"
        );
    }
    Ok(())
}

/// What stands before the chain's blocks, and behind them, and what comes of it.
const PIECES: [(&[u8], &[u8], &[u8], u8); 3] = [
    (b"\xc0", b"", b"block 1\n", 8),
    (b"", b"\xc0", b"block 641\n", 8),
    (b"", b"\x80", b"block 641\n", 8),
];

#[test]
fn pieces_that_are_refused(rt: HostRuntime) -> Result<(), Fail> {
    let alloc = rt.alloc();
    let genesis = genesis(alloc)?;
    for (front, behind, text, status) in PIECES {
        let mut file = front.to_vec(alloc)?;
        file.extend_from_slice(&blocks(alloc, &genesis, 640)?)?;
        file.extend_from_slice(behind)?;
        let mut folder = folder(alloc, &genesis, &file, &[])?;
        let (got, written) = ran(alloc, &["catchpoint", "g", "b", "640"], &mut folder, &[])?;
        assert!(rt; got == status && written.as_slice() == text, "{got}");
    }
    Ok(())
}

#[test]
fn blocks_that_stand_twice(rt: HostRuntime) -> Result<(), Fail> {
    let alloc = rt.alloc();
    let genesis = genesis(alloc)?;
    let mut file = blocks(alloc, &genesis, 400)?;
    file.extend_from_slice(&blocks(alloc, &genesis, 640)?)?;
    let mut folder = folder(alloc, &genesis, &file, &[])?;
    let (got, written) = ran(alloc, &["catchpoint", "g", "b", "640"], &mut folder, &[])?;
    assert!(rt; got == 0 && written.as_slice() == LABEL);
    Ok(())
}

/// The files that are named, and what comes of them.
const NAMES: [(&str, &str, &[u8], u8); 4] = [
    ("odd", "b", b"genesis: 1\n", 3),
    ("none", "b", b"folder: none\n", 4),
    ("g", "none", b"folder: none\n", 4),
    ("g", "odd", b"block 1\n", 8),
];

#[test]
fn files_that_are_named(rt: HostRuntime) -> Result<(), Fail> {
    let alloc = rt.alloc();
    let genesis = genesis(alloc)?;
    for (first, second, text, status) in NAMES {
        let mut folder = folder(alloc, &genesis, b"", &[])?;
        let words = ["catchpoint", first, second, "640"];
        let (got, written) = ran(alloc, &words, &mut folder, &[])?;
        assert!(rt;
            got == status && written.as_slice() == text,
            "{first} {second}: {got}"
        );
    }
    Ok(())
}

#[test]
fn a_sink_that_fails(rt: HostRuntime) -> Result<(), Fail> {
    let alloc = rt.alloc();
    let genesis = genesis(alloc)?;
    let file = blocks(alloc, &genesis, 640)?;
    let mut folder = folder(alloc, &genesis, &file, &[])?;
    let (got, written) = ran(alloc, &["catchpoint", "g", "b", "640"], &mut folder, &[1])?;
    assert!(rt; got == 5 && written.is_empty());
    assert!(rt; folder.file("cp-640-label") == Some(LABEL));
    Ok(())
}
