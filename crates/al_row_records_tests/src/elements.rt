//! Elements of rows, worked by a program of its own (`tools/elements.py`).
use crate::keys::{ACCOUNT, BOX, LONG_BOX, RESOURCE, key};
use al_row_records::{decode_row, element};
use al_rows::Stored;
use std::alloc::{AllocError, Global};
use std::test::*;

/// Each key by its number, what spells the row under it, the round that changed the row last, and
/// its element.
const CASES: [(u8, &[u8], u64, &[u8; 36]); 8] = [
    // A balance of 2,500,000.
    (
        ACCOUNT,
        b"\x81\xa1b\xce\x00&%\xa0",
        0,
        b"\x00\x00\x00\x00\x00\x08\xbf\x07\xaa\x0a\xea\x9c\x23\xd6\xe5\x16\x68\x45\x76\x3d\xe6\xc6\x9c\xea\x93\x91\x88\x6a\x47\xba\x6c\xef\x75\xb6\xe7\x22",
    ),
    // The same, changed in round 258.
    (
        ACCOUNT,
        b"\x81\xa1b\xce\x00&%\xa0",
        258,
        b"\x00\x00\x01\x02\x00\x08\xbf\x07\xaa\x0a\xea\x9c\x23\xd6\xe5\x16\x68\x45\x76\x3d\xe6\xc6\x9c\xea\x93\x91\x88\x6a\x47\xba\x6c\xef\x75\xb6\xe7\x22",
    ),
    // The same, changed in round 2^32 + 1.
    (
        ACCOUNT,
        b"\x81\xa1b\xce\x00&%\xa0",
        (1 << 32) + 1,
        b"\x00\x00\x00\x01\x00\x08\xbf\x07\xaa\x0a\xea\x9c\x23\xd6\xe5\x16\x68\x45\x76\x3d\xe6\xc6\x9c\xea\x93\x91\x88\x6a\x47\xba\x6c\xef\x75\xb6\xe7\x22",
    ),
    // The same, changed in the last round.
    (
        ACCOUNT,
        b"\x81\xa1b\xce\x00&%\xa0",
        u64::MAX,
        b"\xff\xff\xff\xff\x00\x08\xbf\x07\xaa\x0a\xea\x9c\x23\xd6\xe5\x16\x68\x45\x76\x3d\xe6\xc6\x9c\xea\x93\x91\x88\x6a\x47\xba\x6c\xef\x75\xb6\xe7\x22",
    ),
    // A holding of an asset.
    (
        RESOURCE,
        b"\x83\xa1a\x07\xa1h\xc3\xa1x\x01",
        0x0102_0304,
        b"\x01\x02\x03\x04\x01\x00\x62\xb1\x42\xed\x80\xfc\x27\xc3\xa3\xe8\x7c\xe2\xe4\xd1\x70\x56\x51\x8e\x95\xc7\x08\x69\x3d\x35\x10\x0a\xac\xab\x02\x90",
    ),
    // A local state of an application.
    (
        RESOURCE,
        b"\x83\xa1l\xc3\xa2ot\xc4\x03own\xa1x\x02",
        0x0102_0304,
        b"\x01\x02\x03\x04\x02\x09\x73\x9e\xc4\x38\xc6\x4f\xc3\xf4\x2e\x6f\xc9\xa8\xc4\xdd\x3c\x8f\xd3\xac\x2c\xc8\x6d\xb4\x8d\x6a\x52\xa3\xe2\x51\x72\x4b",
    ),
    // A box.
    (
        BOX,
        b"\x81\xa1v\xc4\x02ab",
        0x0102_0304,
        b"\x01\x02\x03\x04\x03\x23\x0e\x02\x67\xdf\x11\x85\x20\xc5\xd1\x24\xa2\x4f\x59\xef\x05\xda\x7c\xa2\xed\x86\x51\x59\x60\x3b\x64\x3e\xaa\xd6\x6a\xa4",
    ),
    // A box with the longest name.
    (
        LONG_BOX,
        b"\x80",
        1,
        b"\x00\x00\x00\x01\x03\x50\x49\x83\xfe\x4b\x5c\x31\x00\x14\x2a\x47\x00\x3a\xa4\x81\x25\x6a\x8a\xa5\x99\x81\x8d\x16\x25\x6e\xc4\xce\xee\xa1\x4b\x13",
    ),
];

/// Whether these bytes are the element of the row that is spelled so.
fn stands_as(
    alloc: Global,
    number: u8,
    input: &[u8],
    changed: u64,
    expected: &[u8; 36],
) -> Result<bool, AllocError> {
    if input.len() > 100_000 {
        return Ok(false);
    }
    let Some(key) = key(number) else {
        return Ok(false);
    };
    let Ok(row) = decode_row(alloc, &key, input) else {
        return Ok(false);
    };
    let stored = Stored { row, changed };
    Ok(element(alloc, &key, &stored)? == *expected)
}

#[test]
fn elements(rt: HostRuntime) -> Result<(), Fail> {
    for (number, input, changed, expected) in CASES {
        assert!(rt;
            stands_as(rt.alloc(), number, input, changed, expected)?,
            "{number} {input:?} {changed}"
        );
    }
    Ok(())
}
