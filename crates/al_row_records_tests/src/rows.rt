//! Rows from bytes and back, and every fault.
use crate::keys::{ACCOUNT, BOX, RESOURCE, key};
use al_base::{Address, AssetParams, Bytes, Status};
use al_row_records::{RowFault, decode_row, encode_row};
use al_rows::{AccountRow, AppParams, AppRow, AssetRow, BoxRow, Holding, Local, Row};
use std::alloc::{AllocError, Global};
use std::test::*;

/// Whether this is the fault of this number, at the field of this name.
fn is_fault(fault: &RowFault, number: u8, name: &str) -> bool {
    match fault {
        RowFault::Decode(_) => number == 1,
        RowFault::Field { name: found } => number == 2 && found.as_slice() == name.as_bytes(),
        RowFault::Range { name: found } => number == 3 && found.as_slice() == name.as_bytes(),
        RowFault::ZeroRow => number == 4,
        RowFault::Memory => number == 5,
    }
}

/// Whether the row is spelled by these bytes.
fn is_spelled(alloc: Global, row: &Row, bytes: &[u8]) -> Result<bool, AllocError> {
    let mut out = Vec::new(alloc);
    encode_row(row, &mut out)?;
    Ok(out.as_slice() == bytes)
}

/// Each kind of key with an input, the number of its fault (0 for none: it is a row, and spelled so
/// again) and the field.
const CASES: [(u8, &[u8], u8, &str); 75] = [
    // Worked rows of a genesis.
    (ACCOUNT, b"\x81\xa1b\xce\x00&%\xa0", 0, ""),
    (ACCOUNT, b"\x81\xa1a\x02", 0, ""),
    (ACCOUNT, b"\x82\xa1a\x02\xa1b\xce\x00\x01\x86\xa0", 0, ""),
    // Other rows, there and back.
    (ACCOUNT, b"\x81\xa1a\x01", 0, ""),
    (
        ACCOUNT,
        b"\x81\xa1s\xcf\x00\x00\x01\x00\x00\x00\x00\x00",
        0,
        "",
    ),
    (RESOURCE, b"\x82\xa1h\xc3\xa1x\x01", 0, ""),
    (
        RESOURCE,
        b"\x84\xa1a\xcf\xff\xff\xff\xff\xff\xff\xff\xff\xa1h\xc3\xa1x\x01\xa1z\xc3",
        0,
        "",
    ),
    (RESOURCE, b"\x82\xa1p\xc3\xa1x\x01", 0, ""),
    (
        RESOURCE,
        b"\x84\xa1m\xc4 \x02\x02\x02\x02\x02\x02\x02\x02\x02\x02\x02\x02\x02\x02\x02\x02\x02\x02\x02\x02\x02\x02\x02\x02\x02\x02\x02\x02\x02\x02\x02\x02\xa1p\xc3\xa1t\xcf\xff\xff\xff\xff\xff\xff\xff\xff\xa1x\x01",
        0,
        "",
    ),
    (RESOURCE, b"\x83\xa1h\xc3\xa1p\xc3\xa1x\x01", 0, ""),
    (RESOURCE, b"\x82\xa1l\xc3\xa1x\x02", 0, ""),
    (
        RESOURCE,
        b"\x85\xa1l\xc3\xa2os;\xa2ot\xc4\x03own\xa2ou<\xa1x\x02",
        0,
        "",
    ),
    (RESOURCE, b"\x82\xa1p\xc3\xa1x\x02", 0, ""),
    (
        RESOURCE,
        b"\x88\xa2ep\x03\xa2gs?\xa2gu@\xa2ls=\xa2lu>\xa1p\xc3\xa2st\xc4\x05state\xa1x\x02",
        0,
        "",
    ),
    (BOX, b"\x80", 0, ""),
    (BOX, b"\x81\xa1v\xc4\x02ab", 0, ""),
    // No value.
    (ACCOUNT, b"", 1, ""),
    (ACCOUNT, b"\x80\x80", 1, ""),
    (RESOURCE, b"\x81\xa1x", 1, ""),
    (BOX, b"\xc1", 1, ""),
    // No map.
    (ACCOUNT, b"\x01", 2, ""),
    (BOX, b"\xc3", 2, ""),
    // Unknown names: those of another kind are.
    (ACCOUNT, b"\x82\xa1b\x01\xa1t\x01", 2, "t"),
    (ACCOUNT, b"\x82\xa1b\x01\xa1x\x01", 2, "x"),
    (BOX, b"\x81\xa1w\x01", 2, "w"),
    (BOX, b"\x82\xa1v\xc4\x01a\xa1x\x01", 2, "x"),
    (RESOURCE, b"\x83\xa1b\x01\xa1h\xc3\xa1x\x01", 2, "b"),
    (RESOURCE, b"\x83\xa1h\xc3\xa2ou\x01\xa1x\x01", 2, "ou"),
    (RESOURCE, b"\x83\xa1a\x01\xa1l\xc3\xa1x\x02", 2, "a"),
    // Another family.
    (ACCOUNT, b"\x81\xa1b\xc3", 2, "b"),
    (ACCOUNT, b"\x82\xa1a\x01\xa1d\x01", 2, "d"),
    (RESOURCE, b"\x83\xa1a\xc4\x01a\xa1h\xc3\xa1x\x01", 2, "a"),
    (RESOURCE, b"\x83\xa1p\xc3\xa2un\xc4\x01u\xa1x\x01", 2, "un"),
    (RESOURCE, b"\x83\xa1p\xc3\xa2st\xa1s\xa1x\x02", 2, "st"),
    (BOX, b"\x81\xa1v\xa1a", 2, "v"),
    // Zero values.
    (ACCOUNT, b"\x81\xa1b\x00", 2, "b"),
    (
        ACCOUNT,
        b"\x82\xa1a\x01\xa1d\xc4 \x00\x00\x00\x00\x00\x00\x00\x00\x00\x00\x00\x00\x00\x00\x00\x00\x00\x00\x00\x00\x00\x00\x00\x00\x00\x00\x00\x00\x00\x00\x00\x00",
        2,
        "d",
    ),
    (RESOURCE, b"\x83\xa1a\x00\xa1h\xc3\xa1x\x01", 2, "a"),
    (RESOURCE, b"\x83\xa1h\xc3\xa1x\x01\xa1z\xc2", 2, "z"),
    (RESOURCE, b"\x83\xa1p\xc3\xa2un\xa0\xa1x\x01", 2, "un"),
    (RESOURCE, b"\x83\xa1l\xc3\xa2ot\xc4\x00\xa1x\x02", 2, "ot"),
    (BOX, b"\x81\xa1v\xc4\x00", 2, "v"),
    // The kind comes before all others.
    (RESOURCE, b"\x80", 3, "x"),
    (RESOURCE, b"\x82\xa1a\x00\xa1x\x03", 3, "x"),
    (RESOURCE, b"\x82\xa1a\x00\xa1x\x00", 2, "x"),
    (RESOURCE, b"\x81\xa1x\xc3", 2, "x"),
    // Fields of an absent part.
    (RESOURCE, b"\x82\xa1a\x01\xa1x\x01", 2, "a"),
    (RESOURCE, b"\x83\xa1a\x01\xa1h\x01\xa1x\x01", 2, "a"),
    (RESOURCE, b"\x82\xa1h\xc2\xa1x\x01", 2, "h"),
    (RESOURCE, b"\x82\xa1h\x01\xa1x\x01", 2, "h"),
    (RESOURCE, b"\x83\xa1h\xc3\xa1t\x01\xa1x\x01", 2, "t"),
    (RESOURCE, b"\x83\xa1p\xc3\xa1x\x01\xa1z\xc3", 2, "z"),
    (RESOURCE, b"\x83\xa1p\x01\xa1t\x01\xa1x\x01", 2, "p"),
    (RESOURCE, b"\x82\xa2ou\x01\xa1x\x02", 2, "ou"),
    (RESOURCE, b"\x83\xa2gu\x01\xa1l\xc3\xa1x\x02", 2, "gu"),
    (RESOURCE, b"\x83\xa2ot\xc4\x01a\xa1p\xc3\xa1x\x02", 2, "ot"),
    // Ranges.
    (ACCOUNT, b"\x81\xa1a\x03", 3, "a"),
    (ACCOUNT, b"\x81\xa1b\xcf\x00#\x86\xf2o\xc1\x00\x01", 3, "b"),
    (
        ACCOUNT,
        b"\x82\xa1b\x01\xa1d\xc4\x1f\x00\x00\x00\x00\x00\x00\x00\x00\x00\x00\x00\x00\x00\x00\x00\x00\x00\x00\x00\x00\x00\x00\x00\x00\x00\x00\x00\x00\x00\x00\x00",
        3,
        "d",
    ),
    (ACCOUNT, b"\x82\xa1b\x01\xa1e\xc4\x00", 3, "e"),
    (
        ACCOUNT,
        b"\x82\xa1b\x01\xa1g\xc4 \x01\x01\x01\x01\x01\x01\x01\x01\x01\x01\x01\x01\x01\x01\x01\x01\x01\x01\x01\x01\x01\x01\x01\x01\x01\x01\x01\x01\x01\x01\x01\x01",
        3,
        "g",
    ),
    (
        ACCOUNT,
        b"\x81\xa1k\xcf\x00\x00\x01\x00\x00\x00\x00\x01",
        3,
        "k",
    ),
    (
        ACCOUNT,
        b"\x81\xa1s\xcf\x00\x00\x01\x00\x00\x00\x00\x01",
        3,
        "s",
    ),
    (RESOURCE, b"\x83\xa1m\xc4\x01\x01\xa1p\xc3\xa1x\x01", 3, "m"),
    (RESOURCE, b"\x83\xa1l\xc3\xa2ouA\xa1x\x02", 3, "ou"),
    (RESOURCE, b"\x83\xa1l\xc3\xa2osA\xa1x\x02", 3, "os"),
    (RESOURCE, b"\x83\xa2ep\x04\xa1p\xc3\xa1x\x02", 3, "ep"),
    (RESOURCE, b"\x83\xa2lsA\xa1p\xc3\xa1x\x02", 3, "ls"),
    // A field before a range, and the first range.
    (ACCOUNT, b"\x82\xa1a\x03\xa1t\x01", 2, "t"),
    (
        ACCOUNT,
        b"\x82\xa1a\x03\xa1b\xcf\x00#\x86\xf2o\xc1\x00\x01",
        3,
        "a",
    ),
    (
        RESOURCE,
        b"\x85\xa2ep\x04\xa1l\xc3\xa2ouA\xa1p\xc3\xa1x\x02",
        3,
        "ep",
    ),
    // Rows that say nothing.
    (ACCOUNT, b"\x80", 4, ""),
    (ACCOUNT, b"\x81\xa1c\x05", 4, ""),
    (RESOURCE, b"\x81\xa1x\x01", 4, ""),
    (RESOURCE, b"\x81\xa1x\x02", 4, ""),
];

/// Whether the input under a key of this kind has the fault of this number at this field, or is a
/// row that is spelled so again where the number is 0.
fn holds(
    alloc: Global,
    kind: u8,
    input: &[u8],
    number: u8,
    name: &str,
) -> Result<bool, AllocError> {
    if input.len() > 100_000 {
        return Ok(false);
    }
    let Some(key) = key(kind) else {
        return Ok(false);
    };
    match decode_row(alloc, &key, input) {
        Ok(row) => Ok(number == 0 && is_spelled(alloc, &row, input)?),
        Err(fault) => Ok(is_fault(&fault, number, name)),
    }
}

#[test]
fn rows_and_faults(rt: HostRuntime) -> Result<(), Fail> {
    for (kind, input, number, name) in CASES {
        assert!(rt;
            holds(rt.alloc(), kind, input, number, name)?,
            "{kind} {input:?}"
        );
    }
    Ok(())
}

/// Whether the input is this row under a key of this kind, and is what it is spelled as.
fn says(alloc: Global, kind: u8, input: &[u8], row: &Row) -> Result<bool, AllocError> {
    if input.len() > 100_000 {
        return Ok(false);
    }
    let Some(key) = key(kind) else {
        return Ok(false);
    };
    match decode_row(alloc, &key, input) {
        Ok(found) => Ok(found == *row && is_spelled(alloc, row, input)?),
        Err(_) => Ok(false),
    }
}

/// An account row with every field.
const WHOLE_ACCOUNT: &[u8; 312] =
    b"\xde\x00\x13\xa1a\x01\xa1b\xcf\x00#\x86\xf2o\xc1\x00\x00\xa1c\xcf\xff\xff\xff\xff\xff\xff\xff\xff\xa1d\xc4 \x04\x04\x04\x04\x04\x04\x04\x04\x04\x04\x04\x04\x04\x04\x04\x04\x04\x04\x04\x04\x04\x04\x04\x04\x04\x04\x04\x04\x04\x04\x04\x04\xa1e\xc4 \x05\x05\x05\x05\x05\x05\x05\x05\x05\x05\x05\x05\x05\x05\x05\x05\x05\x05\x05\x05\x05\x05\x05\x05\x05\x05\x05\x05\x05\x05\x05\x05\xa1f\xc4 \x06\x06\x06\x06\x06\x06\x06\x06\x06\x06\x06\x06\x06\x06\x06\x06\x06\x06\x06\x06\x06\x06\x06\x06\x06\x06\x06\x06\x06\x06\x06\x06\xa1g\xc4@\x07\x07\x07\x07\x07\x07\x07\x07\x07\x07\x07\x07\x07\x07\x07\x07\x07\x07\x07\x07\x07\x07\x07\x07\x07\x07\x07\x07\x07\x07\x07\x07\x07\x07\x07\x07\x07\x07\x07\x07\x07\x07\x07\x07\x07\x07\x07\x07\x07\x07\x07\x07\x07\x07\x07\x07\x07\x07\x07\x07\x07\x07\x07\x07\xa1h\x08\xa1i\x09\xa1j\x0a\xa1k\xcf\x00\x00\x01\x00\x00\x00\x00\x00\xa1l\xcf\x00\x00\x00\xff\xff\xff\xff\xff\xa1m\xcf\x00\x00\x00\xff\xff\xff\xff\xfe\xa1n\xcf\x00\x00\x00\xff\xff\xff\xff\xfd\xa1o\xcf\x00\x00\x00\xff\xff\xff\xff\xfc\xa1p\xcf\x00\x00\x00\xff\xff\xff\xff\xfb\xa1q\xcf\x00\x00\x00\xff\xff\xff\xff\xfa\xa1r\xcf\x00\x00\x00\xff\xff\xff\xff\xf9\xa1s\xcf\x00\x00\x00\xff\xff\xff\xff\xf8";

#[test]
fn accounts(rt: HostRuntime) -> Result<(), Fail> {
    let row = Row::Account(AccountRow {
        status: Status::Online,
        balance: 10_000_000_000_000_000,
        base: u64::MAX,
        auth: Address([4; 32]),
        vote: [5; 32],
        selection: [6; 32],
        sprf: [7; 64],
        first: 8,
        last: 9,
        dilution: 10,
        assets_held: 1 << 40,
        assets_created: (1 << 40) - 1,
        apps_created: (1 << 40) - 2,
        apps_opted: (1 << 40) - 3,
        extra_pages: (1 << 40) - 4,
        uints: (1 << 40) - 5,
        byte_slices: (1 << 40) - 6,
        boxes: (1 << 40) - 7,
        box_bytes: (1 << 40) - 8,
    });
    assert!(rt; says(rt.alloc(), ACCOUNT, WHOLE_ACCOUNT, &row)?);
    Ok(())
}

/// An asset row with every field.
const WHOLE_ASSET: &[u8; 246] =
    b"\xde\x00\x10\xa1a\xcf\xff\xff\xff\xff\xff\xff\xff\xff\xa2am\xc4 \x01\x01\x01\x01\x01\x01\x01\x01\x01\x01\x01\x01\x01\x01\x01\x01\x01\x01\x01\x01\x01\x01\x01\x01\x01\x01\x01\x01\x01\x01\x01\x01\xa2an\xa4name\xa2au\xa3url\xa1c\xc4 \x05\x05\x05\x05\x05\x05\x05\x05\x05\x05\x05\x05\x05\x05\x05\x05\x05\x05\x05\x05\x05\x05\x05\x05\x05\x05\x05\x05\x05\x05\x05\x05\xa2dc\x13\xa2df\xc3\xa1f\xc4 \x04\x04\x04\x04\x04\x04\x04\x04\x04\x04\x04\x04\x04\x04\x04\x04\x04\x04\x04\x04\x04\x04\x04\x04\x04\x04\x04\x04\x04\x04\x04\x04\xa1h\xc3\xa1m\xc4 \x02\x02\x02\x02\x02\x02\x02\x02\x02\x02\x02\x02\x02\x02\x02\x02\x02\x02\x02\x02\x02\x02\x02\x02\x02\x02\x02\x02\x02\x02\x02\x02\xa1p\xc3\xa1r\xc4 \x03\x03\x03\x03\x03\x03\x03\x03\x03\x03\x03\x03\x03\x03\x03\x03\x03\x03\x03\x03\x03\x03\x03\x03\x03\x03\x03\x03\x03\x03\x03\x03\xa1t\xcf\xff\xff\xff\xff\xff\xff\xff\xff\xa2un\xa1u\xa1x\x01\xa1z\xc3";

#[test]
fn assets(rt: HostRuntime) -> Result<(), Fail> {
    let row = Row::Asset(AssetRow {
        params: Some(AssetParams {
            total: u64::MAX,
            decimals: 19,
            default_frozen: true,
            unit: Bytes::of(rt.alloc(), b"u")?,
            name: Bytes::of(rt.alloc(), b"name")?,
            url: Bytes::of(rt.alloc(), b"url")?,
            meta: [1; 32],
            manager: Address([2; 32]),
            reserve: Address([3; 32]),
            freeze: Address([4; 32]),
            clawback: Address([5; 32]),
        }),
        holding: Some(Holding {
            amount: u64::MAX,
            frozen: true,
        }),
    });
    assert!(rt; says(rt.alloc(), RESOURCE, WHOLE_ASSET, &row)?);
    Ok(())
}

/// An application row with every field.
const WHOLE_APP: &[u8; 56] =
    b"\x8c\xa2ep\x03\xa2gs?\xa2gu@\xa1l\xc3\xa2ls=\xa2lu>\xa2os;\xa2ot\xc4\x03own\xa2ou<\xa1p\xc3\xa2st\xc4\x05state\xa1x\x02";

#[test]
fn applications(rt: HostRuntime) -> Result<(), Fail> {
    let row = Row::App(AppRow {
        params: Some(AppParams {
            global_uints: 64,
            global_slices: 63,
            local_uints: 62,
            local_slices: 61,
            extra_pages: 3,
            state: Bytes::of(rt.alloc(), b"state")?,
        }),
        local: Some(Local {
            uints: 60,
            slices: 59,
            state: Bytes::of(rt.alloc(), b"own")?,
        }),
    });
    assert!(rt; says(rt.alloc(), RESOURCE, WHOLE_APP, &row)?);
    Ok(())
}

/// The record of a box whose value has so many bytes, at least 256.
fn box_of(alloc: Global, len: u16) -> Result<Vec<u8>, AllocError> {
    let [high, low] = len.to_be_bytes();
    let mut out = Vec::new(alloc);
    out.extend_from_slice(&[0x81, 0xa1, b'v', 0xc5, high, low])?;
    for _ in 0..len {
        out.push(1)?;
    }
    Ok(out)
}

// The longest value of a box, and one that is longer.
#[test]
fn boxes(rt: HostRuntime) -> Result<(), Fail> {
    for (len, number) in [(32_768, 0), (32_769, 3)] {
        let input = box_of(rt.alloc(), len)?;
        assert!(rt; holds(rt.alloc(), BOX, &input, number, "v")?, "{len}");
    }
    let row = Row::Box(BoxRow {
        value: Bytes::of(rt.alloc(), b"ab")?,
    });
    assert!(rt; says(rt.alloc(), BOX, b"\x81\xa1v\xc4\x02ab", &row)?);
    Ok(())
}
