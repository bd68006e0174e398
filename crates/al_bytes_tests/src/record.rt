//! Tests of al_record: first faults, and what is written.
use al_base::{Address, Bytes};
use al_msgpack::{Val, decode, write};
use al_record::{
    ANY_BYTES, Column, Content, Fault, HASH, ReadError, Shape, addresses, check, count_written,
    listed, write_field, write_inner, write_listed,
};
use std::test::*;

const TABLE: [Column; 5] = [
    Column("a", Shape::UpTo { most: 10 }),
    Column("b", Shape::Bytes { least: 2, most: 4 }),
    Column("c", Shape::Flag),
    Column("d", Shape::Addresses { most: 2 }),
    Column("t", Shape::Text),
];

/// The fault's number, 1 for Field and 2 for Range, and the first byte of its name.
fn seen(answer: &Result<(), ReadError>) -> (u8, u8) {
    match answer {
        Ok(()) => (0, 0),
        Err(ReadError::Fault(Fault::Field { name })) => (1, *name.get(0).unwrap_or(&0)),
        Err(ReadError::Fault(Fault::Range { name })) => (2, *name.get(0).unwrap_or(&0)),
        Err(ReadError::Memory) => (3, 0),
    }
}

#[test]
fn first_faults(rt: HostRuntime) -> Result<(), Fail> {
    let cases: [(&[u8], (u8, u8)); 9] = [
        // {"a": 10, "b": 2 bytes, "c": true, "t": "x"}
        (
            b"\x84\xa1a\x0a\xa1b\xc4\x02\x00\x00\xa1c\xc3\xa1t\xa1x",
            (0, 0),
        ),
        // A number that is too large, and one of the wrong family.
        (b"\x82\xa1a\x0b\xa1b\xc4\x02\x00\x00", (2, b'a')),
        (b"\x82\xa1a\xa1x\xa1b\xc4\x02\x00\x00", (1, b'a')),
        // Any Field fault stands before each Range fault.
        (b"\x83\xa1a\x0b\xa1b\xc4\x02\x00\x00\xa1z\x01", (1, b'z')),
        // Zero values are left out.
        (b"\x82\xa1b\xc4\x02\x00\x00\xa1c\xc2", (1, b'c')),
        (b"\x82\xa1b\xc4\x02\x00\x00\xa1t\xa0", (1, b't')),
        // Absent bytes have length 0, which is below the least.
        (b"\x80", (2, b'b')),
        (b"\x81\xa1b\xc4\x05\x00\x00\x00\x00\x00", (2, b'b')),
        // A member that is no address.
        (b"\x82\xa1b\xc4\x02\x00\x00\xa1d\x91\x01", (2, b'd')),
    ];
    for (input, want) in cases {
        assert!(rt; input.len() < 1000);
        if let Val::Map(entries) = decode(rt.alloc(), input)? {
            let answer = check(rt.alloc(), entries.as_slice(), &TABLE);
            assert_eq!(rt; seen(&answer), want, "{input:?}");
        }
    }
    Ok(())
}

#[test]
fn written(rt: HostRuntime) -> Result<(), Fail> {
    let empty = Bytes::of(rt.alloc(), b"")?;
    let contents = [
        Content::Number(0),
        Content::Bytes(&empty),
        Content::Flag(true),
        Content::Addresses(&[]),
        Content::Word("x"),
    ];
    let entries = listed(rt.alloc(), &TABLE, &contents)?;
    let mut out = Vec::new(rt.alloc());
    write(&Val::Map(entries), &mut out)?;
    assert_eq!(rt; out.as_slice(), b"\x82\xa1c\xc3\xa1t\xa1x".as_slice());
    Ok(())
}

const ALL: [Column; 9] = [
    Column("a", Shape::Number),
    Column("b", Shape::Flag),
    Column("c", Shape::Text),
    Column("d", Shape::Text),
    Column("e", ANY_BYTES),
    Column("f", ANY_BYTES),
    Column("g", HASH),
    Column("h", Shape::Array { len: 64 }),
    Column("i", Shape::Addresses { most: 2 }),
];

// Each kind of content straight into the output, and none of the zero ones.
#[test]
fn written_straight(rt: HostRuntime) -> Result<(), Fail> {
    let text = Bytes::of(rt.alloc(), b"yz")?;
    let contents = [
        Content::Number(200),
        Content::Flag(true),
        Content::Word("x"),
        Content::Text(&text),
        Content::Bytes(&text),
        Content::Slice(b"q"),
        Content::Array(&[7; 32]),
        Content::Wide(&[0; 64]),
        Content::Addresses(&[]),
    ];
    let mut out = Vec::new(rt.alloc());
    write_listed(&ALL, &contents, &mut out)?;
    let want =
        b"\x87\xa1a\xcc\xc8\xa1b\xc3\xa1c\xa1x\xa1d\xa2yz\xa1e\xc4\x02yz\xa1f\xc4\x01q\xa1g\xc4\x20\x07\x07\x07\x07\x07\x07\x07\x07\x07\x07\x07\x07\x07\x07\x07\x07\x07\x07\x07\x07\x07\x07\x07\x07\x07\x07\x07\x07\x07\x07\x07\x07";
    assert_eq!(rt; out.as_slice(), want.as_slice());
    assert_eq!(rt; count_written(&contents), 7);
    Ok(())
}

// A field and an inner record, each left out where it is zero.
#[test]
fn written_apart(rt: HostRuntime) -> Result<(), Fail> {
    let mut out = Vec::new(rt.alloc());
    write_field("n", &Content::Number(5), &mut out)?;
    write_field("o", &Content::Number(0), &mut out)?;
    write_inner("p", &ALL[..1], &[Content::Number(1)], &mut out)?;
    write_inner("q", &ALL[..1], &[Content::Number(0)], &mut out)?;
    assert_eq!(rt; out.as_slice(), b"\xa1n\x05\xa1p\x81\xa1a\x01".as_slice());
    Ok(())
}

#[test]
fn addresses_read_back(rt: HostRuntime) -> Result<(), Fail> {
    let who = [Address([1; 32])];
    let entries = listed(rt.alloc(), &TABLE[3..4], &[Content::Addresses(&who)])?;
    let read = addresses(rt.alloc(), entries.as_slice(), "d")?;
    assert_eq!(rt; read.as_slice(), who.as_slice());
    Ok(())
}
