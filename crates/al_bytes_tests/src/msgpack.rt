//! Tests of al_msgpack: values, faults and their places.
ghost use Rattle.std.specs.Prelude.{◌<◌, ◌^◌, length};

use al_msgpack::{DecodeFault, decode, encode, format_laws, write};
use std::alloc::{AllocError, Global};
use std::test::*;

/// A payment of 300,000 microAlgos from the address of bytes 3 to that of bytes 4.
const PAYMENT: &[u8; 147] =
    b"\x88\xa3amt\xce\x00\x04\x93\xe0\xa3fee\xcd\x03\xe8\xa2fv\x01\xa2gh\xc4\x20\x05\x05\x05\x05\x05\x05\x05\x05\x05\x05\x05\x05\x05\x05\x05\x05\x05\x05\x05\x05\x05\x05\x05\x05\x05\x05\x05\x05\x05\x05\x05\x05\xa2lv\x0a\xa3rcv\xc4\x20\x04\x04\x04\x04\x04\x04\x04\x04\x04\x04\x04\x04\x04\x04\x04\x04\x04\x04\x04\x04\x04\x04\x04\x04\x04\x04\x04\x04\x04\x04\x04\x04\xa3snd\xc4\x20\x03\x03\x03\x03\x03\x03\x03\x03\x03\x03\x03\x03\x03\x03\x03\x03\x03\x03\x03\x03\x03\x03\x03\x03\x03\x03\x03\x03\x03\x03\x03\x03\xa4type\xa3pay";

/// Lists of one member each, one in the other, round an empty list.
fn nested(alloc: Global, depth: usize) -> Result<Vec<u8>, AllocError> {
    let mut bytes = Vec::new(alloc);
    for _ in 1..depth {
        bytes.push(0x91)?;
    }
    bytes.push(0x90)?;
    Ok(bytes)
}

#[test]
fn faults_and_places(rt: HostRuntime) -> Result<(), Fail> {
    let too_deep = nested(rt.alloc(), 17)?;
    let cases: [(&[u8], DecodeFault); 9] = [
        (&[], DecodeFault::Truncated { at: 0 }),
        (&[0xcc, 0x7f], DecodeFault::Malformed { at: 1 }),
        (&[0xcd, 0x01], DecodeFault::Truncated { at: 2 }),
        (&[0xc0], DecodeFault::Malformed { at: 0 }),
        (&[0x01, 0x01], DecodeFault::Trailing { at: 1 }),
        (
            &[0x82, 0xa1, 0xff, 0x01, 0xa1],
            DecodeFault::Malformed { at: 4 },
        ),
        (
            &[0x82, 0xa1, 0x61, 0x01, 0xa1, 0x61],
            DecodeFault::Malformed { at: 5 },
        ),
        (&PAYMENT[..146], DecodeFault::Truncated { at: 146 }),
        (too_deep.as_slice(), DecodeFault::Malformed { at: 16 }),
    ];
    for (input, want) in cases {
        assert!(rt; input.len() < 1000);
        assert_eq!(rt; decode(rt.alloc(), input).err(), Some(want), "{input:?}");
    }
    Ok(())
}

/// The spelling of a value that was read.
fn spelled_again(alloc: Global, input: &[u8]) -> Result<Vec<u8>, Fail>
    requires { length input.now < 2 ^ 31 }
{
    let value = decode(alloc, input)?;
    format_laws();
    let mut out = Vec::new(alloc);
    encode(&value, &mut out)?;
    Ok(out)
}

#[test]
fn read_and_written_back(rt: HostRuntime) -> Result<(), Fail> {
    let deepest = nested(rt.alloc(), 16)?;
    let cases: [&[u8]; 4] = [
        PAYMENT,
        &[0x81, 0xa1, 0x61, 0x01],
        &[0x82, 0xa0, 0xc3, 0xa1, 0xff, 0xc4, 0x01, 0x00],
        deepest.as_slice(),
    ];
    for input in cases {
        assert!(rt; input.len() < 1000);
        let value = decode(rt.alloc(), input)?;
        let mut out = Vec::new(rt.alloc());
        write(&value, &mut out)?;
        assert_eq!(rt; out.as_slice(), input);
        assert_eq!(rt; spelled_again(rt.alloc(), input)?.as_slice(), input);
    }
    Ok(())
}

#[test]
fn fault_texts(rt: HostRuntime) -> Result<(), Fail> {
    let fault = DecodeFault::Trailing { at: 3 };
    let text = format!(in rt.alloc(); "{fault}")?;
    assert_eq!(rt; text.as_str(), "bytes follow the value that ends at 3");
    Ok(())
}
