//! Which bytes are a head, and which never become one.

use al_http::{HeadRead, read_head};
use std::alloc::{AllocError, Global};
use std::test::*;

/// Fronts of a head.
const PARTIAL: [&[u8]; 6] = [
    b"",
    b"\r\n",
    b"GET /v1/accounts/AA",
    b"GET /v1/status HTTP/1.1\r\nhost: a",
    b"GET /v1/status HTTP/1.1\r\nhost: a\r\n",
    b"POST /v1/blocks HTTP/1.1\r\ntransfer-encoding: x\r\n",
];

/// Bytes that no head begins with.
const BAD: [&[u8]; 5] = [
    b"GET /v1/status HTTP/2.0\r\n\r\n",
    b"GET  /v1/status HTTP/1.1\r\n\r\n",
    b"GET /v1/status\xff HTTP/1.1\r\n\r\n",
    b"G@T /v1/status HTTP/1.1\r\n\r\n",
    b"GET /v1/status HTTP/1.1\r\nhost : a\r\n\r\n",
];

// A head with so many fields.
fn with_fields(alloc: Global, count: usize) -> Result<Vec<u8>, AllocError> {
    let mut all = Vec::new(alloc);
    all.extend_from_slice(b"GET /v1/status HTTP/1.1\r\n")?;
    for _ in 0..count {
        all.extend_from_slice(b"a: b\r\n")?;
    }
    all.extend_from_slice(b"\r\n")?;
    Ok(all)
}

// A head without its end, of 28 bytes and so many.
fn open_head(alloc: Global, count: usize) -> Result<Vec<u8>, AllocError> {
    let mut all = Vec::new(alloc);
    all.extend_from_slice(b"GET /v1/status HTTP/1.1\r\na: ")?;
    for _ in 0..count {
        all.push(b'b')?;
    }
    Ok(all)
}

// A head of 32 bytes and so many.
fn long_head(alloc: Global, count: usize) -> Result<Vec<u8>, AllocError> {
    let mut all = open_head(alloc, count)?;
    all.extend_from_slice(b"\r\n\r\n")?;
    Ok(all)
}

#[test]
fn fronts_of_heads(rt: HostRuntime) -> Result<(), Fail> {
    for bytes in PARTIAL {
        assert!(rt; matches!(read_head(rt.alloc(), bytes)?, HeadRead::Partial));
    }
    Ok(())
}

#[test]
fn bad_heads(rt: HostRuntime) -> Result<(), Fail> {
    for bytes in BAD {
        assert!(rt; matches!(read_head(rt.alloc(), bytes)?, HeadRead::Bad));
    }
    Ok(())
}

#[test]
fn limit_of_fields(rt: HostRuntime) -> Result<(), Fail> {
    let most = with_fields(rt.alloc(), 64)?;
    assert!(rt; matches!(read_head(rt.alloc(), &most)?, HeadRead::Got(_)));
    let more = with_fields(rt.alloc(), 65)?;
    assert!(rt; matches!(read_head(rt.alloc(), &more)?, HeadRead::Bad));
    Ok(())
}

#[test]
fn limit_of_bytes(rt: HostRuntime) -> Result<(), Fail> {
    let most = long_head(rt.alloc(), 16_352)?;
    assert!(rt; most.len() == 16_384 && matches!(read_head(rt.alloc(), &most)?, HeadRead::Got(_)));
    let more = long_head(rt.alloc(), 16_353)?;
    assert!(rt; matches!(read_head(rt.alloc(), &more)?, HeadRead::Bad));
    let front = open_head(rt.alloc(), 16_356)?;
    assert!(rt;
        front.len() == 16_384 && matches!(read_head(rt.alloc(), &front)?, HeadRead::Partial)
    );
    let past = open_head(rt.alloc(), 16_357)?;
    assert!(rt; matches!(read_head(rt.alloc(), &past)?, HeadRead::Bad));
    Ok(())
}
