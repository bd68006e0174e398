//! What the fields of a head say of the body and of the connection.

use crate::common::head_of;
use al_http::SizeFault;
use std::alloc::{AllocError, Global};
use std::test::*;

const CODING: Result<usize, SizeFault> = Err(SizeFault::Coding);

const BAD: Result<usize, SizeFault> = Err(SizeFault::BadLength);

const LARGE: Result<usize, SizeFault> = Err(SizeFault::TooLarge);

/// The lines behind the first one, and the length of the body.
const SIZES: [(&str, Result<usize, SizeFault>); 21] = [
    ("", Ok(0)),
    ("host: a\r\n", Ok(0)),
    ("content-length: 0\r\n", Ok(0)),
    ("content-length: 5\r\n", Ok(5)),
    ("Content-Length:5\r\n", Ok(5)),
    ("CONTENT-LENGTH: \t5 \r\n", Ok(5)),
    ("content-length: 007\r\n", Ok(7)),
    ("content-length: 5242880\r\n", Ok(5_242_880)),
    ("content-length: 5242881\r\n", LARGE),
    ("content-length: 18446744073709551621\r\n", LARGE),
    ("content-length: 5\r\ncontent-length: 5\r\n", BAD),
    ("content-length: 5\r\nhost: a\r\nContent-Length: 6\r\n", BAD),
    ("content-length: +5\r\n", BAD),
    ("content-length: -5\r\n", BAD),
    ("content-length: 5 5\r\n", BAD),
    ("content-length: 5,5\r\n", BAD),
    ("content-length: 0x5\r\n", BAD),
    ("content-length:\r\n", BAD),
    ("transfer-encoding: chunked\r\n", CODING),
    ("content-length: x\r\nTransfer-Encoding:\r\n", CODING),
    ("transfer-encoding: a\r\ntransfer-encoding: b\r\n", CODING),
];

/// The version, the lines behind the first one, and whether the connection ends.
const CLOSES: [(&str, &str, bool); 11] = [
    ("HTTP/1.1", "", false),
    ("HTTP/1.1", "connection: close\r\n", true),
    ("HTTP/1.1", "Connection: Close\r\n", true),
    ("HTTP/1.1", "CONNECTION: CLOSE \r\n", true),
    ("HTTP/1.1", "connection: keep-alive\r\n", false),
    ("HTTP/1.1", "connection: closed\r\n", false),
    ("HTTP/1.1", "connection:\r\n", false),
    (
        "HTTP/1.1",
        "connection: x\r\nhost: a\r\nconnection: close\r\n",
        true,
    ),
    ("HTTP/1.1", "connections: close\r\n", false),
    ("HTTP/1.0", "", true),
    ("HTTP/1.0", "connection: keep-alive\r\n", true),
];

// A whole head of this version with these lines behind the first one.
fn bytes_of(alloc: Global, version: &str, lines: &str) -> Result<Vec<u8>, AllocError> {
    let mut all = Vec::new(alloc);
    all.extend_from_slice(b"POST /v1/blocks ")?;
    all.extend_from_slice(version.as_bytes())?;
    all.extend_from_slice(b"\r\n")?;
    all.extend_from_slice(lines.as_bytes())?;
    all.extend_from_slice(b"\r\n")?;
    Ok(all)
}

#[test]
fn lengths_of_bodies(rt: HostRuntime) -> Result<(), Fail> {
    for (lines, size) in SIZES {
        let bytes = bytes_of(rt.alloc(), "HTTP/1.1", lines)?;
        let head = head_of(rt.alloc(), &bytes)?;
        assert!(rt; head.size() == size, "{lines}");
        assert!(rt; head.used == bytes.len(), "{lines}");
    }
    Ok(())
}

#[test]
fn ends_of_connections(rt: HostRuntime) -> Result<(), Fail> {
    for (version, lines, close) in CLOSES {
        let bytes = bytes_of(rt.alloc(), version, lines)?;
        let head = head_of(rt.alloc(), &bytes)?;
        assert!(rt; head.close == close, "{version} {lines}");
    }
    Ok(())
}
