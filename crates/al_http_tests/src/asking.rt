//! What whole heads ask.

use crate::common::head_of;
use al_base::Address;
use al_routes::{FormFault, Request, Routes};
use std::test::*;

const NOBODY: Address = Address([0; 32]);

// A head, and what it asks.
const ROWS: [(&[u8], Result<Request, FormFault>); 12] = [
    (
        b"POST /v1/blocks HTTP/1.1\r\ncontent-length: 5\r\n\r\n12345",
        Ok(Request::Post),
    ),
    (b"POST /v1/blocks HTTP/1.0\r\n\r\n", Ok(Request::Post)),
    (
        b"\r\nPOST /v1/blocks? HTTP/1.1\r\ntransfer-encoding: x\r\n\r\n",
        Ok(Request::Post),
    ),
    (
        b"GET /v1/status HTTP/1.1\nhost: a\n\n",
        Ok(Request::Standing),
    ),
    (
        b"GET /v1/accounts/AAAAAAAAAAAAAAAAAAAAAAAAAAAAAAAAAAAAAAAAAAAAAAAAAAAAY5HFKQ?round=0 HTTP/1.1\r\nhost: a\r\n\r\n",
        Ok(Request::Account {
            address: NOBODY,
            round: Some(0),
        }),
    ),
    (
        b"GET /v1/accounts/AAAAAAAAAAAAAAAAAAAAAAAAAAAAAAAAAAAAAAAAAAAAAAAAAAAAY5HFKQ HTTP/1.1\r\ncontent-length: 1\r\n\r\n",
        Ok(Request::Account {
            address: NOBODY,
            round: None,
        }),
    ),
    (
        b"DELETE /v1/blocks HTTP/1.1\r\n\r\n",
        Err(FormFault::Method),
    ),
    (b"post /v1/blocks HTTP/1.1\r\n\r\n", Err(FormFault::Method)),
    (b"GET /v1/nothing HTTP/1.1\r\n\r\n", Err(FormFault::NoRoute)),
    (
        b"GET /v1/status\xc3\xa9 HTTP/1.1\r\n\r\n",
        Err(FormFault::NoRoute),
    ),
    (
        b"GET /v1/accounts/AAAAAAAAAAAAAAAAAAAAAAAAAAAAAAAAAAAAAAAAAAAAAAAAAAAAY5HFKR HTTP/1.1\r\n\r\n",
        Err(FormFault::BadAddress),
    ),
    (
        b"GET /v1/supply?round=+1 HTTP/1.1\r\n\r\n",
        Err(FormFault::BadQuery),
    ),
];

#[test]
fn heads_ask(rt: HostRuntime) -> Result<(), Fail> {
    let routes = Routes::new(rt.alloc())?;
    for (bytes, asked) in ROWS {
        let head = head_of(rt.alloc(), bytes)?;
        assert!(rt; head.request(rt.alloc(), &routes) == asked, "{asked:?}");
    }
    Ok(())
}
