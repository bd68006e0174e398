use crate::common::{Row, in_pieces, runs};
use crate::payments::PAYMENT;
use std::test::*;

/// What is asked behind the block of the payment.
const ASKED: [Row; 7] = [
    (
        b"GET /v1/nothing HTTP/1.1\r\n\r\n",
        b"HTTP/1.1 404 Not Found\r\ncontent-type: application/json\r\ncontent-length: 19\r\n\r\n{\"error\":\"NoRoute\"}",
    ),
    (
        b"DELETE /v1/status HTTP/1.1\r\n\r\n",
        b"HTTP/1.1 405 Method Not Allowed\r\ncontent-type: application/json\r\ncontent-length: 18\r\n\r\n{\"error\":\"Method\"}",
    ),
    (
        b"GET /v1/creators/1 HTTP/1.1\r\n\r\n",
        b"HTTP/1.1 404 Not Found\r\ncontent-type: application/json\r\ncontent-length: 37\r\n\r\n{\"error\":\"NoRow\",\"front\":1,\"round\":1}",
    ),
    (
        b"GET /v1/supply HTTP/1.1\r\n\r\n",
        b"HTTP/1.1 200 OK\r\ncontent-type: application/json\r\ncontent-length: 102\r\n\r\n{\"front\":1,\"round\":1,\"supply\":{\"not_participating\":101000,\"offline\":2499000,\"online\":0,\"sum\":2600000}}",
    ),
    (
        b"GET /v1/supply?round=0 HTTP/1.1\r\n\r\n",
        b"HTTP/1.1 200 OK\r\ncontent-type: application/json\r\ncontent-length: 102\r\n\r\n{\"front\":1,\"round\":0,\"supply\":{\"not_participating\":100000,\"offline\":2500000,\"online\":0,\"sum\":2600000}}",
    ),
    (
        b"GET /v1/status HTTP/1.1\r\n\r\n",
        b"HTTP/1.1 200 OK\r\ncontent-type: application/json\r\ncontent-length: 83\r\n\r\n{\"floor\":0,\"front\":1,\"hash\":\"DJRYNM43IDT5QGDRWPR3RJ3A4L4UEVUIL3HFBBILZ23GQPRC7OSQ\"}",
    ),
    (
        b"GET /v1/online/AMBQGAYDAMBQGAYDAMBQGAYDAMBQGAYDAMBQGAYDAMBQGAYDAMB5DBBASI HTTP/1.0\r\n\r\n",
        b"HTTP/1.1 404 Not Found\r\ncontent-type: application/json\r\ncontent-length: 37\r\n\r\n{\"error\":\"NoRow\",\"front\":1,\"round\":1}",
    ),
];

#[test]
fn routes(rt: HostRuntime) -> Result<(), Fail> {
    let alloc = rt.alloc();
    let mut rows = Vec::new(alloc);
    rows.push(PAYMENT[0])?;
    rows.extend_from_slice(&ASKED)?;
    for most in [1, usize::MAX] {
        let mut source = in_pieces(alloc, &rows, most, &[], 0)?;
        let ran = runs(alloc, &["session", "g"], &[], &mut source, &rows)?;
        assert_eq!(rt; ran, (0, true), "in pieces of {most}");
    }
    Ok(())
}
