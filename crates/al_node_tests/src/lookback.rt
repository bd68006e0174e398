// How far behind the front consensus may ask.
use crate::bytes::{ask, tell};
use crate::common::Row;
use al_base::{MemSink, MemSource};
use al_block::{decode_block, encode_block, header_hash};
use al_session::{Caller, Ended, serve_link};
use al_states::States;
use std::alloc::Global;
use std::test::*;

/// Two accounts that are online: one with 5,000,000 microAlgos and keys up to round 500, one with
/// 3,000,000 and keys up to round 499.
const VOTERS: &[u8; 469] =
    b"\x84\xa5alloc\x94\x82\xa4addr\xc4 \x01\x01\x01\x01\x01\x01\x01\x01\x01\x01\x01\x01\x01\x01\x01\x01\x01\x01\x01\x01\x01\x01\x01\x01\x01\x01\x01\x01\x01\x01\x01\x01\xa3row\x81\xa1a\x02\x82\xa4addr\xc4 \x02\x02\x02\x02\x02\x02\x02\x02\x02\x02\x02\x02\x02\x02\x02\x02\x02\x02\x02\x02\x02\x02\x02\x02\x02\x02\x02\x02\x02\x02\x02\x02\xa3row\x82\xa1a\x02\xa1b\xce\x00\x01\x86\xa0\x82\xa4addr\xc4 \x03\x03\x03\x03\x03\x03\x03\x03\x03\x03\x03\x03\x03\x03\x03\x03\x03\x03\x03\x03\x03\x03\x03\x03\x03\x03\x03\x03\x03\x03\x03\x03\xa3row\x87\xa1a\x01\xa1b\xce\x00LK@\xa1e\xc4 \x07\x07\x07\x07\x07\x07\x07\x07\x07\x07\x07\x07\x07\x07\x07\x07\x07\x07\x07\x07\x07\x07\x07\x07\x07\x07\x07\x07\x07\x07\x07\x07\xa1f\xc4 \x08\x08\x08\x08\x08\x08\x08\x08\x08\x08\x08\x08\x08\x08\x08\x08\x08\x08\x08\x08\x08\x08\x08\x08\x08\x08\x08\x08\x08\x08\x08\x08\xa1h\x01\xa1i\xcd\x01\xf4\xa1jd\x82\xa4addr\xc4 \x04\x04\x04\x04\x04\x04\x04\x04\x04\x04\x04\x04\x04\x04\x04\x04\x04\x04\x04\x04\x04\x04\x04\x04\x04\x04\x04\x04\x04\x04\x04\x04\xa3row\x87\xa1a\x01\xa1b\xce\x00-\xc6\xc0\xa1e\xc4 \x07\x07\x07\x07\x07\x07\x07\x07\x07\x07\x07\x07\x07\x07\x07\x07\x07\x07\x07\x07\x07\x07\x07\x07\x07\x07\x07\x07\x07\x07\x07\x07\xa1f\xc4 \x08\x08\x08\x08\x08\x08\x08\x08\x08\x08\x08\x08\x08\x08\x08\x08\x08\x08\x08\x08\x08\x08\x08\x08\x08\x08\x08\x08\x08\x08\x08\x08\xa1h\x01\xa1i\xcd\x01\xf3\xa1jd\xa4fees\xc4 \x01\x01\x01\x01\x01\x01\x01\x01\x01\x01\x01\x01\x01\x01\x01\x01\x01\x01\x01\x01\x01\x01\x01\x01\x01\x01\x01\x01\x01\x01\x01\x01\xa2id\xa1v\xa3rwd\xc4 \x02\x02\x02\x02\x02\x02\x02\x02\x02\x02\x02\x02\x02\x02\x02\x02\x02\x02\x02\x02\x02\x02\x02\x02\x02\x02\x02\x02\x02\x02\x02\x02";

/// The first block of it, which is empty.
const BLOCK: &[u8; 212] =
    b"\x81\xa1b\x87\xa4fees\xc4 \x01\x01\x01\x01\x01\x01\x01\x01\x01\x01\x01\x01\x01\x01\x01\x01\x01\x01\x01\x01\x01\x01\x01\x01\x01\x01\x01\x01\x01\x01\x01\x01\xa2gh\xc4 H8V\x92\x94\xdct\x86\x9f\xb4\xe5T\xe2\xb1\x04]\xbbM)\x0eT\xfe\x12M\x9a\xb7*&\xb7\x86\xa7u\xa4prev\xc4 \xfc\xb4\x80M\x97t\x81k7\x1d\xbc(\xf4F\xc5\x89 X\xeb\x89XZC\xc0\xd0\xe5Q\xbb\xd8\xf4\xc6\xd6\xa3rnd\x01\xa6rwcalr\xce\x00\x07\xa1!\xa3rwd\xc4 \x02\x02\x02\x02\x02\x02\x02\x02\x02\x02\x02\x02\x02\x02\x02\x02\x02\x02\x02\x02\x02\x02\x02\x02\x02\x02\x02\x02\x02\x02\x02\x02\xa3txn\xc4 L\xff*\x80\xb1\x96\xe8x\xa3\x95*\xa0\xf7\xe6oy\x1f>\xe0\xff\x96\xb0*\x13\xe1*\xb8\xf5\x0c3\xd8\xdd";

const LAST: u64 = 700;

/// The front at which each request comes, and its answer. At front 700 the oldest round is 380.
const ASKED: [(u64, Row); 15] = [
    (
        320,
        (
            b"GET /v1/online/AMBQGAYDAMBQGAYDAMBQGAYDAMBQGAYDAMBQGAYDAMBQGAYDAMB5DBBASI?round=0 HTTP/1.1\r\n\r\n",
            b"HTTP/1.1 200 OK\r\ncontent-type: application/json\r\ncontent-length: 90\r\n\r\n{\"front\":320,\"online\":{\"first\":1,\"key_dilution\":100,\"last\":500,\"stake\":5000000},\"round\":0}",
        ),
    ),
    (
        321,
        (
            b"GET /v1/online/AMBQGAYDAMBQGAYDAMBQGAYDAMBQGAYDAMBQGAYDAMBQGAYDAMB5DBBASI?round=0 HTTP/1.1\r\n\r\n",
            b"HTTP/1.1 410 Gone\r\ncontent-type: application/json\r\ncontent-length: 37\r\n\r\n{\"error\":\"BelowLookback\",\"front\":321}",
        ),
    ),
    (
        700,
        (
            b"GET /v1/online/AMBQGAYDAMBQGAYDAMBQGAYDAMBQGAYDAMBQGAYDAMBQGAYDAMB5DBBASI?round=380 HTTP/1.1\r\n\r\n",
            b"HTTP/1.1 200 OK\r\ncontent-type: application/json\r\ncontent-length: 92\r\n\r\n{\"front\":700,\"online\":{\"first\":1,\"key_dilution\":100,\"last\":500,\"stake\":5000000},\"round\":380}",
        ),
    ),
    (
        700,
        (
            b"GET /v1/online/AMBQGAYDAMBQGAYDAMBQGAYDAMBQGAYDAMBQGAYDAMBQGAYDAMB5DBBASI?round=379 HTTP/1.1\r\n\r\n",
            b"HTTP/1.1 410 Gone\r\ncontent-type: application/json\r\ncontent-length: 37\r\n\r\n{\"error\":\"BelowLookback\",\"front\":700}",
        ),
    ),
    (
        700,
        (
            b"GET /v1/online/AQCAIBAEAQCAIBAEAQCAIBAEAQCAIBAEAQCAIBAEAQCAIBAEAQCABXO5EU HTTP/1.1\r\n\r\n",
            b"HTTP/1.1 200 OK\r\ncontent-type: application/json\r\ncontent-length: 92\r\n\r\n{\"front\":700,\"online\":{\"first\":1,\"key_dilution\":100,\"last\":499,\"stake\":3000000},\"round\":700}",
        ),
    ),
    (
        700,
        (
            b"GET /v1/online/AQCAIBAEAQCAIBAEAQCAIBAEAQCAIBAEAQCAIBAEAQCAIBAEAQCABXO5EU?round=701 HTTP/1.1\r\n\r\n",
            b"HTTP/1.1 404 Not Found\r\ncontent-type: application/json\r\ncontent-length: 30\r\n\r\n{\"error\":\"TooNew\",\"front\":700}",
        ),
    ),
    (
        700,
        (
            b"GET /v1/circulation?vote=500 HTTP/1.1\r\n\r\n",
            b"HTTP/1.1 200 OK\r\ncontent-type: application/json\r\ncontent-length: 58\r\n\r\n{\"circulation\":5000000,\"front\":700,\"round\":700,\"vote\":500}",
        ),
    ),
    (
        700,
        (
            b"GET /v1/circulation?round=380&vote=499 HTTP/1.1\r\n\r\n",
            b"HTTP/1.1 200 OK\r\ncontent-type: application/json\r\ncontent-length: 58\r\n\r\n{\"circulation\":8000000,\"front\":700,\"round\":380,\"vote\":499}",
        ),
    ),
    (
        700,
        (
            b"GET /v1/circulation?vote=501 HTTP/1.1\r\n\r\n",
            b"HTTP/1.1 200 OK\r\ncontent-type: application/json\r\ncontent-length: 52\r\n\r\n{\"circulation\":0,\"front\":700,\"round\":700,\"vote\":501}",
        ),
    ),
    (
        700,
        (
            b"GET /v1/circulation?round=380 HTTP/1.1\r\n\r\n",
            b"HTTP/1.1 200 OK\r\ncontent-type: application/json\r\ncontent-length: 52\r\n\r\n{\"circulation\":0,\"front\":700,\"round\":380,\"vote\":700}",
        ),
    ),
    (
        700,
        (
            b"GET /v1/circulation HTTP/1.1\r\n\r\n",
            b"HTTP/1.1 200 OK\r\ncontent-type: application/json\r\ncontent-length: 53\r\n\r\n{\"circulation\":0,\"front\":700,\"round\":700,\"vote\":1020}",
        ),
    ),
    (
        700,
        (
            b"GET /v1/circulation?round=379&vote=500 HTTP/1.1\r\n\r\n",
            b"HTTP/1.1 410 Gone\r\ncontent-type: application/json\r\ncontent-length: 37\r\n\r\n{\"error\":\"BelowLookback\",\"front\":700}",
        ),
    ),
    (
        700,
        (
            b"GET /v1/circulation?round=701&vote=500 HTTP/1.1\r\n\r\n",
            b"HTTP/1.1 404 Not Found\r\ncontent-type: application/json\r\ncontent-length: 30\r\n\r\n{\"error\":\"TooNew\",\"front\":700}",
        ),
    ),
    (
        700,
        (
            b"GET /v1/supply?round=379 HTTP/1.1\r\n\r\n",
            b"HTTP/1.1 200 OK\r\ncontent-type: application/json\r\ncontent-length: 106\r\n\r\n{\"front\":700,\"round\":379,\"supply\":{\"not_participating\":100000,\"offline\":0,\"online\":8000000,\"sum\":8100000}}",
        ),
    ),
    (
        700,
        (
            b"GET /v1/status HTTP/1.1\r\n\r\n",
            b"HTTP/1.1 200 OK\r\ncontent-type: application/json\r\ncontent-length: 85\r\n\r\n{\"floor\":0,\"front\":700,\"hash\":\"J3EWWPYL2XMXGJSX74ATNMXKHAGCHXEF27CTZ7APQ7H4WQL5GZUQ\"}",
        ),
    ),
];

// What is asked once the front is this one, behind what is asked so far.
fn look(front: u64, asked: &mut Vec<u8>, told: &mut Vec<u8>) -> Result<(), Fail> {
    for (at, (request, answer)) in ASKED {
        if at == front {
            asked.extend_from_slice(request)?;
            told.extend_from_slice(answer)?;
        }
    }
    Ok(())
}

// Empty blocks up to the last, and what is asked between them.
fn chain(alloc: Global, asked: &mut Vec<u8>, told: &mut Vec<u8>) -> Result<(), Fail> {
    let Ok(mut block) = decode_block(alloc, BLOCK) else {
        return Err(Fail::new("no block"));
    };
    for round in 1..=LAST {
        block.header.round = round;
        let mut body = Vec::new(alloc);
        encode_block(&block, &mut body)?;
        ask(alloc, asked, &body)?;
        let taken = format!(in alloc; "{{\"front\":{round},\"round\":{round}}}")?;
        tell(alloc, told, 200, taken.as_str())?;
        look(round, asked, told)?;
        block.header.prev = header_hash(alloc, &block.header)?;
    }
    Ok(())
}

#[test]
fn lookback(rt: HostRuntime) -> Result<(), Fail> {
    let alloc = rt.alloc();
    let mut asked = Vec::new(alloc);
    let mut told = Vec::new(alloc);
    chain(alloc, &mut asked, &mut told)?;
    let Ok(mut states) = States::open(alloc, VOTERS) else {
        return Err(Fail::new("no states"));
    };
    let mut source = MemSource::new(alloc, &asked, &[])?;
    let mut sink = MemSink::new(alloc, b"", &[])?;
    let mut caller = Caller::new();
    let ended = serve_link(alloc, &mut states, &mut caller, &mut source, &mut sink);
    assert_eq!(rt; ended, Ended::Finished);
    assert!(rt; sink.bytes() == told.as_slice());
    Ok(())
}
