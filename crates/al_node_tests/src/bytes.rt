use crate::common::runs_to;
use al_base::MemSource;
use std::alloc::{AllocError, Global};
use std::test::*;

/// The block of one payment.
const BLOCK: &[u8; 373] =
    b"\x82\xa1b\x88\xa4fees\xc4 \x01\x01\x01\x01\x01\x01\x01\x01\x01\x01\x01\x01\x01\x01\x01\x01\x01\x01\x01\x01\x01\x01\x01\x01\x01\x01\x01\x01\x01\x01\x01\x01\xa2gh\xc4 fr8\xd2aW]\xdb\x91\xa6r\x1bG\x8b\x17\xefo\xf04\xf0\xa1\xa0x?\xe3R\xddd\xb0\xa0\xf3)\xa4prev\xc4 H\xe7\xfaD\xbe\xa4\xc1\x8aERa\xc9\xc0\xa3H\xe9_\xfc\xbe\xd6\x01\xa1\xc9)|m\xea\xc7!d\x8a\xff\xa3rnd\x01\xa6rwcalr\xce\x00\x07\xa1!\xa3rwd\xc4 \x02\x02\x02\x02\x02\x02\x02\x02\x02\x02\x02\x02\x02\x02\x02\x02\x02\x02\x02\x02\x02\x02\x02\x02\x02\x02\x02\x02\x02\x02\x02\x02\xa2tc\x01\xa3txn\xc4 \xee|\xcd\x01\xf0\r\xa7+F\xa4\x90\xb6\x9b\xf5f\xfd\xd9\"\xb5\xe1\x8d\xa1\xf7\xd1L\xa3\xe4\xef\x10\x82\xd4\xb6\xa1t\x91\x81\xa3txn\x88\xa3amt\xce\x00\x04\x93\xe0\xa3fee\xcd\x03\xe8\xa2fv\x01\xa2gh\xc4 fr8\xd2aW]\xdb\x91\xa6r\x1bG\x8b\x17\xefo\xf04\xf0\xa1\xa0x?\xe3R\xddd\xb0\xa0\xf3)\xa2lv\xcd\x03\xe8\xa3rcv\xc4 \x04\x04\x04\x04\x04\x04\x04\x04\x04\x04\x04\x04\x04\x04\x04\x04\x04\x04\x04\x04\x04\x04\x04\x04\x04\x04\x04\x04\x04\x04\x04\x04\xa3snd\xc4 \x03\x03\x03\x03\x03\x03\x03\x03\x03\x03\x03\x03\x03\x03\x03\x03\x03\x03\x03\x03\x03\x03\x03\x03\x03\x03\x03\x03\x03\x03\x03\x03\xa4type\xa3pay";

/// The answers to that block with one byte raised by one, by the definitions. A line has to how many
/// bytes in a row, the status, and the text.
const RAISED: &str = "1 400 {\"at\":373,\"error\":\"Truncated\"}\n\
1 400 {\"at\":9,\"error\":\"Malformed\"}\n\
1 400 {\"error\":\"Field\",\"name\":\"63\"}\n\
1 400 {\"at\":217,\"error\":\"Malformed\"}\n\
1 400 {\"at\":11,\"error\":\"Malformed\"}\n\
1 400 {\"error\":\"Field\",\"name\":\"67656573\"}\n\
1 400 {\"error\":\"Field\",\"name\":\"66666573\"}\n\
1 400 {\"error\":\"Field\",\"name\":\"66656673\"}\n\
1 400 {\"error\":\"Field\",\"name\":\"66656574\"}\n\
1 400 {\"at\":373,\"error\":\"Truncated\"}\n\
1 400 {\"at\":44,\"error\":\"Malformed\"}\n\
32 422 {\"error\":\"Header\",\"field\":\"fees\",\"front\":0}\n\
1 400 {\"at\":48,\"error\":\"Malformed\"}\n\
1 400 {\"error\":\"Field\",\"name\":\"6868\"}\n\
1 400 {\"error\":\"Field\",\"name\":\"6769\"}\n\
1 400 {\"at\":373,\"error\":\"Truncated\"}\n\
1 400 {\"at\":81,\"error\":\"Malformed\"}\n\
32 422 {\"error\":\"Header\",\"field\":\"gh\",\"front\":0}\n\
1 400 {\"at\":87,\"error\":\"Malformed\"}\n\
1 400 {\"error\":\"Field\",\"name\":\"71726576\"}\n\
1 400 {\"error\":\"Field\",\"name\":\"70736576\"}\n\
1 400 {\"error\":\"Field\",\"name\":\"70726676\"}\n\
1 400 {\"error\":\"Field\",\"name\":\"70726577\"}\n\
1 400 {\"at\":373,\"error\":\"Truncated\"}\n\
1 400 {\"at\":120,\"error\":\"Malformed\"}\n\
32 409 {\"error\":\"WrongPrev\",\"front\":0,\"kept\":\"JDT7URF6UTAYURKSMHE4BI2I5FP7ZPWWAGQ4SKL4NXVMOILERL7Q\"}\n\
1 400 {\"at\":131,\"error\":\"Malformed\"}\n\
1 400 {\"at\":125,\"error\":\"Malformed\"}\n\
1 400 {\"error\":\"Field\",\"name\":\"726f64\"}\n\
1 400 {\"error\":\"Field\",\"name\":\"726e65\"}\n\
1 409 {\"error\":\"WrongRound\",\"front\":0,\"next\":1}\n\
1 400 {\"at\":133,\"error\":\"Malformed\"}\n\
1 400 {\"at\":137,\"error\":\"Malformed\"}\n\
1 400 {\"at\":138,\"error\":\"Malformed\"}\n\
1 400 {\"at\":139,\"error\":\"Malformed\"}\n\
1 400 {\"error\":\"Field\",\"name\":\"727763626c72\"}\n\
1 400 {\"error\":\"Field\",\"name\":\"727763616d72\"}\n\
1 400 {\"error\":\"Field\",\"name\":\"727763616c73\"}\n\
1 400 {\"at\":140,\"error\":\"Malformed\"}\n\
4 422 {\"error\":\"Header\",\"field\":\"rwcalr\",\"front\":0}\n\
1 400 {\"at\":142,\"error\":\"Malformed\"}\n\
1 400 {\"error\":\"Field\",\"name\":\"737764\"}\n\
1 400 {\"error\":\"Field\",\"name\":\"727864\"}\n\
1 400 {\"error\":\"Field\",\"name\":\"727765\"}\n\
1 400 {\"at\":373,\"error\":\"Truncated\"}\n\
1 400 {\"at\":175,\"error\":\"Malformed\"}\n\
32 422 {\"error\":\"Header\",\"field\":\"rwd\",\"front\":0}\n\
1 400 {\"at\":182,\"error\":\"Malformed\"}\n\
1 400 {\"at\":179,\"error\":\"Malformed\"}\n\
1 400 {\"error\":\"Field\",\"name\":\"7464\"}\n\
1 422 {\"error\":\"Header\",\"field\":\"tc\",\"front\":0}\n\
1 400 {\"at\":184,\"error\":\"Malformed\"}\n\
1 400 {\"error\":\"Field\",\"name\":\"75786e\"}\n\
1 400 {\"error\":\"Field\",\"name\":\"74796e\"}\n\
1 400 {\"error\":\"Field\",\"name\":\"74786f\"}\n\
1 400 {\"at\":373,\"error\":\"Truncated\"}\n\
1 400 {\"at\":217,\"error\":\"Malformed\"}\n\
32 422 {\"error\":\"Header\",\"field\":\"txn\",\"front\":0}\n\
1 400 {\"error\":\"Field\",\"name\":\"7491\"}\n\
1 400 {\"error\":\"Field\",\"name\":\"75\"}\n\
2 400 {\"at\":373,\"error\":\"Truncated\"}\n\
1 400 {\"at\":229,\"error\":\"Trailing\"}\n\
1 400 {\"error\":\"Field\",\"name\":\"75786e\"}\n\
1 400 {\"error\":\"Field\",\"name\":\"74796e\"}\n\
1 400 {\"error\":\"Field\",\"name\":\"74786f\"}\n\
1 400 {\"at\":373,\"error\":\"Truncated\"}\n\
1 400 {\"at\":231,\"error\":\"Malformed\"}\n\
1 400 {\"error\":\"Field\",\"name\":\"626d74\"}\n\
1 400 {\"error\":\"Field\",\"name\":\"616e74\"}\n\
1 400 {\"error\":\"Field\",\"name\":\"616d75\"}\n\
1 400 {\"at\":238,\"error\":\"Malformed\"}\n\
4 422 {\"error\":\"Header\",\"field\":\"txn\",\"front\":0}\n\
1 400 {\"at\":240,\"error\":\"Malformed\"}\n\
1 400 {\"at\":242,\"error\":\"Malformed\"}\n\
1 400 {\"error\":\"Field\",\"name\":\"666665\"}\n\
1 400 {\"error\":\"Field\",\"name\":\"666566\"}\n\
1 400 {\"at\":243,\"error\":\"Malformed\"}\n\
2 422 {\"error\":\"Header\",\"field\":\"txn\",\"front\":0}\n\
1 400 {\"at\":248,\"error\":\"Malformed\"}\n\
1 400 {\"at\":247,\"error\":\"Malformed\"}\n\
1 400 {\"error\":\"Field\",\"name\":\"6677\"}\n\
1 422 {\"error\":\"Header\",\"field\":\"txn\",\"front\":0}\n\
1 400 {\"at\":250,\"error\":\"Malformed\"}\n\
1 400 {\"error\":\"Field\",\"name\":\"6868\"}\n\
1 400 {\"error\":\"Field\",\"name\":\"6769\"}\n\
1 400 {\"at\":373,\"error\":\"Truncated\"}\n\
1 400 {\"at\":283,\"error\":\"Malformed\"}\n\
32 422 {\"error\":\"Header\",\"field\":\"txn\",\"front\":0}\n\
1 400 {\"at\":287,\"error\":\"Malformed\"}\n\
1 400 {\"error\":\"Field\",\"name\":\"6d76\"}\n\
1 400 {\"error\":\"Field\",\"name\":\"6c77\"}\n\
1 400 {\"at\":290,\"error\":\"Malformed\"}\n\
2 422 {\"error\":\"Header\",\"field\":\"txn\",\"front\":0}\n\
1 400 {\"at\":294,\"error\":\"Malformed\"}\n\
1 400 {\"error\":\"Field\",\"name\":\"736376\"}\n\
1 400 {\"error\":\"Field\",\"name\":\"726476\"}\n\
1 400 {\"error\":\"Field\",\"name\":\"726377\"}\n\
1 400 {\"at\":373,\"error\":\"Truncated\"}\n\
1 400 {\"at\":327,\"error\":\"Malformed\"}\n\
32 422 {\"error\":\"Header\",\"field\":\"txn\",\"front\":0}\n\
1 400 {\"at\":332,\"error\":\"Malformed\"}\n\
1 400 {\"error\":\"Field\",\"name\":\"746e64\"}\n\
1 400 {\"error\":\"Field\",\"name\":\"736f64\"}\n\
1 400 {\"error\":\"Field\",\"name\":\"736e65\"}\n\
1 400 {\"at\":373,\"error\":\"Truncated\"}\n\
1 400 {\"at\":365,\"error\":\"Malformed\"}\n\
32 422 {\"error\":\"Header\",\"field\":\"txn\",\"front\":0}\n\
1 400 {\"at\":371,\"error\":\"Trailing\"}\n\
4 400 {\"error\":\"Range\",\"name\":\"74797065\"}\n\
1 400 {\"at\":373,\"error\":\"Truncated\"}\n\
3 400 {\"error\":\"Range\",\"name\":\"74797065\"}";

const TAKEN: &str = "{\"front\":1,\"round\":1}";

fn phrase(status: u64) -> &'static str {
    match status {
        200 => "OK",
        400 => "Bad Request",
        409 => "Conflict",
        _ => "Unprocessable Entity",
    }
}

// Appends a request that posts these bytes.
pub(crate) fn ask(alloc: Global, asked: &mut Vec<u8>, body: &[u8]) -> Result<(), AllocError> {
    let size = body.len();
    let head = format!(in alloc; "POST /v1/blocks HTTP/1.1\r\ncontent-length: {size}\r\n\r\n")?;
    asked.extend_from_slice(head.as_bytes())?;
    asked.extend_from_slice(body)
}

// Appends an answer.
pub(crate) fn tell(
    alloc: Global,
    told: &mut Vec<u8>,
    status: u64,
    text: &str,
) -> Result<(), AllocError> {
    let phrase = phrase(status);
    let size = text.len();
    let answer = format!(in alloc;
        "HTTP/1.1 {status} {phrase}\r\ncontent-type: application/json\r\ncontent-length: {size}\r\n\r\n{text}"
    )?;
    told.extend_from_slice(answer.as_bytes())
}

// Each front of the block, the empty one first.
fn cut(alloc: Global, asked: &mut Vec<u8>, told: &mut Vec<u8>) -> Result<(), AllocError> {
    for size in 0..BLOCK.len() {
        ask(alloc, asked, &BLOCK[..size])?;
        let text = format!(in alloc; "{{\"at\":{size},\"error\":\"Truncated\"}}")?;
        tell(alloc, told, 400, text.as_str())?;
    }
    Ok(())
}

/// An answer, and to how many bytes in a row it is given.
#[derive(Clone, Copy)]
struct Run<'a> {
    count: usize,
    status: u64,
    text: &'a str,
}

// The block with each of so many bytes from a place on raised by one.
fn raise(
    alloc: Global,
    asked: &mut Vec<u8>,
    told: &mut Vec<u8>,
    from: usize,
    run: &Run<'_>,
) -> Result<(), AllocError> {
    for at in from..from.saturating_add(run.count).min(BLOCK.len()) {
        let mut block = *BLOCK;
        block[at] = block[at].wrapping_add(1);
        ask(alloc, asked, &block)?;
        tell(alloc, told, run.status, run.text)?;
    }
    Ok(())
}

// What a line of the table says.
fn run_of(line: &str) -> Option<Run<'_>> {
    let (count, rest) = line.split_once(' ')?;
    let (status, text) = rest.split_once(' ')?;
    Some(Run {
        count: count.parse().ok()?,
        status: status.parse().ok()?,
        text,
    })
}

// Whatever was refused before, the block is taken behind it, once.
#[test]
fn each_byte_is_judged(rt: HostRuntime) -> Result<(), Fail> {
    let alloc = rt.alloc();
    let mut asked = Vec::new(alloc);
    let mut told = Vec::new(alloc);
    cut(alloc, &mut asked, &mut told)?;
    let mut from = 0usize;
    for line in RAISED.lines() {
        let run = run_of(line).ok_or("a line of the table")?;
        raise(alloc, &mut asked, &mut told, from, &run)?;
        from = from.saturating_add(run.count);
    }
    assert_eq!(rt; from, BLOCK.len());
    for _ in 0..2u8 {
        ask(alloc, &mut asked, BLOCK)?;
        tell(alloc, &mut told, 200, TAKEN)?;
    }
    let mut source = MemSource::new(alloc, &asked, &[])?;
    let ran = runs_to(alloc, &["session", "g"], &[], &mut source, &told)?;
    assert_eq!(rt; ran, (0, true));
    Ok(())
}
