// The chains of numbers, whose summaries an independent program computed.
use crate::common::{runs_to, source_of, words_of};
use al_base::{Files, MemFolder, MemSink};
use al_session::run;
use std::alloc::{AllocError, Global};
use std::test::*;

const SEVEN: &[u8] =
    b"blocks 200\ntransactions 524\nfront 200\nfloor 0\nhash XWXC74KDRGLG4DVBZCVRS3XZB52HOLNC3DSRSYLDL4KNC7QUIFNQ\nsum 32001001000000\n";

const ZERO: &[u8] =
    b"blocks 1\ntransactions 4\nfront 1\nfloor 0\nhash PCLNP72RC2UYNZGMJKX7FFLD7AUDAZZVFGKVPYCQYWR7ZWXDURFA\nsum 32001001000000\n";

const MOST: &[u8] =
    b"blocks 40\ntransactions 98\nfront 40\nfloor 0\nhash 3CYTVJU6XNBWQFMP2HDTX6GGQFUVLPUHBPO4GFFDC5FRWZ2AJ5MQ\nsum 32001001000000\n";

/// The words behind `generate`, and the summary.
const SUMMARIES: [(&str, &str, &[u8]); 4] = [
    ("7", "200", SEVEN),
    ("7", "200", SEVEN),
    ("0", "1", ZERO),
    ("18446744073709551615", "40", MOST),
];

#[test]
fn summaries(rt: HostRuntime) -> Result<(), Fail> {
    let alloc = rt.alloc();
    for (number, blocks, want) in SUMMARIES {
        let mut source = source_of(alloc, &[], &[])?;
        let words = ["generate", number, blocks];
        let ran = runs_to(alloc, &words, &[], &mut source, want)?;
        assert_eq!(rt; ran, (0, true), "{number} {blocks}");
    }
    Ok(())
}

// The status of a chain whose sink fails at once, and whether it wrote nothing.
fn refused(alloc: Global) -> Result<(u8, bool), AllocError> {
    let words = words_of(alloc, &["generate", "0", "1"])?;
    let mut source = source_of(alloc, &[], &[])?;
    let mut folder = MemFolder::new(alloc, Files::new(alloc), &[])?;
    let mut sink = MemSink::new(alloc, b"", &[1])?;
    let status = run(alloc, &words, &mut source, &mut sink, &mut folder);
    Ok((status.0, sink.bytes().is_empty()))
}

#[test]
fn a_sink_that_fails(rt: HostRuntime) -> Result<(), Fail> {
    assert_eq!(rt; refused(rt.alloc())?, (5, true));
    Ok(())
}
