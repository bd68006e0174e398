use crate::common::{GENESIS, Row, in_pieces, runs, source_of, words_of, written};
use crate::payments::{MINIMUM, PAYMENT};
use al_base::{Bytes, Failed, Folder, FolderRefusal, MemSink, MemSource, Sink, Source};
use al_session::{Caller, Ended, run, serve_link};
use al_states::States;
use std::alloc::{AllocError, Global};
use std::process::Abort;
use std::test::*;

const NO_ROUTE: &[u8] =
    b"HTTP/1.1 404 Not Found\r\ncontent-type: application/json\r\ncontent-length: 19\r\n\r\n{\"error\":\"NoRoute\"}";

const BAD_ADDRESS: &[u8] =
    b"HTTP/1.1 400 Bad Request\r\ncontent-type: application/json\r\ncontent-length: 22\r\n\r\n{\"error\":\"BadAddress\"}";

const BAD_HEAD: &[u8] =
    b"HTTP/1.1 400 Bad Request\r\ncontent-type: application/json\r\ncontent-length: 19\r\n\r\n{\"error\":\"BadHead\"}";

const BAD_LENGTH: &[u8] =
    b"HTTP/1.1 400 Bad Request\r\ncontent-type: application/json\r\ncontent-length: 21\r\n\r\n{\"error\":\"BadLength\"}";

const CODING: &[u8] =
    b"HTTP/1.1 501 Not Implemented\r\ncontent-type: application/json\r\ncontent-length: 18\r\n\r\n{\"error\":\"Coding\"}";

const TOO_LARGE: &[u8] =
    b"HTTP/1.1 413 Payload Too Large\r\ncontent-type: application/json\r\ncontent-length: 20\r\n\r\n{\"error\":\"TooLarge\"}";

/// The answer to no bytes where a block should be.
const NO_BLOCK: &[u8] =
    b"HTTP/1.1 400 Bad Request\r\ncontent-type: application/json\r\ncontent-length: 28\r\n\r\n{\"at\":0,\"error\":\"Truncated\"}";

/// A request with no body, and its first line.
const EMPTY: &[u8] = b"POST /v1/blocks HTTP/1.1\r\n\r\n";

const POST: &[u8] = b"POST /v1/blocks HTTP/1.1\r\n";

/// A request that says two bytes more than come.
const SHORT: &[u8] = b"POST /v1/blocks HTTP/1.1\r\ncontent-length: 5\r\n\r\nabc";

/// Fields of a head, as many as one may have.
const FIELDS: &[u8] =
    b"a:\r\na:\r\na:\r\na:\r\na:\r\na:\r\na:\r\na:\r\na:\r\na:\r\na:\r\na:\r\na:\r\na:\r\na:\r\na:\r\na:\r\na:\r\na:\r\na:\r\na:\r\na:\r\na:\r\na:\r\na:\r\na:\r\na:\r\na:\r\na:\r\na:\r\na:\r\na:\r\na:\r\na:\r\na:\r\na:\r\na:\r\na:\r\na:\r\na:\r\na:\r\na:\r\na:\r\na:\r\na:\r\na:\r\na:\r\na:\r\na:\r\na:\r\na:\r\na:\r\na:\r\na:\r\na:\r\na:\r\na:\r\na:\r\na:\r\na:\r\na:\r\na:\r\na:\r\na:\r\n";

const USAGE: [Row; 1] = [(b"", b"usage: al_node [--db FILE] COMMAND\n")];

const ODD: [Row; 1] = [(b"", b"genesis: 1\n")];

const TOO_POOR: [Row; 1] = [(b"", b"genesis: 6\n")];

const OTHER: [Row; 1] = [(b"", b"folder: other\n")];

const FOLDER: [Row; 1] = [(b"", b"folder: g\n")];

const BLOCKS: [Row; 1] = [(b"", b"folder: b\n")];

const CUT: [Row; 1] = [(b"GET /v1", b"")];

const NOTHING: [Row; 1] = [(b"GET /v1/nothing HTTP/1.1\r\n\r\n", NO_ROUTE)];

const BAD: [Row; 1] = [(b"GET /v1/status HTTP/2.0\r\n\r\n", BAD_HEAD)];

const CODED: [Row; 1] = [(
    b"GET /v1/status HTTP/1.1\r\ntransfer-encoding: chunked\r\n\r\n",
    CODING,
)];

const NO_ROWS: [Row; 0] = [];

/// Words, which call of the folder fails, what is sent and written, and the status. The commands that
/// are not built are usage.
const STATUSES: [(&[&str], u64, &[Row], u8); 26] = [
    (&[], 0, &USAGE, 2),
    (&["session"], 0, &USAGE, 2),
    (&["session", "-g"], 0, &USAGE, 2),
    (&["session", "--", "g"], 0, &USAGE, 2),
    (&["session", "g", "g"], 0, &USAGE, 2),
    (&["Session", "g"], 0, &USAGE, 2),
    (&["help"], 0, &USAGE, 2),
    (&["--db", "d", "session", "g"], 0, &USAGE, 2),
    (&["serve", "g", "8080"], 0, &USAGE, 2),
    (&["generate", "7"], 0, &USAGE, 2),
    (&["generate", "7", "0"], 0, &USAGE, 2),
    (&["generate", "7", "1001"], 0, &USAGE, 2),
    (&["generate", "07", "200"], 0, &USAGE, 2),
    (&["generate", "18446744073709551616", "200"], 0, &USAGE, 2),
    (&["catchpoint", "g", "b", "640"], 0, &BLOCKS, 4),
    (&["catchup", "g", "640#"], 0, &USAGE, 2),
    (&["label", "640"], 0, &USAGE, 2),
    (&["session", "odd"], 0, &ODD, 3),
    (&["session", "poor"], 0, &TOO_POOR, 3),
    (&["session", "other"], 0, &OTHER, 4),
    (&["session", "g"], 1, &FOLDER, 4),
    (&["session", "g"], 0, &CUT, 5),
    (&["session", "g"], 0, &BAD, 5),
    (&["session", "g"], 0, &CODED, 5),
    (&["session", "g"], 0, &NOTHING, 0),
    (&["session", "g"], 2, &NO_ROWS, 0),
];

#[test]
fn statuses(rt: HostRuntime) -> Result<(), Fail> {
    let alloc = rt.alloc();
    for (texts, fails, rows, status) in STATUSES {
        let mut source = source_of(alloc, rows, &[])?;
        let ran = runs(alloc, texts, &[fails], &mut source, rows)?;
        assert_eq!(rt; ran, (status, true), "{texts:?}, folder {fails}");
    }
    Ok(())
}

// How a connection over the genesis ends, and whether it wrote what stands in the rows that end within the first n bytes.
fn ends<S: Source>(
    alloc: Global,
    source: &mut S,
    fails: &[u64],
    rows: &[Row],
    n: usize,
) -> Result<(Option<Ended>, bool), AllocError> {
    let Ok(mut states) = States::open(alloc, GENESIS) else {
        return Ok((None, false));
    };
    let mut sink = MemSink::new(alloc, b"", fails)?;
    let ended = serve_link(alloc, &mut states, &mut Caller::new(), source, &mut sink);
    let want = written(alloc, rows, n)?;
    Ok((Some(ended), sink.bytes() == want.as_slice()))
}

// A connection over the genesis ends so, whole and by single bytes, with what stands in the rows.
fn assert_end<R: Abort>(
    rt: &R,
    alloc: Global,
    rows: &[Row],
    want: Ended,
) -> Result<(), AllocError> {
    let mut source = source_of(alloc, rows, &[])?;
    let whole = ends(alloc, &mut source, &[], rows, usize::MAX)?;
    assert_eq!(rt; whole, (Some(want), true));
    let mut source = in_pieces(alloc, rows, 1, &[], 0)?;
    let cut = ends(alloc, &mut source, &[], rows, usize::MAX)?;
    assert_eq!(rt; cut, (Some(want), true), "in pieces");
    Ok(())
}

#[test]
fn ends_of_the_source(rt: HostRuntime) -> Result<(), Fail> {
    let cases: [(&[Row], Ended); 7] = [
        (&[], Ended::Finished),
        (&[(b"GET /v1/acc", b"")], Ended::CutShort { at: 11 }),
        (&[(b"\r\n", b"")], Ended::CutShort { at: 2 }),
        (
            &[MINIMUM[0], (b"GET /v1/acc", b"")],
            Ended::CutShort { at: 433 },
        ),
        (&[MINIMUM[0], (SHORT, b"")], Ended::CutShort { at: 472 }),
        (&[(POST, b""), (FIELDS, b"")], Ended::CutShort { at: 282 }),
        (
            &[(POST, b""), (FIELDS, b""), (b"\r\n", NO_BLOCK)],
            Ended::Finished,
        ),
    ];
    for (rows, want) in cases {
        assert_end(&rt, rt.alloc(), rows, want)?;
    }
    Ok(())
}

// What stands behind a request that ends the connection is not answered. A fault of form ends none.
#[test]
fn requests_that_end_it(rt: HostRuntime) -> Result<(), Fail> {
    let behind: Row = (EMPTY, b"");
    let cases: [&[Row]; 6] = [
        &[(b"GET /v1/accounts/A HTTP/1.1\r\n\r\n", BAD_ADDRESS)],
        &[(b"POST /v1/blocks HTTP/1.0\r\n\r\n", NO_BLOCK), behind],
        &[
            (
                b"POST /v1/blocks HTTP/1.1\r\nConnection: CLOSE\r\n\r\n",
                NO_BLOCK,
            ),
            behind,
        ],
        &[
            (
                b"GET /v1/nothing HTTP/1.1\r\nconnection: a\r\nconnection: close\r\n\r\n",
                NO_ROUTE,
            ),
            behind,
        ],
        &[
            (
                b"POST /v1/blocks HTTP/1.1\r\nconnection: keep-alive, close\r\n\r\n",
                NO_BLOCK,
            ),
            (EMPTY, NO_BLOCK),
        ],
        &[
            (
                b"GET /v1/nothing HTTP/1.1\r\ncontent-length: 3\r\n\r\nGET",
                NO_ROUTE,
            ),
            (EMPTY, NO_BLOCK),
        ],
    ];
    for rows in cases {
        assert_end(&rt, rt.alloc(), rows, Ended::Finished)?;
    }
    Ok(())
}

// A head that is bad, and bodies that are not read: coding comes before length, length before size,
// and all of them before the path. What stands behind is not looked at.
#[test]
fn refused_heads(rt: HostRuntime) -> Result<(), Fail> {
    let cases: [(&[u8], &[u8], Ended); 10] = [
        (b"\x00", BAD_HEAD, Ended::BadHead),
        (b"\x82", BAD_HEAD, Ended::BadHead),
        (b"GET /v1/status HTTP/2.0\r\n", BAD_HEAD, Ended::BadHead),
        (
            b"POST /v1/blocks HTTP/1.1\r\na b: c\r\n",
            BAD_HEAD,
            Ended::BadHead,
        ),
        (
            b"GET /v1/nothing HTTP/1.1\r\ncontent-length: x\r\ntransfer-encoding:\r\n\r\n",
            CODING,
            Ended::Unreadable,
        ),
        (
            b"GET /v1/nothing HTTP/1.1\r\ncontent-length: -1\r\n\r\n",
            BAD_LENGTH,
            Ended::Unreadable,
        ),
        (
            b"DELETE /v1/status HTTP/1.1\r\ncontent-length:\r\n\r\n",
            BAD_LENGTH,
            Ended::Unreadable,
        ),
        (
            b"POST /v1/blocks HTTP/1.0\r\ncontent-length: 0\r\ncontent-length: 0\r\n\r\n",
            BAD_LENGTH,
            Ended::Unreadable,
        ),
        (
            b"POST /v1/blocks HTTP/1.1\r\ncontent-length: 5242881\r\n\r\n",
            TOO_LARGE,
            Ended::Unreadable,
        ),
        (
            b"GET /v1/nothing HTTP/1.1\r\ncontent-length: 18446744073709551616\r\n\r\n",
            TOO_LARGE,
            Ended::Unreadable,
        ),
    ];
    for (head, answer, want) in cases {
        let rows: [Row; 3] = [(EMPTY, NO_BLOCK), (head, answer), (EMPTY, b"")];
        assert_end(&rt, rt.alloc(), &rows, want)?;
    }
    let fields: [Row; 3] = [(POST, b""), (FIELDS, b""), (b"a:\r\n", BAD_HEAD)];
    assert_end(&rt, rt.alloc(), &fields, Ended::BadHead)?;
    Ok(())
}

// How a connection ends whose only bytes are these many of a head without an end.
fn end_of_head(alloc: Global, size: usize) -> Result<(Option<Ended>, bool), AllocError> {
    let mut head = b"GET /".to_vec(alloc)?;
    for _ in head.len()..size {
        head.push(b'a')?;
    }
    let Ok(mut states) = States::open(alloc, GENESIS) else {
        return Ok((None, false));
    };
    let mut source = MemSource::new(alloc, &head, &[])?;
    let mut sink = MemSink::new(alloc, b"", &[])?;
    let mut caller = Caller::new();
    let ended = serve_link(alloc, &mut states, &mut caller, &mut source, &mut sink);
    Ok((Some(ended), sink.bytes() == BAD_HEAD))
}

#[test]
fn the_longest_head(rt: HostRuntime) -> Result<(), Fail> {
    let cut = Ended::CutShort { at: 16_384 };
    assert_eq!(rt; end_of_head(rt.alloc(), 16_384)?, (Some(cut), false));
    assert_eq!(rt;
        end_of_head(rt.alloc(), 16_385)?,
        (Some(Ended::BadHead), true)
    );
    Ok(())
}

// How the payment's 1,350 bytes end where only the first n come, and then a fault or an end.
fn after(n: usize, is_fault: bool) -> Ended {
    if is_fault && n <= 1350 {
        Ended::SourceFault
    } else if n == 0 || 1350 <= n {
        Ended::Finished
    } else {
        Ended::CutShort { at: n as u64 }
    }
}

// The payment has nine pieces of 150 bytes, none of which ends with a request, and 11 answers.
#[test]
fn failing_calls(rt: HostRuntime) -> Result<(), Fail> {
    let alloc = rt.alloc();
    for before in 0..12u8 {
        let n = usize::from(before) * 150;
        let call = u64::from(before) + 1;
        let mut source = in_pieces(alloc, &PAYMENT, 150, &[call], 0)?;
        let failed = ends(alloc, &mut source, &[], &PAYMENT, n)?;
        assert_eq!(rt; failed, (Some(after(n, true)), true), "take {call}");
        let mut source = in_pieces(alloc, &PAYMENT, 150, &[], call)?;
        let ended = ends(alloc, &mut source, &[], &PAYMENT, n)?;
        assert_eq!(rt; ended, (Some(after(n, false)), true), "end {call}");
    }
    for before in 0..12usize {
        let mut source = source_of(alloc, &PAYMENT, &[])?;
        let rows = &PAYMENT[..before.min(11)];
        let put = ends(alloc, &mut source, &[before as u64 + 1], rows, usize::MAX)?;
        let want = if before < 11 {
            Ended::SinkFault
        } else {
            Ended::Finished
        };
        assert_eq!(rt; put, (Some(want), true), "put behind {before}");
    }
    let mut source = source_of(alloc, &[(b"\x82", b"")], &[])?;
    let refusal = ends(alloc, &mut source, &[1], &[], 0)?;
    assert_eq!(rt; refusal, (Some(Ended::SinkFault), true));
    Ok(())
}

/// A folder that has no room to read a file.
#[derive(Drop)]
struct Full;

impl Folder for Full {
    ghost use Rattle.std.specs.Prelude.{None};

    ghost files = { λ _. None };

    ghost faults = { λ _. 0 };

    fn read(
        &mut self,
        _alloc: Global,
        _name: &str,
        _limit: usize,
    ) -> Result<Option<Bytes>, FolderRefusal> {
        Err(FolderRefusal::Memory)
    }

    fn write(&mut self, _name: &str, _bytes: &[u8]) -> Result<(), Failed> {
        Ok(())
    }
}

#[test]
fn want_of_memory(rt: HostRuntime) -> Result<(), Fail> {
    let alloc = rt.alloc();
    let words = words_of(alloc, &["session", "g"])?;
    let mut source = source_of(alloc, &PAYMENT, &[])?;
    let mut sink = MemSink::new(alloc, b"", &[])?;
    let status = run(alloc, &words, &mut source, &mut sink, &mut Full);
    assert_eq!(rt; (status.0, sink.bytes().len()), (7, 0));
    Ok(())
}
