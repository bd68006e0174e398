// What the tests of connections share.
use al_base::{Bytes, Failed, Files, MemFolder, MemSink, MemSource, NamedFile, Source};
use al_session::{Words, run};
use std::alloc::{AllocError, Global};

/// Bytes of a connection, and what is written for them.
pub(crate) type Row = (&'static [u8], &'static [u8]);

/// The sink with nothing, the pool with 100,000, and an account with 2,500,000 microAlgos.
pub(crate) const GENESIS: &[u8; 245] =
    b"\x84\xa5alloc\x93\x82\xa4addr\xc4 \x01\x01\x01\x01\x01\x01\x01\x01\x01\x01\x01\x01\x01\x01\x01\x01\x01\x01\x01\x01\x01\x01\x01\x01\x01\x01\x01\x01\x01\x01\x01\x01\xa3row\x81\xa1a\x02\x82\xa4addr\xc4 \x02\x02\x02\x02\x02\x02\x02\x02\x02\x02\x02\x02\x02\x02\x02\x02\x02\x02\x02\x02\x02\x02\x02\x02\x02\x02\x02\x02\x02\x02\x02\x02\xa3row\x82\xa1a\x02\xa1b\xce\x00\x01\x86\xa0\x82\xa4addr\xc4 \x03\x03\x03\x03\x03\x03\x03\x03\x03\x03\x03\x03\x03\x03\x03\x03\x03\x03\x03\x03\x03\x03\x03\x03\x03\x03\x03\x03\x03\x03\x03\x03\xa3row\x81\xa1b\xce\x00&%\xa0\xa4fees\xc4 \x01\x01\x01\x01\x01\x01\x01\x01\x01\x01\x01\x01\x01\x01\x01\x01\x01\x01\x01\x01\x01\x01\x01\x01\x01\x01\x01\x01\x01\x01\x01\x01\xa2id\xa1t\xa3rwd\xc4 \x02\x02\x02\x02\x02\x02\x02\x02\x02\x02\x02\x02\x02\x02\x02\x02\x02\x02\x02\x02\x02\x02\x02\x02\x02\x02\x02\x02\x02\x02\x02\x02";

/// The same where the pool has one less.
const POOR: &[u8; 245] =
    b"\x84\xa5alloc\x93\x82\xa4addr\xc4 \x01\x01\x01\x01\x01\x01\x01\x01\x01\x01\x01\x01\x01\x01\x01\x01\x01\x01\x01\x01\x01\x01\x01\x01\x01\x01\x01\x01\x01\x01\x01\x01\xa3row\x81\xa1a\x02\x82\xa4addr\xc4 \x02\x02\x02\x02\x02\x02\x02\x02\x02\x02\x02\x02\x02\x02\x02\x02\x02\x02\x02\x02\x02\x02\x02\x02\x02\x02\x02\x02\x02\x02\x02\x02\xa3row\x82\xa1a\x02\xa1b\xce\x00\x01\x86\x9f\x82\xa4addr\xc4 \x03\x03\x03\x03\x03\x03\x03\x03\x03\x03\x03\x03\x03\x03\x03\x03\x03\x03\x03\x03\x03\x03\x03\x03\x03\x03\x03\x03\x03\x03\x03\x03\xa3row\x81\xa1b\xce\x00&%\xa0\xa4fees\xc4 \x01\x01\x01\x01\x01\x01\x01\x01\x01\x01\x01\x01\x01\x01\x01\x01\x01\x01\x01\x01\x01\x01\x01\x01\x01\x01\x01\x01\x01\x01\x01\x01\xa2id\xa1t\xa3rwd\xc4 \x02\x02\x02\x02\x02\x02\x02\x02\x02\x02\x02\x02\x02\x02\x02\x02\x02\x02\x02\x02\x02\x02\x02\x02\x02\x02\x02\x02\x02\x02\x02\x02";

/// The pool with 2,100,000, accounts with 2,500,000 and 1,000,000, and a rate that stays for 10 rounds.
const REWARDS: &[u8; 303] =
    b"\x85\xa5alloc\x94\x82\xa4addr\xc4 \x01\x01\x01\x01\x01\x01\x01\x01\x01\x01\x01\x01\x01\x01\x01\x01\x01\x01\x01\x01\x01\x01\x01\x01\x01\x01\x01\x01\x01\x01\x01\x01\xa3row\x81\xa1a\x02\x82\xa4addr\xc4 \x02\x02\x02\x02\x02\x02\x02\x02\x02\x02\x02\x02\x02\x02\x02\x02\x02\x02\x02\x02\x02\x02\x02\x02\x02\x02\x02\x02\x02\x02\x02\x02\xa3row\x82\xa1a\x02\xa1b\xce\x00 \x0b \x82\xa4addr\xc4 \x03\x03\x03\x03\x03\x03\x03\x03\x03\x03\x03\x03\x03\x03\x03\x03\x03\x03\x03\x03\x03\x03\x03\x03\x03\x03\x03\x03\x03\x03\x03\x03\xa3row\x81\xa1b\xce\x00&%\xa0\x82\xa4addr\xc4 \x04\x04\x04\x04\x04\x04\x04\x04\x04\x04\x04\x04\x04\x04\x04\x04\x04\x04\x04\x04\x04\x04\x04\x04\x04\x04\x04\x04\x04\x04\x04\x04\xa3row\x81\xa1b\xce\x00\x0fB@\xa4fees\xc4 \x01\x01\x01\x01\x01\x01\x01\x01\x01\x01\x01\x01\x01\x01\x01\x01\x01\x01\x01\x01\x01\x01\x01\x01\x01\x01\x01\x01\x01\x01\x01\x01\xa2id\xa1t\xa4intv\n\xa3rwd\xc4 \x02\x02\x02\x02\x02\x02\x02\x02\x02\x02\x02\x02\x02\x02\x02\x02\x02\x02\x02\x02\x02\x02\x02\x02\x02\x02\x02\x02\x02\x02\x02\x02";

/// A source that comes in pieces. Its call of the number `end`, counted from 1, says that it is at its end.
#[derive(Drop)]
pub(crate) struct Pieces<S> {
    source: S,
    most: usize,
    end: u64,
    calls: u64,
}

impl<S: Source> Source for Pieces<S> {
    ghost use Rattle.std.specs.Prelude.{None};

    ghost left = { λ _. None };

    ghost faults = { λ p. S.faults p.source };

    fn take(&mut self, buf: &mut [u8]) -> Result<usize, Failed> {
        self.calls = self.calls.saturating_add(1);
        if self.calls == self.end {
            return Ok(0);
        }
        let n = self.most.min(buf.len());
        self.source.take(&mut buf[..n])
    }
}

pub(crate) fn in_pieces(
    alloc: Global,
    rows: &[Row],
    most: usize,
    fails: &[u64],
    end: u64,
) -> Result<Pieces<MemSource>, AllocError> {
    Ok(Pieces {
        source: source_of(alloc, rows, fails)?,
        most,
        end,
        calls: 0,
    })
}

pub(crate) fn source_of(
    alloc: Global,
    rows: &[Row],
    fails: &[u64],
) -> Result<MemSource, AllocError> {
    let mut all = Vec::new(alloc);
    for (bytes, _) in rows {
        all.extend_from_slice(bytes)?;
    }
    MemSource::new(alloc, &all, fails)
}

// What is written for the rows that end within the first n bytes.
pub(crate) fn written(alloc: Global, rows: &[Row], n: usize) -> Result<Vec<u8>, AllocError> {
    let mut all = Vec::new(alloc);
    let mut left = n;
    for (bytes, answer) in rows {
        if left < bytes.len() {
            return Ok(all);
        }
        left -= bytes.len();
        all.extend_from_slice(answer)?;
    }
    Ok(all)
}

pub(crate) fn words_of(alloc: Global, texts: &[&str]) -> Result<Words, AllocError> {
    let mut words = Words::new(alloc);
    for text in texts {
        words.push(alloc, text)?;
    }
    Ok(words)
}

fn folder_of(alloc: Global, fails: &[u64]) -> Result<MemFolder, AllocError> {
    let contents: [(&[u8], &[u8]); 4] = [
        (b"g", GENESIS),
        (b"poor", POOR),
        (b"rewards", REWARDS),
        (b"odd", b"\xc0"),
    ];
    let mut files = Files::new(alloc);
    for (name, bytes) in contents {
        files.push(NamedFile {
            name: Bytes::of(alloc, name)?,
            bytes: Bytes::of(alloc, bytes)?,
        })?;
    }
    MemFolder::new(alloc, files, fails)
}

// The status of a command, and whether it wrote these bytes.
pub(crate) fn runs_to<S: Source>(
    alloc: Global,
    texts: &[&str],
    fails: &[u64],
    source: &mut S,
    want: &[u8],
) -> Result<(u8, bool), AllocError> {
    let words = words_of(alloc, texts)?;
    let mut folder = folder_of(alloc, fails)?;
    let mut sink = MemSink::new(alloc, b"", &[])?;
    let status = run(alloc, &words, source, &mut sink, &mut folder);
    Ok((status.0, sink.bytes() == want))
}

// The same for what stands in the rows.
pub(crate) fn runs<S: Source>(
    alloc: Global,
    texts: &[&str],
    fails: &[u64],
    source: &mut S,
    rows: &[Row],
) -> Result<(u8, bool), AllocError> {
    let want = written(alloc, rows, usize::MAX)?;
    runs_to(alloc, texts, fails, source, &want)
}
