//! Sources, sinks and a folder over the system. They tell nothing, and count each error.
ghost use Rattle.std.specs.Prelude.{◌≡◌, ◌≤◌, length, IfOk, OnOk, None, is_err};
ghost use Rattle.std.specs.Io.KnownBytes.{Appends, ReadConsumes};
ghost use Rattle.al_base.specs.Causes.{HasCause, Puts, Takes};
ghost use Rattle.al_base.specs.Folders.{HasReadCause, IsWithinLimit, Reads, Writes, is_failed};
ghost use Rattle.al_base.specs.Plans.{counted_if};

use crate::{Bytes, Failed, Folder, FolderRefusal, Sink, Source};
use std::alloc::Global;
use std::fs;
use std::io::{self, ErrorKind, Read, Write};
use std::rt::Files;

/// A source over a reader.
#[derive(Debug, Drop)]
pub struct ReadSource<R> {
    reader: R,
    faults: u64,
}

impl<R> ReadSource<R> {
    /// A source of what the reader gives.
    pub fn new(reader: R) -> ReadSource<R>
        ensures reader { result.reader ≡ reader }
        ensures faults { result.faults ≡ 0 }
    {
        ReadSource { reader, faults: 0 }
    }
}

impl<R: Read> Source for ReadSource<R> {
    ghost use Rattle.std.specs.Prelude.{None};

    ghost left = { λ _. None };

    ghost faults = { λ s. s.faults };

    fn take(&mut self, buf: &mut [u8]) -> Result<usize, Failed>
        ensures bound { IfOk result (λ n. n ≤ length buf.new) }
        ensures bytes { Takes None None result buf.new }
        ensures cause { HasCause self.old.faults self.new.faults result }
        ensures read { ReadConsumes (R.remaining self.old.reader) (R.remaining self.new.reader) result buf.new }
        ensures faults { self.new.faults ≡ counted_if (is_err result) self.old.faults }
    {
        let Ok(n) = self.reader.read(buf) else {
            self.faults = self.faults.saturating_add(1);
            return Err(Failed);
        };
        Ok(n)
    }
}

/// A sink over a writer, which is flushed after each call.
#[derive(Debug, Drop)]
pub struct WriteSink<W> {
    writer: W,
    faults: u64,
}

impl<W> WriteSink<W> {
    /// A sink that writes to the writer.
    pub fn new(writer: W) -> WriteSink<W>
        ensures writer { result.writer ≡ writer }
        ensures faults { result.faults ≡ 0 }
    {
        WriteSink { writer, faults: 0 }
    }
}

impl<W: Write> Sink for WriteSink<W> {
    ghost use Rattle.std.specs.Prelude.{None};

    ghost written = { λ _. None };

    ghost faults = { λ s. s.faults };

    // `write_all` makes an error of a write that takes nothing.
    fn put(&mut self, bytes: &[u8]) -> Result<(), Failed>
        ensures bytes { Puts None None result bytes.now }
        ensures cause { HasCause self.old.faults self.new.faults result }
        ensures written { OnOk result (Appends (W.contents self.old.writer) (W.contents self.new.writer) bytes.now) }
        ensures faults { self.new.faults ≡ counted_if (is_err result) self.old.faults }
    {
        if self.writer.write_all(bytes).is_err() || self.writer.flush().is_err() {
            self.faults = self.faults.saturating_add(1);
            return Err(Failed);
        }
        Ok(())
    }
}

/// The current folder of the system.
#[derive(Debug, Drop)]
pub struct DirFolder<R> {
    rt: R,
    faults: u64,
}

impl<R> DirFolder<R> {
    /// The current folder.
    pub fn new(rt: R) -> DirFolder<R>
        ensures { result.faults ≡ 0 }
    {
        DirFolder { rt, faults: 0 }
    }
}

impl<R: Files> Folder for DirFolder<R> {
    ghost use Rattle.std.specs.Prelude.{None};

    ghost files = { λ _. None };

    ghost faults = { λ f. f.faults };

    fn read(
        &mut self,
        alloc: Global,
        name: &str,
        limit: usize,
    ) -> Result<Option<Bytes>, FolderRefusal>
        ensures within { IsWithinLimit limit result }
        ensures files { Reads None None name.now limit result }
        ensures cause { HasReadCause self.old.faults self.new.faults result }
        ensures faults { self.new.faults ≡ counted_if (is_failed result) self.old.faults }
    {
        match read_front(&self.rt, alloc, name, limit) {
            Ok(bytes) if bytes.len() > limit => Err(FolderRefusal::TooLong { limit }),
            Ok(bytes) => Ok(Some(bytes)),
            Err(ErrorKind::NotFound) => Ok(None),
            Err(ErrorKind::OutOfMemory) => Err(FolderRefusal::Memory),
            Err(_) => {
                self.faults = self.faults.saturating_add(1);
                Err(FolderRefusal::Failed)
            }
        }
    }

    fn write(&mut self, name: &str, bytes: &[u8]) -> Result<(), Failed>
        ensures files { Writes None None name.now bytes.now result }
        ensures cause { HasCause self.old.faults self.new.faults result }
        ensures faults { self.new.faults ≡ counted_if (is_err result) self.old.faults }
    {
        if fs::write(&self.rt, name, bytes).is_err() {
            self.faults = self.faults.saturating_add(1);
            return Err(Failed);
        }
        Ok(())
    }
}

// At most one byte more of a file than the limit.
fn read_front<R: Files>(
    rt: &R,
    alloc: Global,
    name: &str,
    limit: usize,
) -> Result<Bytes, ErrorKind> {
    let mut bytes = Vec::new(alloc);
    match read_into(rt, name, limit, &mut bytes) {
        Ok(()) => Ok(Bytes::from_vec(bytes)),
        Err(error) => Err(error.kind()),
    }
}

fn read_into<R: Files>(rt: &R, name: &str, limit: usize, bytes: &mut Vec<u8>) -> io::Result<()> {
    let most = (limit as u64).saturating_add(1);
    fs::open(rt, name)?.take(most).read_to_end(bytes)?;
    Ok(())
}
