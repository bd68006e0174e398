//! A source, a sink and a folder in memory, some of whose calls fail.
ghost use Rattle.std.specs.Prelude.{◌≡◌, ◌++◌, ◌+◌, ◌≤◌, ◌<◌, ◌↔◌, ◌⊎◌, length, vec_capacity, vec_len, min, Some, IfOk, IsErr, OnErr, OnOk, Contains, is_err, IsTrue};
ghost use Rattle.al_base.specs.Causes.{HasCause, Puts, Takes};
ghost use Rattle.al_base.specs.Folders.{file_of, HasReadCause, IsWithinLimit, Reads, Writes, is_failed};
ghost use Rattle.std.specs.Option.{option_copied};
ghost use Rattle.al_base.specs.Plans.{counted, planned, called};

use crate::folder::{file_in, put_file, read_file};
use crate::plan::Plan;
use crate::{Bytes, Failed, Files, Folder, FolderRefusal, QuietSource, Sink, Source};
use std::alloc::{AllocError, Global};

/// A source in memory. Its calls of the planned numbers fail, and no others.
#[derive(Debug, Drop)]
pub struct MemSource {
    source: QuietSource,
    plan: Plan,
}

impl MemSource {
    /// A source of these bytes, whose calls of the numbers in `fails`, counted from 1, fail.
    pub fn new(alloc: Global, start: &[u8], fails: &[u64]) -> Result<MemSource, AllocError>
        ensures left { IfOk result (λ s. s.source ≡ start.now) }
        ensures plan { IfOk result (λ s. s.plan ≡ planned fails.now) }
    {
        Ok(MemSource {
            source: QuietSource::new(alloc, start)?,
            plan: Plan::new(alloc, fails)?,
        })
    }
}

impl Source for MemSource {
    ghost use Rattle.std.specs.Prelude.{Some};

    ghost left = { λ s. Some s.source };

    ghost faults = { λ s. s.plan.faults };

    fn take(&mut self, buf: &mut [u8]) -> Result<usize, Failed>
        ensures bound { IfOk result (λ n. n ≤ length buf.new) }
        ensures bytes { Takes (Some self.old.source) (Some self.new.source) result buf.new }
        ensures cause { HasCause self.old.plan.faults self.new.plan.faults result }
        ensures most { IfOk result (λ n. n ≡ min (length buf.new) (length self.old.source)) }
        ensures plan { self.new.plan ≡ called (is_err result) self.old.plan }
        ensures fails { IsErr result ↔ Contains self.old.plan.fails (counted self.old.plan.calls) }
    {
        self.plan.call()?;
        self.source.take(buf)
    }
}

/// A sink in memory. Its calls of the planned numbers fail, and those that want memory.
#[derive(Debug, Drop)]
pub struct MemSink {
    written: Vec<u8>,
    plan: Plan,
}

impl MemSink {
    /// A sink that holds these bytes, whose calls of the numbers in `fails`, counted from 1, fail.
    pub fn new(alloc: Global, start: &[u8], fails: &[u64]) -> Result<MemSink, AllocError>
        ensures written { IfOk result (λ s. s.written.items ≡ start.now) }
        ensures plan { IfOk result (λ s. s.plan ≡ planned fails.now) }
    {
        Ok(MemSink {
            written: start.to_vec(alloc)?,
            plan: Plan::new(alloc, fails)?,
        })
    }

    /// All bytes that were written.
    pub fn bytes(&self) -> &[u8]
        ensures { result.now ≡ self.now.written.items }
    {
        self.written.as_slice()
    }
}

impl Sink for MemSink {
    ghost use Rattle.std.specs.Prelude.{Some};

    ghost written = { λ s. Some s.written.items };

    ghost faults = { λ s. s.plan.faults };

    fn put(&mut self, bytes: &[u8]) -> Result<(), Failed>
        ensures bytes { Puts (Some self.old.written.items) (Some self.new.written.items) result bytes.now }
        ensures cause { HasCause self.old.plan.faults self.new.plan.faults result }
        ensures none { OnErr result (self.new.written.items ≡ self.old.written.items) }
        ensures plan { self.new.plan ≡ called (is_err result) self.old.plan }
        ensures fails { Contains self.old.plan.fails (counted self.old.plan.calls) → IsErr result }
        // A call that is not planned to fail does so only where the room is too small.
        ensures full { OnErr result (Contains self.old.plan.fails (counted self.old.plan.calls) ⊎ (vec_capacity self.old.written < vec_len self.old.written + length bytes.now)) }
    {
        self.plan.call()?;
        if self.written.extend_from_slice(bytes).is_err() {
            return Err(self.plan.fault());
        }
        Ok(())
    }
}

/// A folder in memory. Its calls of the planned numbers fail, and the writes that want memory.
#[derive(Debug, Drop)]
pub struct MemFolder {
    files: Files,
    alloc: Global,
    plan: Plan,
}

impl MemFolder {
    /// A folder of these files, whose calls of the numbers in `fails`, counted from 1, fail. Where
    /// two files have one name, the first counts.
    pub fn new(alloc: Global, start: Files, fails: &[u64]) -> Result<MemFolder, AllocError>
        ensures files { IfOk result (λ f. f.files ≡ start) }
        ensures plan { IfOk result (λ f. f.plan ≡ planned fails.now) }
    {
        Ok(MemFolder {
            files: start,
            alloc,
            plan: Plan::new(alloc, fails)?,
        })
    }

    /// The bytes of a file, where there is one of this name.
    pub fn file(&self, name: &str) -> Option<&[u8]>
        ensures { option_copied result ≡ file_of self.now.files name.now }
    {
        file_in(self.files.as_slice(), name)
    }
}

impl Folder for MemFolder {
    ghost use Rattle.std.specs.Prelude.{Some};
    ghost use Rattle.al_base.specs.Folders.{file_of};

    ghost files = { λ f. Some (file_of f.files) };

    ghost faults = { λ f. f.plan.faults };

    fn read(
        &mut self,
        alloc: Global,
        name: &str,
        limit: usize,
    ) -> Result<Option<Bytes>, FolderRefusal>
        ensures within { IsWithinLimit limit result }
        ensures files { Reads (Some (file_of self.old.files)) (Some (file_of self.new.files)) name.now limit result }
        ensures cause { HasReadCause self.old.plan.faults self.new.plan.faults result }
        ensures same { self.new.files ≡ self.old.files }
        ensures plan { self.new.plan ≡ called (is_failed result) self.old.plan }
        ensures fails { IsTrue (is_failed result) ↔ Contains self.old.plan.fails (counted self.old.plan.calls) }
    {
        if self.plan.call().is_err() {
            return Err(FolderRefusal::Failed);
        }
        read_file(alloc, self.file(name), limit)
    }

    fn write(&mut self, name: &str, bytes: &[u8]) -> Result<(), Failed>
        ensures files { Writes (Some (file_of self.old.files)) (Some (file_of self.new.files)) name.now bytes.now result }
        ensures cause { HasCause self.old.plan.faults self.new.plan.faults result }
        ensures none { OnErr result (self.new.files ≡ self.old.files) }
        ensures plan { self.new.plan ≡ called (is_err result) self.old.plan }
        ensures fails { Contains self.old.plan.fails (counted self.old.plan.calls) → IsErr result }
    {
        self.plan.call()?;
        if put_file(&mut self.files, self.alloc, name.as_bytes(), bytes).is_err() {
            return Err(self.plan.fault());
        }
        Ok(())
    }
}
