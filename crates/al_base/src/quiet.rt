//! A source, a sink and a folder in memory that never fail.
ghost use Rattle.std.specs.Prelude.{◌≡◌, ◌++◌, ◌≤◌, ◌<◌, [], length, min, take, drop, Some, IfOk, IsOk, IsOkAnd, IsTrue, IsFalse, None};
ghost use Rattle.std.specs.Option.{option_copied};
ghost use Rattle.al_base.specs.Causes.{HasCause, Puts, Takes};
ghost use Rattle.al_base.specs.Folders.{file_of, Answers, IsWithinLimit, HasReadCause, KeepsOthers, Reads, Replaces, Writes, is_failed};

use crate::folder::{file_in, put_file, read_file};
use crate::{Bytes, Failed, Files, Folder, FolderRefusal, Sink, Source};
use std::alloc::{AllocError, Global};
use std::marker::Model;

/// A source in memory that never fails.
#[derive(Debug, Drop)]
pub struct QuietSource {
    bytes: Vec<u8>,
    at: usize,
}

impl Model for QuietSource {
    ghost use Rattle.std.specs.Prelude.{ℕ, List, ◌≤◌, length, drop};

    ghost Value = { List ℕ };

    ghost view = { λ s. drop s.at s.bytes.items };

    ghost invariant = { λ s. s.at ≤ length s.bytes.items };
}

impl QuietSource {
    /// A source of these bytes.
    pub fn new(alloc: Global, start: &[u8]) -> Result<QuietSource, AllocError>
        ensures { IfOk result (λ s. s ≡ start.now) }
    {
        Ok(QuietSource {
            bytes: start.to_vec(alloc)?,
            at: 0,
        })
    }
}

impl Source for QuietSource {
    ghost use Rattle.std.specs.Prelude.{Some};

    ghost left = { λ s. Some s };

    ghost faults = { λ _. 0 };

    fn take(&mut self, buf: &mut [u8]) -> Result<usize, Failed>
        ensures bound { IfOk result (λ n. n ≤ length buf.new) }
        ensures bytes { Takes (Some self.old) (Some self.new) result buf.new }
        ensures cause { HasCause 0 0 result }
        ensures most { IsOkAnd result (λ n. n ≡ min (length buf.new) (length self.old)) }
    {
        let n = copy_front(&self.bytes[self.at..], buf);
        self.at += n;
        Ok(n)
    }
}

/// A sink in memory that never fails. Where memory runs out, it keeps what it has and says that it is
/// not whole; so it tells nothing.
#[derive(Debug, Drop)]
pub struct QuietSink {
    kept: Vec<u8>,
    is_whole: bool,
}

impl QuietSink {
    /// A sink that holds these bytes.
    pub fn new(alloc: Global, start: &[u8]) -> Result<QuietSink, AllocError>
        ensures kept { IfOk result (λ s. s.kept.items ≡ start.now) }
        ensures whole { IfOk result (λ s. IsTrue s.is_whole) }
    {
        Ok(QuietSink {
            kept: start.to_vec(alloc)?,
            is_whole: true,
        })
    }

    /// The bytes that it holds: all that were written, where it is whole, and else a front of them.
    pub fn bytes(&self) -> &[u8]
        ensures { result.now ≡ self.now.kept.items }
    {
        self.kept.as_slice()
    }

    /// Whether memory never ran out.
    pub fn is_whole(&self) -> bool
        ensures { result ≡ self.now.is_whole }
    {
        self.is_whole
    }
}

impl Sink for QuietSink {
    ghost use Rattle.std.specs.Prelude.{None};

    ghost written = { λ _. None };

    ghost faults = { λ _. 0 };

    fn put(&mut self, bytes: &[u8]) -> Result<(), Failed>
        ensures bytes { Puts None None result bytes.now }
        ensures cause { HasCause 0 0 result }
        ensures sure { IsOk result }
        ensures whole { IsTrue self.new.is_whole → IsTrue self.old.is_whole × (self.new.kept.items ≡ self.old.kept.items ++ bytes.now) }
        ensures lost { IsFalse self.new.is_whole → self.new.kept.items ≡ self.old.kept.items }
    {
        self.is_whole = self.is_whole && self.kept.extend_from_slice(bytes).is_ok();
        Ok(())
    }
}

/// A folder in memory that never fails. Where memory runs out for a write, all files stay and it says
/// that it is not whole; so it tells nothing.
#[derive(Debug, Drop)]
pub struct QuietFolder {
    files: Files,
    alloc: Global,
    is_whole: bool,
}

impl QuietFolder {
    /// A folder of these files. Where two have one name, the first counts.
    pub fn new(alloc: Global, start: Files) -> Result<QuietFolder, AllocError>
        ensures files { IfOk result (λ f. f.files ≡ start) }
        ensures whole { IfOk result (λ f. IsTrue f.is_whole) }
        ensures sure { IsOk result }
    {
        Ok(QuietFolder {
            files: start,
            alloc,
            is_whole: true,
        })
    }

    /// The bytes of a file, where there is one of this name.
    pub fn file(&self, name: &str) -> Option<&[u8]>
        ensures { option_copied result ≡ file_of self.now.files name.now }
    {
        file_in(self.files.as_slice(), name)
    }

    /// Whether memory never ran out for a write.
    pub fn is_whole(&self) -> bool
        ensures { result ≡ self.now.is_whole }
    {
        self.is_whole
    }
}

impl Folder for QuietFolder {
    ghost use Rattle.std.specs.Prelude.{None};

    ghost files = { λ _. None };

    ghost faults = { λ _. 0 };

    fn read(
        &mut self,
        alloc: Global,
        name: &str,
        limit: usize,
    ) -> Result<Option<Bytes>, FolderRefusal>
        ensures within { IsWithinLimit limit result }
        ensures files { Reads None None name.now limit result }
        ensures cause { HasReadCause 0 0 result }
        ensures answer { Answers (file_of self.old.files name.now) limit result }
        ensures sure { IsFalse (is_failed result) }
        ensures same { self.new ≡ self.old }
    {
        read_file(alloc, self.file(name), limit)
    }

    fn write(&mut self, name: &str, bytes: &[u8]) -> Result<(), Failed>
        ensures files { Writes None None name.now bytes.now result }
        ensures cause { HasCause 0 0 result }
        ensures sure { IsOk result }
        ensures whole { IsTrue self.new.is_whole → IsTrue self.old.is_whole × Replaces (file_of self.old.files) (file_of self.new.files) name.now bytes.now }
        ensures lost { IsFalse self.new.is_whole → IsTrue self.old.is_whole → self.new.files ≡ self.old.files }
        ensures others { KeepsOthers (file_of self.old.files) (file_of self.new.files) name.now }
    {
        let put = put_file(&mut self.files, self.alloc, name.as_bytes(), bytes);
        self.is_whole = self.is_whole && put.is_ok();
        Ok(())
    }
}

// Copies the front of `left`, as much as fits.
fn copy_front(left: &[u8], buf: &mut [u8]) -> usize
    ensures most { result ≡ min (length buf.new) (length left.now) }
    ensures bytes { left.now ≡ take result buf.new ++ drop result left.now }
{
    let n = left.len().min(buf.len());
    buf[..n].copy_from_slice(&left[..n]);
    n
}
