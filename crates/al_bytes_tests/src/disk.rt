//! A disk of one small file, in memory.
use std::alloc::Allocator;
use std::cell::Cell;
use std::fmt::{self, Debug, Formatter};
use std::fs::{Metadata, OpenFile, OpenOptions};
use std::io::{self, Error, ErrorKind, Read, Seek, SeekFrom, Write};
use std::rt::Files;

/// Where a call fails: when the file is opened, or at a byte of it.
#[derive(Clone, Copy, PartialEq, Eq)]
pub enum At {
    Open,
    Byte(usize),
}

/// A file of at most 8 bytes, which is read and written two bytes at a time.
#[derive(Drop)]
pub struct Disk {
    bytes: Cell<[u8; 8]>,
    len: Cell<usize>,
    fault: Option<(At, ErrorKind)>,
}

impl Disk {
    /// A disk whose file holds these bytes, and where a call fails so.
    pub fn new(start: &[u8], fault: Option<(At, ErrorKind)>) -> Disk {
        let mut bytes = [0; 8];
        let len = start.len().min(8);
        bytes[..len].copy_from_slice(&start[..len]);
        Disk {
            bytes: Cell::new(bytes),
            len: Cell::new(len),
            fault,
        }
    }

    fn pass(&self, at: At) -> io::Result<()> {
        match self.fault {
            Some((place, kind)) if place == at => Err(Error::from(kind)),
            _ => Ok(()),
        }
    }
}

/// The disk as a runtime has it.
#[derive(Clone, Copy)]
pub struct OnDisk<'a>(pub &'a Disk);

impl<'a> Debug for OnDisk<'a> {
    fn fmt<W: fmt::Write>(&self, f: &mut Formatter<W>) -> fmt::Result {
        f.write_str("disk")
    }
}

/// The file, open at a place.
#[derive(Drop)]
pub struct DiskFile<'a> {
    disk: &'a Disk,
    at: usize,
}

impl<'a> Read for DiskFile<'a> {
    fn read(&mut self, buf: &mut [u8]) -> io::Result<usize> {
        self.disk.pass(At::Byte(self.at))?;
        let bytes = self.disk.bytes.get();
        let end = self.disk.len.get().min(8);
        let rest = &bytes[self.at.min(end)..end];
        let n = rest.len().min(buf.len()).min(2);
        buf[..n].copy_from_slice(&rest[..n]);
        self.at = self.at.saturating_add(n);
        Ok(n)
    }
}

impl<'a> Write for DiskFile<'a> {
    fn write(&mut self, buf: &[u8]) -> io::Result<usize> {
        self.disk.pass(At::Byte(self.at))?;
        let mut bytes = self.disk.bytes.get();
        let start = self.at.min(8);
        let n = buf.len().min(8 - start).min(2);
        bytes[start..start + n].copy_from_slice(&buf[..n]);
        self.disk.bytes.set(bytes);
        self.at = start + n;
        self.disk.len.set(self.at);
        Ok(n)
    }

    fn flush(&mut self) -> io::Result<()> {
        Ok(())
    }
}

fn none<T>() -> io::Result<T> {
    Err(Error::from(ErrorKind::Unsupported))
}

impl<'a> Seek for DiskFile<'a> {
    fn seek(&mut self, _: SeekFrom) -> io::Result<u64> {
        none()
    }
}

impl<'a> OpenFile for DiskFile<'a> {
    fn metadata(&self) -> io::Result<Metadata> {
        none()
    }

    fn set_len(&self, _: u64) -> io::Result<()> {
        none()
    }

    fn sync_all(&self) -> io::Result<()> {
        none()
    }

    fn sync_data(&self) -> io::Result<()> {
        none()
    }
}

impl<'a> Files for OnDisk<'a> {
    type File = DiskFile<'a>;

    type Dir = DiskFile<'a>;

    fn open_file(&self, how: &OpenOptions, _: &str) -> io::Result<DiskFile<'a>> {
        self.0.pass(At::Open)?;
        if how.asks_truncate() {
            self.0.len.set(0);
        }
        Ok(DiskFile {
            disk: self.0,
            at: 0,
        })
    }

    fn open_dir(&self, _: &str) -> io::Result<DiskFile<'a>> {
        none()
    }

    fn metadata(&self, _: &str) -> io::Result<Metadata> {
        none()
    }

    fn symlink_metadata(&self, _: &str) -> io::Result<Metadata> {
        none()
    }

    fn copy(&self, _: &str, _: &str) -> io::Result<u64> {
        none()
    }

    fn rename(&self, _: &str, _: &str) -> io::Result<()> {
        none()
    }

    fn remove_file(&self, _: &str) -> io::Result<()> {
        none()
    }

    fn create_dir(&self, _: &str) -> io::Result<()> {
        none()
    }

    fn remove_dir(&self, _: &str) -> io::Result<()> {
        none()
    }

    fn remove_dir_all<B: Allocator>(&self, _: B, _: &str) -> io::Result<()> {
        none()
    }
}
