//! Tests of al_base: keys, lists, sources, sinks and folders.
use crate::disk::{At, Disk, OnDisk};
use al_base::{
    Address, Addresses, BoxName, Bytes, DirFolder, Failed, Files, Folder, FolderRefusal, Key,
    MemFolder, MemSink, MemSource, NamedFile, QuietFolder, QuietSink, QuietSource, ReadSource,
    Sink, Source, WriteSink,
};
use std::alloc::{AllocError, Global};
use std::fmt::Debug;
use std::io::ErrorKind;
use std::process::Abort;
use std::test::*;

fn is_read_back(key: Key) -> bool {
    Key::of_bytes(key.bytes().as_slice()) == Some(key)
}

// A kind, whose it is, and numbers of 8 bytes most significant first.
#[test]
fn key_bytes(rt: HostRuntime) {
    let bytes = [2, 1, 2, 3, 4, 5, 6, 7, 8, b'a', b'b'];
    let key = BoxName::new(b"ab").map(|name| Key::Box(0x0102_0304_0506_0708, name));
    assert_eq!(rt; Key::of_bytes(&bytes), key);
    assert!(rt; is_read_back(Key::Account(Address([9; 32]))));
    assert!(rt; is_read_back(Key::Resource(Address([9; 32]), 258)));
}

fn is_key(kind: u8, len: usize) -> bool {
    let mut bytes = [1; 74];
    bytes[0] = kind;
    Key::of_bytes(&bytes[..len.min(74)]).is_some()
}

#[test]
fn lengths_of_keys(rt: HostRuntime) {
    let keys = [(0, 33), (1, 41), (2, 10), (2, 73)];
    for (kind, len) in keys {
        assert!(rt; is_key(kind, len), "{kind} of {len}");
    }
    let others = [(0, 0), (0, 32), (0, 34), (1, 40), (2, 9), (2, 74), (3, 33)];
    for (kind, len) in others {
        assert!(rt; !is_key(kind, len), "{kind} of {len}");
    }
}

#[test]
fn lists(rt: HostRuntime) -> Result<(), Fail> {
    let alloc = rt.alloc();
    let mut list = Addresses::new(alloc);
    list.push(Address([9; 32]))?;
    let copy = list.copy(alloc)?;
    assert_eq!(rt; copy.as_slice(), [Address([9; 32])].as_slice());
    let bytes = Bytes::of(alloc, b"ab")?;
    assert_eq!(rt; bytes.copy(alloc)?.as_slice(), b"ab".as_slice());
    Ok(())
}

// Whether three calls answer these numbers, or that they fail.
fn takes<S: Source>(source: &mut S, wants: [Option<usize>; 3]) -> bool {
    let mut buf = [0; 2];
    for want in wants {
        if source.take(&mut buf).ok() != want {
            return false;
        }
    }
    true
}

#[test]
fn sources(rt: HostRuntime) -> Result<(), Fail> {
    let alloc = rt.alloc();
    let wants = [Some(2), Some(1), Some(0)];
    assert!(rt;
        takes(
            &mut MemSource::new(alloc, b"abc", &[2])?,
            [Some(2), None, Some(1)]
        )
    );
    assert!(rt; takes(&mut QuietSource::new(alloc, b"abc")?, wants));
    assert!(rt; takes(&mut ReadSource::new(&b"abc"[..]), wants));
    Ok(())
}

#[test]
fn sinks(rt: HostRuntime) -> Result<(), Fail> {
    let alloc = rt.alloc();
    let mut sink = MemSink::new(alloc, b"a", &[1])?;
    assert_eq!(rt; sink.put(b"b"), Err(Failed));
    assert_eq!(rt; sink.put(b"c"), Ok(()));
    assert_eq!(rt; sink.bytes(), b"ac".as_slice());
    let mut sink = QuietSink::new(alloc, b"a")?;
    assert_eq!(rt; sink.put(b"c"), Ok(()));
    assert_eq!(rt; sink.bytes(), b"ac".as_slice());
    assert_eq!(rt; WriteSink::new(Vec::new(alloc)).put(b"c"), Ok(()));
    Ok(())
}

fn one_file(alloc: Global) -> Result<Files, AllocError> {
    let mut files = Files::new(alloc);
    files.push(NamedFile {
        name: Bytes::of(alloc, b"a")?,
        bytes: Bytes::of(alloc, b"xyz")?,
    })?;
    Ok(files)
}

// How long a read says that a file is.
fn file_len<F: Folder>(
    folder: &mut F,
    alloc: Global,
    name: &str,
    limit: usize,
) -> Result<Option<usize>, FolderRefusal> {
    let file = folder.read(alloc, name, limit)?;
    Ok(file.map(|bytes| bytes.len()))
}

#[test]
fn folders(rt: HostRuntime) -> Result<(), Fail> {
    let alloc = rt.alloc();
    let mut folder = MemFolder::new(alloc, one_file(alloc)?, &[2])?;
    let reads = [
        ("a", 3, Ok(Some(3))),
        ("a", 3, Err(FolderRefusal::Failed)),
        ("a", 2, Err(FolderRefusal::TooLong { limit: 2 })),
        ("b", 2, Ok(None)),
    ];
    for (name, limit, want) in reads {
        assert_eq!(rt; file_len(&mut folder, alloc, name, limit), want);
    }
    assert_eq!(rt; folder.write("b", b"w"), Ok(()));
    assert_eq!(rt; folder.file("b"), Some(b"w".as_slice()));
    assert_eq!(rt;
        DirFolder::new(rt).read(alloc, "there is no such file", 2),
        Ok(None)
    );
    Ok(())
}

// What a folder shows, with its count of faults.
fn shown<R: Debug>(alloc: Global, folder: &DirFolder<R>) -> Result<String, AllocError> {
    format!(in alloc; "{folder:?}")
}

// A file of three bytes, which the disk gives two bytes at a time.
#[test]
fn files_of_a_folder(rt: HostRuntime) -> Result<(), Fail> {
    let alloc = rt.alloc();
    let disk = Disk::new(b"xyz", None);
    let mut folder = DirFolder::new(OnDisk(&disk));
    let long = |limit: usize| Err(FolderRefusal::TooLong { limit });
    let reads = [
        (3, Ok(Some(3))),
        (usize::MAX, Ok(Some(3))),
        (2, long(2)),
        (0, long(0)),
    ];
    for (limit, want) in reads {
        assert_eq!(rt; file_len(&mut folder, alloc, "a", limit), want, "{limit}");
    }
    let read = folder.read(alloc, "a", 3)?;
    assert_eq!(rt; read, Some(Bytes::of(alloc, b"xyz")?));
    // A shorter file in place of it, and one that is longer.
    for bytes in [b"pq".as_slice(), b"stuvw".as_slice(), b"".as_slice()] {
        assert_eq!(rt; folder.write("a", bytes), Ok(()));
        assert_eq!(rt; folder.read(alloc, "a", 5)?, Some(Bytes::of(alloc, bytes)?));
    }
    assert_eq!(rt;
        shown(alloc, &folder)?.as_str(),
        "DirFolder { rt: disk, faults: 0 }"
    );
    Ok(())
}

// Each error of the system but a missing file and want of memory is a fault, which is counted once.
#[test]
fn errors_of_a_folder(rt: HostRuntime) -> Result<(), Fail> {
    let alloc = rt.alloc();
    let failed = Err(FolderRefusal::Failed);
    let reads = [
        (At::Open, ErrorKind::NotFound, Ok(None), 0),
        (
            At::Open,
            ErrorKind::OutOfMemory,
            Err(FolderRefusal::Memory),
            0,
        ),
        (At::Open, ErrorKind::PermissionDenied, failed, 1),
        (At::Byte(0), ErrorKind::Other, failed, 1),
        (At::Byte(2), ErrorKind::UnexpectedEof, failed, 1),
        (
            At::Byte(2),
            ErrorKind::OutOfMemory,
            Err(FolderRefusal::Memory),
            0,
        ),
    ];
    for (at, kind, want, faults) in reads {
        let disk = Disk::new(b"xyz", Some((at, kind)));
        let mut folder = DirFolder::new(OnDisk(&disk));
        assert_eq!(rt; file_len(&mut folder, alloc, "a", 3), want, "{kind:?}");
        let text = format!(in alloc; "DirFolder {{ rt: disk, faults: {faults} }}")?;
        assert_eq!(rt; shown(alloc, &folder)?.as_str(), text.as_str());
    }
    let writes = [
        (At::Open, ErrorKind::PermissionDenied),
        (At::Open, ErrorKind::OutOfMemory),
        (At::Byte(0), ErrorKind::StorageFull),
        (At::Byte(2), ErrorKind::StorageFull),
    ];
    for (at, kind) in writes {
        let disk = Disk::new(b"", Some((at, kind)));
        let mut folder = DirFolder::new(OnDisk(&disk));
        assert_eq!(rt; folder.write("a", b"xyz"), Err(Failed), "{kind:?}");
        assert_eq!(rt;
            shown(alloc, &folder)?.as_str(),
            "DirFolder { rt: disk, faults: 1 }"
        );
    }
    Ok(())
}

#[test]
fn writes(rt: HostRuntime) -> Result<(), Fail> {
    let alloc = rt.alloc();
    let mut folder = QuietFolder::new(alloc, one_file(alloc)?)?;
    assert_eq!(rt; folder.write("b", b"w"), Ok(()));
    assert_eq!(rt; folder.write("a", b""), Ok(()));
    assert_eq!(rt; folder.file("b"), Some(b"w".as_slice()));
    assert_eq!(rt; folder.file("a"), Some(b"".as_slice()));
    assert_eq!(rt; file_len(&mut folder, alloc, "b", 1), Ok(Some(1)));
    Ok(())
}
