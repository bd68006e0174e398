//! Serves stored connections, each whole and by single bytes, and says how it ended and whether
//! what was written are the answers that lie beside it.
#![tactic(auto)]

use al_base::{Bytes, DirFolder, Failed, Folder, MemSink, MemSource, Source};
use al_session::{Words, run};
use std::alloc::Global;
use std::io;

/// The most bytes of a file.
const MOST: usize = 1_000_000;

/// The stored connections: each has a file with its genesis, one with its requests and one with
/// the answers.
const CONNECTIONS: [&str; 27] = [
    "frozen",
    "destroyed",
    "closed_to_frozen_creator",
    "creator_closes",
    "no_manager",
    "closed_to_itself",
    "assets_1",
    "assets_2",
    "assets_3",
    "expired",
    "not_expired",
    "registered",
    "registered_and_expired",
    "keys_1",
    "keys_2",
    "keys_3",
    "box_unpaid",
    "box_put_and_removed",
    "inner_payment",
    "closed_to_created",
    "effects_1",
    "effects_2",
    "effects_3",
    "interface_1",
    "interface_2",
    "interface_3",
    "market",
];

/// A source that comes in pieces.
#[derive(Drop)]
struct Pieces<S> {
    source: S,
    most: usize,
}

impl<S: Source> Source for Pieces<S> {
    ghost use Rattle.std.specs.Prelude.{None};

    ghost left = { λ _. None };

    ghost faults = { λ p. S.faults p.source };

    fn take(&mut self, buf: &mut [u8]) -> Result<usize, Failed> {
        let n = self.most.min(buf.len());
        self.source.take(&mut buf[..n])
    }
}

// A file of a connection. None where there is none, or it could not be read.
fn file<F: Folder>(alloc: Global, folder: &mut F, name: &str, part: &str) -> Option<Bytes> {
    let name = format!(in alloc; "{name}.{part}").ok()?;
    folder.read(alloc, name.as_str(), MOST).ok()?
}

// The status of a connection that comes in pieces of so many bytes, and whether its answers were
// written. None where it could not be served.
fn served<F: Folder>(alloc: Global, folder: &mut F, name: &str, most: usize) -> Option<(u8, bool)> {
    let requests = file(alloc, folder, name, "requests")?;
    let answers = file(alloc, folder, name, "answers")?;
    let genesis = format!(in alloc; "{name}.genesis").ok()?;
    let mut words = Words::new(alloc);
    words.push(alloc, "session").ok()?;
    words.push(alloc, genesis.as_str()).ok()?;
    let mut source = Pieces {
        source: MemSource::new(alloc, requests.as_slice(), &[]).ok()?,
        most,
    };
    let mut sink = MemSink::new(alloc, b"", &[]).ok()?;
    let status = run(alloc, &words, &mut source, &mut sink, folder);
    Some((status.0, sink.bytes() == answers.as_slice()))
}

fn main(rt: HostRuntime) -> io::Result<()> {
    let alloc = rt.alloc();
    let mut folder = DirFolder::new(rt);
    for name in CONNECTIONS {
        let whole = served(alloc, &mut folder, name, usize::MAX);
        let single = served(alloc, &mut folder, name, 1);
        println!(rt; "{name}: {whole:?} whole, {single:?} by single bytes")?;
    }
    Ok(())
}
