//! The command.
ghost use Rattle.std.specs.Prelude.{◌≡◌, ◌≤◌, IfOk};
ghost use Rattle.std.specs.Process.{exit_status};
ghost use Rattle.al_session.specs.Entering.{Enters, words_of};
ghost use Rattle.al_session.specs.Outside.{KeepsFiles};
ghost use Rattle.al_session.specs.Sessions.{IsSession, Runs, RunsOf, status_of};

use crate::catching::catching;
use crate::generation::{MOST_GENERATED, generation};
use crate::input::{MOST_GENESIS, read_input, unread};
use crate::link::{Caller, Ended, serve_link};
use crate::saying::{refuse, usage};
use crate::words::Words;
use al_base::{Folder, Sink, Source};
use al_states::States;
use al_words::{Line, read_command};
use std::alloc::{AllocError, Global};
use std::process::ExitCode;
use std::{env, io};

/// The status that the program ends with.
#[derive(Clone, Copy, Debug, PartialEq, Eq)]
pub struct Status(pub u8);

fn status_of(ended: Ended) -> Status
    ensures { result.0 ≡ status_of ended }
{
    match ended {
        Ended::Finished => Status(0),
        Ended::CutShort { at: _ } => Status(5),
        Ended::BadHead => Status(5),
        Ended::Unreadable => Status(5),
        Ended::SourceFault => Status(5),
        Ended::SinkFault => Status(5),
        Ended::Spent => Status(5),
        Ended::Memory => Status(7),
    }
}

// Serves the source and the sink from the genesis of a file.
fn session<S: Source, T: Sink, F: Folder>(
    alloc: Global,
    name: &str,
    source: &mut S,
    sink: &mut T,
    folder: &mut F,
) -> Status
    ensures runs { IsSession name.now (record { left = S.left source.old; written = T.written sink.old; files = F.files folder.old; source_faults = S.faults source.old; sink_faults = T.faults sink.old; folder_faults = F.faults folder.old }) (record { left = S.left source.new; written = T.written sink.new; files = F.files folder.new; source_faults = S.faults source.new; sink_faults = T.faults sink.new; folder_faults = F.faults folder.new }) result.0 }
    ensures files { KeepsFiles (F.files folder.old) (F.files folder.new) }
    ensures later { (S.faults source.old ≤ S.faults source.new) × (T.faults sink.old ≤ T.faults sink.new) × (F.faults folder.old ≤ F.faults folder.new) }
{
    let bytes = match read_input(alloc, folder, name, MOST_GENESIS) {
        Ok(bytes) => bytes,
        Err(fault) => return unread(alloc, fault, name, sink),
    };
    match States::open(alloc, bytes.as_slice()) {
        Ok(mut states) => status_of(serve_link(
            alloc,
            &mut states,
            &mut Caller::new(),
            source,
            sink,
        )),
        Err(fault) => refuse(sink, fault),
    }
}

// Runs the line that the words are, if they are one.
fn run_line<S: Source, T: Sink, F: Folder>(
    alloc: Global,
    line: Option<Line>,
    source: &mut S,
    sink: &mut T,
    folder: &mut F,
) -> Status
    ensures runs { RunsOf line.entry (record { left = S.left source.old; written = T.written sink.old; files = F.files folder.old; source_faults = S.faults source.old; sink_faults = T.faults sink.old; folder_faults = F.faults folder.old }) (record { left = S.left source.new; written = T.written sink.new; files = F.files folder.new; source_faults = S.faults source.new; sink_faults = T.faults sink.new; folder_faults = F.faults folder.new }) result.0 }
    ensures later { (S.faults source.old ≤ S.faults source.new) × (T.faults sink.old ≤ T.faults sink.new) × (F.faults folder.old ≤ F.faults folder.new) }
{
    match line {
        Some(Line::Session { genesis }) => session(alloc, genesis, source, sink, folder),
        Some(
            Line::Serve {
                genesis: _,
                port: _,
            },
        ) => usage(sink),
        Some(Line::Generate { number, blocks }) => {
            if blocks > MOST_GENERATED {
                return usage(sink);
            }
            generation(alloc, number, blocks, sink, folder)
        }
        Some(
            Line::Catchpoint {
                genesis,
                blocks,
                round,
            },
        ) => catching(alloc, genesis, blocks, round, sink, folder),
        Some(
            Line::Catchup {
                genesis: _,
                label: _,
            },
        ) => usage(sink),
        Some(Line::Label { round: _ }) => usage(sink),
        None => usage(sink),
    }
}

/// Runs the command that the words say: `session FILE` reads the genesis file, and serves the
/// source and the sink; `generate NUMBER BLOCKS` makes a chain of at most 1,000 blocks, writes its
/// catchpoints and its summary; `catchpoint FILE BLOCKS ROUND` posts the blocks of the second file
/// over the genesis of the first, writes the catchpoint of the round, and tells its label.
///
/// The status is 0 where the connection finished, or the summary or the label was written; 2 where
/// the words are no command, or one that is not served; 3 where the file holds no genesis that is
/// taken; 4 where a file could not be read or written; 5 where the connection ended otherwise, or
/// the sink failed; 6 where the round has no catchpoint, or the last block is below it; 7 where
/// there was no memory, or a block of the chain that is made was refused; 8 where a block of the
/// file was refused. With 2, 3, 4, 6 and 8 one line of text is written, and nothing else. No file
/// but those of catchpoints is changed. That the sum of all microAlgos stays asks that no state of
/// the chain has an application whose account is the sink or the pool; all else needs no premise.
pub fn run<S: Source, T: Sink, F: Folder>(
    alloc: Global,
    words: &Words,
    source: &mut S,
    sink: &mut T,
    folder: &mut F,
) -> Status
    ensures runs { Runs words.now (record { left = S.left source.old; written = T.written sink.old; files = F.files folder.old; source_faults = S.faults source.old; sink_faults = T.faults sink.old; folder_faults = F.faults folder.old }) (record { left = S.left source.new; written = T.written sink.new; files = F.files folder.new; source_faults = S.faults source.new; sink_faults = T.faults sink.new; folder_faults = F.faults folder.new }) result.0 }
    ensures later { (S.faults source.old ≤ S.faults source.new) × (T.faults sink.old ≤ T.faults sink.new) × (F.faults folder.old ≤ F.faults folder.new) }
{
    let Ok(texts) = words.texts(alloc) else {
        return Status(7);
    };
    match read_command(alloc, &texts) {
        Ok(line) => run_line(alloc, line, source, sink, folder),
        Err(_) => Status(7),
    }
}

// The words of the process's arguments. None where one is no text.
fn words_of(alloc: Global, args: io::Result<env::Args<Global>>) -> Result<Words, AllocError>
    ensures { IfOk result (λ words. words ≡ words_of args) }
{
    match args {
        Ok(args) => Words::behind_name(alloc, args),
        Err(error) => match error.kind() {
            io::ErrorKind::OutOfMemory => Err(AllocError),
            _ => Ok(Words::new(alloc)),
        },
    }
}

/// Runs the command that the process's arguments are behind the first, which is the program's name.
/// Where one is no text, they are no command.
pub fn enter<S: Source, T: Sink, F: Folder>(
    alloc: Global,
    args: io::Result<env::Args<Global>>,
    source: &mut S,
    sink: &mut T,
    folder: &mut F,
) -> ExitCode
    ensures enters { Enters (words_of args) (record { left = S.left source.old; written = T.written sink.old; files = F.files folder.old; source_faults = S.faults source.old; sink_faults = T.faults sink.old; folder_faults = F.faults folder.old }) (record { left = S.left source.new; written = T.written sink.new; files = F.files folder.new; source_faults = S.faults source.new; sink_faults = T.faults sink.new; folder_faults = F.faults folder.new }) (exit_status result) }
{
    match words_of(alloc, args) {
        Ok(words) => ExitCode::from(run(alloc, &words, source, sink, folder).0),
        Err(_) => ExitCode::from(7),
    }
}
