//! The lines that a run writes.
ghost use Rattle.std.specs.Prelude.{◌≡◌, ◌≤◌, ℕ, List, IfOk};
ghost use Rattle.al_catch.specs.Catching.{label_line};
ghost use Rattle.al_catch.specs.Files.{name_of};
ghost use Rattle.al_session.specs.Outside.{IsDigit, Refuses, Says, Sends, block_line, catchpoint_line, folder_line, genesis_line, usage_line};
ghost use Rattle.al_session.specs.Telling.{Tells};

use crate::command::Status;
use al_base::Sink;
use al_catch::{CatchFile, Label, label_text};
use al_states::OpenFault;
use std::alloc::{AllocError, Global};

const USAGE: &[u8] = b"usage: al_node [--db FILE] COMMAND\n";

// Writes the one line of a status. A sink that fails changes no status.
pub(crate) fn say<T: Sink>(sink: &mut T, line: &[u8])
    ensures says { Says line.now (T.written sink.old) (T.written sink.new) (T.faults sink.old) (T.faults sink.new) }
    ensures later { T.faults sink.old ≤ T.faults sink.new }
{
    match sink.put(line) {
        Ok(()) => {}
        Err(_) => {}
    }
}

// Writes the one line of a status, unless there was no memory for it.
pub(crate) fn tell<T: Sink>(sink: &mut T, line: Result<Vec<u8>, AllocError>, status: u8) -> Status
    ensures tells { (text : List ℕ) → IfOk line (λ l. l.items ≡ text) → Tells text status (T.written sink.old) (T.written sink.new) (T.faults sink.old) (T.faults sink.new) result.0 }
    ensures later { T.faults sink.old ≤ T.faults sink.new }
{
    match line {
        Ok(line) => {
            say(sink, &line);
            Status(status)
        }
        Err(_) => Status(7),
    }
}

// Writes a text, and says whether it was written whole.
pub(crate) fn send<T: Sink>(sink: &mut T, text: &[u8]) -> Status
    ensures sends { Sends text.now (T.written sink.old) (T.written sink.new) (T.faults sink.old) (T.faults sink.new) result.0 }
    ensures later { T.faults sink.old ≤ T.faults sink.new }
{
    match sink.put(text) {
        Ok(()) => Status(0),
        Err(_) => Status(5),
    }
}

// Answers words that are no line that is served.
pub(crate) fn usage<T: Sink>(sink: &mut T) -> Status
    ensures status { result.0 ≡ 2 }
    ensures says { Says usage_line (T.written sink.old) (T.written sink.new) (T.faults sink.old) (T.faults sink.new) }
    ensures later { T.faults sink.old ≤ T.faults sink.new }
{
    say(sink, USAGE);
    Status(2)
}

// The line of status 3.
fn genesis_line(number: u8) -> [u8; 11]
    requires { number ≤ 9 }
    ensures { result ≡ genesis_line number }
{
    let mut line = *b"genesis: 0\n";
    line[9] += number;
    line
}

// The line of status 6.
pub(crate) fn catchpoint_line(number: u8) -> [u8; 14]
    requires { number ≤ 9 }
    ensures { result ≡ catchpoint_line number }
{
    let mut line = *b"catchpoint: 0\n";
    line[12] += number;
    line
}

// Answers a file that opens nothing.
pub(crate) fn refuse<T: Sink>(sink: &mut T, fault: OpenFault) -> Status
    requires { IsDigit fault }
    ensures refuses { Refuses fault (T.written sink.old) (T.written sink.new) (T.faults sink.old) (T.faults sink.new) result.0 }
    ensures later { T.faults sink.old ≤ T.faults sink.new }
{
    match fault {
        OpenFault::Genesis { number } => {
            say(sink, &genesis_line(number));
            Status(3)
        }
        OpenFault::Memory => Status(7),
    }
}

// The line of status 4.
pub(crate) fn folder_text(alloc: Global, name: &str) -> Result<Vec<u8>, AllocError>
    ensures { IfOk result (λ text. text.items ≡ folder_line name.now) }
{
    let mut text = b"folder: ".to_vec(alloc)?;
    text.extend_from_slice(name.as_bytes())?;
    text.push(b'\n')?;
    Ok(text)
}

// The line of status 4 that names a file of a catchpoint.
pub(crate) fn file_text(alloc: Global, round: u64, file: CatchFile) -> Result<Vec<u8>, AllocError>
    ensures { IfOk result (λ text. text.items ≡ folder_line (name_of round file)) }
{
    let name = file.name(alloc, round)?;
    folder_text(alloc, &name)
}

// The line of status 8.
pub(crate) fn block_text(alloc: Global, round: u64) -> Result<Vec<u8>, AllocError>
    ensures { IfOk result (λ text. text.items ≡ block_line round) }
{
    let mut text = b"block ".to_vec(alloc)?;
    text.extend_from_slice(round.to_string(alloc)?.as_bytes())?;
    text.push(b'\n')?;
    Ok(text)
}

// The line of a label.
pub(crate) fn label_line(alloc: Global, label: &Label) -> Result<Vec<u8>, AllocError>
    ensures { IfOk result (λ text. text.items ≡ label_line label.now) }
{
    let mut text = label_text(alloc, label)?.as_slice().to_vec(alloc)?;
    text.push(b'\n')?;
    Ok(text)
}
