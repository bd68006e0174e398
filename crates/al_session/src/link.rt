//! One connection.
ghost use Rattle.std.specs.Prelude.{◌≡◌, ◌≢◌, ◌≤◌, ◌⊎◌, length};
ghost use Rattle.al_base.specs.Causes.{HasCause, Puts, Rose};
ghost use Rattle.al_answers.specs.Answers.{IsSound, answer_text, memory_answer};
ghost use Rattle.al_answers.specs.declared.answer.Answer.{Answer};
ghost use Rattle.al_session.specs.Connection.{EndsBy, RefusesBy, Serves, refused_text};
ghost use Rattle.al_states.specs.Held.{AreApart, KeepsMoney};
ghost use Rattle.al_states.specs.Keeping.{IsStates, held};
ghost use Rattle.al_session.specs.declared.link.Ended.TheVariants as ended;

use crate::inbox::{Inbox, Stop};
use al_answers::{
    answer_bytes, bad_head_text, bad_length_text, coding_text, memory_text, too_large_text,
};
use al_base::{Failed, Sink, Source};
use al_http::SizeFault;
use al_routes::Routes;
use al_states::{States, Told};
use std::alloc::Global;

/// The most requests that one connection asks.
const MOST_REQUESTS: u64 = 1_000_000;

/// What a caller keeps from one connection to the next.
#[derive(Clone, Copy, Debug, PartialEq, Eq)]
pub struct Caller {
    /// The front that it has seen last.
    seen: u64,
}

impl Caller {
    /// A caller that has seen nothing.
    pub fn new() -> Caller
        ensures { result.seen ≡ 0 }
    {
        Caller { seen: 0 }
    }
}

/// Why a connection ended.
#[derive(Clone, Copy, Debug, PartialEq, Eq)]
pub enum Ended {
    /// The source ended behind a request, or a request ended the connection.
    Finished,
    /// The source ended inside a request; all bytes taken are counted.
    CutShort { at: u64 },
    /// A bad head was refused.
    BadHead,
    /// A head whose body is not read was refused.
    Unreadable,
    /// The source failed.
    SourceFault,
    /// The sink failed.
    SinkFault,
    /// 1,000,000 requests were answered.
    Spent,
    /// There was no memory.
    Memory,
}

// Writes an answer, or that there is no memory for it.
fn send<T: Sink>(alloc: Global, sink: &mut T, told: &Told) -> Result<(), Failed>
    requires { IsSound told.now.answer }
    ensures bytes { (sent : Answer) × ((sent ≡ told.now.answer) ⊎ (sent ≡ memory_answer)) × Puts (T.written sink.old) (T.written sink.new) result (answer_text sent) }
    ensures cause { HasCause (T.faults sink.old) (T.faults sink.new) result }
{
    let mut out = Vec::new(alloc);
    match answer_bytes(alloc, &told.answer, &mut out) {
        Ok(()) => sink.put(&out),
        Err(_) => sink.put(memory_text()),
    }
}

// The text that refuses a body.
fn refused_text(fault: SizeFault) -> &'static [u8]
    ensures { result.now ≡ refused_text fault }
{
    match fault {
        SizeFault::Coding => coding_text(),
        SizeFault::BadLength => bad_length_text(),
        SizeFault::TooLarge => too_large_text(),
    }
}

// Refuses a piece, after which the connection ends so.
fn refuse<T: Sink>(sink: &mut T, text: &[u8], end: Ended) -> Ended
    requires { end ≢ ended.SinkFault }
    ensures refuses { RefusesBy text.now end (T.written sink.old) (T.written sink.new) result }
    ensures sink_fault { result ≡ ended.SinkFault → Rose (T.faults sink.old) (T.faults sink.new) }
    ensures kept { result ≢ ended.SinkFault → T.faults sink.new ≡ T.faults sink.old }
    ensures later { T.faults sink.old ≤ T.faults sink.new }
{
    match sink.put(text) {
        Ok(()) => end,
        Err(_) => Ended::SinkFault,
    }
}

// How a connection ends where taking stopped. So many bytes were taken, of which so many wait.
fn end<T: Sink>(sink: &mut T, stop: Stop, taken: u64, waiting: usize) -> Ended
    ensures ends { EndsBy stop taken waiting (T.written sink.old) (T.written sink.new) result }
    ensures sink_fault { result ≡ ended.SinkFault → Rose (T.faults sink.old) (T.faults sink.new) }
    ensures kept { result ≢ ended.SinkFault → T.faults sink.new ≡ T.faults sink.old }
    ensures later { T.faults sink.old ≤ T.faults sink.new }
{
    match stop {
        Stop::End => {
            if waiting == 0 {
                Ended::Finished
            } else {
                Ended::CutShort { at: taken }
            }
        }
        Stop::Fault => Ended::SourceFault,
        Stop::BadHead => refuse(sink, bad_head_text(), Ended::BadHead),
        Stop::Refused(fault) => refuse(sink, refused_text(fault), Ended::Unreadable),
        Stop::Memory => Ended::Memory,
    }
}

/// Serves one connection: its requests in order, one answer each.
///
/// The requests are those of the bytes taken, however they come in pieces. A posted block that is
/// accepted is held from its answer on. What is answered needs no premise; that the sum of all
/// microAlgos stays asks that no state of the chain has an application whose account is the sink or
/// the pool.
#[tactic(auto, using(al_states::proofs::SoundLemmas::states_money))]
pub fn serve_link<S: Source, T: Sink>(
    alloc: Global,
    states: &mut States,
    caller: &mut Caller,
    source: &mut S,
    sink: &mut T,
) -> Ended
    requires { IsStates states.old }
    ensures states { IsStates states.new }
    ensures serves { Serves (held states.old) (held states.new) (S.left source.old) (S.left source.new) (T.written sink.old) (T.written sink.new) result }
    ensures money { AreApart (held states.new) → KeepsMoney (held states.new) }
    ensures seen { caller.new.seen ≡ length (held states.new).blocks }
    ensures source_fault { result ≡ ended.SourceFault → Rose (S.faults source.old) (S.faults source.new) }
    ensures sink_fault { result ≡ ended.SinkFault → Rose (T.faults sink.old) (T.faults sink.new) }
    ensures kept { (result ≢ ended.SourceFault → S.faults source.new ≡ S.faults source.old) × (result ≢ ended.SinkFault → T.faults sink.new ≡ T.faults sink.old) }
    ensures later { (S.faults source.old ≤ S.faults source.new) × (T.faults sink.old ≤ T.faults sink.new) }
{
    caller.seen = states.front();
    let Ok(routes) = Routes::new(alloc) else {
        return Ended::Memory;
    };
    let mut inbox = Inbox::new(alloc);
    let mut done: u64 = 0;
    for i in 0..MOST_REQUESTS {
        let piece = match inbox.next(alloc, &routes, source) {
            Ok(piece) => piece,
            Err(stop) => {
                let waiting = inbox.len();
                return end(sink, stop, done + waiting as u64, waiting);
            }
        };
        let length = piece.used + piece.size;
        let told = states.answer(&piece.asked, &inbox.waiting()[piece.used..length]);
        caller.seen = told.front;
        match send(alloc, sink, &told) {
            Ok(()) => {}
            Err(_) => return Ended::SinkFault,
        }
        if piece.close {
            return Ended::Finished;
        }
        inbox.pass(length);
        done += length as u64;
    }
    Ended::Spent
}
