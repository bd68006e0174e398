//! The bytes of answers.
ghost use Rattle.std.specs.Prelude.{◌≡◌, ◌++◌, IfOk, OnErr, OnOk};
ghost use Rattle.al_answers.specs.declared.answer.ErrorName.TheVariants as errors;
ghost use Rattle.al_answers.specs.Answers.{IsSound, answer_text, head_of, memory_answer, nothing, phrase_of, refusal, rest_of, status_of};

use crate::answer::Answer;
use crate::bodies::body_text;
use std::alloc::{AllocError, Global};

fn status_of(a: &Answer) -> u64
    ensures { result ≡ status_of a.now }
{
    match a {
        Answer::Taken { .. }
        | Answer::Account { .. }
        | Answer::Asset { .. }
        | Answer::App { .. }
        | Answer::BoxOf { .. }
        | Answer::Creator { .. }
        | Answer::Online { .. }
        | Answer::Circulation { .. }
        | Answer::Supply { .. }
        | Answer::Standing { .. } => 200,
        Answer::Refused {
            status,
            error: _,
            more: _,
        } => *status,
    }
}

#[tactic(auto, unfolding(crate::specs::Answers::phrase_of))]
fn phrase_of(status: u64) -> &'static [u8]
    ensures { result.now ≡ phrase_of status }
{
    match status {
        200 => b"OK",
        400 => b"Bad Request",
        404 => b"Not Found",
        405 => b"Method Not Allowed",
        409 => b"Conflict",
        410 => b"Gone",
        413 => b"Payload Too Large",
        422 => b"Unprocessable Entity",
        501 => b"Not Implemented",
        503 => b"Service Unavailable",
        507 => b"Insufficient Storage",
        _ => b"",
    }
}

fn put_head(alloc: Global, out: &mut Vec<u8>, status: u64) -> Result<(), AllocError>
    ensures { OnOk result (out.new.items ≡ out.old.items ++ head_of status) }
{
    out.extend_from_slice(b"HTTP/1.1 ")?;
    out.extend_from_slice(status.to_string(alloc)?.as_bytes())?;
    out.extend_from_slice(b" ")?;
    out.extend_from_slice(phrase_of(status))?;
    out.extend_from_slice(b"\r\ncontent-type: application/json\r\n")
}

fn put_body(alloc: Global, out: &mut Vec<u8>, body: &[u8]) -> Result<(), AllocError>
    ensures { OnOk result (out.new.items ≡ out.old.items ++ rest_of body.now) }
{
    out.extend_from_slice(b"content-length: ")?;
    let length = body.len().to_string(alloc)?;
    out.extend_from_slice(length.as_bytes())?;
    out.extend_from_slice(b"\r\n")?;
    out.extend_from_slice(b"\r\n")?;
    out.extend_from_slice(body)
}

// The bytes of an answer.
#[tactic(auto, unfolding(crate::specs::Answers::answer_text))]
fn answer_of(alloc: Global, a: &Answer) -> Result<Vec<u8>, AllocError>
    requires { IsSound a.now }
    ensures { IfOk result (λ text. text.items ≡ answer_text a.now) }
{
    let body = body_text(alloc, a)?;
    let mut text = Vec::new(alloc);
    put_head(alloc, &mut text, status_of(a))?;
    put_body(alloc, &mut text, body.as_bytes())?;
    Ok(text)
}

/// Appends the bytes of an answer: its status line, its fields, and its JSON text.
///
/// # Errors
///
/// Only where memory is short; nothing is appended then.
pub fn answer_bytes(alloc: Global, a: &Answer, out: &mut Vec<u8>) -> Result<(), AllocError>
    requires { IsSound a.now }
    ensures ok { OnOk result (out.new.items ≡ out.old.items ++ answer_text a.now) }
    ensures err { OnErr result (out.new.items ≡ out.old.items) }
{
    let text = answer_of(alloc, a)?;
    out.extend_from_slice(&text)
}

const MEMORY: &[u8] =
    b"HTTP/1.1 507 Insufficient Storage\r\ncontent-type: application/json\r\ncontent-length: 18\r\n\r\n{\"error\":\"Memory\"}";

const BAD_HEAD: &[u8] =
    b"HTTP/1.1 400 Bad Request\r\ncontent-type: application/json\r\ncontent-length: 19\r\n\r\n{\"error\":\"BadHead\"}";

const BAD_LENGTH: &[u8] =
    b"HTTP/1.1 400 Bad Request\r\ncontent-type: application/json\r\ncontent-length: 21\r\n\r\n{\"error\":\"BadLength\"}";

const CODING: &[u8] =
    b"HTTP/1.1 501 Not Implemented\r\ncontent-type: application/json\r\ncontent-length: 18\r\n\r\n{\"error\":\"Coding\"}";

const TOO_LARGE: &[u8] =
    b"HTTP/1.1 413 Payload Too Large\r\ncontent-type: application/json\r\ncontent-length: 20\r\n\r\n{\"error\":\"TooLarge\"}";

/// The answer for want of memory, which needs none.
pub fn memory_text() -> &'static [u8]
    ensures { result.now ≡ answer_text memory_answer }
{
    MEMORY
}

/// The answer to a bad head, which needs no memory.
pub fn bad_head_text() -> &'static [u8]
    ensures { result.now ≡ answer_text (refusal errors.BadHead nothing) }
{
    BAD_HEAD
}

/// The answer to a bad length of a body, which needs no memory.
pub fn bad_length_text() -> &'static [u8]
    ensures { result.now ≡ answer_text (refusal errors.BadLength nothing) }
{
    BAD_LENGTH
}

/// The answer to a coded body, which needs no memory.
pub fn coding_text() -> &'static [u8]
    ensures { result.now ≡ answer_text (refusal errors.Coding nothing) }
{
    CODING
}

/// The answer to a body that is too long, which needs no memory.
pub fn too_large_text() -> &'static [u8]
    ensures { result.now ≡ answer_text (refusal errors.TooLarge nothing) }
{
    TOO_LARGE
}
