// The head of a request.
ghost use Rattle.std.specs.Prelude.{◌≡◌, ◌≤◌, ◌<◌, ℕ, List, length, drop, take, IfOk};
ghost use Rattle.al_http.specs.Heads.{IsRead};
ghost use Rattle.al_http.specs.Limits.{most_head};

use crate::fields::{closes, size_of};
use al_base::Bytes;
use al_block::MOST_BYTES;
use http::Method;
use http::method::MethodError;
use httparse::Status;
use httparse::spans::{EMPTY_HEADER_SPAN, parse_request};
use std::alloc::{AllocError, Global};

/// The most bytes of a head.
pub const MOST_HEAD: usize = 16_384;

/// The most fields of a head.
pub const MOST_FIELDS: usize = 64;

/// The most bytes of a body, which are those of a block.
pub const MOST_BODY: u64 = MOST_BYTES as u64;

/// How long a body is, by the fields of its head.
#[derive(Clone, Copy, Debug, PartialEq, Eq)]
pub enum BodySize {
    /// So many bytes, 0 where no field says it. A length above u64 is u64's greatest value.
    Length(u64),
    /// A field `transfer-encoding` says that the body is coded.
    Coded,
    /// Several fields `content-length`, or a value that is not of digits alone.
    Bad,
}

/// The head of a request.
#[derive(Debug, Drop)]
pub struct Head {
    pub method: Method,
    /// The target, as it stands in the head.
    pub target: Bytes,
    pub body: BodySize,
    /// Whether the connection ends after the request.
    pub close: bool,
    /// How many bytes the head has.
    pub used: usize,
}

/// What the bytes so far are.
#[derive(Debug, Drop)]
pub enum HeadRead {
    /// No head yet, and at most 16,384 bytes: more bytes may make one.
    Partial,
    /// Malformed, or past a limit, whatever bytes follow.
    Bad,
    /// A whole head.
    Got(Head),
}

/// Reads the head at the front, of at most 16,384 bytes and 64 fields.
///
/// # Errors
///
/// Only where memory is short.
pub fn read_head(alloc: Global, buf: &[u8]) -> Result<HeadRead, AllocError>
    ensures { IfOk result (λ read. IsRead buf.now read) }
{
    if buf.len() <= MOST_HEAD {
        return read_front(alloc, buf);
    }
    match read_front(alloc, &buf[..MOST_HEAD])? {
        HeadRead::Got(head) => Ok(HeadRead::Got(head)),
        _ => Ok(HeadRead::Bad),
    }
}

// The same of bytes that are not above the limit.
fn read_front(alloc: Global, front: &[u8]) -> Result<HeadRead, AllocError>
    requires { length front.now ≤ most_head }
    ensures { IfOk result (λ read. IsRead front.now read) }
{
    let mut fields = [EMPTY_HEADER_SPAN; MOST_FIELDS];
    match parse_request(front, &mut fields) {
        Ok(Status::Complete(spans)) => match Method::from_bytes(alloc, spans.method.of(front)) {
            Ok(method) => {
                let fields = &fields[..spans.headers];
                Ok(HeadRead::Got(Head {
                    method,
                    target: Bytes::of(alloc, spans.path.of(front))?,
                    body: size_of(front, fields),
                    close: closes(spans.version, front, fields),
                    used: spans.len,
                }))
            }
            Err(MethodError::OutOfMemory) => Err(AllocError),
            Err(MethodError::Invalid) => unreachable!(),
        },
        Ok(Status::Partial) => Ok(HeadRead::Partial),
        Err(_) => Ok(HeadRead::Bad),
    }
}
