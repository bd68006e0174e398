// What the fields of a head say.
ghost use Rattle.std.specs.Prelude.{◌≡◌, ◌≤◌, ◌<◌, ◌↔◌, ◌||◌, ◌==◌, ℕ, List, length, map, All, IsTrue, codes};
ghost use Rattle.httparse.specs.Spans.{header_bytes, IsHeaderWithin};
ghost use Rattle.al_http.specs.Fields.{is_same_text, values, size_of_text, size_of, says_close, IsNamed};

use crate::head::BodySize;
use httparse::spans::{HeaderSpan, Span};

/// The value of the one field of a name, or that there are several.
#[derive(Clone, Copy, Debug, PartialEq, Eq)]
pub enum Named {
    Absent,
    Once(Span),
    Several,
}

fn same_text(a: &[u8], b: &[u8]) -> bool
    ensures { result ≡ is_same_text a.now b.now }
{
    a.eq_ignore_ascii_case(b)
}

fn find(buf: &[u8], fields: &[HeaderSpan], name: &[u8]) -> Named
    requires { All (IsHeaderWithin (length buf.now)) fields.now }
    ensures { IsNamed buf.now (values name.now (map (header_bytes buf.now) fields.now)) result }
{
    let mut found = Named::Absent;
    for field in fields {
        if same_text(field.name.of(buf), name) {
            found = match found {
                Named::Absent => Named::Once(field.value),
                _ => Named::Several,
            };
        }
    }
    found
}

fn size_of_text(text: &[u8]) -> BodySize
    ensures { result ≡ size_of_text text.now }
{
    if text.is_empty() {
        return BodySize::Bad;
    }
    let mut n: u64 = 0;
    for c in text {
        if !c.is_ascii_digit() {
            return BodySize::Bad;
        }
        n = n.saturating_mul(10).saturating_add(u64::from(*c - 48));
    }
    BodySize::Length(n)
}

/// How long the body is, by the fields.
pub(crate) fn size_of(buf: &[u8], fields: &[HeaderSpan]) -> BodySize
    requires { All (IsHeaderWithin (length buf.now)) fields.now }
    ensures { result ≡ size_of (map (header_bytes buf.now) fields.now) }
{
    match find(buf, fields, b"transfer-encoding") {
        Named::Absent => match find(buf, fields, b"content-length") {
            Named::Absent => BodySize::Length(0),
            Named::Once(value) => size_of_text(value.of(buf)),
            Named::Several => BodySize::Bad,
        },
        _ => BodySize::Coded,
    }
}

// Whether a field says that the connection ends.
fn says_close(buf: &[u8], fields: &[HeaderSpan]) -> bool
    requires { All (IsHeaderWithin (length buf.now)) fields.now }
    ensures { result ≡ says_close (map (header_bytes buf.now) fields.now) }
{
    let mut found = false;
    for field in fields {
        let named = same_text(field.name.of(buf), b"connection");
        let close = same_text(field.value.of(buf), b"close");
        found = found || named && close;
    }
    found
}

/// Whether the connection ends after the request: HTTP/1.0, or a field that says so.
pub(crate) fn closes(version: u8, buf: &[u8], fields: &[HeaderSpan]) -> bool
    requires { All (IsHeaderWithin (length buf.now)) fields.now }
    ensures { result ≡ ((version == 0) || says_close (map (header_bytes buf.now) fields.now)) }
{
    version == 0 || says_close(buf, fields)
}
