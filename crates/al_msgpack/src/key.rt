//! Numbers, strings and keys, read as slices.
ghost use Rattle.std.specs.Prelude.{◌≡◌, ◌<◌, ◌≤◌, ◌+◌, length, IfOk};
ghost use Rattle.al_msgpack.specs.Heads.{head_at, key_size, reaches, raised};
ghost use Rattle.std.specs.Option.{option_copied};
ghost use Rattle.al_msgpack.specs.Reading.{Same, digits_at, size_at, raw_at, rising_at, refused_at, lead, floor_of, key_at, string_at};

use crate::fault::Fault;
use crate::head::{Head, Size, Width, head_of};

/// A number of `width` bytes, not below `least`.
#[tactic(auto, unfolding(crate::specs::Reading::digits_at))]
fn digits(bytes: &[u8], width: u8, least: u64) -> Result<(u64, &[u8]), Fault>
    requires { width ≤ 8 }
    ensures { Same (λ x. (x.0, x.1.now)) result (digits_at width 0 least bytes.now) }
{
    let mut n: u64 = 0;
    let mut rest = bytes;
    for i in 0..width {
        let Some((b, after)) = rest.split_first() else {
            return Err(Fault::Short);
        };
        let more = n * 256 + *b as u64;
        if more < least >> (8 * (width - 1 - i)) {
            return Err(Fault::Bad(rest.len()));
        }
        n = more;
        rest = after;
    }
    Ok((n, rest))
}

/// The number or the length that a head announces.
#[tactic(auto, unfolding(crate::specs::Reading::size_at))]
pub(crate) fn size_of(size: Size, bytes: &[u8]) -> Result<(u64, &[u8]), Fault>
    ensures { Same (λ x. (x.0, x.1.now)) result (size_at size bytes.now) }
{
    match size {
        Size::Fixed(n) => Ok((n, bytes)),
        Size::Wide(width, least) => digits(bytes, width.bytes(), least),
    }
}

/// `len` bytes, and those after them.
#[tactic(auto, unfolding(crate::specs::Reading::raw_at))]
fn raw(bytes: &[u8], len: u64) -> Result<(&[u8], &[u8]), Fault>
    ensures { Same (λ x. (x.0.now, x.1.now)) result (raw_at len bytes.now) }
{
    if (bytes.len() as u64) < len {
        return Err(Fault::Short);
    }
    Ok(bytes.split_at(len as usize))
}

/// How many bytes 255 stand in front.
fn lead_of(bytes: &[u8]) -> usize
    ensures value { result ≡ lead bytes.now }
    ensures bound { result ≤ length bytes.now }
{
    let mut n = 0;
    for b in bytes {
        if *b != 255 {
            return n;
        }
        n += 1;
    }
    n
}

/// What is left where `len` bytes can no longer stand above `before`.
fn refused(before: &[u8], bytes: &[u8], len: u64) -> Option<usize>
    requires { lead before.now < len }
    ensures { result ≡ refused_at before.now len bytes.now }
{
    let mut before = before;
    let mut rest = bytes;
    let mut len = len;
    let steps = before.len();
    for _ in 0..steps {
        let Some((x, more)) = before.split_first() else {
            return None;
        };
        let Some((b, after)) = rest.split_first() else {
            return None;
        };
        if *b < *x {
            return Some(rest.len());
        }
        if *x < *b {
            return None;
        }
        // Behind 255 the lead shrinks with the length.
        if *x != 255 && lead_of(more) as u64 >= len - 1 {
            return Some(rest.len());
        }
        before = more;
        rest = after;
        len -= 1;
    }
    None
}

/// `len` bytes that stand above `before`.
fn rising<'a>(before: &[u8], bytes: &'a [u8], len: u64) -> Result<(&'a [u8], &'a [u8]), Fault>
    requires { lead before.now < len }
    ensures { Same (λ x. (x.0.now, x.1.now)) result (rising_at before.now len bytes.now) }
{
    match refused(before, bytes, len) {
        Some(left) => Err(Fault::Bad(left)),
        None => raw(bytes, len),
    }
}

/// Whether a size can be so much.
fn reaches_floor(floor: u64, size: Size) -> bool
    ensures { result ≡ reaches floor size }
{
    match size {
        Size::Fixed(n) => floor <= n,
        Size::Wide(Width::One, _) => floor < 0x100,
        Size::Wide(Width::Two, _) => floor < 0x10000,
        Size::Wide(Width::Four, _) => floor < 0x1_0000_0000,
        Size::Wide(Width::Eight, _) => true,
    }
}

/// The size of a key that is at least so long, by its first byte.
fn size_of_key(head: u8, floor: u64) -> Option<Size>
    ensures { result ≡ key_size floor (head_at head) }
{
    let Some(Head::Str(size)) = head_of(head) else {
        return None;
    };
    if !reaches_floor(floor, size) {
        return None;
    }
    match size {
        Size::Fixed(n) => Some(Size::Fixed(n)),
        Size::Wide(width, least) => Some(Size::Wide(width, least.max(floor))),
    }
}

/// The least length of a key above the key before.
fn floor(before: Option<&[u8]>) -> u64
    ensures { result ≡ floor_of (option_copied before.entry) }
{
    match before {
        None => 0,
        Some(before) => lead_of(before) as u64 + 1,
    }
}

/// A key above the key before.
#[tactic(auto, unfolding(crate::specs::Reading::key_at))]
pub(crate) fn key<'a>(before: Option<&[u8]>, bytes: &'a [u8]) -> Result<(&'a [u8], &'a [u8]), Fault>
    ensures { Same (λ x. (x.0.now, x.1.now)) result (key_at (option_copied before.entry) bytes.now) }
{
    let Some((head, rest)) = bytes.split_first() else {
        return Err(Fault::Short);
    };
    let floor = floor(before);
    let Some(size) = size_of_key(*head, floor) else {
        return Err(Fault::Bad(bytes.len()));
    };
    let (len, rest) = size_of(size, rest)?;
    match before {
        None => raw(rest, len),
        Some(before) => rising(before, rest, len),
    }
}

/// A string or bytes, behind the head.
#[tactic(auto, unfolding(crate::specs::Reading::string_at))]
pub(crate) fn string(size: Size, bytes: &[u8]) -> Result<(&[u8], &[u8]), Fault>
    ensures { Same (λ x. (x.0.now, x.1.now)) result (string_at size bytes.now) }
{
    let (len, rest) = size_of(size, bytes)?;
    raw(rest, len)
}
