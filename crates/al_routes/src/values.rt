//! Numbers, addresses and names of boxes.
ghost use Rattle.al_routes.specs.Texts.{IsAddress, IsName, IsNumber, Reads};

use al_base::{Address, BoxName};
use al_digest::parse_address;

/// The greatest number.
const MOST_NUMBER: u64 = 1 << 62;

/// A decimal without sign or leading zero, of at most 2^62.
pub(crate) fn number(text: &[u8]) -> Option<u64>
    ensures { Reads (IsNumber text.now) result }
{
    if text.is_empty() {
        return None;
    }
    if text[0] == b'0' && text.len() > 1 {
        return None;
    }
    let mut n: u64 = 0;
    for c in text {
        if !c.is_ascii_digit() {
            return None;
        }
        n = n.saturating_mul(10).saturating_add(u64::from(*c - b'0'));
        if n > MOST_NUMBER {
            return None;
        }
    }
    Some(n)
}

/// The address of 58 letters.
pub(crate) fn address(text: &[u8]) -> Option<Address>
    ensures { Reads (IsAddress text.now) result }
{
    match parse_address(text) {
        Ok(address) => Some(address),
        Err(_) => None,
    }
}

/// 1 to 64 bytes in hexadecimal, in either case of letters.
pub(crate) fn box_name(text: &[u8]) -> Option<BoxName>
    ensures { Reads (IsName text.now) result }
{
    let len = text.len() / 2;
    if len > 64 {
        return None;
    }
    let mut bytes = [0; 64];
    match hex::decode_to_slice(text, &mut bytes[..len]) {
        Ok(()) => BoxName::new(&bytes[..len]),
        Err(_) => None,
    }
}
