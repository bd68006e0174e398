//! The texts of digests and addresses.
ghost use Rattle.std.specs.Prelude.{◌≡◌, ◌++◌, ℕ, List, take, Ok, IfOk};
ghost use Rattle.al_base.specs.declared.address.Address.{Address};
ghost use Rattle.al_digest.specs.Texts.{hash_text_of, address_text_of, check_of, ReadsHash, ReadsAddress, AreBytes};

use crate::base32::{decode, encode};
use crate::hashing::bare_digest;
use al_base::{Address, Hash};

/// What is wrong with a text, the first in this order.
#[derive(Clone, Copy, Debug, PartialEq, Eq)]
pub enum TextFault {
    /// It has another length: `found` bytes.
    Length { found: usize },
    /// The byte at this place is the first that is not of A to Z and 2 to 7.
    Letter { at: usize },
    /// A bit of the last letter that no byte fills is not 0.
    SpareBits,
    /// The last four bytes of an address's text are not its check bytes.
    Check,
}

/// The 52 letters of a digest.
pub fn hash_text(hash: &Hash) -> [u8; 52]
    ensures { result ≡ hash_text_of hash.now }
{
    let mut text = [0; 52];
    encode(hash, &mut text);
    text
}

/// The digest whose text this is.
pub fn parse_hash(text: &[u8]) -> Result<Hash, TextFault>
    ensures reads { ReadsHash text.now result }
    ensures bytes { IfOk result (AreBytes 32) }
    ensures text { (hash : List ℕ) → AreBytes 32 hash → text.now ≡ hash_text_of hash → result ≡ Ok hash }
{
    if text.len() != 52 {
        return Err(TextFault::Length { found: text.len() });
    }
    let mut hash = [0; 32];
    decode(text, &mut hash)?;
    Ok(hash)
}

/// The 58 letters of an address and its check bytes.
pub fn address_text(address: &Address) -> [u8; 58]
    ensures { result ≡ address_text_of address.now }
{
    let mut text = [0; 58];
    encode(&with_check(address), &mut text);
    text
}

/// The address whose text this is.
pub fn parse_address(text: &[u8]) -> Result<Address, TextFault>
    ensures reads { ReadsAddress text.now result }
    ensures bytes { IfOk result (λ a. AreBytes 32 a.0) }
    ensures text { (address : Address) → AreBytes 32 address.0 → text.now ≡ address_text_of address → result ≡ Ok address }
{
    if text.len() != 58 {
        return Err(TextFault::Length { found: text.len() });
    }
    let mut bytes = [0; 36];
    decode(text, &mut bytes)?;
    let address = front(&bytes);
    if with_check(&address) == bytes {
        Ok(address)
    } else {
        Err(TextFault::Check)
    }
}

// The address that stands in front of its check bytes.
fn front(bytes: &[u8; 36]) -> Address
    ensures { result.0 ≡ take 32 bytes.now }
{
    let mut address = [0; 32];
    address.copy_from_slice(&bytes[..32]);
    Address(address)
}

// The address and its check bytes.
fn with_check(address: &Address) -> [u8; 36]
    ensures { result ≡ address.now.0 ++ check_of address.now.0 }
{
    let mut bytes = [0; 36];
    bytes[..32].copy_from_slice(&address.0);
    bytes[32..].copy_from_slice(&bare_digest(&address.0)[28..]);
    bytes
}
