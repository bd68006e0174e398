//! The keys of rows, and who created what.
ghost use Rattle.std.specs.Prelude.{◌≡◌, ◌≢◌, ◌∷◌, ◌<◌, ◌≤◌, length, take, drop, Some, IfSome, MatchOption};
ghost use Rattle.std.specs.Cmp.Lexicographic.{slice_cmp};
ghost use Rattle.std.specs.Ordering.{nat_cmp};
ghost use Rattle.al_base.specs.Keys.{key_cmp, key_bytes, number_bytes, bytes_of, IsKey};
ghost use Rattle.al_base.specs.declared.key.Key.{Key};

use crate::{Address, BoxName, KeyBytes};
use sqlite_items::Items;

/// The key of a row.
#[derive(Clone, Copy, Debug, PartialEq, Eq, PartialOrd, Ord, Hash)]
pub enum Key {
    /// An account.
    Account(Address),
    /// What an account has of an asset or an application.
    Resource(Address, u64),
    /// A box of an application.
    Box(u64, BoxName),
}

impl Key {
    /// The bytes of the key: what kind it is, whose it is, and its number or name, numbers most
    /// significant byte first.
    pub fn bytes(&self) -> KeyBytes
        ensures bytes { bytes_of result ≡ key_bytes self.now }
        ensures key { IsKey self.now }
    {
        match self {
            Key::Account(address) => KeyBytes::start(0).with(&address.0),
            Key::Resource(address, id) => KeyBytes::start(1)
                .with(&address.0)
                .with(&bytes_of_number(*id)),
            Key::Box(app, name) => KeyBytes::start(2)
                .with(&bytes_of_number(*app))
                .with(name.as_slice()),
        }
    }

    /// The key of these bytes, or that they are no key's.
    pub fn of_bytes(bytes: &[u8]) -> Option<Key>
        ensures found { IfSome result (λ key. key_bytes key ≡ bytes.now) }
        ensures whole { (key : Key) → IsKey key → key_bytes key ≡ bytes.now → result ≡ Some key }
    {
        let (kind, rest) = bytes.split_first()?;
        match kind {
            0 => account(rest),
            1 => resource(rest),
            2 => named_box(rest),
            _ => None,
        }
    }

    /// The order of two keys, which is that of their bytes.
    pub fn compare(&self, other: &Key) -> std::cmp::Ordering
        ensures cases { result ≡ key_cmp self.now other.now }
        ensures bytes { result ≡ slice_cmp nat_cmp (key_bytes self.now) (key_bytes other.now) }
    {
        self.is_in_range();
        other.is_in_range();
        self.cmp(other)
    }

    // No effect at run time. The proof reads that the key's arrays have their lengths, and that its
    // number is below 2 ^ 64.
    fn is_in_range(&self)
        ensures { IsKey self.now }
    {
        match self {
            Key::Account(address) => {
                let _bytes: &[u8] = &address.0;
            }
            Key::Resource(address, id) => {
                let _bytes: &[u8] = &address.0;
                let _id = *id;
            }
            Key::Box(app, name) => {
                let _app = *app;
                let _bytes = name.as_slice();
            }
        }
    }
}

// The account that these bytes name.
fn account(bytes: &[u8]) -> Option<Key>
    ensures found { IfSome result (λ key. key_bytes key ≡ 0 ∷ bytes.now) }
    ensures whole { (key : Key) → IsKey key → key_bytes key ≡ 0 ∷ bytes.now → result ≡ Some key }
{
    Some(Key::Account(address(bytes)?))
}

// The resource that these bytes name.
fn resource(bytes: &[u8]) -> Option<Key>
    ensures found { IfSome result (λ key. key_bytes key ≡ 1 ∷ bytes.now) }
    ensures whole { (key : Key) → IsKey key → key_bytes key ≡ 1 ∷ bytes.now → result ≡ Some key }
{
    let (holder, id) = split(bytes, 32)?;
    Some(Key::Resource(address(holder)?, number(id)?))
}

// The box that these bytes name.
fn named_box(bytes: &[u8]) -> Option<Key>
    ensures found { IfSome result (λ key. key_bytes key ≡ 2 ∷ bytes.now) }
    ensures whole { (key : Key) → IsKey key → key_bytes key ≡ 2 ∷ bytes.now → result ≡ Some key }
{
    let (app, name) = split(bytes, 8)?;
    Some(Key::Box(number(app)?, BoxName::new(name)?))
}

// The first `n` bytes, and the rest.
fn split(bytes: &[u8], n: usize) -> Option<(&[u8], &[u8])>
    ensures { MatchOption result (length bytes.now < n) (λ parts. (n ≤ length bytes.now) × (parts.0.now ≡ take n bytes.now) × (parts.1.now ≡ drop n bytes.now)) }
{
    if bytes.len() < n {
        return None;
    }
    Some(bytes.split_at(n))
}

// The address of 32 bytes.
fn address(bytes: &[u8]) -> Option<Address>
    ensures { MatchOption result (length bytes.now ≢ 32) (λ address. address.0 ≡ bytes.now) }
{
    Some(Address(<[u8; 32]>::try_from(bytes).ok()?))
}

// The 8 bytes of a number, most significant first.
#[tactic(auto, unfolding(crate::specs::Keys::number_bytes))]
fn bytes_of_number(n: u64) -> [u8; 8]
    ensures { result ≡ number_bytes n }
{
    n.to_be_bytes()
}

// The number of 8 bytes, most significant first.
fn number(bytes: &[u8]) -> Option<u64>
    ensures { MatchOption result (length bytes.now ≢ 8) (λ n. number_bytes n ≡ bytes.now) }
{
    Some(u64::from_be_bytes(<[u8; 8]>::try_from(bytes).ok()?))
}

/// The creator of an asset or an application after a block, or that it is gone.
#[derive(Clone, Copy, Debug, PartialEq, Eq)]
pub struct CreatorChange {
    pub id: u64,
    pub now: Option<Address>,
}

/// A list of changes of creators.
pub type CreatorChanges = Items<CreatorChange>;
