//! The keys of the tests, by number.
use al_base::{Address, BoxName, Key};

pub(crate) const ACCOUNT: u8 = 0;

pub(crate) const RESOURCE: u8 = 1;

pub(crate) const BOX: u8 = 2;

/// A box with the longest name.
pub(crate) const LONG_BOX: u8 = 3;

/// The key of a number.
pub(crate) fn key(number: u8) -> Option<Key> {
    match number {
        0 => Some(Key::Account(Address([9; 32]))),
        1 => Some(Key::Resource(Address([9; 32]), 258)),
        2 => Some(Key::Box(258, BoxName::new(b"name")?)),
        _ => Some(Key::Box(u64::MAX, BoxName::new(&[b'n'; 64])?)),
    }
}
