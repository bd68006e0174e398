//! Addresses, digests, and lists of addresses.
ghost use Rattle.std.specs.Prelude.{◌≡◌, ◌∷◌, [], ◌++◌, length, slice_get, IfOk, OnOk, OnErr};
ghost use Rattle.std.specs.Option.{option_copied};

use sqlite_items::Items;
use std::alloc::{AllocError, Global};
use std::marker::Model;

/// 32 bytes of SHA-512/256.
pub type Hash = [u8; 32];

/// The 32 bytes that name an account.
#[derive(Clone, Copy, Debug, PartialEq, Eq, PartialOrd, Ord, Hash)]
pub struct Address(pub [u8; 32]);

/// A list of addresses.
#[derive(Debug, Drop)]
pub struct Addresses {
    items: Items<Address>,
}

impl Model for Addresses {
    ghost use Rattle.std.specs.Prelude.{List};
    ghost use Rattle.al_base.specs.declared.address.Address.{Address};

    ghost Value = { List Address };

    ghost view = { λ a. a.items };
}

impl Addresses {
    /// No address.
    pub fn new(alloc: Global) -> Addresses
        ensures { result ≡ [] }
    {
        Addresses {
            items: Items::new(alloc),
        }
    }

    /// Appends an address. A refused push drops it.
    pub fn push(&mut self, member: Address) -> Result<(), AllocError>
        ensures ok { OnOk result (self.new ≡ self.old ++ member ∷ []) }
        ensures err { OnErr result (self.new ≡ self.old) }
    {
        self.items.push(member)
    }

    /// How many there are.
    pub fn len(&self) -> usize
        ensures { result ≡ length self.now }
    {
        self.items.len()
    }

    /// The address at a place.
    pub fn get(&self, i: usize) -> Option<&Address>
        ensures { option_copied result ≡ slice_get self.now i }
    {
        self.items.get(i)
    }

    /// All of them.
    pub fn as_slice(&self) -> &[Address]
        ensures { result.now ≡ self.now }
    {
        self.items.as_slice()
    }

    /// An equal list.
    pub fn copy(&self, alloc: Global) -> Result<Addresses, AllocError>
        ensures { IfOk result (λ a. a ≡ self.now) }
    {
        Ok(Addresses {
            items: Items::from_slice(alloc, self.as_slice())?,
        })
    }
}
