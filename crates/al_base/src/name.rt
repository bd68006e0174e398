//! The name of a box: 1 to 64 bytes.
ghost use Rattle.std.specs.Prelude.{◌≡◌, ◌-◌, ◌<◌, ◌≤◌, ◌↔◌, ◌^◌, length, IfSome, IsSome, take, drop, replicate};

/// The name of a box, of 1 to 64 bytes, with zeros behind.
#[derive(Clone, Copy, Debug, PartialEq, Eq, PartialOrd, Ord, Hash)]
pub struct BoxName {
    bytes: [u8; 64],
    len: usize,
    ghost some: { 1 ≤ len },
    ghost short: { len ≤ 64 },
    ghost padded: { drop len bytes ≡ replicate (64 - len) 0 },
}

impl BoxName {
    ghost use Rattle.al_base.specs.Name.{name_of};
    ghost use Rattle.al_base.specs.declared.name.BoxName.{BoxName};

    /// The name with these bytes, where there are 1 to 64 of them.
    pub fn new(bytes: &[u8]) -> Option<BoxName>
        ensures value { IfSome result (λ n. name_of n ≡ bytes.now) }
        ensures whole { (name : BoxName) → length name.bytes ≡ 64 → name_of name ≡ bytes.now → result ≡ Some name }
        ensures found { IsSome result ↔ ((1 ≤ length bytes.now) × (length bytes.now ≤ 64)) }
    {
        let len = bytes.len();
        if bytes.is_empty() || len > 64 {
            return None;
        }
        let bytes = padded(bytes);
        Some(BoxName { bytes, len })
    }

    /// The bytes of the name.
    pub fn as_slice(&self) -> &[u8]
        ensures value { result.now ≡ name_of self.now }
        ensures some { 1 ≤ length (name_of self.now) }
        ensures short { length (name_of self.now) ≤ 64 }
        ensures array { length self.now.bytes ≡ 64 }
    {
        &self.bytes[..self.len]
    }
}

// The bytes with zeros behind.
#[tactic(auto, using(crate::proofs::Padding::padding))]
fn padded(bytes: &[u8]) -> [u8; 64]
    requires { length bytes.now ≤ 64 }
    ensures front { take (length bytes.now) result ≡ bytes.now }
    ensures behind { drop (length bytes.now) result ≡ replicate (64 - length bytes.now) 0 }
{
    let mut all = [0u8; 64];
    all[..bytes.len()].copy_from_slice(bytes);
    all
}
