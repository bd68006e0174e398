//! The bytes of keys, without memory of their own.
ghost use Rattle.std.specs.Prelude.{◌≡◌, ◌++◌, ◌∷◌, [], ◌+◌, ◌≤◌, length};

/// The bytes of a key, of which there are at most 73.
#[derive(Clone, Copy, Debug)]
pub struct KeyBytes {
    bytes: [u8; 73],
    len: usize,
    ghost short: { len ≤ 73 },
}

impl KeyBytes {
    ghost use Rattle.al_base.specs.Keys.{bytes_of};

    /// All of them.
    pub fn as_slice(&self) -> &[u8]
        ensures value { result.now ≡ bytes_of self.now }
        ensures short { length (bytes_of self.now) ≤ 73 }
    {
        &self.bytes[..self.len]
    }

    // The byte of a kind of key.
    pub(crate) fn start(kind: u8) -> KeyBytes
        ensures bytes { bytes_of result ≡ kind ∷ [] }
        ensures len { result.len ≡ 1 }
    {
        let mut bytes = [0; 73];
        bytes[0] = kind;
        KeyBytes { bytes, len: 1 }
    }

    // These bytes, and more behind them.
    #[tactic(auto, using(crate::proofs::Padding::writing))]
    pub(crate) fn with(&self, more: &[u8]) -> KeyBytes
        requires { self.now.len + length more.now ≤ 73 }
        ensures bytes { bytes_of result ≡ bytes_of self.now ++ more.now }
        ensures len { result.len ≡ self.now.len + length more.now }
    {
        let mut bytes = self.bytes;
        let len = self.len + more.len();
        bytes[self.len..len].copy_from_slice(more);
        KeyBytes { bytes, len }
    }
}
