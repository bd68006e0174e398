//! Where bytes go.
ghost use Rattle.std.specs.Prelude.{ℕ, List, Option};
ghost use Rattle.al_base.specs.Causes.{HasCause, Puts};

use crate::Failed;

/// A sink of bytes. One that tells what was written goes on telling.
pub trait Sink {
    /// The bytes that were written, where it tells.
    ghost written: { Self → Option (List ℕ) };

    /// How often it has failed.
    ghost faults: { Self → ℕ };

    /// Writes all of the bytes.
    ///
    /// # Errors
    ///
    /// `Failed` where the sink failed. A front of the bytes is then written.
    fn put(&mut self, bytes: &[u8]) -> Result<(), Failed>
        ensures bytes { Puts (written self.old) (written self.new) result bytes.now }
        ensures cause { HasCause (faults self.old) (faults self.new) result };
}
