//! Where bytes come from.
ghost use Rattle.std.specs.Prelude.{◌≤◌, ℕ, List, length, Option, IfOk};
ghost use Rattle.al_base.specs.Causes.{HasCause, Takes};

/// A call to the outside failed. The object counted it.
#[derive(Clone, Copy, Debug, PartialEq, Eq)]
pub struct Failed;

/// A source of bytes. One that tells what is left goes on telling.
pub trait Source {
    /// The bytes that are left, where it tells.
    ghost left: { Self → Option (List ℕ) };

    /// How often it has failed.
    ghost faults: { Self → ℕ };

    /// Puts bytes in front of the buffer, and says how many. None for a buffer that is not empty is
    /// the end of input.
    ///
    /// # Errors
    ///
    /// `Failed` where the source failed. What is left stays.
    fn take(&mut self, buf: &mut [u8]) -> Result<usize, Failed>
        ensures bound { IfOk result (λ n. n ≤ length buf.new) }
        ensures bytes { Takes (left self.old) (left self.new) result buf.new }
        ensures cause { HasCause (faults self.old) (faults self.new) result };
}
