//! The limits of the numbers of a row.

/// The most that a balance may be, and all balances together, in microAlgos.
pub const MAX_BALANCE: u64 = 10_000_000_000_000_000;

/// The most that each count of an account may be.
pub const MAX_COUNT: u64 = 1 << 40;
