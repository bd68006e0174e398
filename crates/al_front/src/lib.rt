//! The front rule: what callers of one ledger know of a list that only grows and a floor that
//! only rises, whatever the schedule of their threads.
//!
//! All threads share a [`Front`]: two words, the length of the list and the floor. Both count
//! rounds: the list's length is the opening floor plus the number of its entries. The
//! [`Main`] seat appends entries and knows the whole list, the [`StoreSeat`] raises the floor, and
//! a caller has a [`Pass`]. Each knows a list and a floor, tells them by a [`Note`], and
//! takes in what a note says when it meets it.
//!
//! Between any two steps these hold, and the contracts are drawn from them:
//!
//! 1. The first word is the opening floor plus the number of entries of the main seat's list.
//! 2. Each list that a seat, a note or a pass knows is a prefix of the main seat's list.
//! 3. The second word is the store seat's floor. Each known floor is at most that word and at
//!    least the opening floor.
//! 4. The second word is the opening floor, or at least 4 rounds below the first word. So is each
//!    known floor, beside the length of the list that is known with it.
//!
//! The lists stand in contracts alone: no byte of an entry is stored, and nothing but
//! [`UnnamedFront::new`] takes memory.
#![tactic(auto)]

mod front;
mod main_seat;
mod name;
mod pass;
mod plays;
mod steps;
mod store_seat;
mod view;

pub use front::{Front, UnnamedFront};
pub use main_seat::Main;
pub use name::Name;
pub use pass::{Note, Pass};
pub use store_seat::StoreSeat;
