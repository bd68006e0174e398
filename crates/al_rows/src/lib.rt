//! The rows of the ledger: what stands under a key, and what shows rows.
#![tactic(auto)]

mod account;
mod change;
mod index;
mod limits;
mod row;
mod stored;
mod view;

pub use account::{AccountRow, account_in};
pub use change::{Change, Changes};
pub use index::creators_of;
pub use limits::{MAX_BALANCE, MAX_COUNT};
pub use row::{AppParams, AppRow, AssetRow, BoxRow, Holding, Local, Row, copy_row, same_row};
pub use stored::{Keyed, Rows, Stored};
pub use view::{MapView, Never, RowView, StoredView, ViewFault};
