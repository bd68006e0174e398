//! The row of an account.
ghost use Rattle.std.specs.Prelude.{◌≡◌, Option};
ghost use Rattle.al_rows.specs.Rows.{CountsInRange, account_in, is_zero_account, min_balance};

use crate::Row;
use al_base::{Address, Hash, Status};

/// The row of an account.
#[derive(Clone, Copy, Debug, PartialEq, Eq)]
pub struct AccountRow {
    /// Whether it takes part in agreement.
    pub status: Status,
    /// The balance in microAlgos, without pending rewards; at most 10^16.
    pub balance: u64,
    /// The reward level up to which its rewards are in the balance.
    pub base: u64,
    /// Who signs for it; zero is itself.
    pub auth: Address,
    /// The voting key; zero for none.
    pub vote: Hash,
    /// The selection key; zero for none.
    pub selection: Hash,
    /// The state proof key; zero for none.
    pub sprf: [u8; 64],
    /// The first round that its keys vote in.
    pub first: u64,
    /// The last round that its keys vote in.
    pub last: u64,
    /// The dilution of its keys.
    pub dilution: u64,
    /// How many assets it holds. This and each count below is at most 2^40.
    pub assets_held: u64,
    /// How many assets it has created that are not destroyed.
    pub assets_created: u64,
    /// How many applications it has created that are not removed.
    pub apps_created: u64,
    /// How many applications it has opted in to.
    pub apps_opted: u64,
    /// How many extra pages its applications have.
    pub extra_pages: u64,
    /// How many numbers the schemas it pays for allow.
    pub uints: u64,
    /// How many byte slices the schemas it pays for allow.
    pub byte_slices: u64,
    /// How many boxes it has.
    pub boxes: u64,
    /// How many bytes the names and values of its boxes have.
    pub box_bytes: u64,
}

impl AccountRow {
    /// An account without a row.
    pub fn none() -> AccountRow
        ensures { result ≡ account_in None }
    {
        AccountRow {
            status: Status::Offline,
            balance: 0,
            base: 0,
            auth: Address([0; 32]),
            vote: [0; 32],
            selection: [0; 32],
            sprf: [0; 64],
            first: 0,
            last: 0,
            dilution: 0,
            assets_held: 0,
            assets_created: 0,
            apps_created: 0,
            apps_opted: 0,
            extra_pages: 0,
            uints: 0,
            byte_slices: 0,
            boxes: 0,
            box_bytes: 0,
        }
    }

    /// Whether it is zero in all but its reward base.
    #[tactic(auto, unfolding(crate::specs::Rows::is_zero_account))]
    pub fn is_zero(&self) -> bool
        ensures { result ≡ is_zero_account self.now }
    {
        let zero = AccountRow {
            base: self.base,
            ..AccountRow::none()
        };
        *self == zero
    }

    /// The least that it has to keep, in microAlgos, by the Algorand ledger specification: for
    /// itself and each asset, application, extra page, schema entry and box.
    #[tactic(auto, unfolding(crate::specs::Rows::min_balance))]
    pub fn min_balance(&self) -> u64
        requires { CountsInRange self.now }
        ensures { result ≡ min_balance self.now }
    {
        100_000 * (1 + self.assets_held + self.apps_created + self.extra_pages + self.apps_opted)
            + 25_000 * (self.uints + self.byte_slices)
            + 3_500 * self.uints
            + 25_000 * self.byte_slices
            + 2_500 * self.boxes
            + 400 * self.box_bytes
    }
}

/// The account of a row that may be there. A missing one is the zero row.
pub fn account_in(row: &Option<Row>) -> AccountRow
    ensures { result ≡ account_in row.now }
{
    match row {
        Some(Row::Account(r)) => *r,
        _ => AccountRow::none(),
    }
}
