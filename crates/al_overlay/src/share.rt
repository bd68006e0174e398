//! What rewards depend on.
ghost use Rattle.std.specs.Prelude.{◌≡◌};
ghost use Rattle.al_overlay.specs.Accounts.{share_of};

use al_rewards::Share;
use al_rows::AccountRow;

/// What the rewards of an account depend on.
pub fn share_of(r: &AccountRow) -> Share
    ensures { result ≡ share_of r.now }
{
    Share {
        status: r.status,
        balance: r.balance,
        base: r.base,
    }
}
