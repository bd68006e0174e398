//! Laws of the definitions.
ghost use Rattle.al_moves.specs.Money.{MovesAreFair, RiseIsEarned};
ghost use Rattle.al_moves.specs.Totals.{MoneyIsCounted, RiseIsCounted};
ghost use Rattle.al_moves.specs.Resources.{CountsFollow};
ghost use Rattle.al_moves.specs.Keys.{KeysAreFair};

/// No move makes or loses money, and none is refused by the most that a balance may be where all
/// the money is at most that.
pub fn moves_are_fair()
    ensures { MovesAreFair }
{}

/// At a higher level the same rows are worth more by what all units earn.
pub fn rise_is_earned()
    ensures { RiseIsEarned }
{}

/// At a higher level the totals of the same rows are those raised to it: each unit of an account
/// that earns has the rise more, in microAlgos.
pub fn rise_is_counted()
    ensures { RiseIsCounted }
{}

/// The totals of the three statuses together are all the money, and the units of those that earn
/// are all units.
pub fn money_is_counted()
    ensures { MoneyIsCounted }
{}

/// A resource row or a box that is put keeps the counts of all accounts those of their rows.
pub fn counts_follow()
    ensures { CountsFollow }
{}

/// A registration of keys, and keys that expire, change the status and the keys of one account and
/// nothing else, and make or lose no money where the account was given its rewards before.
pub fn keys_are_fair()
    ensures { KeysAreFair }
{}
