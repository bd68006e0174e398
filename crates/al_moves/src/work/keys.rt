//! Registrations of keys, and keys that have expired.
ghost use Rattle.std.specs.Prelude.{◌≡◌, ◌+◌, nat_lt};
ghost use Rattle.al_rows.specs.Rows.{AccountInRange, set_account};
ghost use Rattle.al_moves.specs.Keys.{Expires, expired, has_no_keys, is_expired, keyed, left_status, registered, with_keys, without_keys};
ghost use Rattle.al_overlay.specs.Work.{Does, IsNoRule};

use super::Work;
use al_base::{Address, Key, Status};
use al_overlay::{Rule, Stop};
use al_rows::{AccountRow, Row, RowView};
use al_txn::KeyReg;

impl<V: RowView> Work<V> {
    /// The body of a registration of keys. With keys the account goes online, without it goes
    /// offline, or takes part no more where the registration says so; nothing else of it changes.
    /// Rule 44: it takes part no more. Rule 45: the keys' last round is this one, or before. Rule
    /// 56: their first round comes after the next.
    #[tactic(auto, unfolding(crate::specs::Keys::keyed))]
    pub fn keyreg(&mut self, who: &Address, k: &KeyReg) -> Result<(), Stop<V::Fault>>
        ensures { Does V.tells (keyed self.old.round who.now k.now self.old.now) self.old self.new result }
    {
        let r = self.account(who)?;
        if r.status == Status::NotParticipating {
            return Err(Stop::Rule(Rule::plain(44)));
        }
        self.register(who, k, r)
    }

    // The same of an account that takes part.
    fn register(&mut self, who: &Address, k: &KeyReg, r: AccountRow) -> Result<(), Stop<V::Fault>>
        requires { AccountInRange r }
        ensures { Does V.tells (registered self.old.round who.now k.now r self.old.now) self.old self.new result }
    {
        if has_no_keys(k) {
            return self.set_account(who, without_keys(left_status(k), r));
        }
        if k.last <= self.round {
            return Err(Stop::Rule(Rule::plain(45)));
        }
        if is_after_next(self.round, k.first) {
            return Err(Stop::Rule(Rule::plain(56)));
        }
        self.set_account(who, with_keys(k, r))
    }

    /// Takes an account offline whose keys have expired: it is online, and their last round lies
    /// before this one and is not 0. Nothing else of it changes: its pending rewards are not given
    /// to it. False where they have not expired, and then no row changes. Never a rule.
    #[tactic(auto, unfolding(crate::specs::Keys::expired))]
    pub fn expire(&mut self, who: &Address) -> Result<bool, Stop<V::Fault>>
        ensures { Expires V.tells (expired self.old.round who.now self.old.now) self.old self.new result }
    {
        let r = self.account(who)?;
        if !is_expired(self.round, &r) {
            return Ok(false);
        }
        self.set_account(who, without_keys(Status::Offline, r))?;
        Ok(true)
    }

    // Makes this the row of an account.
    fn set_account(&mut self, who: &Address, r: AccountRow) -> Result<(), Stop<V::Fault>>
        requires { AccountInRange r }
        ensures done { Does V.tells (Ok (set_account self.old.now who.now r)) self.old self.new result }
        ensures no_rule { IsNoRule result }
    {
        self.set(&Key::Account(*who), Some(Row::Account(r)))
    }
}

// Whether a registration is without keys.
fn has_no_keys(k: &KeyReg) -> bool
    ensures { result ≡ has_no_keys k.now }
{
    k.vote == [0; 32] && k.selection == [0; 32] && k.dilution == 0
}

// Where a registration without keys leaves an account.
fn left_status(k: &KeyReg) -> Status
    ensures { result ≡ left_status k.now }
{
    if k.nonpart {
        Status::NotParticipating
    } else {
        Status::Offline
    }
}

// The account with a status, and with no keys.
fn without_keys(status: Status, r: AccountRow) -> AccountRow
    requires { AccountInRange r }
    ensures value { result ≡ without_keys status r }
    ensures range { AccountInRange result }
{
    AccountRow {
        status,
        vote: [0; 32],
        selection: [0; 32],
        sprf: [0; 64],
        first: 0,
        last: 0,
        dilution: 0,
        ..r
    }
}

// The account online with these keys.
fn with_keys(k: &KeyReg, r: AccountRow) -> AccountRow
    requires { AccountInRange r }
    ensures value { result ≡ with_keys k.now r }
    ensures range { AccountInRange result }
{
    AccountRow {
        status: Status::Online,
        vote: k.vote,
        selection: k.selection,
        sprf: k.sprf,
        first: k.first,
        last: k.last,
        dilution: k.dilution,
        ..r
    }
}

// Whether a round comes after the next one.
fn is_after_next(round: u64, first: u64) -> bool
    ensures { result ≡ nat_lt (round + 1) first }
{
    match round.checked_add(1) {
        Some(next) => next < first,
        None => false,
    }
}

// Whether an account is online with keys whose last round, where it is not 0, lies before a round.
fn is_expired(round: u64, r: &AccountRow) -> bool
    ensures { result ≡ is_expired round r.now }
{
    r.status == Status::Online && r.last > 0 && r.last < round
}
