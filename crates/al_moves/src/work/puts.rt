//! Resource and box rows, and the counts that follow them.
ghost use Rattle.std.specs.Prelude.{◌≡◌, ◌≤◌, true, IfOk, IfSome};
ghost use Rattle.std.specs.FinMap.{get};
ghost use Rattle.al_rows.specs.Limits.{max_balance};
ghost use Rattle.al_rows.specs.Rows.{InRange, IsKept};
ghost use Rattle.al_moves.specs.Resources.{AreFew, counts_at, put_box, put_counted, put_counts, put_over, put_resource, recount};
ghost use Rattle.al_overlay.specs.Work.{Does, IsCounted, IsNoRule, Looks};

use super::{Work, nonzero};
use crate::resource::{Counts, app_account, counts_at, counts_held, counts_within, recounted};
use al_base::{Address, BoxName, Key};
use al_overlay::{Rule, Stop, viewed};
use al_rows::{AccountRow, BoxRow, Row, RowView};

impl<V: RowView> Work<V> {
    /// Makes this the resource row of an address and an id, a row without a part being none, and
    /// moves the counts of the address by the difference of what the row before and this one
    /// count. Rule 65: a count would pass 2^40.
    pub fn put_resource(
        &mut self,
        who: &Address,
        id: u64,
        row: Option<Row>,
    ) -> Result<(), Stop<V::Fault>>
        requires { IfSome row (InRange (Key.Resource who.now id)) }
        ensures { Does V.tells (put_resource who.now id row self.old.now) self.old self.new result }
    {
        let key = Key::Resource(*who, id);
        let row = nonzero(&key, row);
        self.put_counted(who, &key, row)
    }

    /// Makes this the box of an application and a name, and moves the counts of the application's
    /// account by the difference. Rule 65: a count would pass 2^40.
    pub fn put_box(
        &mut self,
        app: u64,
        name: &BoxName,
        row: Option<Row>,
    ) -> Result<(), Stop<V::Fault>>
        requires { IfSome row (InRange (Key.Box app name.now)) }
        ensures { Does V.tells (put_box app name.now row self.old.now) self.old self.new result }
    {
        let key = Key::Box(app, *name);
        let row = nonzero(&key, row);
        self.put_counted(&app_account(app), &key, row)
    }

    // Makes this the row under a key, and moves the counts of its owner.
    #[tactic(auto, unfolding(crate::specs::Resources::put_counted))]
    fn put_counted(
        &mut self,
        who: &Address,
        key: &Key,
        row: Option<Row>,
    ) -> Result<(), Stop<V::Fault>>
        requires { IfSome row (IsKept key.now) }
        ensures { Does V.tells (put_counted who.now key.now row self.old.now) self.old self.new result }
    {
        let old = self.counts(key)?;
        self.put_over(who, key, &old, row)
    }

    // The same over a row with these counts.
    #[tactic(auto, unfolding(crate::specs::Resources::put_over))]
    fn put_over(
        &mut self,
        who: &Address,
        key: &Key,
        old: &Counts,
        row: Option<Row>,
    ) -> Result<(), Stop<V::Fault>>
        requires { IfSome row (IsKept key.now) }
        ensures { Does V.tells (put_over who.now key.now old.now row self.old.now) self.old self.new result }
    {
        let new = counts_at(key, &row);
        self.recount(who, old, &new)?;
        self.put(key, row)
    }

    // Moves the counts of an account from those of one row to those of another.
    #[tactic(auto, unfolding(crate::specs::Resources::recount))]
    fn recount(&mut self, who: &Address, old: &Counts, new: &Counts) -> Result<(), Stop<V::Fault>>
        requires { AreFew new.now }
        ensures { Does V.tells (recount who.now old.now new.now self.old.now) self.old self.new result }
    {
        if old.same(new) {
            return Ok(());
        }
        let r = self.account(who)?;
        self.put_counts(who, recounted(r, old, new))
    }

    // Puts an account, unless a count passes the most.
    fn put_counts(&mut self, who: &Address, r: AccountRow) -> Result<(), Stop<V::Fault>>
        requires { r.balance ≤ max_balance }
        ensures { Does V.tells (put_counts self.old.now who.now r) self.old self.new result }
    {
        if !counts_within(&r) {
            return Err(Stop::Rule(Rule::of_account(65, who)));
        }
        self.set(&Key::Account(*who), Some(Row::Account(r)))
    }

    // What the row under a key counts.
    fn counts(&mut self, key: &Key) -> Result<Counts, Stop<V::Fault>>
        ensures looks { Looks V.tells self.old self.new result }
        ensures value { V.tells ≡ true → IfOk result (λ c. c ≡ counts_at key.now (get self.old.now key.now)) }
    {
        match counts_held(&self.rows, key) {
            Some(counts) => Ok(counts),
            None => counts_viewed(&mut self.view, key),
        }
    }
}

// What the row counts that a view shows under a key.
fn counts_viewed<V: RowView>(view: &mut V, key: &Key) -> Result<Counts, Stop<V::Fault>>
    ensures same { V.tells ≡ true → V.rows view.new ≡ V.rows view.old }
    ensures value { V.tells ≡ true → IfOk result (λ c. c ≡ counts_at key.now (get (V.rows view.old) key.now)) }
    ensures lender { V.lender view.new ≡ V.lender view.old }
    ensures later { V.failures view.old ≤ V.failures view.new }
    ensures cause { IsCounted result (V.failures view.old) (V.failures view.new) }
    ensures no_rule { IsNoRule result }
{
    let row = viewed(view, key)?;
    let counts = counts_at(key, &row);
    Ok(counts)
}
