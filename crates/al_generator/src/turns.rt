//! What turns make.
ghost use Rattle.std.specs.Prelude.{◌≡◌, ◌+◌, ◌*◌, ◌<◌, ◌≤◌, ◌++◌, ◌^◌, IfOk, OnOk};
ghost use Rattle.al_moves.specs.Resources.{app_account};
ghost use Rattle.al_generator.specs.Turns.{act, block, called, created, founded, opted, paid, registered, single, turn, turns};

use crate::progress::{Hand, Progress};
use al_base::Address;
use al_digest::{Prefix, digest};
use std::alloc::{AllocError, Global};

/// What a transaction does.
#[derive(Clone, Copy, Debug, PartialEq, Eq)]
pub enum Action {
    /// Pays so many microAlgos.
    Pay { receiver: Address, amount: u64 },
    /// Creates an asset.
    CreateAsset,
    /// Opts in to an asset.
    OptIn { asset: u64 },
    /// Registers keys.
    GoOnline,
    /// Registers none.
    GoOffline,
    /// Creates an application.
    CreateApp,
    /// Calls an application, which puts a box whose name is a number.
    PutBox { app: u64, name: u64 },
}

/// A transaction.
#[derive(Clone, Copy, Debug, PartialEq, Eq)]
pub struct Made {
    /// Its number in the chain, from 1.
    pub number: u64,
    /// Who sends it.
    pub sender: Address,
    /// What it does.
    pub action: Action,
}

/// The account of an application.
#[tactic(auto, unfolding(al_base::specs::Keys::number_bytes))]
fn app_account(app: u64) -> Address
    ensures { result ≡ app_account app }
{
    Address(digest(Prefix::App, &app.to_be_bytes()))
}

impl Progress {
    // One transaction more.
    fn single(
        &mut self,
        out: &mut Vec<Made>,
        sender: Address,
        action: Action,
    ) -> Result<(), AllocError>
        requires { self.old.count + 1 < 2 ^ 64 }
        ensures made { OnOk result (out.new.items ≡ out.old.items ++ (single self.old sender action).0) }
        ensures state { self.new ≡ (single self.old sender action).1 }
        ensures count { self.new.count ≤ self.old.count + 1 }
    {
        self.count += 1;
        out.push(Made {
            number: self.count,
            sender,
            action,
        })?;
        Ok(())
    }

    // An asset, which has the number of its transaction.
    fn create_asset(&mut self, out: &mut Vec<Made>, sender: Address) -> Result<(), AllocError>
        requires { self.old.count + 1 < 2 ^ 64 }
        ensures made { OnOk result (out.new.items ≡ out.old.items ++ (created self.old sender).0) }
        ensures state { OnOk result (self.new ≡ (created self.old sender).1) }
        ensures count { self.new.count ≤ self.old.count + 1 }
    {
        self.single(out, sender, Action::CreateAsset)?;
        self.asset = Some(self.count);
        Ok(())
    }

    // An application, which has the number of its transaction, and what its account is paid.
    fn create_app(&mut self, out: &mut Vec<Made>, sender: Address) -> Result<(), AllocError>
        requires { self.old.count + 2 < 2 ^ 64 }
        ensures made { OnOk result (out.new.items ≡ out.old.items ++ (founded self.old sender).0) }
        ensures state { OnOk result (self.new ≡ (founded self.old sender).1) }
        ensures count { self.new.count ≤ self.old.count + 2 }
    {
        self.single(out, sender, Action::CreateApp)?;
        let app = self.count;
        let action = Action::Pay {
            receiver: app_account(app),
            amount: 1_000_000,
        };
        self.single(out, sender, action)?;
        self.app = Some(app);
        Ok(())
    }

    // A payment.
    fn pay(&mut self, out: &mut Vec<Made>, hand: &Hand) -> Result<(), AllocError>
        requires count { self.old.count + 1 < 2 ^ 64 }
        requires small { hand.now.value < 1000 }
        ensures made { OnOk result (out.new.items ≡ out.old.items ++ (paid self.old hand.now).0) }
        ensures state { OnOk result (self.new ≡ (paid self.old hand.now).1) }
        ensures count { self.new.count ≤ self.old.count + 1 }
    {
        let action = Action::Pay {
            receiver: hand.receiver,
            amount: 1_000 + hand.value,
        };
        self.single(out, hand.sender, action)
    }

    // An opt-in to the asset created last; a payment where there is none.
    fn opt_in(&mut self, out: &mut Vec<Made>, hand: &Hand) -> Result<(), AllocError>
        requires count { self.old.count + 1 < 2 ^ 64 }
        requires small { hand.now.value < 1000 }
        ensures made { OnOk result (out.new.items ≡ out.old.items ++ (opted self.old.asset self.old hand.now).0) }
        ensures state { OnOk result (self.new ≡ (opted self.old.asset self.old hand.now).1) }
        ensures count { self.new.count ≤ self.old.count + 1 }
    {
        match self.asset {
            None => self.pay(out, hand),
            Some(asset) => self.single(out, hand.sender, Action::OptIn { asset }),
        }
    }

    // A registration of keys, or of none.
    fn register(&mut self, out: &mut Vec<Made>, hand: &Hand) -> Result<(), AllocError>
        requires { self.old.count + 1 < 2 ^ 64 }
        ensures made { OnOk result (out.new.items ≡ out.old.items ++ (registered self.old hand.now).0) }
        ensures state { OnOk result (self.new ≡ (registered self.old hand.now).1) }
        ensures count { self.new.count ≤ self.old.count + 1 }
    {
        if hand.value % 2 == 0 {
            return self.single(out, hand.sender, Action::GoOnline);
        }
        self.single(out, hand.sender, Action::GoOffline)
    }

    // A call of the application; its creation where there is none.
    fn call(&mut self, out: &mut Vec<Made>, hand: &Hand) -> Result<(), AllocError>
        requires { self.old.count + 2 < 2 ^ 64 }
        ensures made { OnOk result (out.new.items ≡ out.old.items ++ (called self.old.app self.old hand.now).0) }
        ensures state { OnOk result (self.new ≡ (called self.old.app self.old hand.now).1) }
        ensures count { self.new.count ≤ self.old.count + 2 }
    {
        match self.app {
            None => self.create_app(out, hand.sender),
            Some(app) => {
                let name = hand.value % 16;
                self.single(out, hand.sender, Action::PutBox { app, name })
            }
        }
    }

    // What a turn makes of what it drew.
    fn act(&mut self, out: &mut Vec<Made>, hand: &Hand) -> Result<(), AllocError>
        requires count { self.old.count + 2 < 2 ^ 64 }
        requires small { hand.now.value < 1000 }
        ensures made { OnOk result (out.new.items ≡ out.old.items ++ (act self.old hand.now).0) }
        ensures state { OnOk result (self.new ≡ (act self.old hand.now).1) }
        ensures count { self.new.count ≤ self.old.count + 2 }
    {
        if hand.kind < 4 {
            return self.pay(out, hand);
        }
        if hand.kind == 4 {
            return self.create_asset(out, hand.sender);
        }
        if hand.kind == 5 {
            return self.opt_in(out, hand);
        }
        if hand.kind == 6 {
            return self.register(out, hand);
        }
        self.call(out, hand)
    }

    // One turn.
    fn turn(&mut self, out: &mut Vec<Made>) -> Result<(), AllocError>
        requires { self.old.count + 2 < 2 ^ 64 }
        ensures made { OnOk result (out.new.items ≡ out.old.items ++ (turn self.old).0) }
        ensures state { OnOk result (self.new ≡ (turn self.old).1) }
        ensures count { self.new.count ≤ self.old.count + 2 }
    {
        let hand = self.hand();
        self.act(out, &hand)
    }

    // So many turns.
    fn turns(&mut self, n: u64, out: &mut Vec<Made>) -> Result<(), AllocError>
        requires { self.old.count + 2 * n < 2 ^ 64 }
        ensures made { OnOk result (out.new.items ≡ out.old.items ++ (turns n self.old).0) }
        ensures state { OnOk result (self.new ≡ (turns n self.old).1) }
        ensures count { self.new.count ≤ self.old.count + 2 * n }
    {
        for _ in 0..n {
            self.turn(out)?;
        }
        Ok(())
    }

    /// The transactions of the next block.
    pub(crate) fn block(&mut self, alloc: Global) -> Result<Vec<Made>, AllocError>
        requires { self.old.count + 8 < 2 ^ 64 }
        ensures made { IfOk result (λ made. made.items ≡ (block self.old).0) }
        ensures state { OnOk result (self.new ≡ (block self.old).1) }
        ensures count { self.new.count ≤ self.old.count + 8 }
    {
        let n = 1 + self.draw() % 4;
        let mut made = Vec::new(alloc);
        self.turns(n, &mut made)?;
        Ok(made)
    }
}
