//! The rules that refuse, with what they keep.
ghost use Rattle.std.specs.Prelude.{◌≡◌, ℕ};
ghost use Rattle.al_overlay.specs.Rules.{held_until, of_account, of_id, plain_rule, too_few, too_little};

use al_base::Address;
use std::alloc::AllocError;

/// A broken rule. A kept value is there exactly where the rule names it.
#[derive(Clone, Copy, Debug, PartialEq, Eq)]
pub struct Rule {
    /// Its number.
    pub number: u64,
    /// What there is, in microAlgos or base units.
    pub has: Option<u64>,
    /// What is needed, in the same units.
    pub needs: Option<u64>,
    /// The last round that a lease is held.
    pub until: Option<u64>,
    /// The asset or application.
    pub id: Option<u64>,
    /// The account.
    pub who: Option<Address>,
}

/// Why a call of a work stops.
#[derive(Drop)]
pub enum Stop<F> {
    /// A rule is broken.
    Rule(Rule),
    /// The view has failed.
    View(F),
    /// There is no memory.
    Memory,
}

impl<F: Drop> From<AllocError> for Stop<F> {
    ghost use Rattle.std.specs.Prelude.{◌≡◌};
    ghost use Rattle.al_overlay.specs.declared.rule.Stop.TheVariants.{Memory};

    ghost from_gives = { λ _ e. e ≡ Memory };

    fn from(_: AllocError) -> Stop<F> {
        Stop::Memory
    }
}

impl Rule {
    /// A rule that keeps nothing.
    pub fn plain(number: u64) -> Rule
        ensures { result ≡ plain_rule number }
    {
        Rule {
            number,
            has: None,
            needs: None,
            until: None,
            id: None,
            who: None,
        }
    }

    /// A rule that an account with too little breaks.
    pub fn too_little(number: u64, has: u64, needs: u64, who: &Address) -> Rule
        ensures { result ≡ too_little number has needs who.now }
    {
        Rule {
            has: Some(has),
            needs: Some(needs),
            who: Some(*who),
            ..Rule::plain(number)
        }
    }

    /// A rule that too little breaks.
    pub fn too_few(number: u64, has: u64, needs: u64) -> Rule
        ensures { result ≡ too_few number has needs }
    {
        Rule {
            has: Some(has),
            needs: Some(needs),
            ..Rule::plain(number)
        }
    }

    /// A rule that an account breaks.
    pub fn of_account(number: u64, who: &Address) -> Rule
        ensures { result ≡ of_account number who.now }
    {
        Rule {
            who: Some(*who),
            ..Rule::plain(number)
        }
    }

    /// A rule that an asset or an application breaks.
    pub fn of_id(number: u64, id: u64) -> Rule
        ensures { result ≡ of_id number id }
    {
        Rule {
            id: Some(id),
            ..Rule::plain(number)
        }
    }

    /// A rule that holds until a round.
    pub fn held_until(number: u64, until: u64) -> Rule
        ensures { result ≡ held_until number until }
    {
        Rule {
            until: Some(until),
            ..Rule::plain(number)
        }
    }
}
