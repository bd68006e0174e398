//! Answers.
ghost use Rattle.std.specs.Prelude.{◌≡◌};
ghost use Rattle.al_answers.specs.Answers.{error_text, nothing};
ghost use Rattle.al_answers.specs.HeaderFields.{field_text};

use al_base::{Address, Bytes, Hash};
use al_block::Field;
use al_rewards::Totals;
use al_rows::{AccountRow, AppRow, AssetRow};

/// What an answer is called that is no 200.
#[derive(Clone, Copy, Debug, PartialEq, Eq)]
pub enum ErrorName {
    BadHead,
    BadLength,
    Coding,
    TooLarge,
    NoRoute,
    Method,
    BadAddress,
    BadId,
    BadBox,
    BadQuery,
    Truncated,
    Malformed,
    Trailing,
    Field,
    Range,
    NoRow,
    TooNew,
    WrongRound,
    Fork,
    WrongPrev,
    BelowFloor,
    BelowLookback,
    Broken,
    Header,
    PoolShort,
    Expired,
    KeeperFault,
    BlockFault,
    Memory,
}

impl ErrorName {
    /// Its text under `error`.
    #[tactic(auto, unfolding(crate::specs::Answers::error_text))]
    pub fn text(self) -> &'static str
        ensures { result.now ≡ error_text self }
    {
        match self {
            ErrorName::BadHead => "BadHead",
            ErrorName::BadLength => "BadLength",
            ErrorName::Coding => "Coding",
            ErrorName::TooLarge => "TooLarge",
            ErrorName::NoRoute => "NoRoute",
            ErrorName::Method => "Method",
            ErrorName::BadAddress => "BadAddress",
            ErrorName::BadId => "BadId",
            ErrorName::BadBox => "BadBox",
            ErrorName::BadQuery => "BadQuery",
            ErrorName::Truncated => "Truncated",
            ErrorName::Malformed => "Malformed",
            ErrorName::Trailing => "Trailing",
            ErrorName::Field => "Field",
            ErrorName::Range => "Range",
            ErrorName::NoRow => "NoRow",
            ErrorName::TooNew => "TooNew",
            ErrorName::WrongRound => "WrongRound",
            ErrorName::Fork => "Fork",
            ErrorName::WrongPrev => "WrongPrev",
            ErrorName::BelowFloor => "BelowFloor",
            ErrorName::BelowLookback => "BelowLookback",
            ErrorName::Broken => "Broken",
            ErrorName::Header => "Header",
            ErrorName::PoolShort => "PoolShort",
            ErrorName::Expired => "Expired",
            ErrorName::KeeperFault => "KeeperFault",
            ErrorName::BlockFault => "BlockFault",
            ErrorName::Memory => "Memory",
        }
    }
}

/// The name of a header field in the header's record.
pub(crate) fn field_text(field: Field) -> &'static str
    ensures { result.now ≡ field_text field }
{
    match field {
        Field::Rnd => "rnd",
        Field::Prev => "prev",
        Field::Gh => "gh",
        Field::Ts => "ts",
        Field::Fees => "fees",
        Field::Rwd => "rwd",
        Field::Rate => "rate",
        Field::Rwcalr => "rwcalr",
        Field::Frac => "frac",
        Field::Earn => "earn",
        Field::Txn => "txn",
        Field::Tc => "tc",
    }
}

/// What a refusal shows beside its name. Each value that is there is printed under its own name.
#[derive(Debug, Drop)]
pub struct More {
    pub front: Option<u64>,
    pub round: Option<u64>,
    pub floor: Option<u64>,
    pub next: Option<u64>,
    pub at: Option<u64>,
    pub place: Option<u64>,
    pub rule: Option<u64>,
    pub has: Option<u64>,
    pub needs: Option<u64>,
    pub until: Option<u64>,
    pub id: Option<u64>,
    pub who: Option<Address>,
    pub kept: Option<Hash>,
    pub name: Option<Bytes>,
    pub field: Option<Field>,
}

impl More {
    /// Nothing beside the name.
    pub fn nothing() -> More
        ensures { result ≡ nothing }
    {
        More {
            front: None,
            round: None,
            floor: None,
            next: None,
            at: None,
            place: None,
            rule: None,
            has: None,
            needs: None,
            until: None,
            id: None,
            who: None,
            kept: None,
            name: None,
            field: None,
        }
    }
}

/// An answer to a request.
#[derive(Debug, Drop)]
pub enum Answer {
    /// A posted block stands in the chain.
    Taken {
        front: u64,
        round: u64,
    },
    /// The account after a round, at that round's reward level.
    Account {
        front: u64,
        round: u64,
        level: u64,
        row: AccountRow,
    },
    /// What the account has of an asset after a round: its holding, its parameters, or both.
    Asset {
        front: u64,
        round: u64,
        row: AssetRow,
    },
    /// What the account has of an application after a round: its local state, its parameters, or
    /// both.
    App {
        front: u64,
        round: u64,
        row: AppRow,
    },
    /// The value of a box after a round.
    BoxOf {
        front: u64,
        round: u64,
        value: Bytes,
    },
    /// The creator of an asset or an application after a round.
    Creator {
        front: u64,
        round: u64,
        address: Address,
    },
    /// The stake of an account that was online after a round, in microAlgos, the rounds in which
    /// its keys vote, and the dilution of these keys.
    Online {
        front: u64,
        round: u64,
        stake: u64,
        first: u64,
        last: u64,
        dilution: u64,
    },
    /// The stake after a round that may take part in the vote of another, in microAlgos.
    Circulation {
        front: u64,
        round: u64,
        vote: u64,
        money: u64,
    },
    /// The microAlgos of all accounts after a round, by their status.
    Supply {
        front: u64,
        round: u64,
        totals: Totals,
    },
    /// The last round, the first round that can be asked for, and the hash of the last block's
    /// header.
    Standing {
        front: u64,
        floor: u64,
        hash: Hash,
    },
    /// A status other than 200, its name, and what it shows.
    Refused {
        status: u64,
        error: ErrorName,
        more: More,
    },
}
