//! Answers of each kind, with everything there and with what may be left out left out.
ghost use Rattle.std.specs.Prelude.{◌≡◌};
ghost use Rattle.al_answers.specs.Answers.{IsSound};

use al_answers::{Answer, ErrorName, More, answer_bytes};
use al_base::{Address, AssetParams, Bytes, Hash, Status};
use al_block::Field;
use al_rewards::{Count, Totals};
use al_rows::{AccountRow, AppParams, AppRow, AssetRow, Holding, Local};
use std::alloc::{AllocError, Global};

/// The bytes of answers, one by one.
pub type Texts = Vec<Vec<u8>>;

const NOBODY: Address = Address([0; 32]);

const LAST: Hash = [
    127, 36, 182, 55, 156, 136, 223, 171, 134, 212, 229, 228, 15, 144, 151, 166, 100, 39, 59, 222,
    119, 1, 208, 40, 69, 234, 219, 50, 105, 152, 224, 244,
];

const KEPT: Hash = [
    138, 69, 88, 249, 24, 175, 13, 169, 211, 90, 179, 98, 124, 90, 61, 142, 39, 119, 220, 105, 3,
    147, 24, 229, 81, 82, 209, 134, 203, 142, 17, 174,
];

const NAMES: [ErrorName; 29] = [
    ErrorName::BadHead,
    ErrorName::BadLength,
    ErrorName::Coding,
    ErrorName::TooLarge,
    ErrorName::NoRoute,
    ErrorName::Method,
    ErrorName::BadAddress,
    ErrorName::BadId,
    ErrorName::BadBox,
    ErrorName::BadQuery,
    ErrorName::Truncated,
    ErrorName::Malformed,
    ErrorName::Trailing,
    ErrorName::Field,
    ErrorName::Range,
    ErrorName::NoRow,
    ErrorName::TooNew,
    ErrorName::WrongRound,
    ErrorName::Fork,
    ErrorName::WrongPrev,
    ErrorName::BelowFloor,
    ErrorName::BelowLookback,
    ErrorName::Broken,
    ErrorName::Header,
    ErrorName::PoolShort,
    ErrorName::Expired,
    ErrorName::KeeperFault,
    ErrorName::BlockFault,
    ErrorName::Memory,
];

const FIELDS: [Field; 12] = [
    Field::Rnd,
    Field::Prev,
    Field::Gh,
    Field::Ts,
    Field::Fees,
    Field::Rwd,
    Field::Rate,
    Field::Rwcalr,
    Field::Frac,
    Field::Earn,
    Field::Txn,
    Field::Tc,
];

/// The bytes of one answer.
pub fn text_of(alloc: Global, answer: &Answer) -> Result<Vec<u8>, AllocError>
    requires { IsSound answer.now }
{
    let mut out = Vec::new(alloc);
    answer_bytes(alloc, answer, &mut out)?;
    Ok(out)
}

fn push(alloc: Global, texts: &mut Texts, answer: &Answer) -> Result<(), AllocError>
    requires { IsSound answer.now }
{
    texts.push(text_of(alloc, answer)?)?;
    Ok(())
}

fn push_taken(alloc: Global, texts: &mut Texts) -> Result<(), AllocError> {
    push(alloc, texts, &Answer::Taken { front: 0, round: 0 })?;
    push(alloc, texts, &Answer::Taken { front: 1, round: 1 })
}

fn push_bare_accounts(alloc: Global, texts: &mut Texts) -> Result<(), AllocError> {
    let apart = AccountRow {
        status: Status::NotParticipating,
        ..AccountRow::none()
    };
    push(
        alloc,
        texts,
        &Answer::Account {
            front: 8,
            round: 0,
            level: 0,
            row: apart,
        },
    )?;
    let voter = AccountRow {
        status: Status::Online,
        ..AccountRow::none()
    };
    push(
        alloc,
        texts,
        &Answer::Account {
            front: 1,
            round: 0,
            level: 7,
            row: voter,
        },
    )
}

fn push_full_accounts(alloc: Global, texts: &mut Texts) -> Result<(), AllocError> {
    let full = AccountRow {
        status: Status::Online,
        balance: 5_000_000,
        base: 1,
        auth: Address([0x16; 32]),
        vote: [7; 32],
        selection: [8; 32],
        sprf: [9; 64],
        first: 1,
        last: 30,
        dilution: 10,
        assets_held: 4,
        assets_created: 3,
        apps_created: 1,
        apps_opted: 2,
        extra_pages: 8,
        uints: 9,
        byte_slices: 7,
        boxes: 6,
        box_bytes: 5,
    };
    push(
        alloc,
        texts,
        &Answer::Account {
            front: 9,
            round: 7,
            level: 11,
            row: full,
        },
    )?;
    let offline = AccountRow {
        balance: 999_997_003,
        vote: [7; 32],
        selection: [8; 32],
        last: 30,
        apps_created: 1,
        assets_created: 1,
        assets_held: 1,
        byte_slices: 2,
        uints: 1,
        ..AccountRow::none()
    };
    push(
        alloc,
        texts,
        &Answer::Account {
            front: 8,
            round: 8,
            level: 0,
            row: offline,
        },
    )
}

fn push_asset(
    alloc: Global,
    texts: &mut Texts,
    front: u64,
    round: u64,
    row: AssetRow,
) -> Result<(), AllocError> {
    push(alloc, texts, &Answer::Asset { front, round, row })
}

// The parameters of an asset, all of which are zero.
fn no_params(alloc: Global) -> AssetParams {
    AssetParams {
        total: 0,
        decimals: 0,
        default_frozen: false,
        unit: Bytes::from_vec(Vec::new(alloc)),
        name: Bytes::from_vec(Vec::new(alloc)),
        url: Bytes::from_vec(Vec::new(alloc)),
        meta: [0; 32],
        manager: NOBODY,
        reserve: NOBODY,
        freeze: NOBODY,
        clawback: NOBODY,
    }
}

fn some_params(alloc: Global) -> Result<AssetParams, AllocError> {
    Ok(AssetParams {
        total: u64::MAX,
        name: Bytes::of(alloc, &[b'n'; 32])?,
        url: Bytes::of(alloc, &[b'u'; 96])?,
        manager: Address([0x15; 32]),
        reserve: Address([0x15; 32]),
        freeze: Address([0x14; 32]),
        ..no_params(alloc)
    })
}

// The parameters of an asset, none of which is zero.
fn all_params(alloc: Global) -> Result<AssetParams, AllocError> {
    Ok(AssetParams {
        total: 1_000,
        decimals: 6,
        default_frozen: true,
        unit: Bytes::of(alloc, b"\0")?,
        name: Bytes::of(alloc, b"name")?,
        url: Bytes::of(alloc, b"/x")?,
        meta: [7; 32],
        manager: Address([0x15; 32]),
        reserve: Address([0x16; 32]),
        freeze: Address([0x14; 32]),
        clawback: Address([0x11; 32]),
    })
}

fn held(amount: u64, frozen: bool) -> Option<Holding> {
    Some(Holding { amount, frozen })
}

fn asset_row(params: Option<AssetParams>, holding: Option<Holding>) -> AssetRow {
    AssetRow { params, holding }
}

fn push_assets(alloc: Global, texts: &mut Texts) -> Result<(), AllocError> {
    push_asset(alloc, texts, 1, 1, asset_row(None, None))?;
    push_asset(alloc, texts, 4, 4, asset_row(None, held(0, false)))?;
    push_asset(alloc, texts, 2, 1, asset_row(Some(no_params(alloc)), None))?;
    push_asset(
        alloc,
        texts,
        12,
        12,
        asset_row(Some(some_params(alloc)?), held(u64::MAX, true)),
    )?;
    push_asset(
        alloc,
        texts,
        3,
        2,
        asset_row(Some(all_params(alloc)?), held(1, true)),
    )
}

fn push_app(
    alloc: Global,
    texts: &mut Texts,
    front: u64,
    round: u64,
    row: AppRow,
) -> Result<(), AllocError> {
    push(alloc, texts, &Answer::App { front, round, row })
}

// The parameters of an application, all of which are zero.
fn no_app_params(alloc: Global) -> AppParams {
    AppParams {
        global_uints: 0,
        global_slices: 0,
        local_uints: 0,
        local_slices: 0,
        extra_pages: 0,
        state: Bytes::from_vec(Vec::new(alloc)),
    }
}

fn bare_app(alloc: Global) -> AppRow {
    AppRow {
        params: Some(no_app_params(alloc)),
        local: Some(Local {
            uints: 0,
            slices: 0,
            state: Bytes::from_vec(Vec::new(alloc)),
        }),
    }
}

fn created_app(alloc: Global) -> AppRow {
    AppRow {
        params: Some(AppParams {
            global_uints: 1,
            global_slices: 2,
            local_uints: 1,
            ..no_app_params(alloc)
        }),
        local: None,
    }
}

fn full_app(alloc: Global) -> Result<AppRow, AllocError> {
    let params = AppParams {
        global_uints: 5,
        global_slices: 4,
        local_uints: 2,
        local_slices: 1,
        extra_pages: 3,
        state: Bytes::of(alloc, b"a")?,
    };
    let local = Local {
        uints: 2,
        slices: 1,
        state: Bytes::of(alloc, b"\x00\xff")?,
    };
    Ok(AppRow {
        params: Some(params),
        local: Some(local),
    })
}

fn push_apps(alloc: Global, texts: &mut Texts) -> Result<(), AllocError> {
    let none = AppRow {
        params: None,
        local: None,
    };
    push_app(alloc, texts, 1, 0, none)?;
    push_app(alloc, texts, 1, 1, bare_app(alloc))?;
    push_app(alloc, texts, 5, 5, created_app(alloc))?;
    push_app(alloc, texts, 6, 6, full_app(alloc)?)
}

fn push_box(
    alloc: Global,
    texts: &mut Texts,
    front: u64,
    round: u64,
    value: &[u8],
) -> Result<(), AllocError> {
    let value = Bytes::of(alloc, value)?;
    push(
        alloc,
        texts,
        &Answer::BoxOf {
            front,
            round,
            value,
        },
    )
}

fn push_values(alloc: Global, texts: &mut Texts) -> Result<(), AllocError> {
    push_box(alloc, texts, 2, 2, b"")?;
    push_box(alloc, texts, 2, 1, b"\x00\xab\xff")?;
    push(
        alloc,
        texts,
        &Answer::Creator {
            front: 12,
            round: 12,
            address: Address([0x11; 32]),
        },
    )?;
    push(
        alloc,
        texts,
        &Answer::Creator {
            front: 0,
            round: 0,
            address: NOBODY,
        },
    )
}

fn push_online(alloc: Global, texts: &mut Texts) -> Result<(), AllocError> {
    push(
        alloc,
        texts,
        &Answer::Online {
            front: 0,
            round: 0,
            stake: 0,
            first: 0,
            last: 0,
            dilution: 0,
        },
    )?;
    push(
        alloc,
        texts,
        &Answer::Online {
            front: 6,
            round: 5,
            stake: 1_000_000_000_000,
            first: 1,
            last: 3_000_000,
            dilution: 100,
        },
    )
}

fn push_circulation(alloc: Global, texts: &mut Texts) -> Result<(), AllocError> {
    push(
        alloc,
        texts,
        &Answer::Circulation {
            front: 3,
            round: 3,
            vote: 30,
            money: 1_002_298_591_002,
        },
    )?;
    push(
        alloc,
        texts,
        &Answer::Circulation {
            front: 0,
            round: 0,
            vote: 0,
            money: 0,
        },
    )
}

fn money(money: u64) -> Count
    ensures { result.money ≡ money }
{
    Count { money, units: 0 }
}

fn push_supply(alloc: Global, texts: &mut Texts) -> Result<(), AllocError> {
    let totals = Totals {
        level: 7,
        online: money(1_002_199_396_002),
        offline: money(2_002_598_402),
        apart: money(49_999_810_405_602),
    };
    push(
        alloc,
        texts,
        &Answer::Supply {
            front: 2,
            round: 2,
            totals,
        },
    )?;
    let none = Totals {
        level: 0,
        online: money(0),
        offline: money(0),
        apart: money(0),
    };
    push(
        alloc,
        texts,
        &Answer::Supply {
            front: 0,
            round: 0,
            totals: none,
        },
    )?;
    let most = Totals {
        level: 0,
        online: money(u64::MAX - 3),
        offline: money(2),
        apart: money(1),
    };
    push(
        alloc,
        texts,
        &Answer::Supply {
            front: 1,
            round: 0,
            totals: most,
        },
    )
}

fn push_standing(alloc: Global, texts: &mut Texts) -> Result<(), AllocError> {
    push(
        alloc,
        texts,
        &Answer::Standing {
            front: 4,
            floor: 0,
            hash: LAST,
        },
    )?;
    push(
        alloc,
        texts,
        &Answer::Standing {
            front: 0,
            floor: 0,
            hash: [0; 32],
        },
    )
}

fn push_refused(
    alloc: Global,
    texts: &mut Texts,
    error: ErrorName,
    more: More,
) -> Result<(), AllocError> {
    push(alloc, texts, &Answer::refused(error, more))
}

fn push_names(alloc: Global, texts: &mut Texts) -> Result<(), AllocError> {
    for name in NAMES {
        push_refused(alloc, texts, name, More::nothing())?;
    }
    Ok(())
}

fn push_fields(alloc: Global, texts: &mut Texts) -> Result<(), AllocError> {
    for field in FIELDS {
        let more = More {
            front: Some(0),
            field: Some(field),
            ..More::nothing()
        };
        push_refused(alloc, texts, ErrorName::Header, more)?;
    }
    Ok(())
}

fn push_reasons(alloc: Global, texts: &mut Texts) -> Result<(), AllocError> {
    let broken = More {
        front: Some(0),
        place: Some(1),
        rule: Some(40),
        has: Some(99_000),
        needs: Some(300_000),
        who: Some(Address([0x18; 32])),
        ..More::nothing()
    };
    push_refused(alloc, texts, ErrorName::Broken, broken)?;
    let expired = More {
        front: Some(0),
        place: Some(0),
        ..More::nothing()
    };
    push_refused(alloc, texts, ErrorName::Expired, expired)?;
    push_refused(alloc, texts, ErrorName::Fork, More::kept(3, KEPT))?;
    push_refused(alloc, texts, ErrorName::Malformed, More::at_byte(131))?;
    let name = Bytes::of(alloc, b"frac")?;
    push_refused(alloc, texts, ErrorName::Field, More::named(name))?;
    let empty = Bytes::of(alloc, b"")?;
    push_refused(alloc, texts, ErrorName::Range, More::named(empty))
}

fn push_everything(alloc: Global, texts: &mut Texts) -> Result<(), AllocError> {
    let more = More {
        front: Some(3),
        round: Some(9),
        floor: Some(2),
        next: Some(7),
        at: Some(1),
        place: Some(8),
        rule: Some(10),
        has: Some(4),
        needs: Some(6),
        until: Some(11),
        id: Some(5),
        who: Some(Address([1; 32])),
        kept: Some([1; 32]),
        name: Some(Bytes::of(alloc, b"\xff")?),
        field: Some(Field::Rnd),
    };
    push_refused(alloc, texts, ErrorName::Broken, more)
}

/// The bytes of each answer.
pub fn texts(alloc: Global) -> Result<Texts, AllocError> {
    let mut texts = Vec::new(alloc);
    push_taken(alloc, &mut texts)?;
    push_bare_accounts(alloc, &mut texts)?;
    push_full_accounts(alloc, &mut texts)?;
    push_assets(alloc, &mut texts)?;
    push_apps(alloc, &mut texts)?;
    push_values(alloc, &mut texts)?;
    push_online(alloc, &mut texts)?;
    push_circulation(alloc, &mut texts)?;
    push_supply(alloc, &mut texts)?;
    push_standing(alloc, &mut texts)?;
    push_names(alloc, &mut texts)?;
    push_fields(alloc, &mut texts)?;
    push_reasons(alloc, &mut texts)?;
    push_everything(alloc, &mut texts)?;
    Ok(texts)
}
